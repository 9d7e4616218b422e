use clap::error::Error;
use clap::{ArgMatches, Command};
use command_line::{NotRun, refused, unreadable};
use std::alloc::{AllocError, Global};
use std::io;
use std::test::Fail;

// Reads the words for a program with one command.
fn matches_of<'a>(alloc: Global, words: &'a [String]) -> Result<ArgMatches<'a>, Error> {
    let all = Command::new(alloc, "all").about("Does all of it");
    Command::new(alloc, "measures")
        .version("0.1.0")
        .about("Reports how fast it is")
        .subcommand(all)?
        .try_get_matches_from(words)
}

// The words of a command line.
fn words(alloc: Global, line: &[&str]) -> Result<Vec<String>, Fail> {
    let mut words = Vec::new(alloc);
    for word in line {
        words.push(String::from_str(alloc, word)?)?;
    }
    Ok(words)
}

// The reason why a command line starts no work, and the text that says it.
fn not_run(rt: &HostRuntime, line: &[&str]) -> Result<(NotRun, String), Fail> {
    let words = words(rt.alloc(), line)?;
    match matches_of(rt.alloc(), &words) {
        Ok(_) => Err(Fail::new("the line was taken")),
        Err(error) => Ok((refused(rt, &error), error.to_string(rt.alloc())?)),
    }
}

const MISTAKEN: [(&[&str], &str); 2] = [
    (
        &["measures", "al"],
        "error: unrecognized subcommand 'al'\n\n  tip: a similar subcommand exists: 'all'\n\nUsage: measures [COMMAND]\n\nFor more information, try '--help'.\n",
    ),
    (
        &["measures", "all", "extra"],
        "error: unexpected argument 'extra' found\n\nUsage: measures all\n\nFor more information, try '--help'.\n",
    ),
];

#[test]
fn wrong_command_lines_are_mistaken(rt: HostRuntime) -> Result<(), Fail> {
    for (line, wanted) in MISTAKEN {
        let (why, text) = not_run(&rt, line)?;
        assert!(rt;
            matches!(why, NotRun::Mistaken) && text.as_str() == wanted,
            "{text}"
        );
    }
    Ok(())
}

const TOLD: [(&str, &str); 2] = [
    ("--help", "Reports how fast it is"),
    ("--version", "measures 0.1.0"),
];

#[test]
fn help_and_the_version_are_reported(rt: HostRuntime) -> Result<(), Fail> {
    for (flag, start) in TOLD {
        let (why, text) = not_run(&rt, &["measures", flag])?;
        assert!(rt;
            matches!(why, NotRun::HelpPrinted) && text.as_str().starts_with(start),
            "{text}"
        );
    }
    Ok(())
}

#[test]
fn what_the_system_does_not_give(rt: HostRuntime) {
    let invalid = io::Error::from(io::ErrorKind::InvalidData);
    assert!(rt; matches!(unreadable(&rt, &invalid), NotRun::Mistaken));
    let memory = io::Error::from(AllocError);
    assert!(rt; matches!(unreadable(&rt, &memory), NotRun::NoMemory));
    let memory = Error::from(AllocError);
    assert!(rt; matches!(refused(&rt, &memory), NotRun::NoMemory));
}
