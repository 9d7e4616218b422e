use super::not_run;
use crate::arguments::{matches_of, statuses_of};
use crate::invocation::{Invocation, invocation_of};
use crate::serve_arguments::service_of;
use clap::error::Error;
use command_line::{refused, unreadable};
use shared_capture::Kind;
use std::alloc::{AllocError, Global};
use std::cell::RefCell;
use std::fmt::Display;
use std::io::{self, ErrorKind};
use std::process::{ExitCode, Termination};
use std::test::Fail;
use world_actions::Refusal;
use world_folder::{Ending, Exit, Failure, OnLoss, ServerEnding, Statuses, Unwell};
use world_server::{Clients, Every};

// Keeps all that is printed.
#[derive(Drop)]
struct Desk {
    alloc: Global,
    output: RefCell<String>,
    errors: RefCell<String>,
}

impl Desk {
    fn new(alloc: Global) -> Self {
        Desk {
            alloc,
            output: RefCell::new(String::new(alloc)),
            errors: RefCell::new(String::new(alloc)),
        }
    }

    // Adds a text and its end.
    fn keep<D: Display + Drop>(
        &self,
        kept: &RefCell<String>,
        text: D,
        end: &str,
    ) -> io::Result<()> {
        let text = text.to_string(self.alloc)?;
        let Ok(mut kept) = kept.try_borrow_mut() else {
            return Err(io::Error::from(ErrorKind::ResourceBusy));
        };
        kept.push_str(text.as_str())?;
        kept.push_str(end)?;
        Ok(())
    }

    // The text that was printed, and the text that was printed as errors.
    fn printed(self) -> (String, String) {
        (self.output.into_inner(), self.errors.into_inner())
    }
}

impl Print for Desk {
    fn print<D: Display + Drop>(&self, text: D) -> io::Result<()> {
        self.keep(&self.output, text, "")
    }

    fn println<D: Display + Drop>(&self, text: D) -> io::Result<()> {
        self.keep(&self.output, text, "\n")
    }

    fn write_all(&self, bytes: &[u8]) -> io::Result<()> {
        let Ok(text) = str::from_utf8(bytes) else {
            return Err(io::Error::from(ErrorKind::InvalidData));
        };
        self.keep(&self.output, text, "")
    }
}

impl Eprint for Desk {
    fn eprint<D: Display + Drop>(&self, text: D) -> io::Result<()> {
        self.keep(&self.errors, text, "")
    }

    fn eprintln<D: Display + Drop>(&self, text: D) -> io::Result<()> {
        self.keep(&self.errors, text, "\n")
    }
}

// The status that an ending reports, and what it prints as errors.
fn reported(alloc: Global, ending: Ending, statuses: Statuses) -> (ExitCode, String) {
    let desk = Desk::new(alloc);
    let status = Exit { ending, statuses }.report(&desk);
    let (_, errors) = desk.printed();
    (status, errors)
}

#[test]
fn faults_are_reported_by_code_and_in_words(rt: HostRuntime) {
    for (refusal, statuses, code, text) in [
        (
            Refusal::BadCell,
            Statuses::Detailed,
            1,
            "fault 1\nworldd: there is no such cell: cells are numbered from 0 to the number of cells less 1\n",
        ),
        (
            Refusal::NoMemory,
            Statuses::Plain,
            1,
            "fault 17\nworldd: there is no memory left\n",
        ),
        (
            Refusal::NoMemory,
            Statuses::Detailed,
            13,
            "fault 17\nworldd: there is no memory left\n",
        ),
        (
            Refusal::Device,
            Statuses::Detailed,
            1,
            "fault 18\nworldd: the device failed\n",
        ),
    ] {
        let (status, errors) = reported(
            rt.alloc(),
            Ending::Failed(Failure::Refused(refusal)),
            statuses,
        );
        assert!(rt;
            status == ExitCode::from(code) && errors.as_str() == text,
            "{errors}"
        );
    }
}

#[test]
fn what_is_down_is_reported_by_the_status(rt: HostRuntime) {
    for (ending, statuses, code, text) in [
        (
            ServerEnding::ListenerFailed,
            Statuses::Plain,
            1,
            "fault 18\nworldd: the listener failed\n",
        ),
        (ServerEnding::ListenerFailed, Statuses::Detailed, 10, ""),
        (ServerEnding::ImagesDown, Statuses::Plain, 11, ""),
        (ServerEnding::LogDown, Statuses::Plain, 12, ""),
    ] {
        let (status, errors) = reported(rt.alloc(), Ending::Stopped(ending), statuses);
        assert!(rt;
            status == ExitCode::from(code) && errors.as_str() == text,
            "{errors}"
        );
    }
}

#[test]
fn a_world_that_is_not_well_has_a_status_for_it(rt: HostRuntime) {
    for (why, code) in [
        (Unwell::ImagesDown, 11),
        (Unwell::LogDown, 12),
        (Unwell::NotServed, 15),
        (Unwell::Hangs, 16),
    ] {
        let (status, errors) = reported(rt.alloc(), Ending::Unwell(why), Statuses::Plain);
        assert!(rt;
            status == ExitCode::from(code) && errors.is_empty(),
            "{errors}"
        );
    }
}

// The command line's choice about a loss, if its command reads one, and its exit statuses.
fn on_loss_and_statuses(alloc: Global, line: &[&str]) -> Result<(Option<OnLoss>, Statuses), Fail> {
    let words = words(alloc, line)?;
    let matches = matches_of(alloc, &words)?;
    let on_loss = match (service_of(&matches), invocation_of(&matches)) {
        (Some(service), _) => Some(service.on_loss),
        (None, Some(Invocation::Recover { on_loss, .. })) => Some(on_loss),
        (None, Some(Invocation::Status { on_loss, .. })) => Some(on_loss),
        (None, Some(Invocation::Inspect { on_loss, .. })) => Some(on_loss),
        (None, Some(Invocation::BackUp { on_loss, .. })) => Some(on_loss),
        _ => None,
    };
    Ok((on_loss, statuses_of(&matches)))
}

const STATUSES_OF_STEPS: [&str; 4] = ["worldd", "steps", "--statuses", "detailed"];

const RECOVER: [&str; 7] = [
    "worldd",
    "recover",
    "--dir",
    "d",
    "--refuse-losses",
    "--statuses",
    "detailed",
];

const BACKUP: [&str; 7] = [
    "worldd",
    "backup",
    "--dir",
    "d",
    "--to",
    "e",
    "--refuse-losses",
];

#[test]
fn flags_on_losses_and_statuses_are_read(rt: HostRuntime) -> Result<(), Fail> {
    for (line, on_loss, statuses) in [
        (&RECOVER[..4], Some(OnLoss::Warn), Statuses::Plain),
        (&RECOVER[..5], Some(OnLoss::Refuse), Statuses::Plain),
        (&RECOVER[..], Some(OnLoss::Refuse), Statuses::Detailed),
        (&BACKUP[..6], Some(OnLoss::Warn), Statuses::Plain),
        (&BACKUP[..], Some(OnLoss::Refuse), Statuses::Plain),
        (&LEAST[..], Some(OnLoss::Warn), Statuses::Plain),
        (&STATUSES_OF_STEPS[..2], None, Statuses::Plain),
        (&STATUSES_OF_STEPS[..], None, Statuses::Detailed),
    ] {
        let asked = on_loss_and_statuses(rt.alloc(), line)?;
        assert_eq!(rt; asked, (on_loss, statuses));
    }
    Ok(())
}

// The text for words that can't be read, and whether they end as mistaken.
fn unread(alloc: Global) -> (bool, String) {
    let desk = Desk::new(alloc);
    let ending = not_run(unreadable(&desk, &io::Error::from(ErrorKind::InvalidData)));
    let (_, errors) = desk.printed();
    (matches!(ending, Ending::Mistaken), errors)
}

#[test]
fn unreadable_words_are_mistaken(rt: HostRuntime) {
    let (is_mistaken, errors) = unread(rt.alloc());
    let text = "error: a word of the command line isn't UTF-8: a path has to be\n";
    assert!(rt; is_mistaken && errors.as_str() == text, "{errors}");
}

// How a program ends that has no memory for its words or their meaning, and what it prints.
fn without_memory(alloc: Global) -> ([Ending; 2], String) {
    let desk = Desk::new(alloc);
    let in_line = not_run(refused(&desk, &Error::from(AllocError)));
    let in_words = not_run(unreadable(&desk, &io::Error::from(AllocError)));
    let (_, errors) = desk.printed();
    ([in_line, in_words], errors)
}

#[test]
fn want_of_memory_is_a_fault(rt: HostRuntime) {
    let (endings, errors) = without_memory(rt.alloc());
    let [in_line, in_words] = &endings;
    assert!(rt; matches!(in_line, Ending::Failed(Failure::Refused(Refusal::NoMemory))));
    assert!(rt;
        matches!(
            in_words,
            Ending::Failed(Failure::Refused(Refusal::NoMemory))
        )
    );
    assert!(rt; errors.is_empty(), "{errors}");
}

// The words of a command line.
fn words(alloc: Global, line: &[&str]) -> Result<Vec<String>, Fail> {
    let mut words = Vec::new(alloc);
    for word in line {
        words.push(String::from_str(alloc, word)?)?;
    }
    Ok(words)
}

// The parts of the service that a command line asks for. They are the folder, whether the method is
// Ping-Pong, the number of ticks and the address as text. Then come the number of clients, their
// seconds of silence, those between two reports and those with a closed door, and whether it ends
// when the log is down.
fn asked(alloc: Global, line: &[&str]) -> Result<Option<Asked>, Fail> {
    let words = words(alloc, line)?;
    let matches = matches_of(alloc, &words)?;
    let Some(service) = service_of(&matches) else {
        return Ok(None);
    };
    let folder = String::from_str(alloc, service.folder)?;
    let is_ping_pong = service.method == Kind::PingPong;
    Ok(Some((
        folder,
        is_ping_pong,
        service.every,
        format!(in alloc; "{:?}", service.address)?,
        service.clients,
        service.idle,
        service.report,
        service.exit_when_closed,
        service.exits_when_log_down,
    )))
}

type Asked = (
    String,
    bool,
    Option<Every>,
    String,
    Clients,
    Option<u32>,
    u32,
    Option<u32>,
    bool,
);

const LEAST: [&str; 10] = [
    "worldd",
    "serve",
    "--dir",
    "world",
    "--method",
    "pingpong",
    "--port",
    "0",
    "--clients",
    "100000",
];

const ALL: [&str; 21] = [
    "worldd",
    "serve",
    "--method",
    "zigzag",
    "--every",
    "65536",
    "--socket",
    "run/world",
    "--socket-mode",
    "0660",
    "--clients",
    "1",
    "--idle",
    "86400",
    "--report",
    "60",
    "--exit-when-log-down",
    "--exit-when-closed",
    "0",
    "--dir",
    "other",
];

#[test]
fn flags_of_serve_are_read(rt: HostRuntime) -> Result<(), Fail> {
    let Some((folder, is_ping_pong, every, address, clients, idle, report, closed, exits)) = asked(
        rt.alloc(),
        &LEAST,
    )?
    else {
        return Err(Fail::new("not understood"));
    };
    assert!(rt; folder.as_str() == "world" && is_ping_pong && !exits);
    assert!(rt; address.as_str() == "Port(0)", "{address}");
    assert_eq!(rt;
        (every, clients, idle, report, closed),
        (None, Clients(100_000), None, 0, None)
    );
    let Some((folder, is_ping_pong, every, address, clients, idle, report, closed, exits)) = asked(
        rt.alloc(),
        &ALL,
    )?
    else {
        return Err(Fail::new("not understood"));
    };
    assert!(rt; folder.as_str() == "other" && !is_ping_pong && exits);
    assert!(rt; address.as_str() == SOCKET_OF_A_GROUP, "{address}");
    assert_eq!(rt;
        (every, clients, idle, report, closed),
        (Some(Every(65_536)), Clients(1), Some(86_400), 60, Some(0))
    );
    Ok(())
}

const SOCKET_OF_A_GROUP: &str = "Socket { path: \"run/world\", mode: Group }";

#[test]
fn one_address_is_wanted(rt: HostRuntime) -> Result<(), Fail> {
    let both = [
        "worldd",
        "serve",
        "--dir",
        "d",
        "--method",
        "zigzag",
        "--clients",
        "1",
        "--port",
        "1",
        "--socket",
        "s",
    ];
    for line in [&both[..8], both.as_slice()] {
        let line = words(rt.alloc(), line)?;
        assert!(rt; matches_of(rt.alloc(), &line).is_err());
    }
    Ok(())
}

#[test]
fn a_number_of_clients_or_the_flag_is_wanted(rt: HostRuntime) -> Result<(), Fail> {
    let both = [
        "worldd",
        "serve",
        "--dir",
        "d",
        "--method",
        "zigzag",
        "--port",
        "1",
        "--unlimited-clients",
        "--clients",
        "1",
    ];
    for line in [&both[..8], both.as_slice()] {
        let line = words(rt.alloc(), line)?;
        assert!(rt; matches_of(rt.alloc(), &line).is_err());
    }
    let Some((_, _, _, _, clients, ..)) = asked(rt.alloc(), &both[..9])? else {
        return Err(Fail::new("not understood"));
    };
    assert_eq!(rt; clients, Clients(4_294_967_295));
    Ok(())
}

#[test]
fn other_commands_do_not_serve(rt: HostRuntime) -> Result<(), Fail> {
    let other = asked(rt.alloc(), &["worldd", "recover", "--dir", "world"])?;
    assert!(rt; other.is_none());
    Ok(())
}

#[test]
fn steps_is_a_command(rt: HostRuntime) -> Result<(), Fail> {
    let line = words(rt.alloc(), &["worldd", "steps"])?;
    let matches = matches_of(rt.alloc(), &line)?;
    assert_eq!(rt; matches.subcommand_name(), Some("steps"));
    Ok(())
}
