use clap::error::Error;
use clap::{ArgMatches, Command};
use std::alloc::Global;

/// The last part of the text of `measures --help`.
const HELP: &str = "\
With no command it prints counts over 65,536 cells, which are the same on each machine: what the takes
of each store hand out in five rounds of one list of moves, and how many bytes a cell needs.";

/// The last part of the text of `measures all --help`.
const ALL_HELP: &str = "\
It takes about ten seconds. A line of times is in nanoseconds, over 65,536 cells: medians of nine
turns of 4,194,304 reads or writes, and of 1,008 marks, each after 1,024 writes to random cells and
less the clock's own time. Each ratio is printed beside its bound. A ratio above its bound doesn't make
the program fail.";

/// The last part of the text of `measures allocations --help`.
const ALLOCATIONS_HELP: &str = "\
It prints each call with its bound on allocations. scripts/count_allocations.py runs it, and counts
the allocations of each call.";

/// Reads the command in these words. An error has clap's text.
pub fn matches_of<'a>(alloc: Global, words: &'a [String]) -> Result<ArgMatches<'a>, Error> {
    let all = Command::new(alloc, "all")
        .about("Measures how fast the stores are on this machine")
        .after_help(ALL_HELP);
    let allocations = Command::new(alloc, "allocations")
        .about("Makes calls, each of whose allocations can be counted from outside")
        .after_help(ALLOCATIONS_HELP);
    Command::new(alloc, "measures")
        .about("Prints what the stores need and how fast they are")
        .after_help(HELP)
        .subcommand(all)?
        .subcommand(allocations)?
        .try_get_matches_from(words)
}
