use crate::address::Address;
use crate::load::Load;
use clap::error::Error;
use clap::{Arg, ArgAction, ArgGroup, ArgMatches, Command, value_parser};
use command_line::VERSION;
use std::alloc::{AllocError, Global};
use world_actions::CELLS as MOST_CELLS;
use world_ticks::TICK_ACTIONS;

/// The names of the arguments.
const PORT: &str = "port";

const SOCKET: &str = "socket";

const CONNECTIONS: &str = "connections";

const LINES: &str = "lines";

const CELLS: &str = "cells";

const BATCHES: &str = "batches";

const SECONDS: &str = "seconds";

/// The name of the group of the port and the socket.
const ADDRESS: &str = "address";

/// The end of `world_load --help`.
const HELP: &str = "\
Each connection sends a batch, waits for its answer, checks it, and sends the next one.
Each line of a batch sets a cell to a number, both at random: load a world that has
nothing to lose. It ends after S seconds, or once each connection has sent B batches. It
prints ticks and actions a second, and how long batches waited for their answers. A
worldd that serves as many clients ends then too:
  worldd create --dir D --cells 1000
  worldd serve --dir D --method zigzag --every 4096 --port 7070 --clients 50 &
  world_load --port 7070 --connections 50 --cells 1000
A worldd that listens on a socket is loaded by --socket PATH in place of --port P.
Each second it prints on standard error how many ticks were answered. Its status is 0 if
each answer was right; 1 after a fault or a wrong answer, with a line that names it; 2
for a wrong command line.";

/// Reads the words by the command line's grammar. The error has clap's text.
pub fn matches_of<'a>(alloc: Global, words: &'a [String]) -> Result<ArgMatches<'a>, Error> {
    command(alloc)?.try_get_matches_from(words)
}

fn command<'a>(alloc: Global) -> Result<Command<'a>, AllocError> {
    Command::new(alloc, "world_load")
        .version(VERSION)
        .about("Loads a serving worldd, checks its answers, and prints how long they took")
        .after_help(HELP)
        .arg(port_argument(alloc))?
        .arg(socket_argument(alloc))?
        .arg(connections_argument(alloc))?
        .arg(lines_argument(alloc))?
        .arg(cells_argument(alloc))?
        .arg(batches_argument(alloc))?
        .arg(seconds_argument(alloc))?
        .group(address_group(alloc)?)
}

fn port_argument<'a>(alloc: Global) -> Arg<'a> {
    Arg::new(alloc, PORT)
        .long(PORT)
        .value_name("P")
        .value_parser(value_parser!(u16).range(1..))
        .help("The port on 127.0.0.1 that worldd listens on")
}

fn socket_argument<'a>(alloc: Global) -> Arg<'a> {
    Arg::new(alloc, SOCKET)
        .long(SOCKET)
        .value_name("PATH")
        .action(ArgAction::Set)
        .help("The path of the socket that worldd listens on, in place of a port")
}

// Exactly one of the port and the socket is wanted.
fn address_group<'a>(alloc: Global) -> Result<ArgGroup<'a>, AllocError> {
    let group = ArgGroup::new(alloc, ADDRESS).arg(PORT)?.arg(SOCKET)?;
    Ok(group.required(true))
}

fn connections_argument<'a>(alloc: Global) -> Arg<'a> {
    Arg::new(alloc, CONNECTIONS)
        .long(CONNECTIONS)
        .value_name("K")
        .default_value("1")
        .value_parser(value_parser!(u32).range(1..=10_000))
        .help("How many clients there are at once, each with a connection and a thread")
}

fn lines_argument<'a>(alloc: Global) -> Arg<'a> {
    Arg::new(alloc, LINES)
        .long(LINES)
        .value_name("L")
        .default_value("1")
        .value_parser(value_parser!(u32).range(0..=TICK_ACTIONS as i64))
        .help("How many lines a batch has before its end")
}

fn cells_argument<'a>(alloc: Global) -> Arg<'a> {
    Arg::new(alloc, CELLS)
        .long(CELLS)
        .value_name("N")
        .default_value("1")
        .value_parser(value_parser!(u32).range(1..=i64::from(MOST_CELLS)))
        .help("How many cells are set, the first N: the world has as many, or more")
}

fn batches_argument<'a>(alloc: Global) -> Arg<'a> {
    Arg::new(alloc, BATCHES)
        .long(BATCHES)
        .value_name("B")
        .value_parser(value_parser!(u32).range(1..))
        .help("After how many batches a connection ends; without it, only after the seconds")
}

fn seconds_argument<'a>(alloc: Global) -> Arg<'a> {
    Arg::new(alloc, SECONDS)
        .long(SECONDS)
        .value_name("S")
        .default_value("10")
        .value_parser(value_parser!(u32).range(1..=86_400))
        .help("After how many seconds no more batches are sent")
}

/// The server's address, and the load that is asked for.
pub fn load_of<'a>(matches: &ArgMatches<'a>) -> Option<(Address<'a>, Load)> {
    let load = Load {
        connections: matches.get_one(CONNECTIONS)?,
        lines: matches.get_one(LINES)?,
        cells: matches.get_one(CELLS)?,
        batches: matches.get_one(BATCHES),
        seconds: matches.get_one(SECONDS)?,
    };
    Some((address_of(matches)?, load))
}

fn address_of<'a>(matches: &ArgMatches<'a>) -> Option<Address<'a>> {
    match matches.get_str(SOCKET) {
        Some(path) => Some(Address::Socket(path)),
        None => Some(Address::Port(matches.get_one(PORT)?)),
    }
}
