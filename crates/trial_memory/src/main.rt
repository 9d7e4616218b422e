//! The program `trial_memory`: makes calls whose allocations are refused. A call that takes memory
//! is made while one of its allocations may be refused, and once more if it was. A call that takes
//! none is made while each allocation would be refused. It prints how each call went. It fails if a
//! refused call left other values than it may, or gave another answer the second time.
//! It refuses nothing by itself: `scripts/memory_trial.py` runs it with a library that refuses each
//! allocation in turn.
#![tactic(auto)]

mod case;
mod cores;
mod files;
mod free;
mod keepers;
mod plays;
mod stores;
mod worlds;

use capture_core::PlainCopy;
use case::{Case, Outcome, try_case};
use cores::{Crash, Fresh, Run};
use files::{GrowFile, NewFile, ReadImage, ReadLog, Recover, ReserveFile};
use free::try_free_calls;
use keepers::{Images, Log, PingPongPair, SignalPair, ZigzagPair};
use ping_pong::PingPong;
use plays::{Act, AnswerEach, CopyBatch, NewReader, Play, ReserveTick};
use shared_capture::{Joined, Pong, Zig};
use std::io;
use std::process::ExitCode;
use stores::Build;
use trial_kit::exit_code_of;
use worlds::{Ample, Line, NewWorld, Open, Scarce, Serve, Values};
use zigzag::Zigzag;

fn main(rt: HostRuntime) -> ExitCode {
    exit_code_of(&rt, try_all(&rt))
}

// Makes all calls, and returns true if all went right.
fn try_all<R: Print + AllocGlobal>(rt: &R) -> io::Result<bool> {
    let are_right = try_values(rt)?
        & try_stores(rt)?
        & try_keepers(rt)?
        & try_worlds(rt)?
        & try_growth(rt)?;
    match try_free_calls(rt.alloc()) {
        Ok(are_same) => {
            println!(rt; "calls that take none: {}", reported(are_same))?;
            Ok(are_right && are_same)
        }
        Err(refusal) => {
            println!(rt; "calls that take none: refused with {}", refusal.code())?;
            Ok(false)
        }
    }
}

fn reported(are_same: bool) -> &'static str {
    if are_same { "made" } else { "wrong" }
}

fn try_values<R: Print + AllocGlobal>(rt: &R) -> io::Result<bool> {
    Ok(
        report::<R, Act>(rt)?
            & report::<R, ReserveTick>(rt)?
            & report::<R, CopyBatch>(rt)?
            & report::<R, AnswerEach>(rt)?
            & report::<R, NewReader>(rt)?
            & report::<R, Play>(rt)?
            & report::<R, NewFile>(rt)?
            & report::<R, ReserveFile>(rt)?
            & report::<R, GrowFile>(rt)?,
    )
}

fn try_stores<R: Print + AllocGlobal>(rt: &R) -> io::Result<bool> {
    Ok(
        report::<R, Build<PlainCopy>>(rt)?
            & report::<R, Build<Zigzag>>(rt)?
            & report::<R, Build<PingPong>>(rt)?
            & report::<R, Build<Joined<Zig>>>(rt)?
            & report::<R, Build<Joined<Pong>>>(rt)?,
    )
}

fn try_keepers<R: Print + AllocGlobal>(rt: &R) -> io::Result<bool> {
    Ok(
        report::<R, ZigzagPair>(rt)?
            & report::<R, PingPongPair>(rt)?
            & report::<R, SignalPair>(rt)?
            & report::<R, Images>(rt)?
            & report::<R, Log>(rt)?,
    )
}

fn try_worlds<R: Print + AllocGlobal>(rt: &R) -> io::Result<bool> {
    Ok(
        report::<R, ReadImage>(rt)?
            & report::<R, ReadLog>(rt)?
            & report::<R, Recover>(rt)?
            & report::<R, Fresh>(rt)?
            & report::<R, Crash>(rt)?
            & report::<R, Run>(rt)?
            & report::<R, NewWorld<Ample>>(rt)?
            & report::<R, Open<Ample>>(rt)?
            & report::<R, Serve<Ample, Line>>(rt)?
            & report::<R, Serve<Ample, Values>>(rt)?,
    )
}

fn try_growth<R: Print + AllocGlobal>(rt: &R) -> io::Result<bool> {
    Ok(
        report::<R, NewWorld<Scarce>>(rt)?
            & report::<R, Open<Scarce>>(rt)?
            & report::<R, Serve<Scarce, Line>>(rt)?
            & report::<R, Serve<Scarce, Values>>(rt)?,
    )
}

// Prints how a call went, and returns true if that is right.
fn report<R: Print + AllocGlobal, X: Case>(rt: &R) -> io::Result<bool> {
    match try_case::<X>(rt.alloc()) {
        Ok(outcome) => {
            println!(rt; "{}: {outcome}", X::name())?;
            Ok(outcome != Outcome::Wrong)
        }
        Err(refusal) => {
            println!(rt; "{}: refused with {}", X::name(), refusal.code())?;
            Ok(false)
        }
    }
}
