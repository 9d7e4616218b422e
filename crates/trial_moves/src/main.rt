//! The program `trial_moves`: makes random moves of the core, with failing calls and crashes among
//! them. It does so over all stores and over worlds of several sizes, and judges each answer by a
//! plain model. It prints how often each answer came. It fails if one was wrong, or if one that
//! can come did not.
#![tactic(auto)]

mod image_model;
mod kind;
mod log_model;
mod model;
mod player;
mod spoiling;
mod stretches;
mod tally;
mod trial;
mod weights;
mod words;
mod wrong;

ghost use Rattle.std.specs.Prelude.{◌≤◌};
ghost use Rattle.world_actions.specs.declared.world.TheConstants.{CELLS};

use capture_core::{Capture, PlainCopy};
use kind::NAMES;
use ping_pong::PingPong;
use player::Player;
use shared_capture::{Joined, Pong, Zig};
use std::alloc::Global;
use std::io;
use std::process::ExitCode;
use stretches::{try_limits, try_segment};
use tally::Tally;
use trial::{Stop, Trial};
use trial_kit::{Random, exit_code_of};
use zigzag::Zigzag;

/// The sizes of the worlds that are tried.
const SIZES: [u32; 5] = [1, 2, 64, 65, 130];

/// How many moves are chosen for each store and size.
const MOVES: u32 = 6700;

/// The seed of the moves.
const SEED: u64 = 0x9e37_79b9_7f4a_7c15;

fn main(rt: HostRuntime) -> ExitCode {
    exit_code_of(&rt, run(&rt))
}

// Tries all. Returns true if all answers were right, and each came.
fn run<R: Print + AllocGlobal>(rt: &R) -> io::Result<bool> {
    let mut all = Tally::new();
    let are_right = try_store::<R, PlainCopy>(rt, "plain", &mut all)?
        && try_store::<R, Zigzag>(rt, "zigzag", &mut all)?
        && try_store::<R, PingPong>(rt, "pingpong", &mut all)?
        && try_store::<R, Joined<Zig>>(rt, "zigzag-shared", &mut all)?
        && try_store::<R, Joined<Pong>>(rt, "pingpong-shared", &mut all)?
        && try_long(rt, &mut all)?;
    Ok(are_right && all.counts().report(rt, &NAMES)?)
}

// Tries random moves over worlds of all sizes, and the moves that meet each limit.
fn try_store<R: Print + AllocGlobal, C: Capture>(
    rt: &R,
    store: &str,
    all: &mut Tally,
) -> io::Result<bool> {
    let before = all.moves();
    let seen = try_sizes::<C>(rt.alloc(), all);
    report(rt, store, seen, all.moves().saturating_sub(before))
}

// Fills a segment, which takes many moves.
fn try_long<R: Print + AllocGlobal>(rt: &R, all: &mut Tally) -> io::Result<bool> {
    let before = all.moves();
    let seen = try_segment::<PlainCopy>(rt.alloc(), all);
    report(
        rt,
        "a full segment",
        seen,
        all.moves().saturating_sub(before),
    )
}

fn try_sizes<C: Capture>(alloc: Global, all: &mut Tally) -> Result<(), Stop> {
    for cells in SIZES {
        try_moves::<C>(alloc, cells, all)?;
        try_limits::<C>(alloc, cells, all)?;
    }
    Ok(())
}

// Tries random moves over a world of so many cells.
fn try_moves<C: Capture>(alloc: Global, cells: u32, all: &mut Tally) -> Result<(), Stop>
    requires { (1 ≤ cells) × (cells ≤ CELLS) }
{
    let mut trial = Trial::<C>::new(alloc, cells)?;
    let seen = play(&mut trial);
    all.add(trial.tally());
    seen
}

fn play<C: Capture>(trial: &mut Trial<C>) -> Result<(), Stop> {
    let mut random = Random::new(SEED);
    let mut player = Player::new(trial.cells());
    for _ in 0..MOVES {
        let asked = player.choose(trial.model(), &mut random);
        trial.ask(asked, &mut random)?;
    }
    Ok(())
}

// Prints how many moves a trial had, or what was wrong. Returns true if all was right.
fn report<R: Print>(rt: &R, name: &str, seen: Result<(), Stop>, moves: u32) -> io::Result<bool> {
    match seen {
        Ok(()) => println!(rt; "{name}: {moves} moves")?,
        Err(Stop::Refused(refusal)) => println!(rt; "{name}: refused: {refusal}")?,
        Err(Stop::Differs(difference)) => println!(rt; "{name}: {difference:?}")?,
    }
    Ok(seen.is_ok())
}
