//! The program `trial_damage`: recovers 20,000 damaged copies of four good files. Each copy begins
//! anew from good files, which have each mix of the two formats in turn, and gets one to four
//! changes. The trial reads each file of a copy by itself, and finds the answer that the definition
//! of recovery requires. It prints how many answers were right, and how often each kind came. It
//! fails if one was wrong, or if a kind never came.
#![tactic(auto)]

ghost use Rattle.std.specs.Prelude.{◌≡◌, ◌+◌, ◌^◌, ◌<◌, OnOk, IfOk};
ghost use Rattle.trial_damage.specs.Tally.{judged};

mod damage;
mod files;
mod replay;
mod tally;
mod wanted;

use damage::Damage;
use files::{Files, Formats, MIXES, good_files};
use recovery::recover;
use std::alloc::Global;
use std::io;
use std::process::ExitCode;
use tally::{NAMES, Tally};
use trial_kit::exit_code_of;
use wanted::Wanted;
use world_actions::Refusal;

/// How many damaged copies are tried.
const COPIES: u32 = 20_000;

fn main(rt: HostRuntime) -> ExitCode {
    exit_code_of(&rt, run(&rt))
}

// Tries all copies. Returns true if all answers were right, and each kind came.
fn run<R: Print + AllocGlobal>(rt: &R) -> io::Result<bool> {
    match try_copies(rt.alloc()) {
        Ok(tally) => report(rt, &tally),
        Err(refusal) => {
            println!(rt; "refused with {}: {refusal}", refusal.code())?;
            Ok(false)
        }
    }
}

// Recovers from all copies, and counts the answers.
fn try_copies(alloc: Global) -> Result<Tally, Refusal>
    ensures { IfOk result (λ tally. judged tally ≡ COPIES) }
{
    let mut damage = Damage::new();
    let mut tally = Tally::new();
    for number in 0..COPIES {
        let mut files = good_files(alloc, Formats::mix(number % MIXES))?;
        damage.damage(&mut files)?;
        try_copy(alloc, &files, &mut tally)?;
    }
    Ok(tally)
}

// Recovers from a copy, and counts the answer.
fn try_copy(alloc: Global, copy: &Files, tally: &mut Tally) -> Result<(), Refusal>
    ensures { OnOk result
        (judged tally.old + 1 < 2 ^ 32 → judged tally.new ≡ judged tally.old + 1) }
{
    let wanted = Wanted::of(alloc, copy)?;
    let answer = recover(
        alloc,
        &copy.image_a,
        &copy.image_b,
        &copy.log_a,
        &copy.log_b,
    );
    tally.answer(&wanted, wanted.is(&answer));
    Ok(())
}

// Prints the counts, and returns true if they pass.
fn report<R: Print>(rt: &R, tally: &Tally) -> io::Result<bool> {
    println!(rt;
        "{COPIES} damaged copies, {MIXES} mixes of formats: {} answered right, {} wrong",
        tally.right, tally.wrong
    )?;
    tally.wanted.report(rt, &NAMES)?;
    Ok(tally.passes())
}
