ghost use Rattle.std.specs.Prelude.{◌≡◌, ◌+◌, ◌*◌, ◌^◌, ◌<◌, ◌≤◌, OnOk};
ghost use Rattle.disk_model.specs.CrashOutcome.{IsCrashOutcome};
ghost use Rattle.world_actions.specs.declared.world.TheConstants.{CELLS};
ghost use Rattle.world_ticks.specs.declared.tick.TheConstants.{TICK_MAX};
ghost use Rattle.trial_crashes.specs.declared.crash.TheConstants.{KINDS};
ghost use Rattle.trial_crashes.specs.Tally.{outcomes};

use crate::crash::{CRASHES, empty_file};
use crate::known::{Known, kept_outcome, written_outcome};
use crate::tally::Tally;
use capture_core::Capture;
use disk_model::{Fused, ModelFile};
use image_files::{ImageAnswer, ImageKeeper, Slot, images_stay, read_image};
use std::alloc::Global;
use std::marker::Model;
use world_actions::Refusal;

/// The rounds of a trial.
const ROUNDS: u64 = 3;

/// More steps than a round of any trial has.
const STEPS: u32 = 1000;

/// Runs the rounds over a store of so many cells. After each step it reads what crashes may leave.
/// Then it lets the call of each step fail in turn, and reads again.
pub fn try_images<C: Capture>(alloc: Global, cells: u32) -> Result<Tally, Refusal>
    requires { (1 ≤ cells) × (cells ≤ CELLS) }
{
    let mut tally = Tally::new();
    let steps = run::<C>(alloc, cells, None, &mut tally)?;
    for failing in 1..=steps {
        run::<C>(alloc, cells, Some(failing), &mut tally)?;
    }
    Ok(tally)
}

// Runs the rounds to the end, or up to the step whose call fails, and counts the steps.
fn run<C: Capture>(
    alloc: Global,
    cells: u32,
    failing: Option<u32>,
    tally: &mut Tally,
) -> Result<u32, Refusal>
    requires { (1 ≤ cells) × (cells ≤ CELLS) }
{
    let mut trial = ImageTrial::<C>::new(alloc, cells)?;
    run_rounds(&mut trial, failing, tally)
}

fn run_rounds<C: Capture>(
    trial: &mut ImageTrial<C>,
    failing: Option<u32>,
    tally: &mut Tally,
) -> Result<u32, Refusal> {
    let mut steps = 0u32;
    for round in 1..=ROUNDS {
        trial.begin(round)?;
        for turn in 0..STEPS {
            steps = steps.saturating_add(1);
            if failing == Some(steps) {
                trial.fail(tally)?;
                return Ok(steps);
            }
            let answer = trial.step();
            if failing.is_none() {
                trial.check(tally)?;
            }
            trial.play(round, turn);
            if answer != ImageAnswer::Working {
                tally.answer(answer == ImageAnswer::Opened(round));
                break;
            }
        }
    }
    Ok(steps)
}

/// A keeper with its store and its two files, and the images that these must have.
#[derive(Drop)]
struct ImageTrial<C: Capture> {
    alloc: Global,
    keeper: ImageKeeper,
    store: C,
    image_a: Fused<ModelFile>,
    image_b: Fused<ModelFile>,
    in_round: bool,
    newest: Option<Known>,
    before: Option<Known>,
    round: Option<Known>,
}

// Contracts see if a round is in work.
impl<C: Capture> Model for ImageTrial<C> {
    ghost use Rattle.std.specs.Prelude.{◌≡◌, Bool, false};
    ghost use Rattle.disk_model.specs.CrashOutcome.{IsCrashOutcome};
    ghost use Rattle.image_files.specs.declared.phase.Phase.TheVariants.{Idle};
    ghost use Rattle.image_files.specs.Images.{ImageFiles};
    ghost use Rattle.image_files.specs.Files.{Stands};

    ghost Value = { Bool };

    ghost view = { λ trial. trial.in_round };

    ghost invariant = { λ trial. (trial.in_round ≡ false → trial.keeper.phase ≡ Idle)
        × ((images : ImageFiles)
        × Stands trial.keeper images trial.image_a.inner.content trial.image_b.inner.content
        (IsCrashOutcome trial.image_a.inner) (IsCrashOutcome trial.image_b.inner)) };
}

impl<C: Capture> ImageTrial<C> {
    // A store of zeros and two empty files.
    fn new(alloc: Global, cells: u32) -> Result<Self, Refusal>
        requires { (1 ≤ cells) × (cells ≤ CELLS) }
    {
        images_stay::<Fused<ModelFile>>();
        let words = vec![in alloc; 0; cells as usize]?;
        Ok(ImageTrial {
            alloc,
            keeper: ImageKeeper::new(alloc, cells, None, [false, false])?,
            store: C::build(alloc, &words)?,
            image_a: empty_file(alloc)?,
            image_b: empty_file(alloc)?,
            in_round: false,
            newest: None,
            before: None,
            round: None,
        })
    }

    // Marks the store, and begins the round of its words.
    fn begin(&mut self, tick: u64) -> Result<(), Refusal>
        requires { tick ≤ TICK_MAX }
    {
        images_stay::<Fused<ModelFile>>();
        if self.in_round {
            return Err(Refusal::Busy);
        }
        let words = words_of(self.alloc, &mut self.store)?;
        mark(&mut self.store)?;
        self.in_round = true;
        self.keeper.begin(tick);
        self.round = Some(Known { tick, words });
        Ok(())
    }

    // Makes one step. An image that it opens becomes the newest one.
    fn step(&mut self) -> ImageAnswer {
        let answer = self
            .keeper
            .step(&mut self.store, &mut self.image_a, &mut self.image_b);
        if let ImageAnswer::Opened(_) = answer {
            self.in_round = false;
            self.before = self.newest.take();
            self.newest = self.round.take();
        }
        answer
    }

    // Lets the call of the next step fail, if it makes one. Then this step and the next one
    // must answer Down.
    fn fail(&mut self, tally: &mut Tally) -> Result<(), Refusal> {
        self.image_a.arm(1);
        self.image_b.arm(1);
        if self.step() != ImageAnswer::Down {
            return Ok(());
        }
        tally.failure();
        self.check(tally)?;
        tally.answer(self.step() == ImageAnswer::Down);
        self.check(tally)
    }

    // Writes some cells.
    fn play(&mut self, round: u64, turn: u32) {
        let cell = (turn as usize).saturating_mul(5).saturating_add(2);
        if cell < self.store.len() {
            self.store
                .write(cell, (round % 1000) * 1000 + u64::from(turn));
        }
    }

    // Reads what crashes may leave of both files.
    fn check(&self, tally: &mut Tally) -> Result<(), Refusal>
        ensures { OnOk result (outcomes tally.old + 2 * KINDS < 2 ^ 32
            → outcomes tally.new ≡ outcomes tally.old + 2 * KINDS) }
    {
        let (target, newest) = match self.keeper.target() {
            Slot::A => (&self.image_a, &self.image_b),
            Slot::B => (&self.image_b, &self.image_a),
        };
        for crash in CRASHES {
            let kept = newest.inner().left_by(self.alloc, crash)?;
            tally.outcome(kept_outcome(&read_image(self.alloc, &kept)?, &self.newest));
            let written = target.inner().left_by(self.alloc, crash)?;
            let state = read_image(self.alloc, &written)?;
            tally.outcome(written_outcome(&state, &self.before, &self.round));
        }
        Ok(())
    }
}

// The live words of a store.
fn words_of<C: Capture>(alloc: Global, store: &mut C) -> Result<Vec<u64>, Refusal> {
    let mut words = Vec::new(alloc);
    for i in 0..store.len() {
        if i < store.len() {
            words.push(store.read(i))?;
        }
    }
    Ok(words)
}

// Marks a store that has no round open.
fn mark<C: Capture>(store: &mut C) -> Result<(), Refusal> {
    if store.open_round() {
        return Err(Refusal::Busy);
    }
    store.mark();
    Ok(())
}
