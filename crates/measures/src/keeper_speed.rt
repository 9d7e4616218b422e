use crate::logs::{GROUPS, Log};
use crate::measuring::{CELLS, zeros};
use crate::rounds::Rounds;
use crate::ticks::{SEGMENT_ACTIONS, segment_ticks};
use crate::times::{Times, picoseconds};
use action_log::GROUP_TICKS;
use anyhow::Error;
use std::alloc::Global;
use std::time::{Clock, Instant};
use trial_kit::nanoseconds_of;
use world_actions::Refusal;
use world_ticks::{Tick, Words, replay};
use zigzag::Zigzag;

/// How often the ticks of a segment are replayed, and an image is written.
const TURNS: u32 = 31;

/// The rounds after which both files have an image.
const FIRST_ROUNDS: u32 = 2;

/// How many cells are written before each round.
const WRITES: u32 = 1024;

/// Times of both keepers over files in memory, in picoseconds.
#[derive(Drop)]
pub struct KeeperSpeed {
    /// The time of a tick that the log writes, in a group of the most ticks.
    pub tick: Times,
    /// The time of a replayed action.
    pub action: Times,
    /// The time of a cell of an image, in a round of Zigzag.
    pub cell: Times,
}

impl KeeperSpeed {
    /// Lists without a time.
    pub fn new(alloc: Global) -> Self {
        KeeperSpeed {
            tick: Times::new(alloc),
            action: Times::new(alloc),
            cell: Times::new(alloc),
        }
    }

    /// Times the log, which is to have a full segment then, replay, and rounds.
    pub fn time_all<R: Clock>(
        &mut self,
        rt: &R,
        alloc: Global,
        log: &mut Log,
    ) -> Result<(), Error> {
        self.time_log(rt, alloc, log)?;
        self.time_replay(rt, alloc)?;
        self.time_rounds(rt, alloc)
    }

    // Writes a full segment, and times each of its groups.
    fn time_log<R: Clock>(&mut self, rt: &R, alloc: Global, log: &mut Log) -> Result<(), Error> {
        log.write()?;
        for _ in 0..GROUPS {
            log.push_group(alloc, GROUP_TICKS)?;
            let start = Instant::now(rt)?;
            log.write()?;
            let time = nanoseconds_of(start.elapsed(rt)?);
            self.tick.push(picoseconds(time, GROUP_TICKS as u64))?;
        }
        Ok(())
    }

    // Times the replay of the ticks of a full segment, again and again.
    fn time_replay<R: Clock>(&mut self, rt: &R, alloc: Global) -> Result<(), Error> {
        let ticks = segment_ticks(alloc)?;
        let mut words = Words::new(zeros(alloc, CELLS)?);
        self.time_turns(rt, &mut words, &ticks)
    }

    fn time_turns<R: Clock>(
        &mut self,
        rt: &R,
        words: &mut Words,
        ticks: &[Tick],
    ) -> Result<(), Error> {
        for _ in 0..TURNS {
            let start = Instant::now(rt)?;
            replay_all(words, ticks)?;
            let time = nanoseconds_of(start.elapsed(rt)?);
            self.action.push(picoseconds(time, SEGMENT_ACTIONS))?;
        }
        Ok(())
    }

    // Times the images of rounds of Zigzag, once both files have one.
    fn time_rounds<R: Clock>(&mut self, rt: &R, alloc: Global) -> Result<(), Error> {
        let mut rounds = Rounds::<Zigzag>::new(alloc, CELLS as u32)?;
        let mut number = 1;
        for _ in 0..FIRST_ROUNDS {
            number = play_round(&mut rounds, number)?;
            rounds.write()?;
        }
        self.time_images(rt, &mut rounds, number)
    }

    fn time_images<R: Clock>(
        &mut self,
        rt: &R,
        rounds: &mut Rounds<Zigzag>,
        seed: u64,
    ) -> Result<(), Error> {
        let mut number = seed;
        for _ in 0..TURNS {
            number = play_round(rounds, number)?;
            let start = Instant::now(rt)?;
            rounds.write()?;
            let time = nanoseconds_of(start.elapsed(rt)?);
            self.cell.push(picoseconds(time, CELLS as u64))?;
        }
        Ok(())
    }
}

// Writes some cells, and begins a round.
fn play_round(rounds: &mut Rounds<Zigzag>, seed: u64) -> Result<u64, Refusal> {
    let number = rounds.play(seed, WRITES);
    rounds.begin()?;
    Ok(number)
}

fn replay_all(words: &mut Words, ticks: &[Tick]) -> Result<(), Refusal> {
    for tick in ticks {
        replay(words, tick.actions())?;
    }
    Ok(())
}
