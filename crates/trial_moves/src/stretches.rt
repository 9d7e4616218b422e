ghost use Rattle.std.specs.Prelude.{◌≤◌};
ghost use Rattle.world_actions.specs.declared.world.TheConstants.{CELLS};

use crate::tally::Tally;
use crate::trial::{Stop, Trial};
use capture_core::Capture;
use plain_moves::{Asked, PlainAnswer};
use std::alloc::Global;
use trial_kit::Random;
use world_actions::Action;
use world_core::Fate;

/// More moves than a start, a round or a full queue needs.
const MOVES: u32 = 1000;

/// How many actions fill a tick.
const ACTIONS: u32 = 256;

/// How many ticks fill the queue.
const RECORDS: u32 = 64;

/// How often the queue is filled until a segment is full.
const QUEUES: u32 = 1024;

/// An action on the first cell.
const ADD: Asked = Asked::Act(Action::Add { cell: 0, by: 1 });

/// Moves in which each keeper fails, and then a crash comes.
const FAILURES: [Asked; 10] = [
    Asked::Mark,
    Asked::Mark,
    Asked::Image(Fate::Failed),
    Asked::Mark,
    Asked::Image(Fate::Done),
    Asked::Log(Fate::Failed),
    Asked::Log(Fate::Done),
    ADD,
    Asked::ImpossibleCrash,
    Asked::Crash,
];

/// Moves that a full segment refuses, a mark, and moves that succeed after it.
const NEXT_SEGMENT: [Asked; 5] = [Asked::End, ADD, Asked::Mark, ADD, Asked::End];

/// Fills a tick and the queue, lets each keeper fail, and crashes.
pub fn try_limits<C: Capture>(alloc: Global, cells: u32, all: &mut Tally) -> Result<(), Stop>
    requires { (1 ≤ cells) × (cells ≤ CELLS) }
{
    let mut stretch = Stretch::<C>::new(alloc, cells)?;
    let seen = stretch.meet_limits();
    all.add(stretch.trial.tally());
    seen
}

/// Ends as many ticks as may end between two marks, tries one more, and continues after a mark.
pub fn try_segment<C: Capture>(alloc: Global, all: &mut Tally) -> Result<(), Stop> {
    let mut stretch = Stretch::<C>::new(alloc, 1)?;
    let seen = stretch.fill_segment();
    all.add(stretch.trial.tally());
    seen
}

/// A trial whose moves are given one by one.
#[derive(Drop)]
struct Stretch<C: Capture> {
    trial: Trial<C>,
    random: Random,
}

impl<C: Capture> Stretch<C> {
    fn new(alloc: Global, cells: u32) -> Result<Self, Stop>
        requires { (1 ≤ cells) × (cells ≤ CELLS) }
    {
        Ok(Stretch {
            trial: Trial::new(alloc, cells)?,
            random: Random::new(1),
        })
    }

    fn ask(&mut self, asked: Asked) -> Result<PlainAnswer, Stop> {
        self.trial.ask(asked, &mut self.random)
    }

    fn ask_all(&mut self, moves: &[Asked]) -> Result<(), Stop> {
        for asked in moves {
            self.ask(*asked)?;
        }
        Ok(())
    }

    // Crashes first. Then it fills a tick and the queue, asks for one more of each, and
    // asks for a mark.
    fn meet_limits(&mut self) -> Result<(), Stop> {
        self.ask(Asked::Crash)?;
        self.start()?;
        self.repeat(ADD, ACTIONS + 1)?;
        self.ask(Asked::Mark)?;
        self.repeat(Asked::End, RECORDS + 1)?;
        self.ask(Asked::Mark)?;
        self.log()?;
        self.ask_all(&FAILURES)?;
        self.start()
    }

    fn fill_segment(&mut self) -> Result<(), Stop> {
        self.start()?;
        for _ in 0..QUEUES {
            self.ask(ADD)?;
            self.repeat(Asked::End, RECORDS)?;
            self.log()?;
        }
        self.ask_all(&NEXT_SEGMENT)?;
        self.images()?;
        self.log()
    }

    fn repeat(&mut self, asked: Asked, times: u32) -> Result<(), Stop> {
        for _ in 0..times {
            self.ask(asked)?;
        }
        Ok(())
    }

    // Runs the start to its end.
    fn start(&mut self) -> Result<(), Stop> {
        self.images()?;
        for _ in 0..MOVES {
            if !self.trial.model().is_starting() {
                break;
            }
            self.ask(Asked::Log(Fate::Done))?;
        }
        Ok(())
    }

    // Runs the open round to its end.
    fn images(&mut self) -> Result<(), Stop> {
        for _ in 0..MOVES {
            let given = self.ask(Asked::Image(Fate::Done))?;
            if given != PlainAnswer::ImageWorking {
                break;
            }
        }
        Ok(())
    }

    // Lets the log write all that waits for it.
    fn log(&mut self) -> Result<(), Stop> {
        for _ in 0..MOVES {
            let given = self.ask(Asked::Log(Fate::Done))?;
            if given == PlainAnswer::LogIdle {
                break;
            }
        }
        Ok(())
    }
}
