use crate::fixed::{Step, WORDS};
use action_log::LogAnswer;
use capture_core::Capture;
use disk_model::Leaving;
use image_files::ImageAnswer;
use std::alloc::Global;
use world_actions::Refusal;
use world_core::{Answer, Core, Fate, Move};

/// More moves than a start has.
const MOVES: u32 = 100;

/// A core of two cells, the number of ended ticks, the last acknowledged tick, and the tick of the
/// newest image that is known to be open.
#[derive(Drop)]
pub struct Run<C: Capture> {
    core: Core<C>,
    ended: u64,
    acked: u64,
    image: u64,
}

impl<C: Capture> Run<C> {
    /// A new world whose start is over.
    pub fn started(alloc: Global) -> Result<Self, Refusal> {
        let mut run = Run {
            core: Core::fresh(alloc, 2)?,
            ended: 0,
            acked: 0,
            image: 0,
        };
        run.start(MOVES);
        Ok(run)
    }

    /// The greatest tick of a receipt or of an opened image.
    pub fn acked(&self) -> u64 {
        self.acked
    }

    /// Makes a move.
    pub fn step(&mut self, step: Step, fate: Fate) -> Answer {
        match self.core.step(step.as_move(fate)) {
            Answer::Ended(tick) => {
                self.ended = tick;
                Answer::Ended(tick)
            }
            Answer::Image(given) => Answer::Image(self.follow_images(given)),
            Answer::Log(given) => Answer::Log(self.follow_log(given)),
            given => given,
        }
    }

    // Follows an answer of the images. An open image has all ticks up to its own, even if the log
    // doesn't have them.
    fn follow_images(&mut self, given: ImageAnswer) -> ImageAnswer {
        match given {
            ImageAnswer::Opened(tick) => {
                self.acked = self.acked.max(tick);
                self.image = tick;
                ImageAnswer::Opened(tick)
            }
            given => given,
        }
    }

    fn follow_log(&mut self, given: LogAnswer) -> LogAnswer {
        match given {
            LogAnswer::Acked(receipt) => {
                self.acked = self.acked.max(receipt.tick());
                LogAnswer::Acked(receipt)
            }
            given => given,
        }
    }

    /// Makes these moves.
    pub fn follow(&mut self, steps: &[Step]) {
        for step in steps {
            self.step(*step, Fate::Done);
        }
    }

    /// Makes at most so many moves of a start, those of the images first. Returns how many it made.
    pub fn start(&mut self, most: u32) -> u32 {
        let mut images_wait = true;
        for made in 0..most {
            if !self.core.starting() {
                return made;
            }
            if images_wait {
                let given = self.core.step(Move::Image(Fate::Done));
                images_wait = !matches!(
                    given,
                    Answer::Image(ImageAnswer::Opened(_) | ImageAnswer::Idle)
                );
            } else {
                self.core.step(Move::Log(Fate::Done));
            }
        }
        most
    }

    /// Crashes in this way, and recovers. Returns the recovered tick if it may be recovered, from
    /// this image, and its words are right.
    pub fn crash(&mut self, leaving: Leaving) -> Result<Option<u64>, Refusal> {
        let left = self.core.remains(leaving)?;
        let Answer::Recovered { tick, from } = self.core.step(Move::Crash(left)) else {
            return Ok(None);
        };
        let may_stand = self.acked <= tick && tick <= self.ended && self.shows(tick);
        let is_known = self.image <= from && from <= tick;
        self.ended = tick;
        self.acked = tick;
        self.image = from;
        Ok((may_stand && is_known).then_some(tick))
    }

    // True if the words are those after this tick.
    fn shows(&mut self, tick: u64) -> bool {
        let Some([first, second]) = WORDS.get(tick as usize) else {
            return false;
        };
        self.core.step(Move::Get(0)) == Answer::Word(*first)
            && self.core.step(Move::Get(1)) == Answer::Word(*second)
    }
}
