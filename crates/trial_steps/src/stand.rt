use crate::flaky::Flaky;
use crate::model::PlainModel;
use crate::tally::{Kind, Rule, Tally};
use crate::trial::Trial;
use disk_model::{FourFiles, Leaving};
use recovery::{Recovered, Slot, recover};
use shared_capture::Method;
use std::alloc::Global;
use trial_kit::{Random, left_by};
use workers::{Checkpointer, Gate, LogWriter};
use world_actions::Refusal;

/// The bytes that a crash leaves of four files.
pub type Left = FourFiles<Vec<u8>>;

/// The files of a world between two steps, how many ticks are acknowledged, and how
/// many were pushed.
#[derive(Drop)]
pub struct Stand<'a> {
    pub files: FourFiles<&'a Flaky>,
    pub acked: u64,
    pub pushed: u64,
}

impl<'a> Stand<'a> {
    /// The files and the counts of these workers.
    pub fn of<M: Method, B: Gate + Drop, C: Gate + Drop>(
        checkpointer: &'a Checkpointer<M, Flaky, B>,
        log_writer: &'a LogWriter<Flaky, C>,
        pushed: u64,
    ) -> Self {
        let (images, log) = (checkpointer.images(), log_writer.log());
        let logged = log_writer.acked();
        let acked = match images.keeper.newest() {
            Some((_, tick)) => logged.max(tick),
            None => logged,
        };
        Stand {
            files: FourFiles {
                image_a: &images.image_a,
                image_b: &images.image_b,
                log_a: &log.a,
                log_b: &log.b,
            },
            acked,
            pushed,
        }
    }

    /// The files of a world at this tick, whose opening failed.
    pub fn in_opening(files: &'a FourFiles<Flaky>, tick: u64) -> Self {
        Stand {
            files: FourFiles {
                image_a: &files.image_a,
                image_b: &files.image_b,
                log_a: &files.log_a,
                log_b: &files.log_b,
            },
            acked: tick,
            pushed: tick,
        }
    }

    /// Tries five crashes. From what each leaves, recovery has to find the world after a pushed
    /// tick, with all acknowledged ones.
    pub fn judge(&self, trial: &mut Trial) -> Result<(), Refusal> {
        let byte = trial.random.byte();
        self.try_crash(Some(Leaving::Lose), trial)?;
        self.try_crash(Some(Leaving::Keep), trial)?;
        self.try_crash(Some(Leaving::Fill(byte)), trial)?;
        self.try_crash(None, trial)?;
        self.try_crash(None, trial)?;
        Ok(())
    }

    /// Crashes, and counts the files that failed. The model begins again from what is left.
    pub fn crash(&self, trial: &mut Trial) -> Result<(), Refusal> {
        self.count_failures(&mut trial.tally);
        let leaving = match trial.random.below(4) {
            0 => Some(Leaving::Lose),
            1 => Some(Leaving::Keep),
            _ => None,
        };
        match self.try_crash(leaving, trial)? {
            Some(found) => trial.begin_model(found.tick, found.words),
            None => Err(Refusal::BadImage),
        }
    }

    /// How many calls of the log's files were made.
    pub fn log_calls(&self) -> u64 {
        let (a, b) = (self.files.log_a.calls(), self.files.log_b.calls());
        a.saturating_add(b)
    }

    fn count_failures(&self, tally: &mut Tally) {
        tally.count_if(self.files.image_a.has_failed(), Kind::ImageAFailed);
        tally.count_if(self.files.image_b.has_failed(), Kind::ImageBFailed);
        tally.count_if(self.files.log_a.has_failed(), Kind::LogAFailed);
        tally.count_if(self.files.log_b.has_failed(), Kind::LogBFailed);
    }

    // Crashes in the way of `leaving`, or at random if it is None. Recovers from the
    // bytes that are left.
    fn try_crash(
        &self,
        leaving: Option<Leaving>,
        trial: &mut Trial,
    ) -> Result<Option<Recovered>, Refusal> {
        self.leave(leaving, trial)?;
        self.recover(trial)
    }

    fn leave(&self, leaving: Option<Leaving>, trial: &mut Trial) -> Result<(), Refusal> {
        let (alloc, random, left) = (trial.alloc, &mut trial.random, &mut trial.left);
        left.image_a = left_of(alloc, self.files.image_a, leaving, random)?;
        left.image_b = left_of(alloc, self.files.image_b, leaving, random)?;
        left.log_a = left_of(alloc, self.files.log_a, leaving, random)?;
        left.log_b = left_of(alloc, self.files.log_b, leaving, random)?;
        Ok(())
    }

    // Recovers from the bytes that were left, and judges the result.
    fn recover(&self, trial: &mut Trial) -> Result<Option<Recovered>, Refusal> {
        let left = &trial.left;
        let found = recover(
            trial.alloc,
            &left.image_a,
            &left.image_b,
            &left.log_a,
            &left.log_b,
        );
        match found {
            Ok(found) => {
                self.judge_found(&found, &trial.model, &mut trial.tally);
                Ok(Some(found))
            }
            Err(Refusal::NoMemory) => Err(Refusal::NoMemory),
            Err(_) => {
                trial.tally.hold(false, Rule::IsRecovered);
                Ok(None)
            }
        }
    }

    fn judge_found(&self, found: &Recovered, model: &PlainModel, tally: &mut Tally) {
        let may_stand = self.acked <= found.tick && found.tick <= self.pushed;
        tally.hold(may_stand, Rule::KeepsAcknowledged);
        tally.hold(model.is_world(found.tick, &found.words), Rule::HasWords);
        match found.slot {
            Slot::A => tally.count(Kind::FromImageA),
            Slot::B => tally.count(Kind::FromImageB),
        }
        tally.count_if(found.from < found.tick, Kind::Replayed);
        tally.count_if(self.acked < found.tick, Kind::KeptMore);
    }
}

// The bytes that a crash in the way of `leaving` leaves of a file. If it is None, they are random
// ones that a crash may leave.
fn left_of(
    alloc: Global,
    file: &Flaky,
    leaving: Option<Leaving>,
    random: &mut Random,
) -> Result<Vec<u8>, Refusal> {
    match leaving {
        Some(leaving) => file.file().left_by(alloc, leaving),
        None => left_by(alloc, file.file(), random),
    }
}
