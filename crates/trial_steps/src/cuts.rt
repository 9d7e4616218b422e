use crate::flaky::Flaky;
use crate::opening::open_world;
use crate::quiet::Quiet;
use crate::session::{Answer, Session, sessions};
use crate::stand::Stand;
use crate::tally::{Kind, Rule};
use crate::trial::{Odds, Trial};
use shared_capture::Method;
use std::alloc::Global;
use std::sync::Wait;
use std::thread::Threads;
use worker_steps::Gates;
use worker_threads::{StoppedWorkers, stop_after};
use workers::{AskChannel, Cut};
use world_actions::Refusal;

/// How often the workers are cut for each method.
pub const CUTS: u64 = 500;

/// How many cells the world has.
const CELLS: u32 = 65;

/// How many sessions there are, and how many batches they send in a run.
const SESSIONS: u64 = 4;

const BATCHES: u64 = 40;

/// Bounds of the random numbers of steps after which the workers are held. The mutator makes
/// fewer steps for the batches, the checkpointer for some rounds, and the log writer for the
/// log of the batches.
const PLAYS: u64 = 60;

const TAKES: u64 = 400;

const LOGS: u64 = 200;

type Workers<M> = StoppedWorkers<M, Flaky, Cut, Cut, Cut>;

/// The sessions of a run.
#[derive(Drop)]
struct Played {
    sessions: Vec<Session>,
    // The greatest tick of a post, or 0.
    posted: u64,
    // The reason why no more batches were sent, if there was one.
    stopped: Result<(), Refusal>,
}

/// Holds the three workers of a world at random places in their threads. Each run begins from
/// what a crash left.
pub fn try_cuts<R: Threads + Wait + Copy + Send + 'static, M: Method + Send + 'static>(
    rt: &R,
    trial: &mut Trial,
) -> Result<(), Refusal> {
    trial.begin_world(CELLS, 0, Odds::NONE)?;
    for _ in 0..CUTS {
        let mut played = Played::none(trial.alloc);
        cut_once::<R, M>(rt, trial, &mut played)?;
    }
    Ok(())
}

fn cut_once<R: Threads + Wait + Copy + Send + 'static, M: Method + Send + 'static>(
    rt: &R,
    trial: &mut Trial,
    played: &mut Played,
) -> Result<(), Refusal> {
    let files = trial.files()?;
    let (alloc, every, cuts) = (trial.alloc, trial.every(), cuts(trial));
    match open_world::<M, Flaky>(alloc, files) {
        Ok(opened) => {
            let play = |asks: AskChannel| played.play(rt, trial, asks);
            match stop_after(rt, alloc, cuts, Quiet, opened, every, play) {
                Ok(stopped) => judge(rt, trial, played, stopped),
                Err(_) => Err(Refusal::NoMemory),
            }
        }
        Err((_, refusal)) => Err(refusal),
    }
}

fn judge<R: Wait, M: Method>(
    rt: &R,
    trial: &mut Trial,
    played: &mut Played,
    stopped: Workers<M>,
) -> Result<(), Refusal> {
    played.judge(rt, trial, &stopped)
}

// Gates that hold each worker after a random number of steps.
fn cuts(trial: &mut Trial) -> Gates<Cut, Cut, Cut> {
    Gates {
        mutator: Cut {
            left: trial.random.below(PLAYS),
        },
        checkpointer: Cut {
            left: trial.random.below(TAKES),
        },
        log_writer: Cut {
            left: trial.random.below(LOGS),
        },
    }
}

impl Played {
    // Before the first session.
    fn none(alloc: Global) -> Self {
        Played {
            sessions: Vec::new(alloc),
            posted: 0,
            stopped: Ok(()),
        }
    }

    // Lets sessions send all batches. No session can send one after that.
    fn play<R: Wait>(&mut self, rt: &R, trial: &mut Trial, asks: AskChannel) {
        self.stopped = self.send_all(rt, trial, asks);
        for session in &mut self.sessions {
            session.close();
        }
    }

    // Sends the batches, each of a random session, which first waits for its last answer.
    fn send_all<R: Wait>(
        &mut self,
        rt: &R,
        trial: &mut Trial,
        asks: AskChannel,
    ) -> Result<(), Refusal> {
        let mut asks = asks;
        self.sessions = sessions(trial.alloc, &mut asks, SESSIONS)?;
        for _ in 0..BATCHES {
            self.send(rt, trial)?;
        }
        Ok(())
    }

    // Sends a batch. The model runs the batches in this order, and also those that the mutator
    // won't run, which are the last ones.
    fn send<R: Wait>(&mut self, rt: &R, trial: &mut Trial) -> Result<(), Refusal> {
        let number = trial.random.below(SESSIONS) as usize;
        let Some(session) = self.sessions.get_mut(number) else {
            return Ok(());
        };
        if let Some(answer) = session.wait(rt, &trial.model) {
            self.posted = self.posted.max(heed(answer, trial));
        }
        trial.draw_batch();
        session.ask(rt, trial.alloc, trial.draft.batch())?;
        session.runs(trial.play()?, 0);
        Ok(())
    }

    // Judges the answers and the files that the workers left, and crashes.
    fn judge<R: Wait, M: Method>(
        &mut self,
        rt: &R,
        trial: &mut Trial,
        stopped: &Workers<M>,
    ) -> Result<(), Refusal> {
        self.stopped?;
        for session in &mut self.sessions {
            if let Some(answer) = session.look(rt, &trial.model) {
                self.posted = self.posted.max(heed(answer, trial));
            }
            trial.tally.hold(session.is_idle(), Rule::AnswersAsk);
        }
        let ended = stopped.mutator.ended();
        let stand = Stand::of(&stopped.checkpointer, &stopped.log_writer, ended);
        trial
            .tally
            .hold(self.posted <= stand.acked, Rule::PostsAcknowledged);
        self.count_held(trial, stopped);
        stand.judge(trial)?;
        stand.crash(trial)
    }

    // Counts the workers that were held before their end.
    fn count_held<M: Method>(&self, trial: &mut Trial, stopped: &Workers<M>) {
        let (checkpointer, log_writer) = (&stopped.checkpointer, &stopped.log_writer);
        let (ended, sent) = (stopped.mutator.ended(), trial.model.last());
        let tally = &mut trial.tally;
        tally.hold(ended <= sent, Rule::Counts);
        tally.count_if(ended < sent && !log_writer.is_down(), Kind::MutatorCut);
        tally.count_if(
            checkpointer.images().keeper.has_open_round(),
            Kind::CheckpointerCut,
        );
        tally.count_if(log_writer.is_down(), Kind::LogWriterCut);
    }
}

// Returns the tick of a post, else 0. A refusal comes only if the log is down or the
// mutator is held.
fn heed(answer: Answer, trial: &mut Trial) -> u64 {
    match answer {
        Answer::Post(tick) => {
            trial.tally.count(Kind::Posted);
            return tick;
        }
        Answer::Lost | Answer::Fault(Refusal::LogDown) => {}
        _ => trial.tally.hold(false, Rule::AnswersAsk),
    }
    0
}
