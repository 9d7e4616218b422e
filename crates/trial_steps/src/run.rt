use crate::moment::Moment;
use crate::session::{Answer, Session};
use crate::stand::Stand;
use crate::tally::{Kind, Rule};
use crate::trial::Trial;
use crate::world::World;
use shared_capture::Method;
use std::sync::Wait;
use trial_kit::Random;
use worker_steps::Next;
use world_actions::Refusal;
use world_ticks::TICK_MAX;

/// How many sessions there are: more than items go into the channel.
pub const SESSIONS: u64 = 80;

/// How many items go into the channel. A push on a full one waits for a pop, which can't
/// come in one thread.
const ROOM: u64 = 64;

/// How often each step is chosen, of a thousand: play, mark, end, pop, log, and else image.
const WEIGHTS: [[u64; 5]; 5] = [
    [150, 60, 1, 150, 240],
    [200, 60, 0, 140, 4],
    [80, 40, 2, 250, 500],
    [150, 100, 0, 150, 40],
    [60, 60, 0, 60, 80],
];

const STEPS: [Kind; 5] = [Kind::Play, Kind::Mark, Kind::End, Kind::Pop, Kind::Log];

/// A running world, and the sessions that play it.
#[derive(Drop)]
pub struct Run<M: Method> {
    world: World<M>,
    sessions: Vec<Session>,
    every: u64,
    // The index of the weights in use.
    weights: u64,
    // The number of the session that asks next.
    next: u64,
    // The tick of the last round, or of the start. `is_open` is true if the image of that round is
    // still to be opened.
    marked: u64,
    is_open: bool,
    // The most items that may have been pushed, and the least of them that were popped.
    pushed: u64,
    popped: u64,
    // True if the mutator may owe an item, and the session whose tick it owes.
    owes: bool,
    owed: Option<u64>,
    // True if the mutator's gate is stuck.
    is_held: bool,
}

impl<M: Method> Run<M> {
    /// A world that has begun, and the sessions that play it. A round is due after
    /// each `every` ticks.
    pub fn new(world: World<M>, sessions: Vec<Session>, every: u32) -> Self {
        let ended = world.ended();
        Run {
            world,
            sessions,
            every: u64::from(every),
            weights: 0,
            next: 0,
            marked: ended,
            is_open: false,
            pushed: 0,
            popped: 0,
            owes: false,
            owed: None,
            is_held: false,
        }
    }

    /// The files and the counts of the workers.
    pub fn stand(&self) -> Stand<'_> {
        self.world.stand()
    }

    /// Judges if the world was opened at the model's tick.
    pub fn opens_there(&self, trial: &mut Trial) {
        let is_right = self.world.ended() == trial.model.last();
        trial.tally.hold(is_right, Rule::OpensThere);
    }

    /// True if a worker makes no more steps.
    pub fn is_stopped(&self) -> bool {
        let log_writer = self.world.log_writer();
        self.is_held
            || self.world.checkpointer().is_over()
            || log_writer.is_over()
            || log_writer.is_down()
    }

    /// Makes a random step, and judges the files after it.
    pub fn step<R: Wait>(&mut self, rt: &R, trial: &mut Trial) -> Result<(), Refusal> {
        let step = self.choose(&mut trial.random);
        if step == Kind::Play {
            trial.draw_batch();
        }
        self.make(rt, trial, step)?;
        self.stand().judge(trial)
    }

    /// Makes a step, and judges the answers.
    pub fn make<R: Wait>(&mut self, rt: &R, trial: &mut Trial, step: Kind) -> Result<(), Refusal> {
        let before = Moment::of(&self.world);
        trial.tally.count(step);
        self.go(rt, trial, step)?;
        before.report(step, &Moment::of(&self.world), &mut trial.tally);
        let is_right = self.world.ended() == trial.model.last();
        trial.tally.hold(is_right, Rule::Counts);
        self.look(rt, trial);
        Ok(())
    }

    fn go<R: Wait>(&mut self, rt: &R, trial: &mut Trial, step: Kind) -> Result<(), Refusal> {
        match step {
            Kind::Play => return self.play(rt, trial),
            Kind::Push => return self.push(rt, trial),
            Kind::Mark => self.mark(rt),
            Kind::End => self.end(rt),
            Kind::Pop => self.world.step(rt, Next::Pop),
            Kind::Log => self.world.step(rt, Next::Log),
            _ => self.world.step(rt, Next::Image),
        }
        Ok(())
    }

    /// Lets the log write all that it has.
    pub fn log_all<R: Wait>(&mut self, rt: &R, trial: &mut Trial) -> Result<(), Refusal> {
        for _ in 0..ROOM {
            if !self.world.log_writer().has_work() {
                break;
            }
            self.make(rt, trial, Kind::Log)?;
        }
        Ok(())
    }

    fn choose(&mut self, random: &mut Random) -> Kind {
        if random.percent(2) {
            self.weights = random.below(WEIGHTS.len() as u64);
        }
        self.next = random.below(SESSIONS);
        let step = drawn(self.weights, random);
        let pushes = step == Kind::Play || step == Kind::Mark || step == Kind::End;
        if pushes && self.owes {
            return Kind::Push;
        }
        let is_full = self.pushed.saturating_sub(self.popped) >= ROOM;
        if pushes && is_full || step == Kind::Play && !self.is_next_idle() {
            return Kind::Log;
        }
        step
    }

    fn is_next_idle(&self) -> bool {
        match self.sessions.get(self.next as usize) {
            Some(session) => session.is_idle(),
            None => false,
        }
    }

    // Lets the next session ask for the drafted batch. The batch is run, and its tick owed, or it
    // is refused at once.
    fn play<R: Wait>(&mut self, rt: &R, trial: &mut Trial) -> Result<(), Refusal> {
        let Some(session) = self.sessions.get_mut(self.next as usize) else {
            return Ok(());
        };
        let may_run = !self.is_held && !self.world.log_writer().is_down();
        session.ask(rt, trial.alloc, trial.draft.batch())?;
        self.world.step(rt, Next::Play);
        match session.look(rt, &trial.model) {
            Some(answer) => self.heed_fault(answer, trial),
            None => {
                trial.tally.hold(may_run, Rule::Refuses);
                self.owes = true;
                self.owed = Some(self.next);
            }
        }
        Ok(())
    }

    // Pushes the owed item: the tick of a session's batch, or a switch.
    fn push<R: Wait>(&mut self, rt: &R, trial: &mut Trial) -> Result<(), Refusal> {
        let ended = self.world.ended();
        self.world.step(rt, Next::Push);
        self.owes = false;
        let has_ended = self.world.ended() > ended;
        trial
            .tally
            .hold(has_ended == self.owed.is_some(), Rule::Counts);
        let Some(number) = self.owed.take() else {
            return Ok(());
        };
        let tick = trial.play()?;
        self.pushed = self.pushed.saturating_add(1);
        if let Some(session) = self.sessions.get_mut(number as usize) {
            session.runs(tick, self.pushed);
        }
        Ok(())
    }

    // Makes a mark step. It opens a round if one is due and the image of the last one is open.
    fn mark<R: Wait>(&mut self, rt: &R) {
        let ended = self.world.ended();
        self.world.step(rt, Next::Mark);
        self.owes = true;
        if let Some(tick) = self.world.newest() {
            self.is_open = self.is_open && tick < self.marked;
        }
        if !self.is_open && ended.saturating_sub(self.marked) >= self.every {
            self.pushed = self.pushed.saturating_add(1);
            self.marked = ended;
            self.is_open = true;
        }
    }

    fn end<R: Wait>(&mut self, rt: &R) {
        self.world.step(rt, Next::Stop);
        self.pushed = self.pushed.saturating_add(1);
    }

    // Judges the answers that have come to sessions.
    fn look<R: Wait>(&mut self, rt: &R, trial: &mut Trial) {
        let acked = self.stand().acked;
        let log_down = self.world.log_writer().is_down();
        for session in &mut self.sessions {
            let pushed = session.pushed();
            if let Some(answer) = session.look(rt, &trial.model) {
                heed(answer, acked, log_down, trial);
                self.popped = self.popped.max(pushed);
            }
        }
    }

    // Counts the reason why a batch isn't run, and judges it.
    fn heed_fault(&mut self, answer: Answer, trial: &mut Trial) {
        let log_down = self.world.log_writer().is_down();
        match answer {
            Answer::Fault(Refusal::LogDown) if log_down => trial.tally.count(Kind::LogIsDown),
            Answer::Fault(Refusal::LogDown) => {
                trial.tally.count_if(!self.is_held, Kind::MutatorStuck);
                self.is_held = true;
            }
            Answer::Fault(Refusal::SegmentFull) => trial.tally.count(Kind::SegmentFull),
            Answer::Fault(Refusal::TicksEnded) => {
                trial.tally.count(Kind::TicksEnded);
                trial
                    .tally
                    .hold(trial.model.last() == TICK_MAX, Rule::Refuses);
            }
            _ => trial.tally.hold(false, Rule::Refuses),
        }
    }
}

// Counts an answer, and judges it. A post is of an acknowledged tick. A batch that was run is
// refused only if the log is down.
fn heed(answer: Answer, acked: u64, log_down: bool, trial: &mut Trial) {
    match answer {
        Answer::Post(tick) => {
            trial.tally.count(Kind::Posted);
            trial.tally.hold(tick <= acked, Rule::PostsAcknowledged);
        }
        Answer::Lost => {
            trial.tally.count(Kind::LogWentDown);
            trial.tally.hold(log_down, Rule::Refuses);
        }
        _ => trial.tally.hold(false, Rule::AnswersAsk),
    }
}

// Draws a step by these weights.
fn drawn(weights: u64, random: &mut Random) -> Kind {
    let mut rest = random.below(1000);
    let Some(weights) = WEIGHTS.get(weights as usize) else {
        return Kind::Image;
    };
    for (weight, step) in weights.iter().zip(&STEPS) {
        if rest < *weight {
            return *step;
        }
        rest = rest.saturating_sub(*weight);
    }
    Kind::Image
}
