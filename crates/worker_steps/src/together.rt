//! The workers of a world in one thread, a step of one of them at a time.
ghost use Rattle.std.specs.Prelude.{◌≡◌, ◌≤◌, IsTrue, IfOk, IfErr};
ghost use Rattle.workers.specs.Channel.{AreOneChannel};
ghost use Rattle.workers.specs.Imaging.{KeepsBack, IsAtRest as IsResting};
ghost use Rattle.workers.specs.Logging.{IsAtRest};
ghost use Rattle.worker_steps.specs.Stopped.{AreSound, HasPlayed, StaysSound, acknowledged_by};
ghost use Rattle.worker_steps.specs.Begun.{Started, workers_of, IsWhole, IsBegun};
ghost use Rattle.worker_steps.specs.Kept.{KeepsFront, KeepsLog};
ghost use Rattle.worker_steps.specs.Running.{Makes, Meets};

use crate::laws::stops_are_sound;
use crate::next::Next;
use crate::opened::{Gates, Opened};
use crate::signals::Signals;
use crate::steps::{owe_due_switch, owe_next_tick, pay, pop, stop, write_image, write_log};
use disk_model::Disk;
use shared_capture::Method;
use std::alloc::Global;
use std::sync::Wait;
use workers::{AskReceiver, Checkpointer, Gate, LogWriter, Mutator, meet_workers, open};

/// The workers of a world. A server gives each a thread. Here they make their steps in one thread.
#[derive(Drop)]
pub struct Together<M: Method, D: Disk + Drop, A: Gate + Drop, B: Gate + Drop, C: Gate + Drop> {
    pub mutator: Mutator<M, A>,
    pub checkpointer: Checkpointer<M, D, B>,
    pub log_writer: LogWriter<D, C>,
    ghost pair: { mutator.front.pair ≡ checkpointer.back.pair },
    ghost channel: { AreOneChannel log_writer.from.end mutator.to.end },
    ghost word: { log_writer.covers.pair ≡ checkpointer.covers.pair },
    ghost flag: { mutator.heard.pair ≡ log_writer.reported_down.pair },
}

impl<M: Method, D: Disk + Drop, A: Gate + Drop, B: Gate + Drop, C: Gate + Drop> Together<
    M,
    D,
    A,
    B,
    C,
> {
    /// The workers of a world as they begin. The mutator takes these asks. A round is due after
    /// every `every` ticks. Without memory for them the world is given back.
    pub fn begin<R: Wait>(
        rt: &R,
        alloc: Global,
        gates: Gates<A, B, C>,
        opened: Opened<M, D>,
        asks: AskReceiver,
        every: u32,
    ) -> Result<Self, Opened<M, D>>
        requires { IsWhole D.Disk opened }
        ensures begun { IfOk result (λ made.
            IsBegun opened every (workers_of made.mutator made.checkpointer made.log_writer)) }
        ensures asks { IfOk result (λ made. made.mutator.asks ≡ asks) }
        ensures images_rest { IfOk result (λ made.
            IsResting made.checkpointer.images.keeper made.checkpointer.back) }
        ensures log_rests { IfOk result (λ made. IsAtRest made.log_writer) }
        ensures kept { IfErr result (λ left. left ≡ opened) }
    {
        let Ok(signals) = Signals::new(alloc) else {
            return Err(opened);
        };
        let Ok((to, from)) = open(rt, alloc, opened.ended) else {
            return Err(opened);
        };
        let Opened {
            front,
            back,
            images,
            log,
            ended,
        } = opened;
        let Gates {
            mutator: play_gate,
            checkpointer: image_gate,
            log_writer: log_gate,
        } = gates;
        let Signals {
            bell: (bell, rung),
            images: (out, reported),
            down: (reported_down, heard),
        } = signals;
        match LogWriter::new(alloc, log_gate, from, reported, log, reported_down, ended) {
            Ok(log_writer) => Ok(Together {
                mutator: Mutator::new(play_gate, alloc, asks, front, to, ended, every, bell, heard),
                checkpointer: Checkpointer::new(image_gate, back, out, images, rung),
                log_writer,
            }),
            Err(log) => Err(Opened {
                front,
                back,
                images,
                log,
                ended,
            }),
        }
    }

    /// Makes the step. Whatever the steps before it were, the four files are sound after it, on
    /// disks that keep to the disk model. For this the workers meet after the step. A server's
    /// workers meet only once they have stopped.
    pub fn step<R: Wait>(&mut self, rt: &R, next: Next)
        ensures made { (mid : Started D)
            × Makes A.answers B.answers C.answers D.Disk next
            (workers_of self.old.mutator self.old.checkpointer self.old.log_writer) mid
            × Meets mid
            (workers_of self.new.mutator self.new.checkpointer self.new.log_writer) }
        ensures sound { IsTrue D.honest
            → AreSound D.Disk self.new.mutator self.new.checkpointer self.new.log_writer }
        ensures posted { self.new.log_writer.answers.posted
            ≤ acknowledged_by self.new.checkpointer self.new.log_writer }
        ensures played { HasPlayed self.new.mutator }
        ensures mutator { KeepsFront self.old.mutator self.new.mutator }
        ensures checkpointer { KeepsBack self.old.checkpointer self.new.checkpointer }
        ensures log_writer { KeepsLog self.old.log_writer self.new.log_writer }
    {
        self.make_step(rt, next);
        self.meet();
    }

    /// Makes these steps, one after the other. The files are sound after them, and after each
    /// beginning of the list.
    pub fn run<R: Wait>(&mut self, rt: &R, steps: Vec<Next>)
        ensures sound { IsTrue D.honest
            → AreSound D.Disk self.new.mutator self.new.checkpointer self.new.log_writer }
        ensures posted { self.new.log_writer.answers.posted
            ≤ acknowledged_by self.new.checkpointer self.new.log_writer }
        ensures mutator { KeepsFront self.old.mutator self.new.mutator }
        ensures checkpointer { KeepsBack self.old.checkpointer self.new.checkpointer }
        ensures log_writer { KeepsLog self.old.log_writer self.new.log_writer }
    {
        self.meet();
        for next in steps {
            self.step(rt, next);
        }
    }

    // One worker makes the step, and the others stay as they are.
    fn make_step<R: Wait>(&mut self, rt: &R, next: Next)
        ensures made { Makes A.answers B.answers C.answers D.Disk next
            (workers_of self.old.mutator self.old.checkpointer self.old.log_writer)
            (workers_of self.new.mutator self.new.checkpointer self.new.log_writer) }
        ensures mutator { KeepsFront self.old.mutator self.new.mutator }
        ensures checkpointer { KeepsBack self.old.checkpointer self.new.checkpointer }
        ensures log_writer { KeepsLog self.old.log_writer self.new.log_writer }
    {
        match next {
            Next::Play => owe_next_tick(rt, &mut self.mutator),
            Next::Mark => owe_due_switch(&mut self.mutator),
            Next::Push => pay(rt, &mut self.mutator),
            Next::Stop => stop(rt, &mut self.mutator),
            Next::Pop => pop(rt, &mut self.log_writer),
            Next::Log => write_log(rt, &mut self.log_writer),
            Next::Image => write_image(rt, &mut self.checkpointer),
        }
    }

    // Each worker learns what the others did. Nothing else of the workers changes, and
    // nothing of the files.
    fn meet(&mut self)
        ensures sound { IsTrue D.honest
            → AreSound D.Disk self.new.mutator self.new.checkpointer self.new.log_writer }
        ensures posted { self.new.log_writer.answers.posted
            ≤ acknowledged_by self.new.checkpointer self.new.log_writer }
        ensures played { HasPlayed self.new.mutator }
        ensures meets { Meets
            (workers_of self.old.mutator self.old.checkpointer self.old.log_writer)
            (workers_of self.new.mutator self.new.checkpointer self.new.log_writer) }
        ensures mutator { KeepsFront self.old.mutator self.new.mutator }
        ensures checkpointer { KeepsBack self.old.checkpointer self.new.checkpointer }
        ensures log_writer { KeepsLog self.old.log_writer self.new.log_writer }
    {
        stops_are_sound::<D>();
        meet_workers(
            &mut self.mutator,
            &mut self.checkpointer,
            &mut self.log_writer,
        );
    }
}

/// Runs a world by these steps of its workers, whatever the steps are. The mutator takes these
/// asks. Recovery after a crash then gives the world after the ticks with which the workers began
/// and the first of those that were played. No acknowledged tick is lost.
pub fn run_world<
    R: Wait,
    M: Method,
    D: Disk + Drop,
    A: Gate + Drop,
    B: Gate + Drop,
    C: Gate + Drop,
>(
    rt: &R,
    alloc: Global,
    gates: Gates<A, B, C>,
    opened: Opened<M, D>,
    asks: AskReceiver,
    every: u32,
    steps: Vec<Next>,
) -> Result<Together<M, D, A, B, C>, Opened<M, D>>
    requires { IsWhole D.Disk opened }
    ensures sound { IsTrue D.honest → IfOk result (λ world.
        StaysSound D.Disk opened world.mutator world.checkpointer world.log_writer) }
    ensures posted { IfOk result (λ world.
        world.log_writer.answers.posted ≤ acknowledged_by world.checkpointer world.log_writer) }
{
    let mut world = Together::begin(rt, alloc, gates, opened, asks, every)?;
    world.run(rt, steps);
    Ok(world)
}
