ghost use Rattle.std.specs.Prelude.{ℕ, List, length, IfOk};
ghost use Rattle.std.specs.Io.KnownBytes.{Consumes};
ghost use Rattle.world_load.specs.Answer.{all_accepted, AreAnswers};

use crate::checker::Checker;
use crate::failure::{Failure, unexpected};
use crate::load::Load;
use crate::progress::Progress;
use std::alloc::{AllocError, Global};
use std::io::{self, BufRead, Write};
use std::marker::Model;
use std::time::{Clock, Instant};
use trial_kit::{Random, nanoseconds_of};
use world_actions::LIMIT;

/// The most batches of a connection.
const MOST_BATCHES: u64 = 1 << 40;

/// Sends batch after batch over a connection, each once the last one is answered. It returns how
/// many nanoseconds each waited. It ends early if another client failed.
pub fn play<R: Clock, A: BufRead, W: Write>(
    rt: &R,
    alloc: Global,
    answers: &mut A,
    requests: &mut W,
    load: &Load,
    seed: u64,
    progress: &Progress,
) -> Result<Vec<u64>, Failure>
    ensures { IfOk result (λ latencies. (bytes : List ℕ)
        × Consumes (A.remaining answers.old) (A.remaining answers.new) bytes
        × AreAnswers (all_accepted load.now.lines) (length latencies.items) bytes) }
{
    let mut client = Client::new(alloc, load.lines, seed)?;
    let mut latencies = Vec::new(alloc);
    client.exchange_all(rt, alloc, answers, requests, load, progress, &mut latencies)?;
    Ok(latencies)
}

/// A client of a load: it sends lines by its random numbers, and checks each answer.
#[derive(Drop)]
struct Client {
    random: Random,
    checker: Checker,
    batch: Vec<u8>,
    answer: Vec<u8>,
}

impl Model for Client {
    ghost use Rattle.world_load.specs.Answer.{Checking};

    ghost Value = { Checking };

    ghost view = { λ client. client.checker };
}

impl Client {
    ghost use Rattle.std.specs.Prelude.{◌≡◌, ◌<◌, ℕ, List, [], length, IfOk, OnOk};
    ghost use Rattle.std.specs.Io.KnownBytes.{Consumes};
    ghost use Rattle.world_load.specs.Answer.{all_accepted, answer_with, AreAnswersUpTo};

    // A client with batches of this number of lines, which has sent nothing.
    fn new(alloc: Global, lines: u32, seed: u64) -> Result<Self, AllocError>
        ensures { IfOk result (λ client. client ≡ record { end = all_accepted lines; last = 0 }) }
    {
        Ok(Client {
            random: Random::new(seed),
            checker: Checker::new(alloc, lines)?,
            batch: Vec::new(alloc),
            answer: Vec::new(alloc),
        })
    }

    // Sends as many batches as are asked for, or as there is time for.
    fn exchange_all<R: Clock, A: BufRead, W: Write>(
        &mut self,
        rt: &R,
        alloc: Global,
        answers: &mut A,
        requests: &mut W,
        load: &Load,
        progress: &Progress,
        latencies: &mut Vec<u64>,
    ) -> Result<(), Failure>
        requires none { latencies.old.items ≡ [] }
        requires fresh { self.old.last ≡ 0 }
        ensures { OnOk result
            ((bytes : List ℕ) × Consumes (A.remaining answers.old) (A.remaining answers.new) bytes
            × AreAnswersUpTo self.new.last self.old.end (length latencies.new.items) bytes) }
    {
        let begin = Instant::now(rt)?;
        for _ in 0..load.batches.map_or(MOST_BATCHES, u64::from) {
            let waited = self.exchange(rt, alloc, answers, requests, load)?;
            latencies.push(waited)?;
            progress.batch_answered();
            if progress.has_failed() || is_over(rt, begin, load)? {
                return Ok(());
            }
        }
        Ok(())
    }

    // Sends a batch, and waits for its answer: how many nanoseconds that took.
    fn exchange<R: Clock, A: BufRead, W: Write>(
        &mut self,
        rt: &R,
        alloc: Global,
        answers: &mut A,
        requests: &mut W,
        load: &Load,
    ) -> Result<u64, Failure>
        ensures answer { OnOk result (Consumes (A.remaining answers.old) (A.remaining answers.new)
            (answer_with self.old.end self.new.last)) }
        ensures later { OnOk result (self.old.last < self.new.last) }
        ensures same_end { self.new.end ≡ self.old.end }
    {
        put_batch(&mut self.batch, load, &mut self.random)?;
        let sent = Instant::now(rt)?;
        requests.write_all(&self.batch)?;
        self.answer.clear();
        answers.read_until(b'\n', &mut self.answer)?;
        let waited = nanoseconds_of(sent.elapsed(rt)?);
        if !self.checker.hear(&self.answer) {
            return Err(unexpected(alloc, self.checker.last(), load, &self.answer));
        }
        Ok(waited)
    }
}

// True if the seconds of a load have passed.
fn is_over<R: Clock>(rt: &R, begin: Instant, load: &Load) -> io::Result<bool> {
    Ok(begin.elapsed(rt)?.as_secs() >= u64::from(load.seconds))
}

// Makes the next batch in place of the last one.
fn put_batch(batch: &mut Vec<u8>, load: &Load, random: &mut Random) -> Result<(), Failure> {
    batch.clear();
    for _ in 0..load.lines {
        let cell = random.below(u64::from(load.cells));
        let value = random.below(LIMIT);
        writeln!(batch, "set {cell} {value}")?;
    }
    batch.extend_from_slice(b"end\n")?;
    Ok(())
}
