// `sessions`
use super::same::same;
use sessions::{Batch, BatchReader, Fed, Request, World, answer_text, serve_lines};
use std::alloc::Global;
use std::process::Abort;
use world_actions::{Action, Refusal};
use world_ticks::{Cells, Tick, Words};

const BATCH: &[u8] = b"set 0 5\nget 0\nmove 0 1 9\nfoo\nend\n";

const ANSWER: &[u8] = b"tick 1: + =5 -3 -16\n";

const REQUESTS: [Request; 4] = [
    Request::Act(Action::Set { cell: 0, value: 5 }),
    Request::Get(0),
    Request::Act(Action::Transfer {
        from: 0,
        to: 1,
        amount: 9,
    }),
    Request::Bad,
];

// A copy of the batch that a reader reads.
fn read(rt: &impl Abort, alloc: Global) -> Result<Batch, Refusal> {
    let mut reader: BatchReader = BatchReader::new(alloc)?;
    let fed: (usize, Fed) = reader.take(BATCH);
    same(rt, fed, (BATCH.len(), Fed::Whole));
    let batch: &Batch = reader.batch();
    batch.try_copy(Batch::empty(alloc))
}

// Answers a batch as the first tick.
fn answer<C: Cells>(alloc: Global, store: &mut C, batch: &Batch) -> Result<Vec<u8>, Refusal> {
    let (mut text, mut tick) = (Vec::new(alloc), Tick::new(alloc));
    answer_text(&mut text, store, &mut tick, batch, 1)?;
    Ok(text)
}

#[test]
fn a_batch_is_answered(rt: HostRuntime) {
    let batch = read(&rt, rt.alloc()).expect(&rt, "memory");
    same(&rt, batch.requests(), REQUESTS.as_slice());
    let mut words = Words::new(vec![in rt.alloc(); 0, 0].expect(&rt, "memory"));
    let text = answer(rt.alloc(), &mut words, &batch).expect(&rt, "memory");
    same(&rt, text.as_slice(), ANSWER);
}

// A world in memory, each of whose batches is answered as its first.
#[derive(Drop)]
struct Memory {
    alloc: Global,
    words: Words,
}

impl World for Memory {
    ghost use Rattle.std.specs.Prelude.{⊤};

    ghost runs = { λ old requests given new. ⊤ };

    fn batch(&mut self, b: &Batch, text: &mut Vec<u8>) -> Result<(), Refusal> {
        *text = answer(self.alloc, &mut self.words, b)?;
        Ok(())
    }
}

// Serves a session on any world.
fn serve<X: World>(alloc: Global, world: &mut X) -> (Result<(), Refusal>, Vec<u8>) {
    let (mut input, mut text) = (BATCH, Vec::new(alloc));
    let ended: Result<(), Refusal> = serve_lines(alloc, &mut input, &mut text, world);
    (ended, text)
}

#[test]
fn a_session_is_served(rt: HostRuntime) {
    let words = Words::new(vec![in rt.alloc(); 0, 0].expect(&rt, "memory"));
    let mut world = Memory {
        alloc: rt.alloc(),
        words,
    };
    let (ended, text) = serve(rt.alloc(), &mut world);
    same(&rt, ended, Ok(()));
    same(&rt, text.as_slice(), ANSWER);
}
