ghost use Rattle.std.specs.Prelude.{◌≡◌, ◌⊎◌, ◌<◌, ◌≤◌, ◌++◌, ◌∷◌, [], ℕ, List, true, false};
ghost use Rattle.std.specs.Prelude.{length, take, IsOk, OnOk, IfOk, IfErr, Ok, Err, Result};
ghost use Rattle.std.specs.Io.KnownBytes.{Appends, Keeps, Consumes, IsAtEnd};
ghost use Rattle.world_actions.specs.declared.refusal.Refusal.{Refusal as Reason};
ghost use Rattle.batches.specs.Answer.{fault_text};
ghost use Rattle.byte_streams.specs.Front.{IsFront};
ghost use Rattle.sessions.specs.Session.{line_of, IsSession, IsCutOff};
ghost use Rattle.sessions.specs.Progress.{Stands, Goes, EndsBy};

use crate::world::World;
use arrayvec::ArrayString;
use batches::{Batch, BatchReader, Fed};
use byte_streams::{read_some, write_whole};
use itoa::Buffer;
use line_grammar::one_reading;
use std::alloc::Global;
use std::io::{Read, Write};
use world_actions::Refusal;

/// How many bytes are read at once.
const PIECE_BYTES: usize = 4_096;

/// More bytes than the line of a refused batch has.
const FAULT_BYTES: usize = 16;

/// Answers the batches that the reader gives with one line each, and writes nothing else. It ends
/// with `BadLine` if a batch is too long, with `Device` after a fault of reader or writer, and with
/// `NoMemory` before anything is read.
pub fn serve_lines<R: Read, W: Write, X: World>(
    alloc: Global,
    r: &mut R,
    w: &mut W,
    world: &mut X,
) -> Result<(), Refusal>
    ensures whole { OnOk result (IsAtEnd (R.remaining r.new)
        × (input : List ℕ) × Consumes (R.remaining r.old) (R.remaining r.new) input
        × (text : List ℕ) × Appends (W.contents w.old) (W.contents w.new) text
        × IsSession X.runs world.old input text world.new false) }
    ensures too_long { result ≡ Err Refusal.BadLine
        → (input : List ℕ) × Consumes (R.remaining r.old) (R.remaining r.new) input
        × (text : List ℕ) × Appends (W.contents w.old) (W.contents w.new) text
        × IsSession X.runs world.old input text world.new true }
    ensures cut_off { result ≡ Err Refusal.Device
        → (input : List ℕ) × Consumes (R.remaining r.old) (R.remaining r.new) input
        × (written : List ℕ) × Appends (W.contents w.old) (W.contents w.new) written
        × IsCutOff X.runs world.old input written world.new }
    ensures memory { result ≡ Err Refusal.NoMemory
        → (r.new ≡ r.old) × (w.new ≡ w.old) × (world.new ≡ world.old) }
    ensures fault { IfErr result (λ refusal. (refusal ≡ Refusal.NoMemory)
        ⊎ ((refusal ≡ Refusal.BadLine) ⊎ (refusal ≡ Refusal.Device))) }
{
    let reader = BatchReader::new(alloc)?;
    let mut session = Session {
        reader,
        text: Vec::new(alloc),
    };
    serve_pieces(&mut session, r, w, world)
}

// The batch that has begun, and the text that answers it.
#[derive(Drop)]
struct Session {
    reader: BatchReader,
    text: Vec<u8>,
}

// Reads piece after piece.
fn serve_pieces<R: Read, W: Write, X: World>(
    session: &mut Session,
    r: &mut R,
    w: &mut W,
    world: &mut X,
) -> Result<(), Refusal>
    requires { Stands X.runs world.old [] session.old.reader world.old [] }
    ensures whole { OnOk result (IsAtEnd (R.remaining r.new)
        × (input : List ℕ) × Consumes (R.remaining r.old) (R.remaining r.new) input
        × (text : List ℕ) × Appends (W.contents w.old) (W.contents w.new) text
        × IsSession X.runs world.old input text world.new false) }
    ensures fault { IfErr result (λ refusal. (input : List ℕ)
        × Consumes (R.remaining r.old) (R.remaining r.new) input
        × (text : List ℕ) × Appends (W.contents w.old) (W.contents w.new) text
        × (((refusal ≡ Refusal.BadLine) × IsSession X.runs world.old input text world.new true)
        ⊎ ((refusal ≡ Refusal.Device) × IsCutOff X.runs world.old input text world.new))) }
{
    let mut piece = [0; PIECE_BYTES];
    for _ in 0..u64::MAX {
        let n = read_some(r, &mut piece)?;
        if n == 0 {
            return Ok(());
        }
        serve_piece(session, &piece[..n], w, world)?;
    }
    Err(Refusal::Device)
}

// Goes through the next bytes, and answers each batch that ends in them.
fn serve_piece<W: Write, X: World>(
    session: &mut Session,
    piece: &[u8],
    w: &mut W,
    world: &mut X,
) -> Result<(), Refusal>
    ensures done { OnOk result
        ((written : List ℕ) × Appends (W.contents w.old) (W.contents w.new) written
        × Goes X.runs world.old session.old.reader piece.now session.new.reader world.new written) }
    ensures fault { IfErr result (λ refusal. (written : List ℕ)
        × Appends (W.contents w.old) (W.contents w.new) written
        × EndsBy X.runs world.old session.old.reader piece.now refusal world.new written) }
{
    let mut at = 0;
    while at < piece.len() {
        at += serve_some(session, &piece[at..], w, world)?;
    }
    Ok(())
}

// Takes bytes up to the end of a batch, and answers it.
fn serve_some<W: Write, X: World>(
    session: &mut Session,
    piece: &[u8],
    w: &mut W,
    world: &mut X,
) -> Result<usize, Refusal>
    requires { 0 < length piece.now }
    ensures count { IfOk result (λ n. (0 < n) × (n ≤ length piece.now)) }
    ensures done { IfOk result (λ n. (written : List ℕ)
        × Appends (W.contents w.old) (W.contents w.new) written
        × Goes X.runs world.old session.old.reader (take n piece.now)
        session.new.reader world.new written) }
    ensures fault { IfErr result (λ refusal. (written : List ℕ)
        × Appends (W.contents w.old) (W.contents w.new) written
        × EndsBy X.runs world.old session.old.reader piece.now refusal world.new written) }
{
    one_reading();
    let (n, fed) = session.reader.take(piece);
    match fed {
        Fed::More => Ok(n),
        Fed::Whole => {
            answer_batch(session.reader.batch(), &mut session.text, w, world)?;
            session.reader.clear();
            Ok(n)
        }
        Fed::TooLong => {
            write_fault(w, Refusal::BadLine)?;
            Err(Refusal::BadLine)
        }
    }
}

// Writes the line that answers a batch.
fn answer_batch<W: Write, X: World>(
    batch: &Batch,
    text: &mut Vec<u8>,
    w: &mut W,
    world: &mut X,
) -> Result<(), Refusal>
    ensures done { OnOk result ((given : Result (List ℕ) Reason)
        × X.runs world.old batch.now.list given world.new
        × Appends (W.contents w.old) (W.contents w.new) (line_of given)) }
    ensures fault { IfErr result (λ refusal. (refusal ≡ Refusal.Device)
        × (given : Result (List ℕ) Reason)
        × X.runs world.old batch.now.list given world.new
        × (front : List ℕ) × IsFront front (line_of given)
        × Appends (W.contents w.old) (W.contents w.new) front) }
{
    match world.batch(batch, text) {
        Ok(()) => write_whole(w, text),
        Err(refusal) => write_fault(w, refusal),
    }
}

// Writes the line of a refused batch. It takes no memory.
fn write_fault<W: Write>(w: &mut W, refusal: Refusal) -> Result<(), Refusal>
    ensures done { OnOk result
        (Appends (W.contents w.old) (W.contents w.new) (fault_text refusal)) }
    ensures fault { IfErr result (λ error. (error ≡ Refusal.Device)
        × (front : List ℕ) × IsFront front (fault_text refusal)
        × Appends (W.contents w.old) (W.contents w.new) front) }
{
    let line = fault_line(refusal);
    write_whole(w, line.as_bytes())
}

// The line of a refused batch.
fn fault_line(refusal: Refusal) -> ArrayString<FAULT_BYTES>
    ensures { result.bytes ≡ fault_text refusal }
{
    let mut digits = Buffer::new();
    let mut line = ArrayString::new();
    let _ = line.try_push_str("fault ");
    let _ = line.try_push_str(digits.format(refusal.code()));
    let _ = line.try_push_str("\n");
    line
}
