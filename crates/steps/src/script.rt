ghost use Rattle.std.specs.Prelude.{◌≡◌, ◌++◌, ◌∷◌, ℕ, List, [], Option, OnOk, OnErr, IfOk, IfErr};
ghost use Rattle.std.specs.Prelude.{IfSome, None, Some, option_map};
ghost use Rattle.std.specs.Io.KnownBytes.{Appends, IsAtEnd};
ghost use Rattle.steps.specs.declared.line.Line.{Line};
ghost use Rattle.steps.specs.Line.{LineMeans, LineIsInBounds};
ghost use Rattle.steps.specs.OpenCore.{open_state_of};
ghost use Rattle.steps.specs.Script.{IsScriptText, IsFault, IsCutOff, AnswersEach};
ghost use Rattle.line_grammar.specs.Kept.{KeptMeans};
ghost use Rattle.byte_streams.specs.Front.{IsFront};
ghost use Rattle.steps.specs.Progress.{LineLeads, LeadsOn, Completes, BreaksOff};

use crate::line::{Line, read_line};
use crate::open_core::OpenCore;
use crate::text::{push_answer, push_bytes};
use byte_streams::{read_some, write_whole};
use line_grammar::{KeptLine, command_length};
use std::alloc::Global;
use std::io::{Read, Write};
use std::marker::Model;
use world_actions::Refusal;
use world_core::Answer;

/// How many bytes are read at once. Answers of at least so many bytes are written before
/// their piece is over.
const PIECE_BYTES: usize = 4096;

/// Runs the script that the reader gives, and writes its text and nothing else. `NoMemory` and
/// `Device` end it. The written answers are then whole, except that the last one is cut if the
/// writer failed in it. The answers to bytes that were read at once are written together.
pub fn run_script<R: Read, W: Write>(alloc: Global, r: &mut R, w: &mut W) -> Result<(), Refusal>
    ensures whole { OnOk result (IfSome (R.remaining r.old) (λ input. (text : List ℕ)
        × IsScriptText input text × Appends (W.contents w.old) (W.contents w.new) text)) }
    ensures end { OnOk result (IsAtEnd (R.remaining r.new)) }
    ensures cut_off { IfErr result (λ refusal.
        IfSome (R.remaining r.old) (λ input. (written : List ℕ)
        × IsCutOff input written refusal × Appends (W.contents w.old) (W.contents w.new) written)) }
    ensures fault { IfErr result IsFault }
{
    let mut script = Script::new(alloc)?;
    let mut text = Vec::new(alloc);
    let mut piece = [0; PIECE_BYTES];
    for _ in 0..u64::MAX {
        let n = read_some(r, &mut piece)?;
        if n == 0 {
            script.finish(&mut text, w)?;
            return Ok(());
        }
        script.take_piece(&piece[..n], &mut text, w)?;
    }
    Err(Refusal::Device)
}

/// A law: a script's text is answers, one for each line of its input.
pub fn script_answers_each_line()
    ensures { (input text : List ℕ) → IsScriptText input text → AnswersEach input text }
{}

/// The open core, the bytes that are kept of the line that has not ended, and a buffer for the
/// answer to a line.
#[derive(Drop)]
struct Script {
    alloc: Global,
    core: Option<OpenCore>,
    line: KeptLine,
    answer: Vec<u8>,
}

impl Model for Script {
    ghost use Rattle.std.specs.Prelude.{option_map};
    ghost use Rattle.steps.specs.OpenCore.{open_state_of};
    ghost use Rattle.steps.specs.Progress.{ScriptState};

    ghost Value = { ScriptState };

    ghost view = { λ script. record {
      core = option_map open_state_of script.core;
      kept = script.line;
    } };
}

impl Script {
    // A script at its beginning: nothing was read.
    fn new(alloc: Global) -> Result<Self, Refusal>
        ensures fresh { IfOk result (λ script. script ≡ record { core = None; kept = [] }) }
        ensures memory { IfErr result (λ refusal. refusal ≡ Refusal.NoMemory) }
    {
        Ok(Script {
            alloc,
            core: None,
            line: KeptLine::new(alloc)?,
            answer: Vec::new(alloc),
        })
    }

    // Goes through the next bytes of the input, and answers each line that ends in them. No answer
    // waits after them.
    fn take_piece<W: Write>(
        &mut self,
        piece: &[u8],
        text: &mut Vec<u8>,
        w: &mut W,
    ) -> Result<(), Refusal>
        requires { text.old.items ≡ [] }
        ensures done { OnOk result ((text.new.items ≡ []) × (written : List ℕ)
            × Appends (W.contents w.old) (W.contents w.new) written
            × LeadsOn self.old piece.now self.new written) }
        ensures fault { IfErr result (λ refusal. IsFault refusal
            × (written : List ℕ) × Appends (W.contents w.old) (W.contents w.new) written
            × ((left : List ℕ) → BreaksOff self.old (piece.now ++ left) written refusal)) }
    {
        for byte in piece {
            match self.take_byte(*byte, text) {
                Ok(()) => write_long(text, w)?,
                Err(refusal) => {
                    write_out(text, w)?;
                    return Err(refusal);
                }
            }
        }
        write_out(text, w)?;
        Ok(())
    }

    // Takes a byte of the line, or answers the line that ends.
    fn take_byte(&mut self, byte: u8, text: &mut Vec<u8>) -> Result<(), Refusal>
        ensures done { OnOk result ((said : List ℕ) × (text.new.items ≡ text.old.items ++ said)
            × LeadsOn self.old (byte ∷ []) self.new said) }
        ensures same { OnErr result (text.new.items ≡ text.old.items) }
        ensures memory { IfErr result (λ refusal. refusal ≡ Refusal.NoMemory) }
    {
        if byte == b'\n' {
            self.answer_line(text)?;
            return Ok(());
        }
        self.line.push(byte);
        Ok(())
    }

    // Answers the line that is left at the end of the input, if there is one.
    fn finish<W: Write>(&mut self, text: &mut Vec<u8>, w: &mut W) -> Result<(), Refusal>
        requires { text.old.items ≡ [] }
        ensures done { OnOk result
            ((written : List ℕ) × Appends (W.contents w.old) (W.contents w.new) written
            × Completes self.old written) }
        ensures fault { IfErr result (λ refusal. IsFault refusal
            × (written : List ℕ) × Appends (W.contents w.old) (W.contents w.new) written
            × BreaksOff self.old [] written refusal) }
    {
        if self.line.bytes().is_empty() {
            return Ok(());
        }
        self.answer_line(text)?;
        write_out(text, w)?;
        Ok(())
    }

    // Answers the kept line, and keeps nothing of it. If memory runs out, it adds no
    // part of the answer.
    fn answer_line(&mut self, text: &mut Vec<u8>) -> Result<(), Refusal>
        ensures done { OnOk result
            ((meaning : Option Line) × KeptMeans LineMeans self.old.kept meaning
            × (said : List ℕ)
            × LineLeads meaning self.old.core said self.new.core × (self.new.kept ≡ [])
            × (text.new.items ≡ text.old.items ++ (said ++ 10 ∷ []))) }
        ensures same { OnErr result (text.new.items ≡ text.old.items) }
        ensures memory { IfErr result (λ refusal. refusal ≡ Refusal.NoMemory) }
    {
        let meaning = read_kept(self.line.bytes());
        self.line.clear();
        self.answer.clear();
        push_reply(self.alloc, &mut self.core, meaning, &mut self.answer)?;
        push_bytes(&mut self.answer, b"\n")?;
        push_bytes(text, &self.answer)?;
        Ok(())
    }
}

// Writes answers, and keeps nothing of them.
fn write_out<W: Write>(text: &mut Vec<u8>, w: &mut W) -> Result<(), Refusal>
    ensures whole { OnOk result
        ((text.new.items ≡ []) × Appends (W.contents w.old) (W.contents w.new) text.old.items) }
    ensures fault { IfErr result (λ refusal. (refusal ≡ Refusal.Device)
        × (front : List ℕ) × IsFront front text.old.items
        × Appends (W.contents w.old) (W.contents w.new) front) }
{
    write_whole(w, text)?;
    text.clear();
    Ok(())
}

// Writes the answers, if they are as long as a piece.
fn write_long<W: Write>(text: &mut Vec<u8>, w: &mut W) -> Result<(), Refusal>
    ensures done { OnOk result ((written : List ℕ) × (text.old.items ≡ written ++ text.new.items)
        × Appends (W.contents w.old) (W.contents w.new) written) }
    ensures fault { IfErr result (λ refusal. (refusal ≡ Refusal.Device)
        × (front : List ℕ) × IsFront front text.old.items
        × Appends (W.contents w.old) (W.contents w.new) front) }
{
    if text.len() >= PIECE_BYTES {
        write_out(text, w)?;
    }
    Ok(())
}

// Reads a line of which these bytes are kept.
fn read_kept(kept: &[u8]) -> Option<Line>
    ensures meaning { KeptMeans LineMeans kept.now result }
    ensures bounds { IfSome result LineIsInBounds }
{
    command_length();
    read_line(kept)
}

// Runs a line with this meaning, and adds the reply to it.
fn push_reply(
    alloc: Global,
    core: &mut Option<OpenCore>,
    meaning: Option<Line>,
    text: &mut Vec<u8>,
) -> Result<(), Refusal>
    requires { IfSome meaning LineIsInBounds }
    ensures says { OnOk result ((said : List ℕ) × (text.new.items ≡ text.old.items ++ said)
        × LineLeads meaning (option_map open_state_of core.old) said
        (option_map open_state_of core.new)) }
    ensures memory { IfErr result (λ refusal. refusal ≡ Refusal.NoMemory) }
{
    let Some(line) = meaning else {
        return push_answer(text, Answer::Refused(Refusal::BadLine));
    };
    if let Line::Open(method, cells) = line {
        put(core, OpenCore::fresh(alloc, method, cells)?);
        return push_bytes(text, b"ready 0");
    }
    match core {
        None => push_answer(text, Answer::Refused(Refusal::BadLine)),
        Some(opened) => opened.say(line, text),
    }
}

// Puts the core in place of the one that was open.
fn put(core: &mut Option<OpenCore>, opened: OpenCore)
    ensures { core.new ≡ Some opened }
{
    *core = Some(opened);
}
