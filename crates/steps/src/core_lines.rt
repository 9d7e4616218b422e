ghost use Rattle.std.specs.Prelude.{◌≡◌, ◌≤◌, ◌<◌, ℕ, List, ◌++◌, slice_index, decimal, OnOk, IfOk};
ghost use Rattle.std.specs.Prelude.{IfErr};
ghost use Rattle.world_actions.specs.declared.world.TheConstants.{CELLS};
ghost use Rattle.world_core.specs.Past.{Past};
ghost use Rattle.world_core.specs.Facts.{IsCoreAt};
ghost use Rattle.steps.specs.declared.line.Line.{Line};
ghost use Rattle.steps.specs.Text.{answer_text};
ghost use Rattle.steps.specs.Played.{Opens, move_of};
ghost use Rattle.steps.specs.OpenCore.{Leads, MovesOn, IsNoOpening, IsAnswered};

use crate::line::Line;
use crate::text::{push_answer, push_bytes, push_number};
use capture_core::Capture;
use disk_model::Leaving;
use line_grammar::Command;
use std::alloc::Global;
use world_actions::Refusal;
use world_core::{Answer, Core, Fate, Move};

/// Makes a fresh core, and runs its start.
pub fn open_core<C: Capture>(alloc: Global, cells: u32) -> Result<Core<C>, Refusal>
    requires { (1 ≤ cells) × (cells ≤ CELLS) }
    ensures opens { IfOk result (λ core. (past : Past) × IsCoreAt past core
        × Opens cells (record { past = past; state = core })) }
    ensures memory { IfErr result (λ refusal. refusal ≡ Refusal.NoMemory) }
{
    let mut core = Core::fresh(alloc, cells)?;
    core.run_start();
    Ok(core)
}

/// Runs a line that opens no core, and adds its text. Its only refusal is `NoMemory`.
pub fn say_line<C: Capture>(
    core: &mut Core<C>,
    line: Line,
    text: &mut Vec<u8>,
) -> Result<(), Refusal>
    requires { IsNoOpening line }
    ensures says { OnOk result ((said : List ℕ) × (text.new.items ≡ text.old.items ++ said)
        × Leads line core.old said core.new) }
    ensures memory { IfErr result (λ refusal. refusal ≡ Refusal.NoMemory) }
{
    if line == Line::World {
        return push_words(core, text);
    }
    let given = answer_line(core, line)?;
    push_answer(text, given)
}

// Runs a line that has one answer.
fn answer_line<C: Capture>(core: &mut Core<C>, line: Line) -> Result<Answer, Refusal>
    requires { IsAnswered line }
    ensures leads { IfOk result (λ given. Leads line core.old (answer_text given) core.new) }
    ensures memory { IfErr result (λ refusal. refusal ≡ Refusal.NoMemory) }
{
    match line {
        Line::Open(_, _) | Line::World => unreachable!(),
        Line::Command(command) => make_move(core, move_for(command)),
        Line::Mark => make_move(core, Move::Mark),
        Line::Image => make_move(core, Move::Image(Fate::Done)),
        Line::Log => make_move(core, Move::Log(Fate::Done)),
        Line::Cover => make_cover(core),
        Line::Images(fate) => Ok(Answer::Image(core.run_images(fate))),
        Line::Logs(fate) => Ok(Answer::Log(core.run_log(fate))),
        Line::Crash(leaving) => crash(core, leaving),
    }
}

// Covers the tick of the newest image.
fn make_cover<C: Capture>(core: &mut Core<C>) -> Result<Answer, Refusal>
    ensures leads { IfOk result (λ given. Leads Line.Cover core.old (answer_text given) core.new) }
    ensures memory { IfErr result (λ refusal. refusal ≡ Refusal.NoMemory) }
{
    let newest = core.newest_tick();
    make_move(core, Move::Cover(newest))
}

// Adds the words in decimal, with one space between.
fn push_words<C: Capture>(core: &mut Core<C>, text: &mut Vec<u8>) -> Result<(), Refusal>
    ensures says { OnOk result ((said : List ℕ) × (text.new.items ≡ text.old.items ++ said)
        × Leads Line.World core.old said core.new) }
    ensures memory { IfErr result (λ refusal. refusal ≡ Refusal.NoMemory) }
{
    push_word(core, 0, text)?;
    for cell in 1..core.cells() {
        push_bytes(text, b" ")?;
        push_word(core, cell, text)?;
    }
    Ok(())
}

// Adds the word of a cell. A core has no other answer for a cell that it has.
fn push_word<C: Capture>(core: &mut Core<C>, cell: u32, text: &mut Vec<u8>) -> Result<(), Refusal>
    ensures says { OnOk result ((said : List ℕ) × (text.new.items ≡ text.old.items ++ said)
        × ((past : Past) → IsCoreAt past core.old → cell < core.old.images.cells
        → said ≡ decimal (slice_index core.old.content.live cell))) }
    ensures same { core.new ≡ core.old }
    ensures memory { IfErr result (λ refusal. refusal ≡ Refusal.NoMemory) }
{
    match core.step(Move::Get(cell)) {
        Answer::Word(word) => push_number(text, word),
        _ => Ok(()),
    }
}

// Makes one move. If memory runs out, the call itself is refused.
fn make_move<C: Capture>(core: &mut Core<C>, asked: Move) -> Result<Answer, Refusal>
    ensures moves { IfOk result (λ given. MovesOn core.old asked given core.new) }
    ensures memory { IfErr result (λ refusal. refusal ≡ Refusal.NoMemory) }
{
    let given = core.step(asked);
    if given == Answer::Refused(Refusal::NoMemory) {
        return Err(Refusal::NoMemory);
    }
    Ok(given)
}

fn move_for(command: Command) -> Move
    ensures { result ≡ move_of command }
{
    match command {
        Command::Act(action) => Move::Act(action),
        Command::Get(cell) => Move::Get(cell),
        Command::End => Move::End,
    }
}

// Makes a crash that leaves each file as `leaving` says. Unless the crash is refused, it runs
// the start after it.
fn crash<C: Capture>(core: &mut Core<C>, leaving: Leaving) -> Result<Answer, Refusal>
    ensures leads { IfOk result (λ given.
        Leads (Line.Crash leaving) core.old (answer_text given) core.new) }
    ensures memory { IfErr result (λ refusal. refusal ≡ Refusal.NoMemory) }
{
    let left = core.remains(leaving)?;
    let given = make_move(core, Move::Crash(left))?;
    match given {
        Answer::Refused(_) => {}
        _ => core.run_start(),
    }
    Ok(given)
}

/// Drops a core.
pub fn let_go<C: Capture>(_core: Core<C>) {}
