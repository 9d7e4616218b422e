//! The work that a command line asks for, except `serve`.
ghost use Rattle.std.specs.Prelude.{◌≡◌, ◌⊎◌, ℕ, List, Some, None, IfSome, IfNone, codes};
ghost use Rattle.clap.specs.declared.parser.matches.Found.{Found};
ghost use Rattle.clap.specs.Words.{first_value, found_of, subcommand_name_of};
ghost use Rattle.worldd.specs.declared.invocation.Invocation.{Invocation as AnInvocation};
ghost use Rattle.worldd.specs.Invocation.{IsCommand, IsPossible, AsksForCells, AsksTo};

use crate::arguments::{CELLS, CHECK, FOLDER, GUARD, TO, WORDS, number_of, on_loss_of};
use clap::ArgMatches;
use world_folder::OnLoss;

/// The work of a command, except of `serve`.
#[derive(Clone, Copy, Debug)]
pub enum Invocation<'a> {
    /// Runs a script over a world in memory.
    Steps,
    /// Makes a world of so many cells, with a guard or without one.
    Create {
        folder: &'a str,
        cells: u32,
        guards: bool,
    },
    /// Makes a world of the words in a file, which lists so many if that is said.
    CreateOfWords {
        folder: &'a str,
        words: &'a str,
        asked: Option<u32>,
        guards: bool,
    },
    Recover {
        folder: &'a str,
        on_loss: OnLoss,
    },
    /// Its words are printed too if that is asked for.
    Inspect {
        folder: &'a str,
        words: bool,
        on_loss: OnLoss,
    },
    /// The world is checked too if that is asked for.
    Status {
        folder: &'a str,
        on_loss: OnLoss,
        checks: bool,
    },
    BackUp {
        folder: &'a str,
        to: &'a str,
        on_loss: OnLoss,
    },
    Salvage {
        folder: &'a str,
        to: &'a str,
    },
}

/// The work that the words ask for, if the command isn't `serve`.
pub fn invocation_of<'a>(matches: &ArgMatches<'a>) -> Option<Invocation<'a>>
    ensures some { IfSome result (λ invocation. (name : List ℕ) × (found : Found)
        × IsCommand matches.now name found × AsksTo name found invocation) }
    ensures possible { IfSome result IsPossible }
    ensures none { IfNone result ((subcommand_name_of matches.now ≡ None)
        ⊎ ((name : List ℕ) × (found : Found) × IsCommand matches.now name found
        × ((invocation : AnInvocation) → AsksTo name found invocation → ⊥))) }
{
    let (name, given) = matches.subcommand()?;
    invocation_in(name, given)
}

// The work that the command of this name asks for, with these values.
fn invocation_in<'a>(name: &str, given: &ArgMatches<'a>) -> Option<Invocation<'a>>
    ensures some { IfSome result (AsksTo name.now (found_of given.now)) }
    ensures possible { IfSome result IsPossible }
    ensures none { IfNone result ((invocation : AnInvocation)
        → AsksTo name.now (found_of given.now) invocation → ⊥) }
{
    if name == "steps" {
        return Some(Invocation::Steps);
    }
    let folder = given.get_str(FOLDER)?;
    match name {
        "create" => creation_in(folder, given),
        "recover" => Some(Invocation::Recover {
            folder,
            on_loss: on_loss_of(given),
        }),
        "inspect" => Some(Invocation::Inspect {
            folder,
            words: given.get_flag(WORDS),
            on_loss: on_loss_of(given),
        }),
        "status" => Some(Invocation::Status {
            folder,
            on_loss: on_loss_of(given),
            checks: given.get_flag(CHECK),
        }),
        "backup" => Some(Invocation::BackUp {
            folder,
            to: given.get_str(TO)?,
            on_loss: on_loss_of(given),
        }),
        "salvage" => {
            let to = given.get_str(TO)?;
            Some(Invocation::Salvage { folder, to })
        }
        _ => None,
    }
}

// The world that is to be made in this folder: of a file's words, or of so many cells.
fn creation_in<'a>(folder: &'a str, given: &ArgMatches<'a>) -> Option<Invocation<'a>>
    requires { first_value (found_of given.now) (codes "dir") ≡ Some folder.now }
    ensures some { IfSome result (AsksTo (codes "create") (found_of given.now)) }
    ensures possible { IfSome result IsPossible }
    ensures none { IfNone result ((invocation : AnInvocation)
        → AsksTo (codes "create") (found_of given.now) invocation → ⊥) }
{
    match given.get_str(WORDS) {
        Some(words) => Some(Invocation::CreateOfWords {
            folder,
            words,
            asked: number_of(given, CELLS),
            guards: given.get_flag(GUARD),
        }),
        None => Some(Invocation::Create {
            folder,
            cells: cells_of(given)?,
            guards: given.get_flag(GUARD),
        }),
    }
}

// How many cells are asked for.
fn cells_of(given: &ArgMatches<'_>) -> Option<u32>
    ensures some { IfSome result (AsksForCells (found_of given.now)) }
    ensures none { IfNone result ((cells : ℕ) → AsksForCells (found_of given.now) cells → ⊥) }
{
    let cells = number_of(given, CELLS)?;
    (1..=world_actions::CELLS as u32)
        .contains(&cells)
        .then_some(cells)
}
