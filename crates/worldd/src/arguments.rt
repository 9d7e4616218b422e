ghost use Rattle.std.specs.Prelude.{◌≡◌, ◌⊎◌, ℕ, List, None, map, string_bytes, IfOk, IfSome};
ghost use Rattle.std.specs.Prelude.{IfNone, [], ◌∷◌, codes};
ghost use Rattle.clap.specs.Words.{app_of, found_of, HasMatchesOf, IsParsedFrom};
ghost use Rattle.clap.specs.Words.{Rule, subcommand_name_of};
ghost use Rattle.clap.specs.declared.builder.arg_group.ArgGroup.{ArgGroup as Group};
ghost use Rattle.clap.specs.declared.parser.matches.Found.{Found};
ghost use Rattle.clap.specs.declared.builder.command.Command.{Command as WordsCommand};
ghost use Rattle.world_actions.specs.declared.world.TheConstants.{CELLS as world_cells};
ghost use Rattle.worldd.specs.Grammar.{value_rule, needed_rule, number_rule, flag_rule};
ghost use Rattle.worldd.specs.Grammar.{folder_rule, guard_rule, losses_rule, statuses_rule};
ghost use Rattle.worldd.specs.Grammar.{status_words};
ghost use Rattle.worldd.specs.Grammar.{report_rules, inspect_rules, check_rules};
ghost use Rattle.worldd.specs.Grammar.{backup_rules, salvage_rules};
ghost use Rattle.worldd.specs.Grammar.{HasStatuses, IsChoice};
ghost use Rattle.worldd.specs.Grammar.{IsArgument, IsSomeOf, IsCreate, HasArguments};
ghost use Rattle.worldd.specs.Grammar.{HasCommands, HasGrammar};
ghost use Rattle.worldd.specs.Invocation.{IsCommand};
ghost use Rattle.worldd.specs.Values.{AsksForStatuses, HasFlag, HasNumber, refuses};

use crate::help::{
    BACKUP_HELP, CREATE_HELP, INSPECT_HELP, RECOVER_HELP, SALVAGE_HELP, STATUS_HELP, STEPS_HELP,
};
use crate::serve_arguments::serve_command;
use clap::error::Error;
use clap::{Arg, ArgAction, ArgGroup, ArgMatches, Command, value_parser};
use command_line::VERSION_WITH_FORMATS;
use std::alloc::{AllocError, Global};
use world_folder::{OnLoss, Statuses};

/// The name of the argument for a folder.
pub const FOLDER: &str = "dir";

/// The name of the argument for a number of cells.
pub const CELLS: &str = "cells";

/// The name of the argument for words: a flag of `inspect`, a file of `create`.
pub const WORDS: &str = "words";

/// The name of the argument for the folder of a copy.
pub const TO: &str = "to";

/// The name of the argument for the exit statuses.
const STATUSES: &str = "statuses";

/// The name of the flag by which a world gets a guard.
pub const GUARD: &str = "guard";

/// The name of the flag by which a loss is refused.
const REFUSE_LOSSES: &str = "refuse-losses";

/// The name of the flag by which a world is checked.
pub const CHECK: &str = "check";

/// The name of the group of the number of cells and the words.
const CONTENT: &str = "content";

/// The line of help on `recover`.
const RECOVER_ABOUT: &str = "Prints which world the files of a folder hold";

/// The line of help on `status`.
const STATUS_ABOUT: &str = "Prints figures of the world in a folder, also while it is served";

/// Reads the words by the command line's grammar. The error has clap's text.
pub fn matches_of<'a>(alloc: Global, words: &'a [String]) -> Result<ArgMatches<'a>, Error>
    ensures { IfOk result (λ matches. (command : WordsCommand) × HasGrammar command
        × IsParsedFrom command matches
        × HasMatchesOf (app_of command) (map string_bytes words.entry.now) matches) }
{
    commands(alloc)?.try_get_matches_from(words)
}

fn commands<'a>(alloc: Global) -> Result<Command<'a>, AllocError>
    ensures { IfOk result HasGrammar }
{
    no_command(alloc)
        .subcommand(with_statuses(alloc, steps_command(alloc))?)?
        .subcommand(with_statuses(alloc, create_command(alloc)?)?)?
        .subcommand(with_statuses(
            alloc,
            report_command(alloc, "recover", RECOVER_ABOUT, RECOVER_HELP)?,
        )?)?
        .subcommand(with_statuses(alloc, inspect_command(alloc)?)?)?
        .subcommand(with_statuses(alloc, status_command(alloc)?)?)?
        .subcommand(with_statuses(alloc, backup_command(alloc)?)?)?
        .subcommand(with_statuses(alloc, salvage_command(alloc)?)?)?
        .subcommand(with_statuses(alloc, serve_command(alloc)?)?)
}

// A command with the argument for its exit statuses after its others.
fn with_statuses<'a>(alloc: Global, command: Command<'a>) -> Result<Command<'a>, AllocError>
    ensures { (name : List ℕ) (rules : List Rule) (groups : List Group)
        → HasArguments name rules groups command.entry
        → IfOk result (HasStatuses name rules groups) }
{
    command.arg(statuses_argument(alloc))
}

// The program's words, of no command yet.
fn no_command<'a>(alloc: Global) -> Command<'a>
    ensures { HasCommands [] result }
{
    Command::new(alloc, "worldd")
        .version(VERSION_WITH_FORMATS)
        .about("A main-memory world server with asynchronous checkpoints")
        .subcommand_required(true)
}

fn steps_command<'a>(alloc: Global) -> Command<'a>
    ensures { HasArguments (codes "steps") [] [] result }
{
    Command::new(alloc, "steps")
        .about("Runs the script on standard input, over a world in memory")
        .after_help(STEPS_HELP)
}

/// A command on the world in a folder.
pub fn folder_command<'a>(
    alloc: Global,
    name: &'a str,
    about: &'a str,
    after_help: &'a str,
) -> Result<Command<'a>, AllocError>
    ensures { IfOk result (HasArguments name.entry.now (folder_rule ∷ []) []) }
{
    Command::new(alloc, name)
        .about(about)
        .after_help(after_help)
        .arg(folder_argument(alloc))
}

// A command that reports on the world in a folder.
fn report_command<'a>(
    alloc: Global,
    name: &'a str,
    about: &'a str,
    after_help: &'a str,
) -> Result<Command<'a>, AllocError>
    ensures { IfOk result (HasArguments name.entry.now report_rules []) }
{
    folder_command(alloc, name, about, after_help)?.arg(losses_argument(alloc))
}

fn create_command<'a>(alloc: Global) -> Result<Command<'a>, AllocError>
    ensures { IfOk result IsCreate }
{
    let about = "Makes the files of a new world in a folder";
    folder_command(alloc, "create", about, CREATE_HELP)?
        .arg(cells_argument(alloc))?
        .arg(list_argument(alloc))?
        .arg(guard_argument(alloc))?
        .group(content_group(alloc)?)
}

// The number of cells or the words are wanted, or both.
fn content_group<'a>(alloc: Global) -> Result<ArgGroup<'a>, AllocError>
    ensures { IfOk result (IsSomeOf (codes "content") (codes "cells" ∷ codes "words" ∷ [])) }
{
    let group = ArgGroup::new(alloc, CONTENT).arg(CELLS)?.arg(WORDS)?;
    Ok(group.required(true).multiple(true))
}

fn inspect_command<'a>(alloc: Global) -> Result<Command<'a>, AllocError>
    ensures { IfOk result (HasArguments (codes "inspect") inspect_rules []) }
{
    let about = "Prints what each file of a folder holds, and which world they hold together";
    folder_command(alloc, "inspect", about, INSPECT_HELP)?
        .arg(words_argument(alloc))?
        .arg(losses_argument(alloc))
}

fn status_command<'a>(alloc: Global) -> Result<Command<'a>, AllocError>
    ensures { IfOk result (HasArguments (codes "status") check_rules []) }
{
    report_command(alloc, "status", STATUS_ABOUT, STATUS_HELP)?.arg(check_argument(alloc))
}

fn backup_command<'a>(alloc: Global) -> Result<Command<'a>, AllocError>
    ensures { IfOk result (HasArguments (codes "backup") backup_rules []) }
{
    let about = "Copies the world in a folder, also while it is served";
    folder_command(alloc, "backup", about, BACKUP_HELP)?
        .arg(to_argument(alloc))?
        .arg(losses_argument(alloc))
}

fn salvage_command<'a>(alloc: Global) -> Result<Command<'a>, AllocError>
    ensures { IfOk result (HasArguments (codes "salvage") salvage_rules []) }
{
    let about = "Makes a world of what can be read of damaged or lost files";
    folder_command(alloc, "salvage", about, SALVAGE_HELP)?.arg(to_argument(alloc))
}

/// An argument with a value, by its long name.
pub fn value_argument<'a>(alloc: Global, name: &'a str, value: &'a str, help: &'a str) -> Arg<'a>
    ensures { IsArgument (value_rule name.entry.now) result }
{
    Arg::new(alloc, name)
        .long(name)
        .value_name(value)
        .action(ArgAction::Set)
        .help(help)
}

/// An argument without a value, by its long name.
pub fn flag_argument<'a>(alloc: Global, name: &'a str, help: &'a str) -> Arg<'a>
    ensures { IsArgument (flag_rule name.entry.now) result }
{
    Arg::new(alloc, name)
        .long(name)
        .action(ArgAction::SetTrue)
        .help(help)
}

// The argument that names a folder.
fn folder_argument<'a>(alloc: Global) -> Arg<'a>
    ensures { IsArgument folder_rule result }
{
    let help = "The folder of image.a, image.b, log.a and log.b";
    value_argument(alloc, FOLDER, "FOLDER", help).required(true)
}

fn cells_argument<'a>(alloc: Global) -> Arg<'a>
    ensures { IsArgument (number_rule (codes "cells") 1 world_cells []) result }
{
    let cells = value_parser!(u32).range(1..=i64::from(world_actions::CELLS));
    let help = "The number of cells: they are 0, or as many as FILE lists";
    value_argument(alloc, CELLS, "N", help).value_parser(cells)
}

fn list_argument<'a>(alloc: Global) -> Arg<'a>
    ensures { IsArgument (value_rule (codes "words")) result }
{
    let help = "A file with the words of the cells";
    value_argument(alloc, WORDS, "FILE", help)
}

fn to_argument<'a>(alloc: Global) -> Arg<'a>
    ensures { IsArgument (needed_rule (codes "to")) result }
{
    let help = "The folder of the new files, which has to be empty";
    value_argument(alloc, TO, "FOLDER", help).required(true)
}

fn words_argument<'a>(alloc: Global) -> Arg<'a>
    ensures { IsArgument (flag_rule (codes "words")) result }
{
    let help = "Prints the words of the world too, on a line of their own";
    flag_argument(alloc, WORDS, help)
}

fn check_argument<'a>(alloc: Global) -> Arg<'a>
    ensures { IsArgument (flag_rule (codes "check")) result }
{
    let help = "Prints also whether the world is well, and has a status for each reason why not";
    flag_argument(alloc, CHECK, help)
}

// The argument for the exit statuses.
fn statuses_argument<'a>(alloc: Global) -> Arg<'a>
    ensures { IsChoice statuses_rule status_words result }
{
    let help = "Whether a shortage and a failed listener have statuses of their own, 13 and 10";
    value_argument(alloc, STATUSES, "WHICH", help)
        .default_value("plain")
        .value_parser(["plain", "detailed"].as_slice())
}

/// The flag by which a world gets a guard.
pub fn guard_argument<'a>(alloc: Global) -> Arg<'a>
    ensures { IsArgument guard_rule result }
{
    let help = "Keeps a file beside the world by which an older world is known";
    flag_argument(alloc, GUARD, help)
}

/// The flag by which a loss is refused.
pub fn losses_argument<'a>(alloc: Global) -> Arg<'a>
    ensures { IsArgument losses_rule result }
{
    let help = "Refuses files that look as if one was lost; they are only named by default";
    flag_argument(alloc, REFUSE_LOSSES, help)
}

/// The treatment of a loss.
pub fn on_loss_of(given: &ArgMatches<'_>) -> OnLoss
    ensures { HasFlag (found_of given.now) (codes "refuse-losses") (refuses result) }
{
    if given.get_flag(REFUSE_LOSSES) {
        OnLoss::Refuse
    } else {
        OnLoss::Warn
    }
}

/// The exit statuses that the words ask for.
pub fn statuses_of(matches: &ArgMatches<'_>) -> Statuses
    ensures { ((subcommand_name_of matches.now ≡ None) × (result ≡ Statuses.Plain))
        ⊎ ((name : List ℕ) × (found : Found)
        × IsCommand matches.now name found × AsksForStatuses found result) }
{
    match matches.subcommand() {
        Some((_, given)) => statuses_in(given),
        None => Statuses::Plain,
    }
}

fn statuses_in(given: &ArgMatches<'_>) -> Statuses
    ensures { AsksForStatuses (found_of given.now) result }
{
    match given.get_str(STATUSES) {
        Some("detailed") => Statuses::Detailed,
        _ => Statuses::Plain,
    }
}

/// The number of this name, if it has one.
pub fn number_of(given: &ArgMatches<'_>, name: &str) -> Option<u32>
    ensures some { IfSome result (HasNumber 32 (found_of given.now) name.now) }
    ensures none { IfNone result
        ((number : ℕ) → HasNumber 32 (found_of given.now) name.now number → ⊥) }
{
    given.get_one(name)
}
