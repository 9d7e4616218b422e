ghost use Rattle.std.specs.Prelude.{◌≡◌, ◌≢◌, ◌⊎◌, ℕ, [], ◌∷◌, Some, IfOk, IfSome, IfNone, codes};
ghost use Rattle.clap.specs.declared.parser.matches.Found.{Found};
ghost use Rattle.clap.specs.Words.{found_of, subcommand_name_of};
ghost use Rattle.world_server.specs.declared.service.Address.{Address as AnAddress};
ghost use Rattle.world_server.specs.declared.service.Service.{Service as AService};
ghost use Rattle.world_server.specs.declared.socket.SocketMode.{SocketMode as Mode};
ghost use Rattle.world_server.specs.Socket.{mode_word};
ghost use Rattle.shared_capture.specs.declared.method.Kind.{Kind as MethodKind};
ghost use Rattle.world_server.specs.Methods.{method_word};
ghost use Rattle.worldd.specs.Grammar.{value_rule, number_rule, flag_rule};
ghost use Rattle.worldd.specs.Grammar.{optional_number_rule};
ghost use Rattle.worldd.specs.Grammar.{method_rule, method_words, mode_rule, mode_words};
ghost use Rattle.worldd.specs.Grammar.{IsArgument, IsChoice, IsChoiceOf, Excludes, IsServe};
ghost use Rattle.worldd.specs.Invocation.{IsCommand};
ghost use Rattle.worldd.specs.Service.{AsksFor, AsksForAddress, AsksForClients};
ghost use Rattle.worldd.specs.Values.{HasNumber};

use crate::arguments::{
    FOLDER, GUARD, flag_argument, folder_command, guard_argument, losses_argument, number_of,
    on_loss_of, value_argument,
};
use crate::help::SERVE_HELP;
use clap::error::Error;
use clap::{Arg, ArgGroup, ArgMatches, Command, value_parser};
use shared_capture::Kind;
use std::alloc::{AllocError, Global};
use world_server::{Address, Clients, Every, Service, SocketMode};

/// The name of the command.
pub const SERVE: &str = "serve";

/// The names of its arguments, except the folder's.
const METHOD: &str = "method";

const EVERY: &str = "every";

const PORT: &str = "port";

const SOCKET: &str = "socket";

const SOCKET_MODE: &str = "socket-mode";

const CLIENTS: &str = "clients";

const UNLIMITED_CLIENTS: &str = "unlimited-clients";

const IDLE: &str = "idle";

const REPORT: &str = "report";

const EXIT_WHEN_LOG_DOWN: &str = "exit-when-log-down";

const EXIT_WHEN_CLOSED: &str = "exit-when-closed";

const EXIT_WHEN_IMAGES_DOWN: &str = "exit-when-images-down";

const EXIT_WHEN_REPLACED: &str = "exit-when-replaced";

const ACCEPT_LOSS: &str = "accept-loss";

/// The name of the group of the port and the socket.
const ADDRESS: &str = "address";

/// The name of the group of the number of clients and the flag that stands in its place.
const ADMISSION: &str = "admission";

/// As many clients as a server counts.
const UNLIMITED: Clients = Clients(u32::MAX);

/// The command `serve`, with its arguments.
pub fn serve_command<'a>(alloc: Global) -> Result<Command<'a>, AllocError>
    ensures { IfOk result IsServe }
{
    let about = "Serves the world in the files of a folder to clients of a port or of a socket";
    folder_command(alloc, SERVE, about, SERVE_HELP)?
        .arg(method_argument(alloc))?
        .arg(every_argument(alloc))?
        .arg(port_argument(alloc))?
        .arg(socket_argument(alloc))?
        .arg(socket_mode_argument(alloc)?)?
        .arg(clients_argument(alloc))?
        .arg(unlimited_argument(alloc))?
        .arg(idle_argument(alloc))?
        .arg(report_argument(alloc))?
        .arg(exit_argument(alloc))?
        .arg(closed_argument(alloc))?
        .arg(images_argument(alloc))?
        .arg(replaced_argument(alloc))?
        .arg(guard_argument(alloc))?
        .arg(accept_argument(alloc))?
        .arg(losses_argument(alloc))?
        .group(address_group(alloc)?)?
        .group(admission_group(alloc)?)
}

fn method_argument<'a>(alloc: Global) -> Arg<'a>
    ensures { IsChoice method_rule method_words result }
{
    let help = "How the words of a tick are captured while play continues";
    value_argument(alloc, METHOD, "METHOD", help)
        .required(true)
        .value_parser(["zigzag", "pingpong"].as_slice())
}

fn every_argument<'a>(alloc: Global) -> Arg<'a>
    ensures { IsArgument (number_rule (codes "every") 1 65_536 []) result }
{
    let help = "After how many ticks an image is due; 64 by default";
    value_argument(alloc, EVERY, "E", help).value_parser(value_parser!(u32).range(1..=65_536))
}

fn port_argument<'a>(alloc: Global) -> Arg<'a>
    ensures { IsArgument (number_rule (codes "port") 0 65_535 []) result }
{
    let help = "The port on 127.0.0.1, 0 for one that the system chooses";
    value_argument(alloc, PORT, "P", help).value_parser(value_parser!(u16))
}

fn socket_argument<'a>(alloc: Global) -> Arg<'a>
    ensures { IsArgument (value_rule (codes "socket")) result }
{
    let help = "The path of a socket, in place of a port";
    value_argument(alloc, SOCKET, "PATH", help)
}

fn socket_mode_argument<'a>(alloc: Global) -> Result<Arg<'a>, AllocError>
    ensures choice { IfOk result (IsChoice mode_rule mode_words) }
    ensures excludes { IfOk result (Excludes (codes "port" ∷ [])) }
{
    let help = "Who may connect to the socket: its owner, its group too, or everyone";
    value_argument(alloc, SOCKET_MODE, "MODE", help)
        .default_value("0600")
        .value_parser(["0600", "0660", "0666"].as_slice())
        .conflicts_with(PORT)
}

// Exactly one of the port and the socket is wanted.
fn address_group<'a>(alloc: Global) -> Result<ArgGroup<'a>, AllocError>
    ensures { IfOk result (IsChoiceOf (codes "address") (codes "port" ∷ codes "socket" ∷ [])) }
{
    let group = ArgGroup::new(alloc, ADDRESS).arg(PORT)?.arg(SOCKET)?;
    Ok(group.required(true))
}

fn address_of<'a>(given: &ArgMatches<'a>) -> Option<Address<'a>>
    ensures some { IfSome result (AsksForAddress (found_of given.now)) }
    ensures none { IfNone result
        ((address : AnAddress) → AsksForAddress (found_of given.now) address → ⊥) }
{
    match given.get_str(SOCKET) {
        Some(path) => Some(Address::Socket {
            path,
            mode: mode_of(given.get_str(SOCKET_MODE)?)?,
        }),
        None => Some(Address::Port(port_of(given)?)),
    }
}

fn port_of(given: &ArgMatches<'_>) -> Option<u16>
    ensures some { IfSome result (HasNumber 16 (found_of given.now) (codes "port")) }
    ensures none { IfNone result
        ((port : ℕ) → HasNumber 16 (found_of given.now) (codes "port") port → ⊥) }
{
    given.get_one(PORT)
}

fn mode_of(text: &str) -> Option<SocketMode>
    ensures some { IfSome result (λ mode. text.now ≡ mode_word mode) }
    ensures none { IfNone result ((mode : Mode) → text.now ≢ mode_word mode) }
{
    match text {
        "0600" => Some(SocketMode::Owner),
        "0660" => Some(SocketMode::Group),
        "0666" => Some(SocketMode::Everyone),
        _ => None,
    }
}

fn clients_argument<'a>(alloc: Global) -> Arg<'a>
    ensures { IsArgument (number_rule (codes "clients") 1 100_000 []) result }
{
    let help = "After how many connections it accepts no more";
    value_argument(alloc, CLIENTS, "K", help).value_parser(value_parser!(u32).range(1..=100_000))
}

fn unlimited_argument<'a>(alloc: Global) -> Arg<'a>
    ensures { IsArgument (flag_rule (codes "unlimited-clients")) result }
{
    let help = "Accepts connections as long as it runs, in place of their number";
    flag_argument(alloc, UNLIMITED_CLIENTS, help)
}

// Exactly one of the number of clients and the flag is wanted.
fn admission_group<'a>(alloc: Global) -> Result<ArgGroup<'a>, AllocError>
    ensures { IfOk result (IsChoiceOf (codes "admission")
        (codes "clients" ∷ codes "unlimited-clients" ∷ [])) }
{
    let group = ArgGroup::new(alloc, ADMISSION)
        .arg(CLIENTS)?
        .arg(UNLIMITED_CLIENTS)?;
    Ok(group.required(true))
}

// How many clients may come. Without a number the flag was given, since one of both is wanted.
fn clients_of(given: &ArgMatches<'_>) -> Clients
    ensures { AsksForClients (found_of given.now) result.0 }
{
    match number_of(given, CLIENTS) {
        Some(number) => Clients(number),
        None => UNLIMITED,
    }
}

fn idle_argument<'a>(alloc: Global) -> Arg<'a>
    ensures { IsArgument (number_rule (codes "idle") 1 86_400 []) result }
{
    let help = "After how many seconds of silence a client's session ends; never by default";
    value_argument(alloc, IDLE, "SECONDS", help).value_parser(value_parser!(u32).range(1..=86_400))
}

fn report_argument<'a>(alloc: Global) -> Arg<'a>
    ensures { IsArgument (number_rule (codes "report") 0 86_400 (codes "0" ∷ [])) result }
{
    let help = "After how many seconds figures are printed, again and again; 0 for never";
    value_argument(alloc, REPORT, "SECONDS", help)
        .default_value("0")
        .value_parser(value_parser!(u32).range(0..=86_400))
}

fn exit_argument<'a>(alloc: Global) -> Arg<'a>
    ensures { IsArgument (flag_rule (codes "exit-when-log-down")) result }
{
    let help = "Ends with status 12 as soon as the log is down";
    flag_argument(alloc, EXIT_WHEN_LOG_DOWN, help)
}

fn closed_argument<'a>(alloc: Global) -> Arg<'a>
    ensures { IsArgument (number_rule (codes "exit-when-closed") 0 86_400 []) result }
{
    let help = "Ends so many seconds after no more clients can come; never by default";
    value_argument(alloc, EXIT_WHEN_CLOSED, "SECONDS", help).value_parser(value_parser!(u32).range(
        0..=86_400,
    ))
}

fn images_argument<'a>(alloc: Global) -> Arg<'a>
    ensures { IsArgument (optional_number_rule (codes "exit-when-images-down") 0 86_400 (codes "60"))
        result }
{
    let help = "Ends with status 11 S seconds, or 60, after images are down; never by default";
    value_argument(alloc, EXIT_WHEN_IMAGES_DOWN, "S", help)
        .num_args(0..=1)
        .default_missing_value("60")
        .value_parser(value_parser!(u32).range(0..=86_400))
}

fn replaced_argument<'a>(alloc: Global) -> Arg<'a>
    ensures { IsArgument (flag_rule (codes "exit-when-replaced")) result }
{
    let help = "Ends with status 12 once one of its files was removed or replaced";
    flag_argument(alloc, EXIT_WHEN_REPLACED, help)
}

fn accept_argument<'a>(alloc: Global) -> Arg<'a>
    ensures { IsArgument (flag_rule (codes "accept-loss")) result }
{
    let help = "Serves a world that is older than its guard";
    flag_argument(alloc, ACCEPT_LOSS, help)
}

/// The service that the words ask for, if the command is `serve`.
pub fn service_of<'a>(matches: &ArgMatches<'a>) -> Option<Service<'a>>
    ensures some { IfSome result (λ service. (found : Found)
        × IsCommand matches.now (codes "serve") found × AsksFor found service) }
    ensures none { IfNone result ((subcommand_name_of matches.now ≢ Some (codes "serve"))
        ⊎ ((found : Found) × IsCommand matches.now (codes "serve") found
        × ((service : AService) → AsksFor found service → ⊥))) }
{
    let given = matches.subcommand_matches(SERVE)?;
    service_in(given)
}

// The service that these values of the command ask for.
fn service_in<'a>(given: &ArgMatches<'a>) -> Option<Service<'a>>
    ensures some { IfSome result (AsksFor (found_of given.now)) }
    ensures none { IfNone result ((service : AService) → AsksFor (found_of given.now) service → ⊥) }
{
    Some(Service {
        folder: given.get_str(FOLDER)?,
        method: method_of(given.get_str(METHOD)?)?,
        every: every_in(given),
        address: address_of(given)?,
        clients: clients_of(given),
        idle: number_of(given, IDLE),
        report: number_of(given, REPORT)?,
        exit_when_closed: number_of(given, EXIT_WHEN_CLOSED),
        exits_when_log_down: given.get_flag(EXIT_WHEN_LOG_DOWN),
        exit_when_images_down: number_of(given, EXIT_WHEN_IMAGES_DOWN),
        exits_when_replaced: given.get_flag(EXIT_WHEN_REPLACED),
        guards: given.get_flag(GUARD),
        accepts_loss: given.get_flag(ACCEPT_LOSS),
        on_loss: on_loss_of(given),
    })
}

// After how many ticks an image is due, if the words say it.
fn every_in(given: &ArgMatches<'_>) -> Option<Every>
    ensures some { IfSome result (λ every.
        HasNumber 32 (found_of given.now) (codes "every") every.0) }
    ensures none { IfNone result
        ((number : ℕ) → HasNumber 32 (found_of given.now) (codes "every") number → ⊥) }
{
    Some(Every(number_of(given, EVERY)?))
}

fn method_of(name: &str) -> Option<Kind>
    ensures some { IfSome result (λ kind. name.now ≡ method_word kind) }
    ensures none { IfNone result ((kind : MethodKind) → name.now ≢ method_word kind) }
{
    match name {
        "zigzag" => Some(Kind::Zigzag),
        "pingpong" => Some(Kind::PingPong),
        _ => None,
    }
}
