ghost use Rattle.std.specs.Prelude.{◌≡◌, true, false};
ghost use Rattle.world_server.specs.FolderRun.{due_after};

use crate::socket::SocketMode;
use client_service::Admission;
use shared_capture::Kind;
use world_folder::{Checks, Guard, OnLoss};

/// After how many ticks a round is due.
#[derive(Clone, Copy, Debug, PartialEq, Eq)]
pub struct Every(pub u32);

// The number of ticks if the command line doesn't say it.
const EVERY_BY_DEFAULT: Every = Every(64);

/// After how many connections a server accepts no more.
#[derive(Clone, Copy, Debug, PartialEq, Eq)]
pub struct Clients(pub u32);

/// The address of a server.
#[derive(Clone, Copy, Debug)]
pub enum Address<'a> {
    /// A port of 127.0.0.1; 0 lets the system choose.
    Port(u16),
    /// A socket of the system, with the path of its file.
    Socket { path: &'a str, mode: SocketMode },
}

/// The service that a command line asks for.
#[derive(Clone, Copy)]
pub struct Service<'a> {
    pub folder: &'a str,
    pub method: Kind,
    /// Without a number the server says what the default costs.
    pub every: Option<Every>,
    pub address: Address<'a>,
    pub clients: Clients,
    /// After how many seconds of silence a session ends; without a number never.
    pub idle: Option<u32>,
    /// After how many seconds its figures are printed, again and again; 0 for never.
    pub report: u32,
    /// After how many seconds with its door closed the program ends, though clients are still
    /// there; without a number it waits for them.
    pub exit_when_closed: Option<u32>,
    /// True if the program ends as soon as its log is down.
    pub exits_when_log_down: bool,
    /// After how many seconds without images the program ends. It ends before that if no more room
    /// than 8,192 ticks is left. Without a number it goes on.
    pub exit_when_images_down: Option<u32>,
    /// True if the program ends once one of its files was removed or replaced.
    pub exits_when_replaced: bool,
    pub on_loss: OnLoss,
    /// True if the world gets a guard. One that has a guard keeps it either way.
    pub guards: bool,
    /// True if a world that is older than its guard is served.
    pub accepts_loss: bool,
}

impl Service<'_> {
    /// After how many ticks a round is due.
    pub fn due_after(&self) -> Every
        ensures { result.0 ≡ due_after self.now.every }
    {
        match self.every {
            Some(every) => every,
            None => EVERY_BY_DEFAULT,
        }
    }

    /// The checks of its files, for a world with this guard.
    pub fn checks(&self, guard: Option<Guard>) -> Checks
        ensures guard { result.guard ≡ guard }
        ensures lost { result.lost ≡ self.now.on_loss }
        ensures refused { self.now.accepts_loss ≡ false → result.older ≡ OnLoss.Refuse }
        ensures accepted { self.now.accepts_loss ≡ true → result.older ≡ OnLoss.Warn }
    {
        let older = if self.accepts_loss {
            OnLoss::Warn
        } else {
            OnLoss::Refuse
        };
        Checks {
            lost: self.on_loss,
            older,
            guard,
        }
    }

    /// The clients that it takes.
    pub fn admission(&self) -> Admission
        ensures clients { result.clients ≡ self.now.clients.0 }
        ensures idle { result.idle ≡ self.now.idle }
    {
        Admission {
            clients: self.clients.0,
            idle: self.idle,
        }
    }
}
