//! The side of a server that its operator and its clients meet.
ghost use Rattle.std.specs.Prelude.{◌≡◌, ◌≢◌, ◌++◌, ◌∷◌, [], Bool, List, IsTrue, IfErr};
ghost use Rattle.world_server.specs.Serving.{EndsServing};
ghost use Rattle.world_server.specs.declared.line.Line.{Line as Printed};
ghost use Rattle.world_server.specs.declared.service.Service.{Service as Asked};

use crate::line::Line;
use crate::standing::Losses;
use disk_model::Disk;
use file_disk::{FileDisk, Pace, Valve};
use shared_capture::Method;
use transports::Listener;
use worker_steps::Opened;
use world_folder::{Ending, Failure, Guard, WorldDisk};

/// Prints the lines of a server of such a world, and lets its clients in. `W` hears of its workers
/// and its sessions.
pub trait Frontend<M: Method, D: Disk + Drop, W> {
    /// True if it is known what this type prints. If it is false, contracts state nothing of that.
    ghost known: { Bool };

    /// The lines that were printed on standard output.
    ghost printed: { Self → List Printed };

    /// The lines that were printed on standard error.
    ghost noted: { Self → List Printed };

    /// Prints a line on standard output, and never waits for its reader.
    fn print(&mut self, line: Line)
        ensures printed { IsTrue known → printed self.new ≡ printed self.old ++ line ∷ [] }
        ensures noted { IsTrue known → noted self.new ≡ noted self.old };

    /// Prints a line on standard error, and never waits for its reader.
    fn note(&mut self, line: Line)
        ensures printed { IsTrue known → printed self.new ≡ printed self.old }
        ensures noted { IsTrue known → noted self.new ≡ noted self.old ++ line ∷ [] };

    /// Listens for the clients of an open world.
    fn open(&mut self, opened: &Opened<M, D>) -> Result<(Listener, W), Failure>
        ensures printed { IsTrue known → printed self.new ≡ printed self.old }
        ensures noted { IsTrue known → noted self.new ≡ noted self.old };

    /// The parts of the server that are down so far.
    fn losses(&self) -> Losses;

    /// Ends it, once the server has ended so, and returns how the program ends. A server that ended
    /// well ends with a fault if its output couldn't be printed.
    fn finish(self, ending: Ending) -> Ending
        ensures ends { EndsServing ending → EndsServing result }
        ensures other { ending ≢ Ending.Ran → result ≡ ending };
}

/// Becomes the frontend of a server, once it holds the files of its world.
pub trait IntoFrontend<M: Method, D: Disk + Drop, W> {
    type Frontend: Frontend<M, D, W>;

    /// It holds if these streams were made for this service, and print figures as it asks for.
    ghost serves: { Self → Asked → Type 0 };

    /// The image files are paced by the ticks of the world, the log files are behind the valve, and
    /// the world has this guard.
    fn into_frontend(self, guard: Option<Guard>, pace: Pace, valve: Valve) -> Self::Frontend;
}

/// A disk of a world that is served.
pub trait ServedDisk: WorldDisk {
    /// Paces the writes from now on.
    fn pace(&mut self, pace: Pace)
        ensures { self.new ≡ self.old };

    /// Puts the file behind this valve: once it is shut each sync fails.
    fn stop_by(&mut self, valve: Valve)
        ensures { self.new ≡ self.old };
}

impl ServedDisk for FileDisk {
    fn pace(&mut self, pace: Pace) {
        FileDisk::pace(self, pace);
    }

    fn stop_by(&mut self, valve: Valve) {
        FileDisk::stop_by(self, valve);
    }
}
