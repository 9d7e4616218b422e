//! The workers of a world, each in its own thread: their start, the work of each until it ends, and
//! their ends. `start_world` opens a world for them that was recovered from its four files.
#![tactic(auto)]

mod cuts;
mod meeting;
mod promises;
mod running;
mod threads;
mod watch;
mod work;
mod world_opening;

pub use cuts::stop_after;
// Stopped workers are the ends of a world's threads.
pub use meeting::{meet_stopped, meet_stopped as ends_meet};
pub use threads::{
    NotBegun, NotStarted, StoppedWorkers, StoppedWorkers as Ends, Workers, no_memory, start, stop,
};
pub use watch::{Acked, TickWatch, Watch};
pub use world_opening::{into_files, start_world};
