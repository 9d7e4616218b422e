//! Tests of sessions over a port, of connections by a port and by a socket, and of workers in
//! threads over files in memory. A round stays open while ticks are answered, and an image gets
//! ticks before the log does. Each call of a file fails in turn, and crashes are tried once the
//! workers' ends have met. Other tests make the steps of workers in one thread. Commands run on a
//! folder in memory, `ModelFolder`, which keeps all that a `Folder` promises.
//!
//! A large value is dropped by a call of `drop`, which is proved much faster than its drop at
//! the end of a scope.
#![tactic(auto)]

#[cfg(test)]
mod asks;
#[cfg(test)]
mod connections;
#[cfg(test)]
mod covers;
#[cfg(test)]
mod cut_off;
#[cfg(test)]
mod failing;
#[cfg(test)]
mod folders;
#[cfg(test)]
mod held;
mod model_folder;
mod note;
#[cfg(test)]
mod orders;
#[cfg(test)]
mod over_port;
#[cfg(test)]
mod refusals;
#[cfg(test)]
mod rounds;
#[cfg(test)]
mod running;
#[cfg(test)]
mod same;
#[cfg(test)]
mod serial;
#[cfg(test)]
mod stopped;
#[cfg(test)]
mod tcp;
#[cfg(test)]
mod worlds;

pub use model_folder::{ModelDisk, ModelFolder, ModelHandle};
pub use note::Note;
