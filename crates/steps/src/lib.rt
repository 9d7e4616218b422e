//! The script that runs a world in memory, line by line.
//!
//! `run_script` reads lines, opens worlds, makes the moves that the lines ask for, and writes one
//! answer line for each. Its contract gives every byte that it writes, even if the reader or the
//! writer fails or memory runs out.
#![tactic(auto)]

mod core_lines;
mod line;
mod open_core;
mod script;
mod text;

pub use line::{Line, Method, line_has_one_meaning, read_line};
pub use script::{run_script, script_answers_each_line};
// The core that a script runs, whose moves a program may make itself.
pub use world_core::{Answer, Core, Fate, Move, run};
