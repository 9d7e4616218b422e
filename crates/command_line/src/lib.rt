//! The work of a program on its command line, before its own work, and its exit status.
#![tactic(auto)]

mod clap_error;
mod exit_code;
mod not_run;
mod streams;
mod version;
mod words;

pub use clap_error::refused;
pub use exit_code::exit_code_of;
pub use not_run::NotRun;
pub use streams::take_standard_streams;
pub use version::{VERSION, VERSION_WITH_FORMATS};
pub use words::{command_words, unreadable};
