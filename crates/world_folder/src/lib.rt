//! A world in the files of a folder: the commands that make a world, the locks under which one is
//! served, and how a program over one ends.
//!
//! `create` makes the files of a new world, and `create_of_words` those of one with given words.
//! `open_files` locks the files to serve their world. A `Folder` is where the files are, and a
//! `Source` one that is only read. A `Failure` says what went wrong, and names the file.
#![tactic(auto)]

mod checked;
mod create_command;
mod ending;
mod entry;
mod escaped;
mod exit;
mod failure;
mod fault;
mod folders;
mod forward;
mod found;
mod guard;
mod guard_file;
mod heads;
mod laws;
mod lost;
mod new_world;
mod new_world_files;
mod opening;
mod own_file;
mod present_files;
mod reading;
mod source_file;
mod system_error;
mod system_folder;
mod unfinished;
mod words_text;

pub use checked::{Checked, NotRecovered, checks_in, recover_checked};
pub use create_command::{NotCreated, create, create_of_words};
pub use ending::{Ending, ServerEnding, Unwell};
pub use entry::{Entry, FileKind, Identity};
pub use escaped::Escaped;
pub use exit::{Exit, Statuses};
pub use failure::{
    Failure, Filled, Inside, NoPort, Occupied, StandardStream, StreamFailure, Unlisted,
};
pub use fault::{Damaged, Found, WorldFault, stands_in};
pub use file_disk::LockState;
pub use folders::{Folder, Reading, Source, WorldDisk};
pub use found::{FoundReport, WorldReport};
pub use guard::{GUARD, Guard, Older};
pub use guard_file::{guarded, new_guard, put_guard, seconds_now, touch_guard};
pub use heads::{Summary, summary_of};
pub use laws::{copies_are_of_a_moment, sound_files_have_no_gap};
pub use lost::{Checks, Finding, Lost, OnLoss, older_finding};
pub use new_world::{FirstWords, Made, make_in};
pub use opening::{Unreadable, blame, failure_for, failure_of, open_files, path_of, sync_names};
pub use reading::{all_read, explain, read_file, read_folder};
pub use source_file::SourceFile;
pub use system_error::Reason;
pub use system_folder::SystemFolder;
pub use unfinished::{Unfinished, Why};
pub use words_text::{BadWords, Listed};
