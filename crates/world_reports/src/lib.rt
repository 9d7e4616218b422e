//! Reports on the files of a folder, and copies of them.
//!
//! `recover` and `inspect` print what four files hold, and `status` prints figures, and whether a
//! server runs. These three write nothing. `back_up` copies a world that may be served.
//! `salvage_world` makes a world of what can be read of damaged files. A look at files that a
//! server writes counts only if their heads are alike before it and after it.
#![tactic(auto)]

mod backup;
mod copy;
mod count;
mod dropped_files;
mod figures;
mod file_reports;
mod health;
mod inspection;
mod new_files;
mod recovered_world;
mod salvaged_world;
mod server_report;
mod two_tries;
mod warnings;

pub use backup::back_up;
pub use figures::{Figures, report_status, status};
pub use inspection::inspect;
pub use recovered_world::recover;
pub use salvaged_world::salvage_world;
pub use server_report::{PartReport, ServerReport};
