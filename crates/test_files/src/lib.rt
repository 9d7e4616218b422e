//! Tests of the files: their numbers and marks, the disk model, and files of the system. Also tests
//! of recovery, and of the readers and keepers of images and of the log.
#![tactic(auto)]

#[cfg(test)]
mod tests;
