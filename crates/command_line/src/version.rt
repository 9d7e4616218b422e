/// The release of the programs.
pub const VERSION: &str = "0.3.0-dev";

/// The release of a program that reads and writes a world's files, with their formats.
pub const VERSION_WITH_FORMATS: &str = "0.3.0-dev (reads file formats 1 and 2, writes 2)";
