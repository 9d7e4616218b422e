//! The answers of the system about a file.
use std::fs::Metadata;
use std::os::unix::fs::MetadataExt;

/// The numbers by which the system knows a file.
#[derive(Clone, Copy, Debug, PartialEq, Eq)]
pub struct Identity {
    device: u64,
    inode: u64,
}

/// The kind of a file.
#[derive(Clone, Copy, Debug, PartialEq, Eq)]
pub enum FileKind {
    Regular,
    /// A symbolic link.
    Link,
    /// A folder, a pipe or a device.
    Other,
}

/// A file as the system describes it.
#[derive(Clone, Copy, Debug, PartialEq, Eq)]
pub struct Entry {
    pub kind: FileKind,
    pub identity: Identity,
    /// How many names it has.
    pub names: u64,
}

impl Identity {
    pub fn new(device: u64, inode: u64) -> Self {
        Identity { device, inode }
    }
}

impl Entry {
    pub fn of(metadata: &Metadata) -> Self {
        let kind = if metadata.is_symlink() {
            FileKind::Link
        } else if metadata.is_file() {
            FileKind::Regular
        } else {
            FileKind::Other
        };
        Entry {
            kind,
            identity: Identity {
                device: metadata.dev(),
                inode: metadata.ino(),
            },
            names: metadata.nlink(),
        }
    }
}
