//! The guard of a world: a file beside its four that says how far the world had come. It isn't
//! needed to recover.
ghost use Rattle.std.specs.Prelude.{◌≡◌, ◌++◌, IfOk, OnOk, Some};
ghost use Rattle.file_format.specs.Number.{number_bytes};
ghost use Rattle.world_folder.specs.Guard.{guard_bytes, guard_in, older_than};
ghost use Rattle.world_folder.specs.Texts.{older_text};

use file_format::u64_at;
use std::alloc::{AllocError, Global};
use std::fmt;

/// The name of the guard.
pub const GUARD: &str = "guard";

/// The name under which a guard is written before it takes its place.
pub const NEW_GUARD: &str = "guard.new";

/// The number of bytes of a guard.
pub const GUARD_BYTES: usize = 48;

/// The number at the front of a guard: the letters "rldguard", the lowest byte first.
pub const GUARD_MARK: u64 = 0x6472_6175_6764_6c72;

/// How far a world had come when its guard was written.
#[derive(Clone, Copy, Debug, PartialEq, Eq)]
pub struct Guard {
    /// The random number of the world. A copy keeps it.
    pub world: u64,
    /// How often a server has started with it.
    pub starts: u64,
    /// All ticks up to this one were acknowledged.
    pub acked: u64,
    /// The tick of the newest image.
    pub image: u64,
    /// The time, in seconds since 1970.
    pub seconds: u64,
}

/// A world that is older than its guard.
#[derive(Clone, Copy, Debug, PartialEq, Eq)]
pub struct Older {
    /// The tick that was recovered.
    pub tick: u64,
    /// The tick of the guard.
    pub acked: u64,
    /// The time of the guard, in seconds since 1970.
    pub seconds: u64,
}

impl fmt::Display for Older {
    ghost output = { λ older. Some (older_text older) };

    fn fmt<W: fmt::Write>(&self, f: &mut fmt::Formatter<W>) -> fmt::Result {
        let Older {
            tick,
            acked,
            seconds,
        } = *self;
        write!(
            f,
            "tick {tick} was recovered, and the guard has tick {acked} at @{seconds}"
        )?;
        f.write_str(": restore newer files, or serve them by --accept-loss")
    }
}

// Appends a number, with its lowest byte first.
#[tactic(auto, unfolding(file_format::specs::Number::number_bytes))]
fn put(bytes: &mut Vec<u8>, number: u64) -> Result<(), AllocError>
    ensures { OnOk result (bytes.new.items ≡ bytes.old.items ++ number_bytes 8 number) }
{
    let spelled: [u8; 8] = number.to_le_bytes();
    bytes.extend_from_slice(&spelled)
}

impl Guard {
    /// Its bytes as a file has them: six numbers, each with its lowest byte first.
    pub fn bytes(&self, alloc: Global) -> Result<Vec<u8>, AllocError>
        ensures { IfOk result (λ bytes. bytes.items ≡ guard_bytes self.now) }
    {
        let mut bytes = Vec::with_capacity(alloc, GUARD_BYTES)?;
        put(&mut bytes, GUARD_MARK)?;
        put(&mut bytes, self.world)?;
        put(&mut bytes, self.starts)?;
        put(&mut bytes, self.acked)?;
        put(&mut bytes, self.image)?;
        put(&mut bytes, self.seconds)?;
        Ok(bytes)
    }

    /// The guard in the bytes of a file, if they are one.
    pub fn read(bytes: &[u8]) -> Option<Self>
        ensures { result ≡ guard_in bytes.now }
    {
        if bytes.len() != GUARD_BYTES || u64_at(bytes, 0) != GUARD_MARK {
            return None;
        }
        Some(Guard {
            world: u64_at(bytes, 8),
            starts: u64_at(bytes, 16),
            acked: u64_at(bytes, 24),
            image: u64_at(bytes, 32),
            seconds: u64_at(bytes, 40),
        })
    }

    /// Says if a world of this tick is older than the guard.
    pub fn older(&self, tick: u64) -> Option<Older>
        ensures { result ≡ older_than (Some self.now) tick }
    {
        if tick < self.acked {
            Some(Older {
                tick,
                acked: self.acked,
                seconds: self.seconds,
            })
        } else {
            None
        }
    }
}
