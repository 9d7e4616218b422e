ghost use Rattle.std.specs.Prelude.{◌≡◌, []};

use crate::moves::{take_cells, write_at_random};
use crate::seats::{WritingSeat, end_taken};
use shared_capture::{Back, Front, Method};
use std::io;
use std::thread::{Threads, join, yield_now};
use std::time::{Clock, Instant};
use trial_kit::nanoseconds_of;

/// How long two threads are timed.
const SECONDS: u64 = 3;

/// How many cells are written before a mark is tried.
const WRITES: u32 = 1024;

/// The most turns of one thread.
const TURNS: u64 = 1 << 40;

/// How often a thread did something, and in how many nanoseconds.
#[derive(Clone, Copy)]
pub struct Speed {
    times: u64,
    nanoseconds: u64,
}

impl Speed {
    /// How many times a second.
    pub fn per_second(&self) -> u64 {
        self.times
            .saturating_mul(1_000_000)
            .checked_div(self.nanoseconds / 1000)
            .unwrap_or(0)
    }
}

/// How fast two threads made writes, marks and takes.
#[derive(Clone, Copy)]
pub struct PairSpeed {
    pub writes: Speed,
    pub marks: Speed,
    pub takes: Speed,
}

/// Times one thread that writes and marks, and another one that takes. They don't wait
/// for one another.
pub fn time_pair<M: Method + Send + 'static, R: Threads + Clock + Sync>(
    rt: &R,
    cells: usize,
    front: Front<M>,
    back: Back<M>,
) -> io::Result<PairSpeed>
    requires { front.rounds ≡ [] }
{
    let seat = WritingSeat::new(front);
    let (wrote, takes) = join(rt, || write_on(rt, seat), || take_on(rt, back, cells));
    let (writes, marks) = wrote?;
    Ok(PairSpeed {
        writes,
        marks,
        takes: takes?,
    })
}

fn write_on<M: Method, R: Clock>(rt: &R, mut seat: WritingSeat<M>) -> io::Result<(Speed, Speed)> {
    let start = Instant::now(rt)?;
    let mut number = 1;
    let (mut writes, mut marks) = (0u64, 0u64);
    for _ in 0..TURNS {
        number = write_at_random(&mut seat, number, WRITES);
        writes = writes.wrapping_add(u64::from(WRITES));
        if seat.try_mark() {
            marks = marks.wrapping_add(1);
        }
        if start.elapsed(rt)?.as_secs() >= SECONDS {
            break;
        }
    }
    let nanoseconds = nanoseconds_of(start.elapsed(rt)?);
    Ok((
        Speed {
            times: writes,
            nanoseconds,
        },
        Speed {
            times: marks,
            nanoseconds,
        },
    ))
}

fn take_on<M: Method, R: Clock>(rt: &R, mut back: Back<M>, cells: usize) -> io::Result<Speed> {
    let start = Instant::now(rt)?;
    let mut times = 0u64;
    for _ in 0..TURNS {
        if back.look().is_some() {
            take_cells(&mut back, cells);
            times = times.wrapping_add(cells as u64);
            end_taken(&mut back);
        } else {
            yield_now();
        }
        if start.elapsed(rt)?.as_secs() >= SECONDS {
            break;
        }
    }
    Ok(Speed {
        times,
        nanoseconds: nanoseconds_of(start.elapsed(rt)?),
    })
}
