ghost use Rattle.std.specs.Prelude.{◌≡◌, [], IfOk};

use crate::taking::take_rounds;
use crate::trial::NO_WORD;
use crate::writing::write_rounds;
use crate::wrong::Wrong;
use shared_capture::{Back, Front, Method, meet, ping_pong_pair, zigzag_pair};
use std::alloc::Global;
use std::thread::{Threads, join};

/// Tries two threads at a pair of seats of the method Zigzag, for so many rounds. Returns how
/// many were the same.
pub fn try_zigzag<R: Threads + Sync>(
    rt: &R,
    alloc: Global,
    cells: usize,
    rounds: u32,
) -> Result<usize, Wrong> {
    let zeros = vec![in alloc; 0; cells]?;
    let (front, back) = zigzag_pair(alloc, zeros.clone()?)?;
    try_pair(rt, alloc, front, back, &zeros, rounds)
}

/// Does the same for the method Ping-Pong.
pub fn try_ping_pong<R: Threads + Sync>(
    rt: &R,
    alloc: Global,
    cells: usize,
    rounds: u32,
) -> Result<usize, Wrong> {
    let zeros = vec![in alloc; 0; cells]?;
    let (front, back) = ping_pong_pair(alloc, zeros.clone()?)?;
    try_pair(rt, alloc, front, back, &zeros, rounds)
}

// Lets one thread write and mark while another takes. Then the seats meet, and no
// round may be open.
fn try_pair<M: Method + Send + 'static, R: Threads + Sync>(
    rt: &R,
    alloc: Global,
    front: Front<M>,
    back: Back<M>,
    zeros: &[u64],
    rounds: u32,
) -> Result<usize, Wrong>
    requires pair { front.pair ≡ back.pair }
    requires rounds { front.rounds ≡ [] }
{
    let image = vec![in alloc; NO_WORD; zeros.len()]?;
    let (wrote, took) = join(
        rt,
        || -> Result<(Front<M>, Vec<u64>), Wrong>
            requires { front.rounds ≡ [] }
            ensures { IfOk result (λ done. done.0.pair ≡ front.pair) }
        { write_rounds(alloc, front, zeros, rounds) },
        || -> Result<(Back<M>, Vec<u64>), Wrong>
            ensures { IfOk result (λ done. done.0.pair ≡ back.pair) }
        { take_rounds(alloc, back, image, rounds) },
    );
    let (mut back, taken) = took?;
    let (mut front, marked) = wrote?;
    meet(&mut front, &mut back);
    if back.look().is_some() {
        return Err(Wrong::OpenAtEnd);
    }
    same_rounds(&marked, &taken)
}

// Returns how many rounds there are, if all are the same.
fn same_rounds(marked: &[u64], taken: &[u64]) -> Result<usize, Wrong> {
    let mut same = 0usize;
    for (at_mark, at_takes) in marked.iter().zip(taken) {
        same = same.saturating_add(1);
        if at_mark != at_takes {
            return Err(Wrong::Differs(same));
        }
    }
    Ok(same)
}
