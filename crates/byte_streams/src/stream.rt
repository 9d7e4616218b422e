ghost use Rattle.std.specs.Prelude.{◌≡◌, ◌≤◌, ◌<◌, ℕ, List, [], length, take, OnOk, IfOk, IfErr};
ghost use Rattle.std.specs.Io.KnownBytes.{Appends, Keeps, Consumes, IsAtEnd};
ghost use Rattle.byte_streams.specs.Front.{IsFront};

use std::io::{ErrorKind, Read, Write};
use world_actions::Refusal;

/// Reads the next bytes. It reads none only at the end of the input. An interrupted read is tried
/// again, as std does. Any other failure is `Device`.
pub fn read_some<R: Read>(r: &mut R, piece: &mut [u8]) -> Result<usize, Refusal>
    requires { 0 < length piece.old }
    ensures count { IfOk result (λ n. n ≤ length piece.new) }
    ensures took { IfOk result (λ n.
        Consumes (R.remaining r.old) (R.remaining r.new) (take n piece.new)) }
    ensures end { IfOk result (λ n. n ≡ 0 → IsAtEnd (R.remaining r.new)) }
    ensures fault { IfErr result (λ refusal. (refusal ≡ Refusal.Device)
        × Keeps (R.remaining r.old) (R.remaining r.new)) }
{
    for _ in 0..u64::MAX {
        match r.read(piece) {
            Ok(n) => return Ok(n),
            Err(error) if error.kind() == ErrorKind::Interrupted => {}
            Err(_) => return Err(Refusal::Device),
        }
    }
    Err(Refusal::Device)
}

/// Writes all bytes. If it returns `Device`, it has written a front of them.
pub fn write_whole<W: Write>(w: &mut W, bytes: &[u8]) -> Result<(), Refusal>
    ensures whole { OnOk result (Appends (W.contents w.old) (W.contents w.new) bytes.now) }
    ensures fault { IfErr result (λ refusal. (refusal ≡ Refusal.Device)
        × (front : List ℕ) × IsFront front bytes.now
        × Appends (W.contents w.old) (W.contents w.new) front) }
{
    let mut written = 0;
    for _ in 0..u64::MAX {
        if written == bytes.len() {
            return Ok(());
        }
        written += write_some(w, &bytes[written..])?;
    }
    Err(Refusal::Device)
}

// Writes a front of the bytes. It writes nothing only if it fails. An interrupted write is tried
// again, as std does. Any other failure is `Device`.
fn write_some<W: Write>(w: &mut W, bytes: &[u8]) -> Result<usize, Refusal>
    ensures count { IfOk result (λ n. n ≤ length bytes.now) }
    ensures some { IfOk result (λ n. 0 < n) }
    ensures wrote { IfOk result (λ n.
        Appends (W.contents w.old) (W.contents w.new) (take n bytes.now)) }
    ensures fault { IfErr result (λ refusal. (refusal ≡ Refusal.Device)
        × Appends (W.contents w.old) (W.contents w.new) []) }
{
    for _ in 0..u64::MAX {
        match w.write(bytes) {
            Ok(0) => return Err(Refusal::Device),
            Ok(n) => return Ok(n),
            Err(error) if error.kind() == ErrorKind::Interrupted => {}
            Err(_) => return Err(Refusal::Device),
        }
    }
    Err(Refusal::Device)
}
