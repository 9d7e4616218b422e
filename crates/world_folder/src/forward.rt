//! Bytes of a reader from the first one on, a page of the system at once.
ghost use Rattle.std.specs.Prelude.{◌≡◌, ◌≤◌, ◌<◌, length, IfOk};
ghost use Rattle.std.specs.Io.KnownBytes.{Consumes, IsAtEnd};

use std::alloc::Global;
use std::io::{self, ErrorKind, Read};

/// How many bytes are read at once. The next read begins once this one has ended, so a byte of a
/// later page is never older than one of an earlier page.
const PAGE_BYTES: usize = 4_096;

/// Reads to the end of a reader, but no more than `most` bytes.
pub fn read_forward<R: Read>(alloc: Global, r: &mut R, most: usize) -> io::Result<Vec<u8>>
    ensures read { IfOk result (λ bytes.
        Consumes (R.remaining r.old) (R.remaining r.new) bytes.items) }
    ensures most { IfOk result (λ bytes. length bytes.items ≤ most) }
    ensures all { IfOk result (λ bytes. length bytes.items < most → IsAtEnd (R.remaining r.new)) }
{
    let mut bytes = Vec::new(alloc);
    let mut page = [0; PAGE_BYTES];
    for _ in 0..u64::MAX {
        let wanted = PAGE_BYTES.min(most - bytes.len());
        if wanted == 0 {
            return Ok(bytes);
        }
        match r.read(&mut page[..wanted]) {
            Ok(0) => return Ok(bytes),
            Ok(n) => bytes.extend_from_slice(&page[..n])?,
            Err(error) if error.kind() == ErrorKind::Interrupted => {}
            Err(error) => return Err(error),
        }
    }
    Err(io::Error::other("it has no end"))
}
