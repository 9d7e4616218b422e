// Files that are read only as far as their bytes count.
ghost use Rattle.std.specs.Prelude.{◌≤◌};

use super::fused_files::disk;
use super::segments::push_groups;
use action_log::{Extent, extent_of};
use disk_model::{FourFiles, Fused, ModelFile};
use file_readers::{read_files, read_image_file, read_segment_file};
use std::alloc::Global;
use std::test::Fail;
use world_actions::Refusal;

// An image of the words 5 and 7 at tick 3 in the first format, and five bytes after it.
fn image() -> [u8; 38] {
    let mut bytes = [9; 38];
    bytes[..17].copy_from_slice(&[1, 2, 0, 0, 0, 0, 0, 0, 0, 3, 0, 0, 0, 0, 0, 0, 0]);
    bytes[17..25].copy_from_slice(&[5, 0, 0, 0, 0, 0, 0, 0]);
    bytes[25..33].copy_from_slice(&[7, 0, 0, 0, 0, 0, 0, 0]);
    bytes
}

// How many bytes of an image are read, if they are its first ones.
fn count_image(alloc: Global, bytes: &[u8]) -> Result<Option<usize>, Refusal> {
    let read = read_image_file(alloc, &mut disk(alloc, bytes)?)?;
    Ok(first_of(&read, bytes))
}

fn first_of(read: &[u8], bytes: &[u8]) -> Option<usize> {
    if bytes.starts_with(read) {
        Some(read.len())
    } else {
        None
    }
}

#[test]
fn an_image_is_read_to_its_last_word(rt: HostRuntime) -> Result<(), Fail> {
    let mut bytes = image();
    for length in 0..=38 {
        let read = count_image(rt.alloc(), &bytes[..length])?;
        assert_eq!(rt; read, Some(length.min(33)), "{length} bytes");
    }
    bytes[1] = 0; // no cells
    assert_eq!(rt; count_image(rt.alloc(), &bytes)?, Some(17));
    bytes[0] = 2; // a gate that isn't open
    assert_eq!(rt; count_image(rt.alloc(), &bytes)?, Some(17));
    Ok(())
}

// An open segment of so many groups of 67 bytes, a gate, and so many bytes after it.
fn segment(alloc: Global, groups: u32, gate: u8, behind: usize) -> Result<Vec<u8>, Refusal> {
    let mut bytes = [1, 0, 0, 0, 0, 0, 0, 0, 0].to_vec(alloc)?;
    push_groups(&mut bytes, groups)?;
    bytes.push(gate)?;
    let end = bytes.len().saturating_add(behind);
    bytes.resize(end, 1)?;
    Ok(bytes)
}

// How many bytes of such a segment are read, if they are its first ones.
fn count_segment(
    alloc: Global,
    groups: u32,
    gate: u8,
    behind: usize,
) -> Result<Option<usize>, Refusal> {
    let bytes = segment(alloc, groups, gate, behind)?;
    let read = read_segment_file(alloc, &mut disk(alloc, &bytes)?)?;
    Ok(first_of(&read, &bytes))
}

#[test]
fn a_segment_is_read_to_its_last_gate(rt: HostRuntime) -> Result<(), Fail> {
    for (groups, gate, behind, want) in [
        (0, 0, 0, 10),
        (0, 0, 300_000, 10),
        (1, 2, 300_000, 77),
        (2_000, 0, 0, 134_010), // three pieces
        (2_000, 0, 300_000, 134_010),
        (1, 1, 300_000, 300_077), // no group after an open gate
    ] {
        let read = count_segment(rt.alloc(), groups, gate, behind)?;
        assert_eq!(rt;
            read,
            Some(want),
            "{groups} groups, gate {gate}, {behind} bytes behind"
        );
    }
    Ok(())
}

// True if such a segment is read by this many calls of its file, or more.
fn is_called(alloc: Global, behind: usize, call: u64) -> Result<bool, Refusal>
    requires { 1 ≤ call }
{
    let mut disk = disk(alloc, &segment(alloc, 1, 1, behind)?)?;
    disk.arm(call);
    Ok(read_segment_file(alloc, &mut disk).is_err())
}

#[test]
fn a_segment_is_read_in_pieces(rt: HostRuntime) -> Result<(), Fail> {
    for (behind, calls) in [
        (0, 3), // the length is asked for before and after
        (300_000, 6), // up to 65,536, 131,072, 262,144, 300,077 bytes
        (5_000_000, 11), // each as long as all before it, up to 1 MiB
    ] {
        let last = is_called(rt.alloc(), behind, calls)?;
        let further = is_called(rt.alloc(), behind, calls + 1)?;
        assert_eq!(rt; (last, further), (true, false), "{behind} bytes behind");
    }
    Ok(())
}

// How far the groups of such a segment go.
fn extent(
    alloc: Global,
    groups: u32,
    gate: u8,
    behind: usize,
) -> Result<(usize, usize, bool), Refusal> {
    let bytes = segment(alloc, groups, gate, behind)?;
    Ok(match extent_of(&bytes) {
        Some(
            Extent {
                groups_end,
                ticks,
                ended,
            },
        ) => (groups_end, ticks, ended),
        None => (0, 0, false),
    })
}

#[test]
fn groups_lead_a_segment(rt: HostRuntime) -> Result<(), Fail> {
    for (groups, gate, behind, want) in [
        (0, 0, 0, (9, 0, true)),
        (2, 3, 5, (143, 64, true)),
        (2, 1, 5, (143, 64, false)),
        (2_049, 0, 0, (137_225, 65_536, false)), // one group more than a segment has
    ] {
        let found = extent(rt.alloc(), groups, gate, behind)?;
        assert_eq!(rt;
            found,
            want,
            "{groups} groups, gate {gate}, {behind} bytes behind"
        );
    }
    Ok(())
}

// Two images, a segment of a group and a closed file, each with bytes after those that count.
fn files(alloc: Global) -> Result<FourFiles<Fused<ModelFile>>, Refusal> {
    let log = segment(alloc, 1, 0, 9)?;
    Ok(FourFiles {
        image_a: disk(alloc, &image())?,
        image_b: disk(alloc, &[0; 20])?,
        log_a: disk(alloc, &log)?,
        log_b: disk(alloc, &[0; 11])?,
    })
}

// Reads all files, and returns how many bytes of each are read.
fn counts(alloc: Global, files: &mut FourFiles<Fused<ModelFile>>) -> Result<[usize; 4], Refusal> {
    let read = read_files(alloc, files)?;
    Ok([
        read.image_a.len(),
        read.image_b.len(),
        read.log_a.len(),
        read.log_b.len(),
    ])
}

#[test]
fn each_file_is_read_as_far_as_it_counts(rt: HostRuntime) -> Result<(), Fail> {
    let read = counts(rt.alloc(), &mut files(rt.alloc())?);
    assert_eq!(rt; read, Ok([33, 17, 77, 11]));
    Ok(())
}

// Lets this call of image.a or of log.a fail, and reads the files twice.
fn fails_once(
    alloc: Global,
    is_image: bool,
    call: u64,
) -> Result<(Result<[usize; 4], Refusal>, Result<[usize; 4], Refusal>), Refusal>
    requires { 1 ≤ call }
{
    let mut files = files(alloc)?;
    if is_image {
        files.image_a.arm(call);
    } else {
        files.log_a.arm(call);
    }
    let first = counts(alloc, &mut files);
    Ok((first, counts(alloc, &mut files)))
}

#[test]
fn each_call_of_a_reader_may_fail(rt: HostRuntime) -> Result<(), Fail> {
    let whole = Ok([33, 17, 77, 11]);
    for (is_image, calls) in [(true, 3), (false, 2)] {
        for call in 1..=calls {
            let read = fails_once(rt.alloc(), is_image, call)?;
            let want = (Err(Refusal::Device), whole);
            assert_eq!(rt; read, want, "call {call}, image {is_image}");
        }
        let read = fails_once(rt.alloc(), is_image, 9)?;
        assert_eq!(rt; read, (whole, whole), "image {is_image}");
    }
    Ok(())
}
