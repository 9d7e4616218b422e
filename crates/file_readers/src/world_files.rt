ghost use Rattle.std.specs.Prelude.{◌≡◌, ◌≢◌, ◌⊎◌, length, IsTrue, Err, IfOk, IfErr};
ghost use Rattle.disk_model.specs.FourFiles.{EachFile, KeepsFile, fault_counts, OneGrew};
ghost use Rattle.action_log.specs.declared.format.TheConstants.{SEGMENT_BYTES_MAX};
ghost use Rattle.file_readers.specs.declared.image.TheConstants.{IMAGE_BYTES_MAX};
ghost use Rattle.file_readers.specs.Reading.{AreFilesRead};
ghost use Rattle.file_readers.specs.Asking.{FilesOnlyAsked, furthest_piece};

use crate::image::read_image_file;
use crate::segment::read_segment_file;
use disk_model::{Disk, FourFiles};
use std::alloc::Global;
use world_actions::Refusal;

/// Reads each file as far as its bytes count, in order. The first refusal ends it.
pub fn read_files<D: Disk>(
    alloc: Global,
    files: &mut FourFiles<D>,
) -> Result<FourFiles<Vec<u8>>, Refusal>
    ensures read { IsTrue D.honest → IfOk result (λ read. AreFilesRead D.content files.old
        read.image_a.items read.image_b.items read.log_a.items read.log_b.items) }
    ensures asked { FilesOnlyAsked D.called IMAGE_BYTES_MAX IMAGE_BYTES_MAX
        SEGMENT_BYTES_MAX SEGMENT_BYTES_MAX
        files.old files.new }
    ensures no_further { IfOk result (λ read. FilesOnlyAsked D.called
        (length read.image_a.items) (length read.image_b.items)
        (furthest_piece (length read.log_a.items)) (furthest_piece (length read.log_b.items))
        files.old files.new) }
    ensures kept { IsTrue D.honest
        → EachFile files.old files.new (KeepsFile D.Disk) }
    ensures fault { result ≡ Err Refusal.Device
        → OneGrew (fault_counts D.faults files.old) (fault_counts D.faults files.new) }
    ensures no_fault { result ≢ Err Refusal.Device
        → fault_counts D.faults files.new ≡ fault_counts D.faults files.old }
    ensures refused { IfErr result (λ refusal.
        (refusal ≡ Refusal.Device) ⊎ (refusal ≡ Refusal.NoMemory)) }
{
    Ok(FourFiles {
        image_a: read_image_file(alloc, &mut files.image_a)?,
        image_b: read_image_file(alloc, &mut files.image_b)?,
        log_a: read_segment_file(alloc, &mut files.log_a)?,
        log_b: read_segment_file(alloc, &mut files.log_b)?,
    })
}
