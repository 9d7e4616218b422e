ghost use Rattle.std.specs.Prelude.{◌≡◌, ◌↔◌, IsTrue};
ghost use Rattle.image_files.specs.Image.{Closed, image_of};
ghost use Rattle.action_log.specs.Segment.{ClosedSegment, IsSegment};
ghost use Rattle.world_start.specs.Fresh.{AreClosed};

use action_log::{judge_log, segments_read_once};
use disk_model::FourFiles;
use image_files::{ImageState, read_image};
use std::alloc::Global;

/// True if none of four files holds an image or a segment. An open image isn't closed, even if
/// memory runs out when it is read.
pub fn are_closed(alloc: Global, bytes: &FourFiles<Vec<u8>>) -> bool
    ensures { IsTrue result ↔ AreClosed bytes.now.image_a.items bytes.now.image_b.items
        bytes.now.log_a.items bytes.now.log_b.items }
{
    is_closed_image(alloc, &bytes.image_a)
        && is_closed_image(alloc, &bytes.image_b)
        && is_closed_segment(&bytes.log_a)
        && is_closed_segment(&bytes.log_b)
}

/// True if a file holds no image.
pub fn is_closed_image(alloc: Global, bytes: &[u8]) -> bool
    ensures { IsTrue result ↔ (image_of bytes.now ≡ Closed) }
{
    matches!(read_image(alloc, bytes), Ok(ImageState::Closed))
}

/// True if a file holds no segment.
pub fn is_closed_segment(bytes: &[u8]) -> bool
    ensures { IsTrue result ↔ IsSegment bytes.now ClosedSegment }
{
    segments_read_once();
    matches!(judge_log(bytes), Ok(None))
}
