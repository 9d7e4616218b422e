ghost use Rattle.std.specs.Prelude.{◌≡◌, IfOk, IfErr};
ghost use Rattle.image_files.specs.Image.{image_of};
ghost use Rattle.image_files.specs.Reading.{IsOpenImage};
ghost use Rattle.salvage.specs.Parts.{IsImagePart, kept_image};

use image_files::{ImageState, read_image};
use std::alloc::Global;
use world_actions::Refusal;

/// What is taken of an image file.
#[derive(Clone, Copy, Debug, PartialEq, Eq)]
pub enum ImagePart {
    /// It holds no image: it is closed, lost or empty.
    Closed,
    /// It is a whole image of this tick, and all of it is taken.
    Whole { tick: u64 },
    /// It is damaged, and nothing of it is taken.
    Dropped,
}

impl ImagePart {
    ghost use Rattle.std.specs.Prelude.{◌≡◌};
    ghost use Rattle.salvage.specs.Parts.{kept_image};

    /// Returns the bytes of a file that are taken: all of them, or none.
    pub fn kept<'a>(&self, bytes: &'a [u8]) -> &'a [u8]
        ensures { result.now ≡ kept_image self.now bytes.now }
    {
        match self {
            ImagePart::Dropped => &[],
            _ => bytes,
        }
    }
}

/// Judges an image file. It takes memory for the words of an open image, and gives it back.
pub fn image_part(alloc: Global, bytes: &[u8]) -> Result<ImagePart, Refusal>
    ensures part { IfOk result (λ part. IsImagePart bytes.now part) }
    ensures memory { IfErr result (λ refusal. (refusal ≡ Refusal.NoMemory)
        × IsOpenImage (image_of bytes.now)) }
{
    match read_image(alloc, bytes) {
        Ok(ImageState::Closed) => Ok(ImagePart::Closed),
        Ok(ImageState::Open { tick, .. }) => Ok(ImagePart::Whole { tick }),
        Err(Refusal::BadImage) => Ok(ImagePart::Dropped),
        Err(refusal) => Err(refusal),
    }
}
