// How many blocks an image has.
ghost use Rattle.std.specs.Prelude.{◌≡◌};
ghost use Rattle.device.specs.Bytes.{AreBytes};
ghost use Rattle.images.specs.Images.{block_count};

use device::MOST_BLOCKS;

/// The number of blocks in an image with rows of `width` bytes: its whole rows, at most
/// [`MOST_BLOCKS`], and 0 if the width is 0.
///
/// The clause `bytes` says again what the type of the image says, for the proof that a device made
/// of it holds bytes.
pub fn whole_blocks(image: &[u8], width: usize) -> u32
    ensures value { result ≡ block_count width image.now }
    ensures bytes { AreBytes image.now }
{
    let rows = image.len().checked_div(width).unwrap_or(0);
    rows.min(MOST_BLOCKS) as u32
}
