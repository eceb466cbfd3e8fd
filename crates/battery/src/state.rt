// What a battery-backed device is made of.
ghost use Rattle.std.specs.Prelude.{◌≡◌};

use crate::row::ROW;
use images::Imaged;

/// A battery-backed device over an image, with a number of calls left.
#[derive(Drop)]
pub struct Battery {
    pub(crate) rows: Imaged<ROW>,
}

impl Battery {
    ghost use Rattle.device.specs.Traces.{LeavesNothingOpen, ReadsKeep};
    ghost use Rattle.images.specs.Images.{block_count};
    ghost use Rattle.battery.specs.declared.row.TheConstants.{ROW};
    ghost use Rattle.battery.specs.Meaning.{image_of, state_of, meaning, Makes};

    /// A device over an image of any length and any bytes, with a number of calls. Bytes past the
    /// last whole row, and rows past the 65,535th, are no block's and never change.
    pub fn new(image: Vec<u8>, calls_left: u32) -> Battery
        ensures image { image_of result ≡ image.items }
        ensures same { result.rows.image ≡ image }
        ensures size { (meaning result).size ≡ block_count ROW image.items }
        ensures calls_left { (meaning result).calls_left ≡ calls_left }

        // what a call makes of the image and the calls left is fixed by these and the call
        ensures fixed { LeavesNothingOpen state_of Makes }
        ensures reads { ReadsKeep image_of Makes }
    {
        Battery {
            rows: Imaged::new(image, calls_left),
        }
    }

    /// The image as the device left it.
    pub fn into_image(self) -> Vec<u8>
        ensures image { result.items ≡ image_of self }
        ensures same { let r = self.rows in result ≡ r.image }
    {
        self.rows.image
    }
}
