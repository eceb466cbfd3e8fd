// What a simulated device is made of.
ghost use Rattle.std.specs.Prelude.{◌≡◌};
ghost use Rattle.simulated.specs.Rows.{loose_count};
ghost use Rattle.simulated.specs.Lists.{ListsLooseIfAny, IsShort};
ghost use Rattle.std.proofs.Props.{props};

use crate::loose::LooseBlocks;
use crate::rows::ROW;
use images::Imaged;

/// A device that is simulated over an image, with a number of calls left.
#[derive(Drop)]
pub struct Simulated {
    pub(crate) rows: Imaged<ROW>,
    pub(crate) loose: LooseBlocks,
    ghost listed: { ListsLooseIfAny loose.list rows.image.items } by { Prim.hlevel props },
    ghost short: { IsShort loose.list (loose_count rows.image.items rows.size) } by { Prim.hlevel props },
}

impl Simulated {
    ghost use Rattle.device.specs.Traces.{LeavesNothingOpen, ReadsKeep};
    ghost use Rattle.images.specs.Images.{block_count};
    ghost use Rattle.simulated.specs.declared.rows.TheConstants.{ROW};
    ghost use Rattle.simulated.specs.Rows.{RowByNumber};
    ghost use Rattle.simulated.specs.Meaning.{image_of, state_of, meaning, Makes};

    /// A device over an image of any length and any bytes, with a number of calls. Bytes past the
    /// last whole row, and rows past the 65,535th, are no block's and never change.
    pub fn new(image: Vec<u8>, calls_left: u32) -> Simulated
        ensures image { image_of result ≡ image.items }
        ensures same { result.rows.image ≡ image }
        ensures size { (meaning result).size ≡ block_count ROW image.items }
        ensures calls_left { (meaning result).calls_left ≡ calls_left }

        // what a call makes of the image and the calls left is fixed by these and the call
        ensures fixed { LeavesNothingOpen state_of Makes }
        ensures reads { ReadsKeep image_of Makes }
        ensures places { RowByNumber }
    {
        let rows = Imaged::new(image, calls_left);
        let loose = LooseBlocks::of_rows(&rows);
        Simulated { rows, loose }
    }

    /// The image as the device left it.
    pub fn into_image(self) -> Vec<u8>
        ensures image { result.items ≡ image_of self }
        ensures same { let r = self.rows in result ≡ r.image }
    {
        self.rows.image
    }
}
