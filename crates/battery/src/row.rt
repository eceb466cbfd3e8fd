// The row of one block: 0 if the block is readable, and its bytes.
ghost use Rattle.std.specs.Prelude.{◌∷◌};
ghost use Rattle.images.specs.Images.{held_bytes};
ghost use Rattle.battery.specs.Rows.{never_loose, row_after_write};
ghost use Rattle.battery.specs.RowLemmas.{full-after-write, reads-back};

use device::BLOCK_SIZE;
use images::{RowFormat, held_bytes};

// The number of bytes in a row.
pub(crate) const ROW: usize = 257;

// The format of a row whose bytes are kept as soon as they are written.
pub(crate) struct PlainRow;

impl RowFormat<ROW> for PlainRow {
    ghost shown_bytes = { held_bytes };

    ghost is_loose = { never_loose };

    ghost row_after_write = { row_after_write };

    fn show(row: &[u8; ROW]) -> Option<&[u8; BLOCK_SIZE]> {
        held_bytes(row)
    }

    #[tactic(auto, using(crate::proofs::Stored::stored))]
    fn store(row: &mut [u8; ROW], bytes: &[u8; BLOCK_SIZE]) {
        row[0] = 0;
        row[1..].copy_from_slice(bytes);
    }

    ghost keeps_width = { full-after-write };

    ghost reads_back = { reads-back };
}
