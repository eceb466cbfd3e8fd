// A device over an image, in rows of one width.
ghost use Rattle.std.specs.Prelude.{◌≡◌, ℕ, ◌-◌, ◌^◌, ◌<◌, ◌≤◌, Bool, List, length, Some, None, Option, IsSome, IsNone, MatchOption, ◌↔◌};
ghost use Rattle.refusals.specs.Answers.{if_ok};
ghost use Rattle.device.specs.declared.TheConstants.{BLOCK_SIZE};
ghost use Rattle.device.specs.Bytes.{AreBytes};
ghost use Rattle.device.specs.Calls.{Read, Write, spend_answer};
ghost use Rattle.images.specs.Images.{block_count, held_bytes, image_medium, row, with_row};

use crate::blocks::whole_blocks;
use device::{BLOCK_SIZE, admit};
use refusals::{Fault, Refusal};

/// What a row of `ROW` bytes means to a kind of device, and what a write makes of it.
pub trait RowFormat<const ROW: usize> {
    /// The bytes that a row reads as, or `None` where its block is unreadable.
    ghost shown_bytes: { List ℕ → Option (List ℕ) };

    /// Whether the block of a row is loose.
    ghost is_loose: { List ℕ → Bool };

    /// The row after a write of a block's bytes to it.
    ghost row_after_write: { List ℕ → List ℕ → List ℕ };

    /// The bytes that a row reads as, if its block is readable.
    fn show(row: &[u8; ROW]) -> Option<&[u8; BLOCK_SIZE]>
        ensures { let content = shown_bytes row.now in
            MatchOption result (content ≡ None) (λ bytes. content ≡ Some bytes.now) };

    /// Puts the bytes of a block into a row.
    fn store(row: &mut [u8; ROW], bytes: &[u8; BLOCK_SIZE])
        ensures { row.new ≡ row_after_write row.old bytes.now };

    /// A row keeps its width.
    ghost keeps_width: { (r bytes : List ℕ) → length r ≡ ROW → length bytes ≡ BLOCK_SIZE
        → length (row_after_write r bytes) ≡ ROW };

    /// A row reads as what was written to it.
    ghost reads_back: { (r bytes : List ℕ) → length r ≡ ROW → length bytes ≡ BLOCK_SIZE
        → shown_bytes (row_after_write r bytes) ≡ Some bytes };
}

/// An image with a row of `ROW` bytes for each block, and the calls left. Every change of a field
/// must prove the three facts below again.
#[derive(Drop)]
pub struct Imaged<const ROW: usize> {
    /// The rows in the order of their blocks, and bytes past the last row that no block has.
    pub image: Vec<u8>,
    /// The number of blocks, which is counted once.
    pub size: u32,
    /// The number of calls left.
    pub calls_left: u32,
    ghost sized: { size ≡ block_count ROW image.items },
    ghost few_calls: { calls_left < 2 ^ 32 },
    ghost bytes: { AreBytes image.items },
}

/// A block's bytes, which follow the first byte of its row, if that byte is 0 and so says that the
/// block is readable. A row that is too short for them has none.
pub fn held_bytes(row: &[u8]) -> Option<&[u8; BLOCK_SIZE]>
    ensures value { BLOCK_SIZE < length row.now
        → (let content = held_bytes row.now in
        MatchOption result (content ≡ None) (λ bytes. content ≡ Some bytes.now)) }
    ensures short { length row.now ≤ BLOCK_SIZE → IsNone result }
{
    let (flag, bytes) = row.split_first()?;
    if *flag == 0 {
        bytes.first_chunk()
    } else {
        None
    }
}

// Puts the bytes of a block into a row, which is lent by indexing (docs/DECISIONS.md says why).
fn store_row<const ROW: usize, F: RowFormat<ROW>>(row: &mut [u8], bytes: &[u8; BLOCK_SIZE])
    requires { length row.old ≡ ROW }
    ensures { row.new ≡ F.row_after_write row.old bytes.now }
{
    F::store(row.as_mut_array().unwrap(), bytes);
}

impl<const ROW: usize> Imaged<ROW> {
    /// A device over an image of any length and any bytes, with a number of calls.
    pub fn new(image: Vec<u8>, calls_left: u32) -> Imaged<ROW>
        ensures image { result.image ≡ image }
        ensures calls_left { result.calls_left ≡ calls_left }
    {
        let size = whole_blocks(image.as_slice(), ROW);
        Imaged {
            image,
            size,
            calls_left,
        }
    }

    // The row of a block that the image has.
    fn row_at(&self, block: u32) -> &[u8; ROW]
        requires { block < self.now.size }
        ensures { result.now ≡ row ROW self.now.image.items block }
    {
        let start = ROW * block as usize;
        self.image.as_slice()[start..start + ROW]
            .as_array()
            .unwrap()
    }

    /// The row of a block, if there is such a block.
    pub fn row(&self, block: u32) -> Option<&[u8; ROW]>
        ensures has { IsSome result ↔ (block < self.now.size) }
        ensures value { let r = row ROW self.now.image.items block in
            MatchOption result (self.now.size ≤ block) (λ answer. answer.now ≡ r) }
    {
        if block < self.size {
            Some(self.row_at(block))
        } else {
            None
        }
    }

    // Makes the row of a block that the image has hold the bytes.
    fn store<F: RowFormat<ROW>>(&mut self, block: u32, bytes: &[u8; BLOCK_SIZE])
        requires { block < self.old.size }
        ensures image { let xs = self.old.image.items in
            let r = F.row_after_write (row ROW xs block) bytes.now in
            self.new.image.items ≡ with_row ROW xs block r }
        ensures calls_left { self.new.calls_left ≡ self.old.calls_left }
    {
        let start = ROW * block as usize;
        let image = self.image.as_mut_slice();
        store_row::<ROW, F>(&mut image[start..start + ROW], bytes);
    }

    /// Spends a call, as a sync does.
    ///
    /// # Errors
    ///
    /// 13 if no calls are left, which names no block.
    pub fn spend(&mut self) -> Result<(), Fault>
        ensures answer { result ≡ spend_answer self.old.calls_left }
        ensures calls_left { let n = self.old.calls_left in
            self.new.calls_left ≡ if_ok result (n - 1) n }
        ensures image { self.new.image ≡ self.old.image }
    {
        if self.calls_left == 0 {
            return Err(Refusal::NoCalls.into());
        }
        self.calls_left -= 1;
        Ok(())
    }

    /// Reads a block, as the format shows its row.
    ///
    /// # Errors
    ///
    /// Those of `Device::read`.
    pub fn read<F: RowFormat<ROW>>(&mut self, block: u32, buffer: &mut [u8]) -> Result<(), Fault>
        ensures call { let means = image_medium ROW F.shown_bytes F.is_loose in
            Read (means self.old.image.items self.old.calls_left)
            (means self.new.image.items self.new.calls_left)
            block buffer.old buffer.new result }
        ensures image { self.new.image ≡ self.old.image }
    {
        admit(self.size, self.calls_left, block, buffer.len())?;
        self.calls_left -= 1;
        let Some(bytes) = F::show(self.row_at(block)) else {
            return Err(Fault::at_block(Refusal::Unreadable, block));
        };
        buffer.copy_from_slice(bytes);
        Ok(())
    }

    /// Writes a block, as the format stores it in its row.
    ///
    /// # Errors
    ///
    /// Those of `Device::write`. A refusal leaves the image.
    pub fn write<F: RowFormat<ROW>>(&mut self, block: u32, bytes: &[u8]) -> Result<(), Fault>
        ensures call { let means = image_medium ROW F.shown_bytes F.is_loose in
            Write (means self.old.image.items self.old.calls_left)
            (means self.new.image.items self.new.calls_left)
            block bytes.now result }
        ensures image { let xs = self.old.image.items in
            let r = F.row_after_write (row ROW xs block) bytes.now in
            self.new.image.items ≡ if_ok result (with_row ROW xs block r) xs }
    {
        admit(self.size, self.calls_left, block, bytes.len())?;
        self.calls_left -= 1;
        self.store::<F>(block, bytes.as_array().unwrap());
        Ok(())
    }
}
