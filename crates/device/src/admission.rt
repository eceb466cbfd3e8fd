// The checks that a read and a write share.
ghost use Rattle.std.specs.Prelude.{◌≡◌};
ghost use Rattle.device.specs.Medium.{LimitsByNumber};
ghost use Rattle.device.specs.Calls.{admit_answer};

use crate::BLOCK_SIZE;
use refusals::{Fault, Refusal};

/// The checks that a read and a write share, for a device of `size` blocks with `calls_left`
/// calls, asked for a block with a buffer of `length` bytes. It changes nothing: the call that it
/// admits is still to be spent.
///
/// # Errors
///
/// In this order: 11 if there is no such block, 12 if `length` is not [`BLOCK_SIZE`], 13 if no
/// calls are left. Each names the block.
pub fn admit(size: u32, calls_left: u32, block: u32, length: usize) -> Result<(), Fault>
    ensures answer { result ≡ admit_answer size calls_left block length }
    ensures limits { LimitsByNumber }
{
    if block >= size {
        return Err(Fault::at_block(Refusal::NoBlock, block));
    }
    if length != BLOCK_SIZE {
        return Err(Fault::at_block(Refusal::NotABlock, block));
    }
    if calls_left == 0 {
        return Err(Fault::at_block(Refusal::NoCalls, block));
    }
    Ok(())
}
