// A drill that any powered device must stand, proved from the interface alone.
ghost use Rattle.std.specs.Prelude.{◌≡◌, ◌-◌, min, [], ◌∷◌, length};
ghost use Rattle.refusals.specs.Answers.{if_ok};
ghost use Rattle.device.specs.declared.TheConstants.{BLOCK_SIZE};
ghost use Rattle.device.specs.Calls.{SameBlocks, write_answer};
ghost use Rattle.device.specs.Traces.{IsTrace, reading, restarting};
ghost use Rattle.check_drill.specs.Drills.{CutsAndReads, Drills, WritesBlocks, drill_calls, look_answer};

use device::{BLOCK_SIZE, Device, PoweredDevice};
use refusals::Fault;

/// What a drill writes: the same bytes to two blocks, which may be one. It syncs after the first
/// write, so that only the second may leave its block loose.
#[derive(Clone, Copy)]
pub struct DrillWrites<'a> {
    /// The block that is written and synced.
    pub synced_block: u32,
    /// The block that is written and not synced.
    pub loose_block: u32,
    /// The bytes for both.
    pub bytes: &'a [u8],
}

/// A loss of power: the calls that the restart is asked for, and the remains that it takes.
#[derive(Clone, Copy)]
pub struct CutPoint<'a> {
    /// The number of calls that the restart is asked for.
    pub calls_left: u32,
    /// What is left of the loose blocks, in the words of the kind of device.
    pub remains: &'a [u8],
}

/// The first and the last byte of a block.
#[derive(Clone, Copy)]
pub struct Ends {
    /// The first byte.
    pub first: u8,
    /// The last byte.
    pub last: u8,
}

// Writes and syncs one block, and writes another and does not sync it.
fn write_blocks<D: Device>(device: &mut D, writes: &DrillWrites<'_>) -> Result<(), Fault>
    ensures writes { let w = writes.now in
        WritesBlocks (D.Device.medium device.old) (D.Device.medium device.new)
        w.synced_block w.loose_block w.bytes.now result }
    ensures calls { let w = writes.now in
        IsTrace D.Device.makes
        (drill_calls (D.Device.medium device.old) w.synced_block w.loose_block w.bytes.now [])
        device.old device.new }
{
    device.write(writes.synced_block, writes.bytes)?;
    device.sync()?;
    device.write(writes.loose_block, writes.bytes)
}

// Cuts the power, and reads the first block back.
fn cut_and_read<P: PoweredDevice>(
    device: &mut P,
    writes: &DrillWrites<'_>,
    cut: &CutPoint<'_>,
    back: &mut [u8],
) -> Result<(), Fault>
    ensures read { CutsAndReads (P.Device.medium device.old) (P.Device.medium device.new)
        writes.now.synced_block (min cut.now.calls_left P.PoweredDevice.most_calls)
        back.old back.new result }
    ensures calls { let c = cut.now in
        let block = writes.now.synced_block in
        IsTrace P.Device.makes
        (restarting c.calls_left c.remains.now ∷ reading block (length back.old) ∷ [])
        device.old device.new }
{
    device.restart(cut.calls_left, cut.remains);
    device.read(writes.synced_block, back)
}

/// Writes and syncs one block, writes another and does not sync it, cuts the power, and reads the
/// first block back.
///
/// # Errors
///
/// The refusal of the first call that refuses: 11 or 12 where a block or the bytes do not fit, 13
/// where calls run out, and of the read also 14. The buffer stays as it was then.
pub fn drill<P: PoweredDevice>(
    device: &mut P,
    writes: &DrillWrites<'_>,
    cut: &CutPoint<'_>,
    back: &mut [u8],
) -> Result<(), Fault>
    ensures drills { let w = writes.now in
        Drills (P.Device.medium device.old) (P.Device.medium device.new)
        w.synced_block w.loose_block w.bytes.now
        (min cut.now.calls_left P.PoweredDevice.most_calls) back.old back.new result }

    // the calls that were made, of which the kind of device may say more than every device
    // promises
    ensures calls { let w = writes.now in
        let c = cut.now in
        let after_writes =
        restarting c.calls_left c.remains.now ∷ reading w.synced_block (length back.old) ∷ [] in
        IsTrace P.Device.makes
        (drill_calls (P.Device.medium device.old)
        w.synced_block w.loose_block w.bytes.now after_writes)
        device.old device.new }
{
    write_blocks(device, writes)?;
    cut_and_read(device, writes, cut, back)
}

/// Reads a block, and tells its ends.
///
/// # Errors
///
/// Those of a read.
pub fn look<D: Device>(device: &mut D, block: u32) -> Result<Ends, Fault>
    ensures ends { result ≡ look_answer (D.Device.medium device.old) block }
    ensures calls_left { (D.Device.medium device.new).calls_left
        ≡ if_ok (write_answer (D.Device.medium device.old) block BLOCK_SIZE)
        ((D.Device.medium device.old).calls_left - 1)
        (D.Device.medium device.old).calls_left }
    ensures same { SameBlocks (D.Device.medium device.old) (D.Device.medium device.new) }
    ensures call { D.Device.makes device.old (reading block BLOCK_SIZE) device.new }
{
    let mut buffer = [0u8; BLOCK_SIZE];
    device.read(block, &mut buffer)?;
    Ok(Ends {
        first: buffer[0],
        last: buffer[255],
    })
}
