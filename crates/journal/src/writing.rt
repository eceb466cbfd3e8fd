// Writing an entry.
ghost use Rattle.std.specs.Prelude.{◌≡◌, ◌<◌};
ghost use Rattle.device.specs.Traces.{IsTrace};
ghost use Rattle.journal.specs.Blocks.{record_bytes, mark_bytes};
ghost use Rattle.journal.specs.Entries.{write_entry_calls};
ghost use Rattle.journal.specs.Journal.{mark_at, write_entry_answer, WritesEntry};

use crate::entry::{mark_block, mark_block_number, record_block, record_block_number};
use device::Device;
use instruction::Instruction;
use refusals::Fault;

/// Writes an entry, in four calls: its record, a sync, its mark, a sync.
///
/// The caller has made sure that the device has the entry's blocks.
///
/// # Errors
///
/// 13: no call is left for one of the four. It names the block of a write, and none of a sync.
pub fn write_entry<D: Device>(device: &mut D, entry: u32, x: &Instruction) -> Result<(), Fault>
    requires within { mark_at entry < (D.medium device.old).size }
    ensures answer { result ≡ write_entry_answer (D.medium device.old) entry }
    ensures after { WritesEntry (record_bytes entry x.now) (mark_bytes entry) entry
        (D.medium device.old) (D.medium device.new) }
    ensures trace { IsTrace D.makes (write_entry_calls entry x.now (D.medium device.old).calls_left)
        device.old device.new }
{
    // One sync for both would let the mark outlive its record.
    device.write(record_block_number(entry), &record_block(entry, x))?;
    device.sync()?;
    device.write(mark_block_number(entry), &mark_block(entry))?;
    device.sync()
}
