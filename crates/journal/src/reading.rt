// Reading the header, a mark and a record.
ghost use Rattle.std.specs.Prelude.{◌≡◌, ◌<◌, [], ◌∷◌, IfOk};
ghost use Rattle.device.specs.Traces.{IsTrace};
ghost use Rattle.journal.specs.Entries.{after_reads, block_read, read_mark_answer, read_record_answer};
ghost use Rattle.journal.specs.Headers.{read_header_answer, after_read_header, Fits};
ghost use Rattle.journal.specs.Journal.{mark_at, record_at};

use crate::entry::{decode_record, is_good_mark, mark_block_number, record_block_number};
use crate::header::Header;
use device::{BLOCK_SIZE, Device};
use instruction::Instruction;
use refusals::{Fault, Refusal};

/// The number of pairs of the journal on a device, by its header, which is one for books of these
/// kinds and for a device of this size. It reads block 0, once.
///
/// # Errors
///
/// - 11: the device has no block.
/// - 13: no call is left.
/// - 14: block 0 cannot be read.
/// - 43: block 0 is no header.
/// - 44: the header is for books of other kinds.
/// - 45: the device has too few blocks for the header's number of pairs.
pub fn read_header<D: Device>(device: &mut D, register: u8, cash: u8) -> Result<u32, Fault>
    ensures answer { result ≡ read_header_answer register cash (D.medium device.old) }
    ensures after { D.medium device.new ≡ after_read_header (D.medium device.old) }
    ensures fits { IfOk result (λ pairs. Fits pairs (D.medium device.new)) }
    ensures trace { IsTrace D.makes (block_read 0 ∷ []) device.old device.new }
{
    let mut block = [0; BLOCK_SIZE];
    device.read(0, &mut block)?;
    let header = Header::from_block(&block)?;
    if header.register != register || header.cash != cash {
        return Err(Refusal::OtherKinds.into());
    }
    if device.size() < 1 + 2 * header.pairs {
        return Err(Refusal::TooFewBlocks.into());
    }
    Ok(header.pairs)
}

/// Whether the mark of an entry is good: one that cannot be read is not. It reads one block, once.
///
/// The caller has made sure that the device has the entry's blocks.
///
/// # Errors
///
/// 13, with the block and the entry: no call is left.
pub fn read_mark<D: Device>(device: &mut D, entry: u32) -> Result<bool, Fault>
    requires within { mark_at entry < (D.medium device.old).size }
    ensures answer { result ≡ read_mark_answer (D.medium device.old) entry }
    ensures after { D.medium device.new ≡ after_reads 1 (D.medium device.old) }
    ensures trace { IsTrace D.makes (block_read (mark_at entry) ∷ []) device.old device.new }
{
    let mut block = [0; BLOCK_SIZE];
    match device.read(mark_block_number(entry), &mut block) {
        Ok(()) => Ok(is_good_mark(&block, entry)),
        Err(fault) if fault.refusal == Refusal::Unreadable => Ok(false),
        Err(fault) => Err(fault.in_entry(entry)),
    }
}

/// The instruction that the record of an entry says. It reads one block, once.
///
/// The caller has made sure that the device has the entry's blocks.
///
/// # Errors
///
/// - 13, with the block and the entry: no call is left.
/// - 14, with the block and the entry: the block cannot be read.
/// - 46, with the entry: the block is not the record of this entry.
pub fn read_record<D: Device>(device: &mut D, entry: u32) -> Result<Instruction, Fault>
    requires within { mark_at entry < (D.medium device.old).size }
    ensures answer { result ≡ read_record_answer (D.medium device.old) entry }
    ensures after { D.medium device.new ≡ after_reads 1 (D.medium device.old) }
    ensures trace { IsTrace D.makes (block_read (record_at entry) ∷ []) device.old device.new }
{
    let mut block = [0; BLOCK_SIZE];
    device
        .read(record_block_number(entry), &mut block)
        .map_err(|fault| fault.in_entry(entry))?;
    decode_record(&block, entry).map_err(|refusal| Fault::from(refusal).in_entry(entry))
}
