// An entry of a journal: its record, which says an instruction, and its mark, which says that the
// record is complete. The entry's number goes into both.
ghost use Rattle.std.specs.Prelude.{◌≡◌, ◌<◌};
ghost use Rattle.journal.specs.Blocks.{mark_bytes, is_mark, record_bytes, record_in};
ghost use Rattle.journal.specs.Journal.{record_at, mark_at};
ghost use Rattle.journal.specs.Places.{MarkPlaces, RecordPlaces};
ghost use Rattle.journal.specs.Decoding.{ReadsMark, ReadsRecord};

use crate::MOST_PAIRS;
use device::BLOCK_SIZE;
use instruction::Instruction;
use little_endian::LittleEndian;
use refusals::Refusal;

// The block that has the record of an entry.
pub(crate) fn record_block_number(entry: u32) -> u32
    requires { entry < MOST_PAIRS }
    ensures { result ≡ record_at entry }
{
    1 + 2 * entry
}

// The block that has the mark of an entry.
pub(crate) fn mark_block_number(entry: u32) -> u32
    requires { entry < MOST_PAIRS }
    ensures { result ≡ mark_at entry }
{
    2 + 2 * entry
}

/// The good mark of an entry, as bytes: the entry's number, 4,294,967,295 less it, and zeros.
pub fn mark_block(entry: u32) -> [u8; BLOCK_SIZE]
    ensures value { result ≡ mark_bytes entry }
    ensures places { MarkPlaces entry result }
{
    let number: [u8; 4] = entry.to_little_endian();
    let complement: [u8; 4] = (u32::MAX - entry).to_little_endian();
    let mut block = [0; BLOCK_SIZE];
    block[..4].copy_from_slice(&number);
    block[4..8].copy_from_slice(&complement);
    block
}

/// Whether a block is the good mark of an entry.
pub fn is_good_mark(block: &[u8; BLOCK_SIZE], entry: u32) -> bool
    ensures value { result ≡ is_mark entry block.now }
    ensures exact { ReadsMark entry block.now result }
{
    *block == mark_block(entry)
}

/// The record of an entry, as bytes: the entry's number, the count of its instructions, which is
/// 1, the instruction's 32 bytes, and zeros.
pub fn record_block(entry: u32, x: &Instruction) -> [u8; BLOCK_SIZE]
    ensures value { result ≡ record_bytes entry x.now }
    ensures places { RecordPlaces entry x.now result }
{
    let number: [u8; 4] = entry.to_little_endian();
    let mut block = [0; BLOCK_SIZE];
    block[..4].copy_from_slice(&number);
    block[4] = 1;
    block[8..40].copy_from_slice(&x.to_bytes());
    block
}

/// The instruction that a block says as the record of an entry.
///
/// # Errors
///
/// 46: the block is not the record of this entry, whatever its instruction.
pub fn decode_record(block: &[u8; BLOCK_SIZE], entry: u32) -> Result<Instruction, Refusal>
    ensures value { result ≡ record_in entry block.now }
    ensures exact { ReadsRecord entry block.now result }
{
    // Most blocks that are no such record show it here, before the instruction is read.
    if u32::from_little_endian(&[block[0], block[1], block[2], block[3]]) != entry {
        return Err(Refusal::Malformed);
    }
    if u32::from_little_endian(&[block[4], block[5], block[6], block[7]]) != 1 {
        return Err(Refusal::Malformed);
    }
    let x = Instruction::from_bytes(&block[8..40])?;
    if *block != record_block(entry, &x) {
        return Err(Refusal::Malformed);
    }
    Ok(x)
}
