// Making a device into a journal with no entries. The old header goes first and the new one comes
// last, and the marks between them, each with a sync. So no header ever stands over marks of
// which only some are replaced.
ghost use Rattle.std.specs.Prelude.{◌≡◌, ◌+◌, ◌*◌, ◌<◌, ◌≤◌, true, false, [], ◌∷◌, ◌++◌, take, None, Ok};
ghost use Rattle.device.specs.Traces.{IsTrace, writing, syncing};
ghost use Rattle.journal.specs.Blocks.{header_bytes, journal_blocks};
ghost use Rattle.journal.specs.Journal.{Journal};
ghost use Rattle.journal.specs.Places.{FormatPlaces};
ghost use Rattle.journal.specs.Format.{header_for_kinds, no_room, format_answer, Formats, write_sync_answer, WritesAndSyncs, blank_marks_answer, BlanksMarks, mark_writes, format_calls};

use crate::MOST_PAIRS;
use crate::entry::mark_block_number;
use crate::header::Header;
use device::{BLOCK_SIZE, Device};
use refusals::{Fault, Refusal};

const ZEROS: [u8; BLOCK_SIZE] = [0; BLOCK_SIZE];

// Writes a block, and syncs.
fn write_and_sync<D: Device>(
    device: &mut D,
    block: u32,
    bytes: &[u8; BLOCK_SIZE],
) -> Result<(), Fault>
    requires { block < (D.medium device.old).size }
    ensures answer { result ≡ write_sync_answer block (D.medium device.old).calls_left }
    ensures after { WritesAndSyncs block bytes.now (D.medium device.old) (D.medium device.new) }
    ensures trace { let calls_left = (D.medium device.old).calls_left in
        IsTrace D.makes (take (calls_left + 1) (writing block bytes.now ∷ syncing ∷ []))
        device.old device.new }
{
    device.write(block, bytes)?;
    device.sync()
}

// Puts zeros, which are no good mark, in place of each entry's mark, and syncs.
fn blank_marks<D: Device>(device: &mut D, pairs: u32) -> Result<(), Fault>
    requires few { pairs ≤ MOST_PAIRS }
    requires within { 1 + 2 * pairs ≤ (D.medium device.old).size }
    ensures answer { result ≡ blank_marks_answer pairs (D.medium device.old).calls_left }
    ensures after { BlanksMarks pairs (D.medium device.old) (D.medium device.new) }
    ensures trace { let calls_left = (D.medium device.old).calls_left in
        IsTrace D.makes (take (calls_left + 1) (mark_writes pairs ++ (syncing ∷ [])))
        device.old device.new }
{
    for entry in 0..pairs {
        device.write(mark_block_number(entry), &ZEROS)?;
    }
    device.sync()
}

/// Makes a device into a journal with no entries, for books of these kinds and with so many
/// pairs. What it leaves where power goes before the end is in the contract (`Formats`).
///
/// # Errors
///
/// - 61: the number of pairs is not 1 to `MOST_PAIRS`, or the device has too few blocks. No call
///   is made then.
/// - 13: no call is left for a write or a sync. It names the block of a write.
pub fn format<D: Device>(device: &mut D, pairs: u32, register: u8, cash: u8) -> Result<(), Fault>
    ensures answer { result ≡ format_answer pairs (D.medium device.old) }
    ensures refused { no_room pairs (D.medium device.old).size ≡ true
        → D.medium device.new ≡ D.medium device.old }
    ensures after { let head = header_for_kinds register cash pairs in
        no_room pairs (D.medium device.old).size ≡ false
        → Formats (header_bytes head) pairs (D.medium device.old) (D.medium device.new) }
    ensures trace { let m = D.medium device.old in
        let head = header_for_kinds register cash pairs in
        IsTrace D.makes (format_calls (header_bytes head) pairs m.size m.calls_left)
        device.old device.new }
    ensures places { result ≡ Ok tt
        → FormatPlaces register cash pairs (D.medium device.old) (D.medium device.new) }
    ensures journal { let head = header_for_kinds register cash pairs in
        result ≡ Ok tt → Journal (journal_blocks head) (D.medium device.new) [] None }
{
    if pairs < 1 || pairs > MOST_PAIRS || device.size() < 1 + 2 * pairs {
        return Err(Refusal::NoRoom.into());
    }
    write_and_sync(device, 0, &ZEROS)?;
    blank_marks(device, pairs)?;
    let header = Header {
        register,
        cash,
        pairs,
    };
    write_and_sync(device, 0, &header.to_block())
}
