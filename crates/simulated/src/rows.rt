// The row of one block: 0 if the block is readable, its kept bytes, 0 if the block is not loose,
// and its newer bytes.
ghost use Rattle.std.specs.Prelude.{◌≡◌, drop, length, if◌then◌else◌, slice_index};
ghost use Rattle.std.specs.Slice.Iter.{iter_rest};
ghost use Rattle.device.specs.Bytes.{AreBytes};
ghost use Rattle.images.specs.Images.{kept_bytes};
ghost use Rattle.simulated.specs.Rows.{is_loose, newer_bytes, shown_bytes, row_after_write, firm_row, row_after_sync, torn_bytes, revived_row};
ghost use Rattle.simulated.specs.RowLemmas.{written-full, written-shown};

use device::BLOCK_SIZE;
use images::{RowFormat, held_bytes};
use std::slice::Iter;

// The number of bytes in a row.
pub(crate) const ROW: usize = 514;

// The place in a row of the byte that says whether the block is loose. The kept bytes end before
// it.
pub(crate) const LOOSE_FLAG: usize = 257;

// The place in a row of the first newer byte.
pub(crate) const NEWER: usize = 258;

// Half as many bytes as a block has: where a torn write stops.
pub(crate) const HALF_BLOCK: usize = 128;

// The format of a row that keeps a block's old bytes beside the newer ones until a sync.
pub(crate) struct Halves;

impl RowFormat<ROW> for Halves {
    ghost shown_bytes = { shown_bytes };

    ghost is_loose = { is_loose };

    ghost row_after_write = { row_after_write };

    fn show(row: &[u8; ROW]) -> Option<&[u8; BLOCK_SIZE]> {
        if row_is_loose(row) {
            Some(newer_bytes(row))
        } else {
            held_bytes(row)
        }
    }

    #[tactic(auto, using(crate::proofs::RowLaws::written_is))]
    fn store(row: &mut [u8; ROW], bytes: &[u8; BLOCK_SIZE]) {
        row[LOOSE_FLAG] = 1;
        row[NEWER..].copy_from_slice(bytes);
    }

    ghost keeps_width = { written-full };

    ghost reads_back = { written-shown };
}

pub(crate) fn row_is_loose(row: &[u8; ROW]) -> bool
    ensures { result ≡ is_loose row.now }
{
    row[LOOSE_FLAG] != 0
}

fn kept_bytes(row: &[u8; ROW]) -> &[u8; BLOCK_SIZE]
    ensures { result.now ≡ kept_bytes row.now }
{
    row[1..LOOSE_FLAG].as_array().unwrap()
}

fn newer_bytes(row: &[u8; ROW]) -> &[u8; BLOCK_SIZE]
    ensures { result.now ≡ newer_bytes row.now }
{
    row[NEWER..ROW].as_array().unwrap()
}

// Gives a row its first byte and its kept bytes, and makes it not loose.
fn keep(row: &mut [u8; ROW], flag: u8, bytes: &[u8; BLOCK_SIZE])
    ensures { row.new ≡ firm_row flag bytes.now row.old }
{
    row[0] = flag;
    row[1..LOOSE_FLAG].copy_from_slice(bytes);
    row[LOOSE_FLAG] = 0;
}

// Sets the first byte, and makes the row firm. The kept bytes stay.
fn set_flag(row: &mut [u8; ROW], flag: u8)
    ensures { row.new ≡ firm_row flag (kept_bytes row.old) row.old }
{
    let bytes = *kept_bytes(row);
    keep(row, flag, &bytes);
}

// Keeps the newer bytes, which are readable then.
fn keep_newer(row: &mut [u8; ROW])
    ensures { row.new ≡ firm_row 0 (newer_bytes row.old) row.old }
{
    let bytes = *newer_bytes(row);
    keep(row, 0, &bytes);
}

// What a write leaves that was cut in the middle: the first half is new, the second old.
fn tear(row: &[u8; ROW]) -> [u8; BLOCK_SIZE]
    ensures { result ≡ torn_bytes row.now }
{
    let mut bytes = *kept_bytes(row);
    bytes[..HALF_BLOCK].copy_from_slice(&newer_bytes(row)[..HALF_BLOCK]);
    bytes
}

// Moves the newer bytes of a loose row into the kept ones. The row is lent by indexing
// (docs/DECISIONS.md says why).
pub(crate) fn sync_row(row: &mut [u8])
    requires { length row.old ≡ ROW }
    ensures { row.new ≡ row_after_sync 0 row.old }
{
    let row = row.as_mut_array().unwrap();
    if row_is_loose(row) {
        keep_newer(row);
    }
}

// What a restart makes of a loose row, by its byte of the remains.
fn revive(row: &mut [u8; ROW], byte: u8)
    ensures { row.new ≡ revived_row byte row.old }
{
    let flag = row[0];
    match byte {
        0 => set_flag(row, flag),
        1 => keep_newer(row),
        2 => set_flag(row, 1),
        3 if flag == 0 => {
            let bytes = tear(row);
            keep(row, 0, &bytes);
        }
        3 => set_flag(row, 1),
        _ => keep(row, 0, &[byte; BLOCK_SIZE]),
    }
}

// The next byte of the remains, or 0 past their end.
#[tactic(auto, using(crate::proofs::SweepLaws::next_taken))]
fn take_byte(remains: &mut Iter<'_, u8>) -> u8
    ensures byte { result ≡ slice_index (iter_rest remains.old) 0 }
    ensures taken { iter_rest remains.new ≡ drop 1 (iter_rest remains.old) }
{
    remains.next().copied().unwrap_or(0)
}

// Restarts a row, which comes as a slice as in `sync_row`. A loose one takes the next byte of the
// remains.
pub(crate) fn restart_row(row: &mut [u8], remains: &mut Iter<'_, u8>)
    requires { length row.old ≡ ROW }
    ensures row { row.new
        ≡ (if is_loose row.old then revived_row (slice_index (iter_rest remains.old) 0) row.old
        else row.old) }
    ensures taken { iter_rest remains.new
        ≡ (if is_loose row.old then drop 1 (iter_rest remains.old) else iter_rest remains.old) }
    ensures bytes { AreBytes row.new }
{
    let row = row.as_mut_array().unwrap();
    if row_is_loose(row) {
        let byte = take_byte(remains);
        revive(row, byte);
    }
}
