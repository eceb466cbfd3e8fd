// Many rows of an image, which are lent one at a time by indexing (docs/DECISIONS.md says why).
ghost use Rattle.std.specs.Prelude.{◌≡◌, ◌<◌, drop, if◌then◌else◌, nat_lt, slice_index};
ghost use Rattle.std.specs.Slice.Iter.{iter_rest};
ghost use Rattle.images.specs.Images.{with_row, row, ChangesRows};
ghost use Rattle.simulated.specs.declared.rows.TheConstants.{ROW};
ghost use Rattle.simulated.specs.Rows.{is_loose, revived_row, row_after_sync, row_after_restart};
ghost use Rattle.simulated.specs.Lists.{row_after_listed_sync};

use crate::rows::{ROW, restart_row, sync_row};
use images::Imaged;
use std::slice::Iter;

fn sync_block(rows: &mut Imaged<ROW>, block: u32)
    requires { block < rows.old.size }
    ensures image { let xs = rows.old.image.items in
        rows.new.image.items ≡ with_row ROW xs block (row_after_sync 0 (row ROW xs block)) }
    ensures size { rows.new.size ≡ rows.old.size }
    ensures calls_left { rows.new.calls_left ≡ rows.old.calls_left }
{
    let start = ROW * block as usize;
    let image = rows.image.as_mut_slice();
    sync_row(&mut image[start..start + ROW]);
}

// Syncs every loose row.
pub(crate) fn sync_all(rows: &mut Imaged<ROW>)
    ensures image { ChangesRows ROW row_after_sync
        rows.old.size rows.old.image.items rows.new.image.items }
    ensures calls_left { rows.new.calls_left ≡ rows.old.calls_left }
{
    for b in 0..rows.size {
        sync_block(rows, b);
    }
}

// Syncs the row of a block. A number that no block has is passed over.
fn sync_named(rows: &mut Imaged<ROW>, block: u32)
    ensures image { let xs = rows.old.image.items in
        let r = row_after_sync 0 (row ROW xs block) in
        rows.new.image.items
        ≡ (if nat_lt block rows.old.size then with_row ROW xs block r else xs) }
    ensures size { rows.new.size ≡ rows.old.size }
    ensures calls_left { rows.new.calls_left ≡ rows.old.calls_left }
{
    if block < rows.size {
        sync_block(rows, block);
    }
}

// Syncs the loose rows of the blocks on a list.
pub(crate) fn sync_listed(rows: &mut Imaged<ROW>, list: &[u32])
    ensures image { ChangesRows ROW (row_after_listed_sync list.now)
        rows.old.size rows.old.image.items rows.new.image.items }
    ensures calls_left { rows.new.calls_left ≡ rows.old.calls_left }
{
    for b in list {
        sync_named(rows, *b);
    }
}

// Restarts the row of a block: a loose one takes the next byte of the remains, or 0 past their
// end.
fn restart_block(rows: &mut Imaged<ROW>, block: u32, remains: &mut Iter<'_, u8>)
    requires { block < rows.old.size }
    ensures image { let xs = rows.old.image.items in
        let r = row ROW xs block in
        let byte = slice_index (iter_rest remains.old) 0 in
        rows.new.image.items
        ≡ with_row ROW xs block (if is_loose r then revived_row byte r else r) }
    ensures size { rows.new.size ≡ rows.old.size }
    ensures calls_left { rows.new.calls_left ≡ rows.old.calls_left }
    ensures taken { let bytes = iter_rest remains.old in
        iter_rest remains.new
        ≡ (if is_loose (row ROW rows.old.image.items block) then drop 1 bytes else bytes) }
{
    let start = ROW * block as usize;
    let image = rows.image.as_mut_slice();
    restart_row(&mut image[start..start + ROW], remains);
}

// Restarts each row: the loose ones take the bytes of the remains in turn.
pub(crate) fn restart_all(rows: &mut Imaged<ROW>, remains: &[u8])
    ensures image { let xs = rows.old.image.items in
        ChangesRows ROW (row_after_restart xs remains.now) rows.old.size xs rows.new.image.items }
    ensures calls_left { rows.new.calls_left ≡ rows.old.calls_left }
{
    let mut to_take = remains.iter();
    for block in 0..rows.size {
        restart_block(rows, block, &mut to_take);
    }
}
