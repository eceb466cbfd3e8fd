// The loose blocks of an image, listed beside it.
ghost use Rattle.std.specs.Prelude.{◌≡◌, ◌≤◌, true, [], length, IfOk, IsSomeAnd};
ghost use Rattle.images.specs.Images.{ChangesRows};
ghost use Rattle.simulated.specs.declared.rows.TheConstants.{ROW};
ghost use Rattle.simulated.specs.Rows.{loose_count, row_after_sync};
ghost use Rattle.simulated.specs.Lists.{ListsLoose, ListsLooseIfAny, IsOnIfAny, AddsIfAny, IsShort};

use crate::rows::{ROW, row_is_loose};
use crate::sweeps::{sync_all, sync_listed};
use images::Imaged;
use std::alloc::{AllocError, Global};

// The loose blocks, in no order and each once. With the list a sync takes time by how many blocks
// are loose, and without it by how many there are. There is no list after memory for it ran out;
// the next sync goes over all blocks and begins one again.
#[derive(Drop)]
pub(crate) struct LooseBlocks {
    list: Option<Vec<u32>>,
}

fn list_loose(rows: &Imaged<ROW>) -> Result<Vec<u32>, AllocError>
    ensures listed { IfOk result (λ v. ListsLoose v.items rows.now.image.items) }
    ensures short { let n = loose_count rows.now.image.items rows.now.size in
        IfOk result (λ v. length v.items ≤ n) }
{
    let (all, _) = rows.image.as_slice().as_chunks::<ROW>();
    let mut list = Vec::new(*rows.image.allocator());
    for (b, row) in all[..rows.size as usize].iter().enumerate() {
        if row_is_loose(row) {
            list.push(b as u32)?;
        }
    }
    Ok(list)
}

impl LooseBlocks {
    // The loose blocks of an image.
    pub(crate) fn of_rows(rows: &Imaged<ROW>) -> LooseBlocks
        ensures listed { ListsLooseIfAny result.list rows.now.image.items }
        ensures short { IsShort result.list (loose_count rows.now.image.items rows.now.size) }
    {
        LooseBlocks {
            list: list_loose(rows).ok(),
        }
    }

    // Adds a block that was written, unless it was loose before and so is on the list already.
    #[tactic(auto, using(crate::proofs::ListLaws::longer_added))]
    pub(crate) fn note(&mut self, loose: bool, block: u32)
        requires { loose ≡ true → IsOnIfAny self.old.list block }
        ensures { AddsIfAny self.old.list self.new.list loose block }
    {
        if loose {
            return;
        }
        let Some(list) = &mut self.list else {
            return;
        };
        if list.push(block).is_err() {
            self.list = None;
        }
    }

    // Syncs the loose rows of the image, by the list alone if there is one.
    pub(crate) fn sync(&self, rows: &mut Imaged<ROW>)
        requires { ListsLooseIfAny self.now.list rows.old.image.items }
        ensures image { ChangesRows ROW row_after_sync
            rows.old.size rows.old.image.items rows.new.image.items }
        ensures calls_left { rows.new.calls_left ≡ rows.old.calls_left }
    {
        match &self.list {
            Some(list) => sync_listed(rows, list.as_slice()),
            None => sync_all(rows),
        }
    }

    // No block is loose.
    pub(crate) fn clear(&mut self, heap: Global)
        ensures { IsSomeAnd self.new.list (λ v. v.items ≡ []) }
    {
        match &mut self.list {
            Some(list) => list.clear(),
            None => self.list = Some(Vec::new(heap)),
        }
    }
}
