// The table, with what always holds of it. (A struct's invariants see all imports of its file,
// so it has a file with few.)
ghost use Rattle.lots.specs.Owners.{IsWholeTable, AccountsOwn};

// How many items the book has, numbered from 0.
pub(crate) const ITEMS: u16 = 256;

// The most that an item may total: a lot is there once.
pub(crate) const CEILING: u64 = 1;

/// Who has a lot, and whether it is blocked.
#[derive(Clone, Copy)]
pub enum Lot {
    /// No account has it.
    Unowned,
    /// This account has it free.
    Free(u16),
    /// This account has it blocked.
    Blocked(u16),
}

/// A book of lots, in a table on the stack.
#[derive(Drop)]
pub struct Lots {
    // By item.
    pub(crate) lots: [Lot; ITEMS as usize],
    ghost whole: { IsWholeTable lots },
    ghost owners: { AccountsOwn lots },
}
