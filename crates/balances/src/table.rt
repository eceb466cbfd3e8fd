// The table, with what always holds of it. (A struct's invariants see all imports of its file,
// so it has a file with few.)
ghost use Rattle.balances.specs.Rows.{IsWholeTable, KeepsCeiling};

use book::{ACCOUNTS, Holding};

// How many items the book has, numbered from 0.
pub(crate) const ITEMS: u16 = 16;

// The most that an item may total over all accounts.
pub(crate) const CEILING: u64 = 1_000_000_000_000;

/// A book of balances, in a table on the stack.
#[derive(Drop)]
pub struct Balances {
    // By item and account.
    pub(crate) rows: [[Holding; ACCOUNTS as usize]; ITEMS as usize],
    ghost whole: { IsWholeTable rows },
    ghost within_ceiling: { KeepsCeiling rows },
}
