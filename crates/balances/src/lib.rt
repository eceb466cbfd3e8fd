//! A book of balances: each account has a free and a blocked amount of each item.
//!
//! It is a `Book` of kind 1, with 16 items that each total a million million at most.
#![tactic(auto)]

mod table;

ghost use Rattle.std.specs.Prelude.{◌≡◌};
ghost use Rattle.std.proofs.Common.{ap, rules};
ghost use Rattle.book.specs.Holdings.{nothing};
ghost use Rattle.balances.specs.Rows.{balances_kind};
ghost use Rattle.balances.specs.Meaning.{meaning};
ghost use Rattle.balances.specs.OutsideLemmas.{nothing-outside};

use book::{ACCOUNTS, Book, Holding, covers};
use refusals::Refusal;
pub use table::Balances;
use table::{CEILING, ITEMS};

impl Balances {
    /// An empty book.
    pub fn new() -> Balances
        ensures empty { meaning result ≡ nothing }

        // how many items there are, and how much of each at most, as numbers
        ensures items { balances_kind.items ≡ 16 }
        ensures ceiling { balances_kind.ceiling ≡ 1000000000000 }
    {
        Balances {
            rows: [[Holding {
                free: 0,
                blocked: 0,
            }; ACCOUNTS as usize]; ITEMS as usize],
        }
    }
}

impl Book for Balances {
    ghost holdings = { meaning };

    ghost book_kind = { balances_kind };

    ghost within_limit = { Prim.search rules };

    ghost nothing_outside = { λ b account item out.
        let e = nothing-outside b.rows b.whole account item out in
        (ap (λ h. h.free) e, ap (λ h. h.blocked) e) };

    ghost kind_fits = { Prim.search rules };

    ghost kind_useful = { Prim.search rules };

    fn clear(&mut self) {
        *self = Balances::new();
    }

    fn credit(&mut self, account: u16, item: u16, quantity: u64) -> Result<(), Refusal> {
        self.credit_ruling(account, item, quantity)?;
        self.rows[item as usize][account as usize].free += quantity;
        Ok(())
    }

    fn block(&mut self, account: u16, item: u16, quantity: u64) -> Result<(), Refusal> {
        let holding = self.holding(account, item)?;
        covers(holding.free, quantity, Refusal::OverFree)?;
        self.rows[item as usize][account as usize] = Holding {
            free: holding.free - quantity,
            blocked: holding.blocked + quantity,
        };
        Ok(())
    }

    fn transfer(&mut self, from: u16, to: u16, item: u16, quantity: u64) -> Result<(), Refusal> {
        if to >= ACCOUNTS {
            return Err(Refusal::NoAccount);
        }
        let holding = self.holding(from, item)?;
        covers(holding.blocked, quantity, Refusal::OverBlocked)?;
        self.rows[item as usize][from as usize].blocked -= quantity;
        self.rows[item as usize][to as usize].free += quantity;
        Ok(())
    }

    fn holding(&self, account: u16, item: u16) -> Result<Holding, Refusal> {
        self.check_place(account, item)?;
        Ok(self.rows[item as usize][account as usize])
    }

    fn items(&self) -> u16 {
        ITEMS
    }

    fn kind(&self) -> u8 {
        1
    }

    fn ceiling(&self) -> u64 {
        CEILING
    }
}
