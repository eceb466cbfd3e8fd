//! A book of lots: each item is one whole lot, which an account has or no one.
//!
//! It is a `Book` of kind 2, with 256 items that each total 1 at most.
#![tactic(auto)]

mod table;

ghost use Rattle.std.specs.Prelude.{◌≡◌};
ghost use Rattle.book.specs.Holdings.{nothing};
ghost use Rattle.lots.specs.Owners.{lots_kind, free_of, blocked_of};
ghost use Rattle.lots.specs.Meaning.{meaning};
ghost use Rattle.lots.specs.TableLemmas.{one-lot, free-outside, blocked-outside};
ghost use Rattle.std.proofs.Common.{rules};

use book::{ACCOUNTS, Book, Holding, covers};
use refusals::Refusal;
pub use table::Lots;
use table::{CEILING, ITEMS, Lot};

impl Lot {
    // What an account has of the lot: 1 or 0, free or blocked.
    fn holding_of(self, account: u16) -> Holding
        ensures free { result.free ≡ free_of self account }
        ensures blocked { result.blocked ≡ blocked_of self account }
    {
        match self {
            Lot::Free(owner) if owner == account => Holding {
                free: 1,
                blocked: 0,
            },
            Lot::Blocked(owner) if owner == account => Holding {
                free: 0,
                blocked: 1,
            },
            _ => Holding::default(),
        }
    }
}

impl Lots {
    /// A book of lots that no one has.
    pub fn new() -> Lots
        ensures empty { meaning result ≡ nothing }

        // how many lots there are, and how much of each, as numbers
        ensures items { lots_kind.items ≡ 256 }
        ensures ceiling { lots_kind.ceiling ≡ 1 }
    {
        Lots {
            lots: [Lot::Unowned; ITEMS as usize],
        }
    }
}

impl Book for Lots {
    ghost holdings = { meaning };

    ghost book_kind = { lots_kind };

    ghost within_limit = { λ b item. one-lot b.lots b.owners item };

    ghost nothing_outside = { λ b account item out. (
      free-outside b.lots b.whole b.owners account item out,
      blocked-outside b.lots b.whole b.owners account item out,
    ) };

    ghost kind_fits = { Prim.search rules };

    ghost kind_useful = { Prim.search rules };

    fn clear(&mut self) {
        *self = Lots::new();
    }

    fn credit(&mut self, account: u16, item: u16, quantity: u64) -> Result<(), Refusal> {
        self.credit_ruling(account, item, quantity)?;
        self.lots[item as usize] = Lot::Free(account);
        Ok(())
    }

    fn block(&mut self, account: u16, item: u16, quantity: u64) -> Result<(), Refusal> {
        let holding = self.holding(account, item)?;
        covers(holding.free, quantity, Refusal::OverFree)?;
        self.lots[item as usize] = Lot::Blocked(account);
        Ok(())
    }

    fn transfer(&mut self, from: u16, to: u16, item: u16, quantity: u64) -> Result<(), Refusal> {
        if to >= ACCOUNTS {
            return Err(Refusal::NoAccount);
        }
        let holding = self.holding(from, item)?;
        covers(holding.blocked, quantity, Refusal::OverBlocked)?;
        self.lots[item as usize] = Lot::Free(to);
        Ok(())
    }

    fn holding(&self, account: u16, item: u16) -> Result<Holding, Refusal> {
        self.check_place(account, item)?;
        Ok(self.lots[item as usize].holding_of(account))
    }

    fn items(&self) -> u16 {
        ITEMS
    }

    fn kind(&self) -> u8 {
        2
    }

    fn ceiling(&self) -> u64 {
        CEILING
    }
}
