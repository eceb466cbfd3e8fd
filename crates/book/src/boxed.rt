//! A book in a box is the book in it, and moves at the cost of a pointer.

use crate::{Book, Holding};
use refusals::Refusal;

impl<B: Book> Book for Box<B> {
    ghost holdings = { λ b. B.holdings b.value };

    ghost book_kind = { B.book_kind };

    fn clear(&mut self) {
        (**self).clear();
    }

    fn credit(&mut self, account: u16, item: u16, quantity: u64) -> Result<(), Refusal> {
        (**self).credit(account, item, quantity)
    }

    fn block(&mut self, account: u16, item: u16, quantity: u64) -> Result<(), Refusal> {
        (**self).block(account, item, quantity)
    }

    fn transfer(&mut self, from: u16, to: u16, item: u16, quantity: u64) -> Result<(), Refusal> {
        (**self).transfer(from, to, item, quantity)
    }

    fn holding(&self, account: u16, item: u16) -> Result<Holding, Refusal> {
        (**self).holding(account, item)
    }

    fn free(&self, account: u16, item: u16) -> Result<u64, Refusal> {
        (**self).free(account, item)
    }

    fn blocked(&self, account: u16, item: u16) -> Result<u64, Refusal> {
        (**self).blocked(account, item)
    }

    fn items(&self) -> u16 {
        (**self).items()
    }

    fn kind(&self) -> u8 {
        (**self).kind()
    }

    fn ceiling(&self) -> u64 {
        (**self).ceiling()
    }

    ghost within_limit = { λ b. B.within_limit b.value };

    ghost nothing_outside = { λ b. B.nothing_outside b.value };

    ghost kind_fits = { B.kind_fits };

    ghost kind_useful = { B.kind_useful };
}
