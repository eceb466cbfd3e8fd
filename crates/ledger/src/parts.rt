//! The parts of a ledger, its trades and its two books, without the ledger's invariant.
ghost use Rattle.std.specs.Prelude.{◌≡◌};
ghost use Rattle.rulebook.specs.Rules.{empty};
ghost use Rattle.ledger.specs.View.{standing_in};

use crate::trades::Trades;
use book::Book;

// A `Ledger` adds the invariant that accepted instructions led to where its parts stand. Within a
// call the parts change one after another, and it does not hold.
#[derive(Drop)]
pub(crate) struct Parts<R: Book, C: Book> {
    pub(crate) trades: Trades,
    pub(crate) register: R,
    pub(crate) cash: C,
}

impl<R: Book, C: Book> Parts<R, C> {
    /// Makes all amounts 0 and every trade unentered.
    pub(crate) fn clear(&mut self)
        ensures { standing_in R.Book C.Book self.new ≡ empty }
    {
        self.trades = Trades::new();
        self.register.clear();
        self.cash.clear();
    }
}
