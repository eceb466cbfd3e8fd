//! Carrying out an instruction that the rules accept.
ghost use Rattle.std.specs.Prelude.{◌≡◌, Some};
ghost use Rattle.rulebook.specs.Terms.{securities as in_securities, cash as in_cash};
ghost use Rattle.ledger.specs.Rows.{trade_at, rows_after};
ghost use Rattle.ledger.specs.View.{book_after};

use crate::parts::Parts;
use book::Book;
use instruction::{Instruction, Kind};
use rulebook::{State, Terms, Trade};

impl<R: Book, C: Book> Parts<R, C> {
    /// Has the books do what the instruction asks for, and moves its trade on.
    pub(crate) fn carry_out(&mut self, kind: Kind, x: &Instruction)
        ensures register { R.holdings self.new.register
            ≡ book_after R.book_kind in_securities (Some kind) x.now
            (trade_at self.old.trades.rows x.now.trade) (R.holdings self.old.register) }
        ensures cash { C.holdings self.new.cash
            ≡ book_after C.book_kind in_cash (Some kind) x.now
            (trade_at self.old.trades.rows x.now.trade) (C.holdings self.old.cash) }
        ensures trades { self.new.trades.rows ≡ rows_after (Some kind) x.now self.old.trades.rows }
    {
        let trade = self.trades.trade_at(x.trade);
        self.move_holdings(kind, &trade, x);
        if let Some(next_trade) = trade.next_trade(kind, x) {
            let _ = self.trades.put(x.trade, next_trade);
        }
    }

    // Has the two books do what the instruction asks for, its trade being this one. Their answers
    // are dropped: the books accept whatever the rules accept.
    fn move_holdings(&mut self, kind: Kind, trade: &Trade, x: &Instruction)
        ensures register { R.holdings self.new.register
            ≡ book_after R.book_kind in_securities (Some kind) x.now trade.now
            (R.holdings self.old.register) }
        ensures cash { C.holdings self.new.cash
            ≡ book_after C.book_kind in_cash (Some kind) x.now trade.now
            (C.holdings self.old.cash) }
        ensures trades { self.new.trades ≡ self.old.trades }
    {
        let Terms {
            seller,
            buyer,
            item,
            currency,
            quantity,
            amount,
        } = trade.terms;
        match kind {
            Kind::Issue => {
                let _ = self.register.credit(x.account, x.item, x.quantity);
            }
            Kind::PayIn => {
                let _ = self.cash.credit(x.account, x.currency, x.amount);
            }
            Kind::Earmark => {
                let _ = self.register.block(seller, item, quantity);
            }
            Kind::Fund => {
                let _ = self.cash.block(buyer, currency, amount);
            }
            Kind::Settle => {
                let _ = self.register.transfer(seller, buyer, item, quantity);
                let _ = self.cash.transfer(buyer, seller, currency, amount);
            }
            Kind::Free => {
                if matches!(trade.state, State::Earmarked | State::Funded) {
                    let _ = self.register.release(seller, item, quantity);
                }
                if matches!(trade.state, State::Funded) {
                    let _ = self.cash.release(buyer, currency, amount);
                }
            }
            Kind::Enter => {}
        }
    }
}
