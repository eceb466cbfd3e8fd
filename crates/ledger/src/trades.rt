//! The table of trades.
// The ghost field of `Trades` sees the imports of this file, so none of them may name `Trades`.
ghost use Rattle.std.specs.Prelude.{◌≡◌, Some, length, replicate};
ghost use Rattle.rulebook.specs.declared.TheConstants.{TRADES};
ghost use Rattle.ledger.specs.Rows.{unentered_trade, trade_at, rows_with, put_answer, startable_trade};

use instruction::Kind;
use refusals::Refusal;
use rulebook::{State, TRADES, Terms, Trade};

/// All trades, by their numbers.
#[derive(Drop)]
pub(crate) struct Trades {
    rows: [Trade; TRADES],
    ghost all_rows: { length rows ≡ TRADES },
}

const UNENTERED: Trade = Trade {
    state: State::Unentered,
    terms: Terms {
        seller: 0,
        buyer: 0,
        item: 0,
        currency: 0,
        quantity: 0,
        amount: 0,
    },
};

impl Trades {
    /// A table in which no trade was ever entered.
    pub(crate) fn new() -> Trades
        ensures { result.rows ≡ replicate TRADES unentered_trade }
    {
        Trades {
            rows: [UNENTERED; TRADES],
        }
    }

    /// The trade with this number; past the last one, a trade that was never entered.
    pub(crate) fn trade_at(&self, number: u32) -> Trade
        ensures { result ≡ trade_at self.now.rows number }
    {
        self.rows.get(number as usize).copied().unwrap_or(UNENTERED)
    }

    /// Replaces the trade with this number.
    ///
    /// # Errors
    ///
    /// 30: the number is `TRADES` or more. Nothing changes.
    pub(crate) fn put(&mut self, number: u32, trade: Trade) -> Result<(), Refusal>
        ensures answer { result ≡ put_answer number }
        ensures after { self.new.rows ≡ rows_with self.old.rows number trade }
    {
        // By index: docs/DECISIONS.md says why.
        if number as usize >= TRADES {
            return Err(Refusal::NoTrade);
        }
        self.rows[number as usize] = trade;
        Ok(())
    }

    /// The trade with this number, if an instruction of this kind may start from its state.
    ///
    /// # Errors
    ///
    /// 30: the number is `TRADES` or more. Then `refusal`, where the state is another.
    pub(crate) fn startable_trade(
        &self,
        kind: Kind,
        refusal: Refusal,
        number: u32,
    ) -> Result<Trade, Refusal>
        ensures { result ≡ startable_trade (Some kind) refusal self.now.rows number }
    {
        let trade = *self.rows.get(number as usize).ok_or(Refusal::NoTrade)?;
        trade.next_state(kind).ok_or(refusal)?;
        Ok(trade)
    }
}
