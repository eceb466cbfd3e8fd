//! The rule book: trades, their states, and the rules of settlement.
//!
//! The rules are those of Model 1 in the CPSS report of 1992, *Delivery Versus Payment in
//! Securities Settlement Systems*: each trade settles by itself and in full, its securities
//! against its cash. There is no netting, no lending and no undo.
//!
//! The code holds a trade and the table of its states: `Trade::next_state` promises that table.
//! The rules stand in `specs/`: `Rules` says what an instruction is answered and what it changes,
//! and `Law`, in words of its own, what follows from that for every account and every trade. The
//! crate `ledger` carries the rules out, and its `Ledger::instruct` promises the law.
#![tactic(auto)]

ghost use Rattle.std.specs.Prelude.{◌≡◌, Some};
ghost use Rattle.rulebook.specs.Table.{next_state};
ghost use Rattle.rulebook.specs.Terms.{terms_of};
ghost use Rattle.rulebook.specs.Rules.{next_trade, fault_about as about_trade, NamesItsTrade};

use instruction::{Field, Instruction, Kind};
use refusals::Fault;

/// How many trades there are. They are numbered from 0.
pub const TRADES: usize = 128;

/// How far a trade has come.
#[derive(Clone, Copy, Debug, PartialEq, Eq)]
pub enum State {
    /// No Enter was accepted for it.
    Unentered,
    /// Its terms are set, and nothing is blocked.
    Entered,
    /// The seller's quantity is blocked.
    Earmarked,
    /// The seller's quantity and the buyer's amount are blocked.
    Funded,
    /// Both were moved. The trade is over.
    Settled,
    /// What was blocked was released. The trade is over.
    Freed,
}

/// What a trade exchanges: the seller gives a quantity of an item, the buyer an amount of a
/// currency.
#[derive(Clone, Copy, Debug, PartialEq, Eq)]
pub struct Terms {
    /// The account that gives the securities and receives the cash.
    pub seller: u16,
    /// The account that gives the cash and receives the securities.
    pub buyer: u16,
    /// An item of the register.
    pub item: u16,
    /// An item of the cash book.
    pub currency: u16,
    /// How much of the item, in the register's units.
    pub quantity: u64,
    /// How much of the currency, in the cash book's units.
    pub amount: u64,
}

/// The terms that an Enter states: its account is the seller, its counterparty the buyer.
impl From<&Instruction> for Terms {
    ghost from_gives = { λ x terms. terms ≡ terms_of x.now };

    fn from(x: &Instruction) -> Terms {
        Terms {
            seller: x.account,
            buyer: x.counterparty,
            item: x.item,
            currency: x.currency,
            quantity: x.quantity,
            amount: x.amount,
        }
    }
}

/// One trade. It does not hold its own number.
#[derive(Clone, Copy, Debug, PartialEq, Eq)]
pub struct Trade {
    /// How far it has come.
    pub state: State,
    /// Those of its Enter; all 0 before that.
    pub terms: Terms,
}

impl Trade {
    /// The state to which an instruction of this kind leads, or `None` where it may not start from
    /// the trade's own state.
    pub fn next_state(&self, kind: Kind) -> Option<State>
        ensures { result ≡ next_state (Some kind) self.now.state }
    {
        match (self.state, kind) {
            (State::Unentered, Kind::Enter) => Some(State::Entered),
            (State::Entered, Kind::Earmark) => Some(State::Earmarked),
            (State::Earmarked, Kind::Fund) => Some(State::Funded),
            (State::Funded, Kind::Settle) => Some(State::Settled),
            (State::Entered | State::Earmarked | State::Funded, Kind::Free) => Some(State::Freed),
            _ => None,
        }
    }

    /// The trade after the instruction `x` of this kind, or `None` where it may not start from the
    /// trade's own state. An Enter sets the terms; any other kind keeps them.
    pub fn next_trade(&self, kind: Kind, x: &Instruction) -> Option<Trade>
        ensures { result ≡ next_trade (Some kind) x.now self.now }
    {
        let state = self.next_state(kind)?;
        let terms = match kind {
            Kind::Enter => Terms::from(x),
            _ => self.terms,
        };
        Some(Trade { state, terms })
    }
}

/// The fault, with the trade that the instruction names, if its kind names one.
pub fn fault_about(x: &Instruction, fault: Fault) -> Fault
    ensures value { result ≡ about_trade x.now fault }
    ensures trade { NamesItsTrade x.now fault result }
{
    match Kind::try_from(x.kind) {
        Ok(kind) if kind.uses(Field::Trade) => fault.of_trade(x.trade),
        _ => fault,
    }
}
