//! The ledger: a table of trades between a register of securities and a cash book.
//!
//! It answers every instruction by the rules of the crate `rulebook`, and carries out what they
//! accept. `Ledger::instruct` promises the rules' answer (`answer`) and where it leads
//! (`by_rules`), that a refusal changes nothing (`refusal`), the steps of a trade (`table`) and
//! the law of the ledger (`law`): the accepted instructions alone say each trade's state and
//! terms, and each account's amounts. It rests on what the trait `book::Book` promises of the two
//! books, whatever they are.
#![tactic(auto)]

ghost use Rattle.std.specs.Prelude.{◌≡◌};
ghost use Rattle.rulebook.specs.Terms.{securities as in_securities, cash as in_cash};
ghost use Rattle.rulebook.specs.Rules.{empty, fault_answer};
ghost use Rattle.ledger.specs.Rows.{state_question};
ghost use Rattle.ledger.specs.View.{rulebook_of, standing_of, holding_question};
ghost use Rattle.rulebook.specs.Table.{StateTable};
ghost use Rattle.rulebook.specs.Law.{FollowsRules, RefusalChangesNothing, LawOfTheLedger};

mod carrying;
mod judging;
mod parts;
mod trades;

use book::{Book, Holding};
use instruction::Instruction;
use parts::Parts;
use refusals::{Fault, Refusal};
use rulebook::{State, TRADES};
use std::marker::Model;
use trades::Trades;

/// A register and a cash book of any kinds, with the trades between their accounts.
#[derive(Drop)]
pub struct Ledger<R: Book, C: Book> {
    parts: Parts<R, C>,
}

// A contract sees the books and the trades as tables. The invariant: some list of accepted
// instructions leads to where the ledger stands.
impl<R: Book, C: Book> Model for Ledger<R, C> {
    ghost use Rattle.rulebook.specs.Rules.{IsReachable};
    ghost use Rattle.ledger.specs.View.{Tables, tables_in, rulebook_of, standing_in};

    ghost Value = { Tables };

    ghost view = { λ l. tables_in R.Book C.Book l.parts };

    ghost invariant = { λ l. IsReachable (rulebook_of R.book_kind C.book_kind)
        (standing_in R.Book C.Book l.parts) };
}

impl<R: Book, C: Book> Ledger<R, C> {
    /// A ledger over these books, which it clears: no instruction was accepted yet.
    pub fn new(register: R, cash: C) -> Ledger<R, C>
        ensures { standing_of result ≡ empty }
    {
        let mut parts = Parts {
            trades: Trades::new(),
            register,
            cash,
        };
        parts.clear();
        Ledger { parts }
    }

    /// Makes all amounts 0 and every trade unentered.
    pub fn clear(&mut self)
        ensures { standing_of self.new ≡ empty }
    {
        self.parts.clear();
    }

    /// The register and the cash book, as they stand. The trades are dropped.
    pub fn into_books(self) -> (R, C)
        ensures register { R.holdings result.0 ≡ (standing_of self).book in_securities }
        ensures cash { C.holdings result.1 ≡ (standing_of self).book in_cash }
    {
        let Parts {
            trades: _,
            register,
            cash,
        } = self.parts;
        (register, cash)
    }

    /// What `instruct` would answer now. Nothing changes.
    ///
    /// # Errors
    ///
    /// Those of `instruct`.
    pub fn answer_to(&self, x: &Instruction) -> Result<(), Fault>
        ensures { result
            ≡ fault_answer (rulebook_of R.book_kind C.book_kind) (standing_of self.now) x.now }
    {
        self.parts.accepted_kind(x).map(|_| ())
    }

    /// Answers an instruction by the rules, and carries it out where they accept it.
    ///
    /// # Errors
    ///
    /// The refusal of the first check that fails, and the trade if the kind names one:
    ///
    /// - 32 the kind byte is unknown, then 31 a field is filled that the kind has no use for;
    /// - Issue and Pay in: then 21 to 24, as the book's `credit`;
    /// - Enter: then 30 no such trade, 34 it was entered before, 33 seller and buyer are the same,
    ///   21 no such account, 22 no such item or currency, 23 the quantity or the amount is 0;
    /// - Earmark and Fund: then 30, 35 the trade's state is another, 25 too little is free;
    /// - Settle and Free: then 30 and 35.
    pub fn instruct(&mut self, x: &Instruction) -> Result<(), Fault>
        ensures answer { result
            ≡ fault_answer (rulebook_of R.book_kind C.book_kind) (standing_of self.old) x.now }
        ensures by_rules { FollowsRules (rulebook_of R.book_kind C.book_kind)
            (standing_of self.old) (standing_of self.new) x.now }
        ensures refusal { RefusalChangesNothing result
            (standing_of self.old) (standing_of self.new) }
        ensures table { StateTable }
        ensures law { LawOfTheLedger }
    {
        let kind = self.parts.accepted_kind(x)?;
        self.parts.carry_out(kind, x);
        Ok(())
    }

    /// The state of a trade.
    ///
    /// # Errors
    ///
    /// 30: the number is `TRADES` or more.
    pub fn trade_state(&self, number: u32) -> Result<State, Refusal>
        ensures { result ≡ state_question (standing_of self.now).state number }
    {
        if number as usize >= TRADES {
            return Err(Refusal::NoTrade);
        }
        Ok(self.parts.trades.trade_at(number).state)
    }

    /// What an account has of an item of the register, free and blocked.
    ///
    /// # Errors
    ///
    /// 21: there is no such account. 22: the register has no such item.
    pub fn securities(&self, account: u16, item: u16) -> Result<Holding, Refusal>
        ensures { result ≡ holding_question (rulebook_of R.book_kind C.book_kind)
            (standing_of self.now) in_securities account item }
    {
        self.parts.register.holding(account, item)
    }

    /// What an account has of a currency, free and blocked.
    ///
    /// # Errors
    ///
    /// 21: there is no such account. 22: the cash book has no such item.
    pub fn money(&self, account: u16, currency: u16) -> Result<Holding, Refusal>
        ensures { result ≡ holding_question (rulebook_of R.book_kind C.book_kind)
            (standing_of self.now) in_cash account currency }
    {
        self.parts.cash.holding(account, currency)
    }
}
