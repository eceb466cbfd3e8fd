// What an engine answers of itself.
ghost use Rattle.std.specs.Prelude.{◌≡◌, IfOk, Ok};
ghost use Rattle.rulebook.specs.Terms.{securities as in_securities, cash as in_cash};
ghost use Rattle.ledger.specs.Rows.{state_question};
ghost use Rattle.ledger.specs.View.{rulebook_of, holding_question};
ghost use Rattle.engine.specs.View.{view};
ghost use Rattle.engine.specs.ClosingSlip.{contents, HasVerdict};
ghost use Rattle.engine.specs.Asking.{opening_answer, if_answering, present_answer};

use crate::engine::{Engine, Mode};
use crate::slip::{Slip, Verdict};
use book::{Book, Holding};
use device::Device;
use refusals::{Fault, Refusal};
use rulebook::State;

impl<D: Device, R: Book, C: Book> Engine<D, R, C> {
    /// What the opening was answered.
    ///
    /// # Errors
    ///
    /// The fault by which it was refused (see `open`).
    pub fn opening(&self) -> Result<(), Fault>
        ensures { result ≡ opening_answer (view D.medium self.now).mode }
    {
        match self.mode {
            Mode::Refused(fault) => Err(fault),
            Mode::Open | Mode::Down(_) => Ok(()),
        }
    }

    // 41 where the opening was refused.
    fn check_opening(&self) -> Result<(), Refusal>
        ensures { result ≡ if_answering (view D.medium self.now).mode (Ok tt) }
    {
        self.opening().map_err(|_| Refusal::OpeningRefused)
    }

    /// What an account has of an item of the register.
    ///
    /// # Errors
    ///
    /// 41: the opening was refused. 21 and 22: the register has no such account, or no such item.
    pub fn securities(&self, account: u16, item: u16) -> Result<Holding, Refusal>
        ensures { let v = view D.medium self.now in
            let h = rulebook_of R.book_kind C.book_kind in result ≡ if_answering v.mode
            (holding_question h v.standing in_securities account item) }
    {
        self.check_opening()?;
        self.ledger.securities(account, item)
    }

    /// What an account has of a currency.
    ///
    /// # Errors
    ///
    /// 41: the opening was refused. 21 and 22: the cash book has no such account, or no such
    /// currency.
    pub fn money(&self, account: u16, currency: u16) -> Result<Holding, Refusal>
        ensures { let v = view D.medium self.now in
            let h = rulebook_of R.book_kind C.book_kind in result ≡ if_answering v.mode
            (holding_question h v.standing in_cash account currency) }
    {
        self.check_opening()?;
        self.ledger.money(account, currency)
    }

    /// The state of a trade.
    ///
    /// # Errors
    ///
    /// 41: the opening was refused. 30: no trade has this number.
    pub fn trade_state(&self, number: u32) -> Result<State, Refusal>
        ensures { let v = view D.medium self.now in
            result ≡ if_answering v.mode (state_question v.standing.state number) }
    {
        self.check_opening()?;
        self.ledger.trade_state(number)
    }

    /// How many entries stand: those that the opening found, and those written since.
    ///
    /// # Errors
    ///
    /// 41: the opening was refused.
    pub fn entries(&self) -> Result<u32, Refusal>
        ensures { let v = view D.medium self.now in
            result ≡ if_answering v.mode (Ok v.entry_count) }
    {
        self.check_opening()?;
        Ok(self.entry_count)
    }

    /// How many entries the opening found, 0 where it was refused.
    pub fn found(&self) -> u32
        ensures { result ≡ (view D.medium self.now).found }
    {
        self.found.count
    }

    /// The verdict on a slip, by what the opening found. The slip is then no longer owed.
    ///
    /// # Errors
    ///
    /// 41, and the slip comes back: the opening was refused.
    pub fn present(&self, slip: Slip) -> Result<Verdict, (Refusal, Slip)>
        ensures answer { result ≡ present_answer (view D.medium self.now) slip }
        ensures exact { let v = view D.medium self.now in
            IfOk result (λ verdict. HasVerdict (contents slip) v.found v.last_found verdict) }
    {
        match self.mode {
            Mode::Refused(_) => Err((Refusal::OpeningRefused, slip)),
            Mode::Open | Mode::Down(_) => Ok(slip.verdict(self.found.count, self.found.last)),
        }
    }
}
