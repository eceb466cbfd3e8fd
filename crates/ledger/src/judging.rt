//! The rules' answer to an instruction. Nothing changes.
ghost use Rattle.std.specs.Prelude.{◌≡◌, if◌then◌else◌, Some, Ok, Err, nat_lt};
ghost use Rattle.refusals.specs.Numbers.{numbered};
ghost use Rattle.instruction.specs.Kinds.{kind_at};
ghost use Rattle.book.specs.Rulings.{first_refusal};
ghost use Rattle.rulebook.specs.Rules.{enter_checks, answer_as, fault_answer};
ghost use Rattle.ledger.specs.View.{rulebook_of, standing_in, IsKindOrFault};

use crate::parts::Parts;
use book::{ACCOUNTS, Book};
use instruction::{Instruction, Kind};
use refusals::{Fault, Refusal};
use rulebook::fault_about;

// Refuses (25) where the account has less than this of the item free.
fn enough_free<B: Book>(book: &B, account: u16, item: u16, wanted: u64) -> Result<(), Refusal>
    ensures { result
        ≡ (if nat_lt ((B.holdings book.now).free account item) wanted
        then Err (numbered 25) else Ok tt) }
{
    if book.available(account, item) < wanted {
        return Err(Refusal::OverFree);
    }
    Ok(())
}

impl<R: Book, C: Book> Parts<R, C> {
    // What an Enter is checked for, once its trade may be entered.
    fn terms_ruling(&self, x: &Instruction) -> Result<(), Refusal>
        ensures { result
            ≡ first_refusal (enter_checks (rulebook_of R.book_kind C.book_kind) x.now) }
    {
        if x.account == x.counterparty {
            return Err(Refusal::SameParties);
        }
        if x.account >= ACCOUNTS || x.counterparty >= ACCOUNTS {
            return Err(Refusal::NoAccount);
        }
        if x.item >= self.register.items() || x.currency >= self.cash.items() {
            return Err(Refusal::NoItem);
        }
        if x.quantity == 0 || x.amount == 0 {
            return Err(Refusal::NoQuantity);
        }
        Ok(())
    }

    // The answer to an instruction of this kind.
    fn ruling(&self, kind: Kind, x: &Instruction) -> Result<(), Refusal>
        ensures { result
            ≡ answer_as (rulebook_of R.book_kind C.book_kind) (Some kind)
            (standing_in R.Book C.Book self.now) x.now }
    {
        if x.has_stray_field(kind) {
            return Err(Refusal::StrayField);
        }
        match kind {
            Kind::Issue => self.register.credit_ruling(x.account, x.item, x.quantity),
            Kind::PayIn => self.cash.credit_ruling(x.account, x.currency, x.amount),
            Kind::Enter => {
                self.trades
                    .startable_trade(kind, Refusal::EverEntered, x.trade)?;
                self.terms_ruling(x)
            }
            Kind::Earmark => {
                let terms = self
                    .trades
                    .startable_trade(kind, Refusal::WrongState, x.trade)?
                    .terms;
                enough_free(&self.register, terms.seller, terms.item, terms.quantity)
            }
            Kind::Fund => {
                let terms = self
                    .trades
                    .startable_trade(kind, Refusal::WrongState, x.trade)?
                    .terms;
                enough_free(&self.cash, terms.buyer, terms.currency, terms.amount)
            }
            // Whatever the trade has blocked is there, so its state is all that is checked.
            Kind::Settle | Kind::Free => {
                self.trades
                    .startable_trade(kind, Refusal::WrongState, x.trade)?;
                Ok(())
            }
        }
    }

    /// The kind of an instruction that the rules accept now.
    ///
    /// # Errors
    ///
    /// Those of `Ledger::instruct`.
    pub(crate) fn accepted_kind(&self, x: &Instruction) -> Result<Kind, Fault>
        ensures { IsKindOrFault (kind_at x.now.kind)
            (fault_answer (rulebook_of R.book_kind C.book_kind)
            (standing_in R.Book C.Book self.now) x.now) result }
    {
        let kind = Kind::try_from(x.kind)?;
        self.ruling(kind, x)
            .map_err(|refusal| fault_about(x, refusal.into()))?;
        Ok(kind)
    }
}
