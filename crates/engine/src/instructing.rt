// Instructing: what the rules accept is written first, and then carried out.
ghost use Rattle.std.specs.Prelude.{◌≡◌, ◌<◌, IfOk, Ok};
ghost use Rattle.journal.specs.Places.{EntryPlaces};
ghost use Rattle.ledger.specs.View.{rulebook_of};
ghost use Rattle.device.specs.Traces.{IsTrace};
ghost use Rattle.engine.specs.View.{view};
ghost use Rattle.engine.specs.Instructing.{check_answer, TakesInstruction, TellsWhenDown};
ghost use Rattle.engine.specs.Tracing.{instruct_calls};

use crate::engine::{Engine, Mode};
use book::Book;
use device::Device;
use instruction::Instruction;
use journal::write_entry;
use refusals::{Fault, Refusal};
use rulebook::fault_about;

impl<D: Device, R: Book, C: Book> Engine<D, R, C> {
    // The checks of an instruction, with nothing written.
    fn check(&self, x: &Instruction) -> Result<(), Fault>
        ensures answer { let h = rulebook_of R.book_kind C.book_kind in
            result ≡ check_answer h x.now (view D.medium self.now) }
        ensures room { IfOk result (λ _. self.now.entry_count < self.now.pairs) }
    {
        match self.mode {
            Mode::Refused(_) => return Err(fault_about(x, Refusal::OpeningRefused.into())),
            Mode::Down(_) => return Err(fault_about(x, Refusal::EngineDown.into())),
            Mode::Open => {}
        }
        self.ledger.answer_to(x)?;
        if self.entry_count >= self.pairs {
            return Err(fault_about(x, Refusal::JournalFull.into()));
        }
        Ok(())
    }

    /// Checks an instruction, writes its entry, and then carries it out.
    ///
    /// # Errors
    ///
    /// In the order of the checks; a fault names the trade of an instruction of kinds 3 to 7.
    ///
    /// - 41: the opening was refused.
    /// - 42: the engine is down.
    /// - 21 to 25 of a book, 30 to 35 of the trades: the rules refuse the instruction.
    /// - 36: all entries of the journal are used.
    /// - 13, with the entry, and with the block of a write: no call was left to write the entry.
    ///   The engine is then down, with the instruction in hand.
    ///
    /// Only the last leaves anything changed.
    pub fn instruct(&mut self, x: &Instruction) -> Result<(), Fault>
        ensures done { TakesInstruction (rulebook_of R.book_kind C.book_kind) x.now
            (view D.medium self.old) (view D.medium self.new) result }
        ensures cut { TellsWhenDown (rulebook_of R.book_kind C.book_kind) x.now
            (view D.medium self.old) (view D.medium self.new) result }
        ensures places { let v = view D.medium self.old in result ≡ Ok tt
            → EntryPlaces v.entry_count x.now v.medium (view D.medium self.new).medium }
        ensures trace { let h = rulebook_of R.book_kind C.book_kind in
            IsTrace D.makes (instruct_calls h x.now (view D.medium self.old))
            self.old.device self.new.device }
    {
        self.check(x)?;
        if let Err(fault) = write_entry(&mut self.device, self.entry_count, x) {
            self.mode = Mode::Down(*x);
            return Err(fault_about(x, fault.in_entry(self.entry_count)));
        }
        // The checks have found that the rules accept it.
        let _ = self.ledger.instruct(x);
        self.entry_count += 1;
        Ok(())
    }
}
