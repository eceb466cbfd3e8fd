// The calls, each as a function. What a depository is made of moves into an engine at an open and
// out of it at a close. A misfit leaves it as it is.
ghost use Rattle.std.specs.Prelude.{◌≡◌};
ghost use Rattle.instruction.specs.Layout.{IsEncodable};
ghost use Rattle.ledger.specs.View.{rulebook_of};
ghost use Rattle.engine.specs.View.{view};
ghost use Rattle.depository.specs.Orders.{instruct_order, close_order, restart_order, open_order, ask_order};
ghost use Rattle.depository.specs.Moments.{moment_of};
ghost use Rattle.depository.specs.Calling.{answer_to_question, LeadsTo};
ghost use Rattle.depository.specs.DeviceUse.{UsesDevice, device_of};

use crate::calls::{Fact, OpenReply, Question, Reply};
use crate::condition::{Condition, Depository};
use crate::slips::{newest_known, present_owed};
use book::Book;
use device::{Device, PoweredDevice};
use engine::Engine;
use instruction::Instruction;
use refusals::Refusal;

// What an engine answers to a question.
fn answer_to_question<D: Device, R: Book, C: Book>(
    engine: &Engine<D, R, C>,
    question: &Question,
) -> Result<Fact, Refusal>
    ensures { result ≡ answer_to_question (rulebook_of R.book_kind C.book_kind)
        (view D.medium engine.now) question.now }
{
    let fact = match *question {
        Question::Securities { account, item } => Fact::Holding(engine.securities(account, item)?),
        Question::Money { account, currency } => Fact::Holding(engine.money(account, currency)?),
        Question::TradeState(number) => Fact::State(engine.trade_state(number)?),
        Question::Entries => Fact::Entries(engine.entries()?),
    };
    Ok(fact)
}

impl<D: PoweredDevice, R: Book, C: Book> Depository<D, R, C> {
    // The engine's answer to an instruction, or a misfit. The clause `fit` says again what the
    // types of the fields say, since a proof about a slice of calls does not have it.
    pub(crate) fn instruct(&mut self, x: Instruction) -> Reply
        ensures fit { IsEncodable x }
        ensures does { LeadsTo (rulebook_of R.book_kind C.book_kind) D.PoweredDevice.most_calls
            (moment_of self.old) (instruct_order x) result (moment_of self.new) }
        ensures device { UsesDevice D.makes (rulebook_of R.book_kind C.book_kind)
            (moment_of self.old).phase (instruct_order x)
            (device_of self.old.condition) (device_of self.new.condition) }
    {
        match &mut self.condition {
            Condition::Running(engine) => Reply::ToInstruct(engine.instruct(&x)),
            Condition::Shut(_, _, _) => Reply::Misfit,
        }
    }

    // Closes the engine, or is a misfit. A known slip is owed from then on, in place of the one
    // before.
    pub(crate) fn close(self) -> (Self, Reply)
        ensures does { LeadsTo (rulebook_of R.book_kind C.book_kind) D.PoweredDevice.most_calls
            (moment_of self) close_order result.1 (moment_of result.0) }
        ensures device { UsesDevice D.makes (rulebook_of R.book_kind C.book_kind)
            (moment_of self).phase close_order
            (device_of self.condition) (device_of result.0.condition) }
    {
        let Depository { condition, owed } = self;
        match condition {
            Condition::Running(engine) => {
                let (device, register, cash, slip) = engine.close();
                let condition = Condition::Shut(device, register, cash);
                let owed = newest_known(owed, slip);
                (Depository { condition, owed }, Reply::Done)
            }
            condition => (Depository { condition, owed }, Reply::Misfit),
        }
    }

    // Restarts the device while no engine runs, or is a misfit.
    pub(crate) fn restart(&mut self, calls_left: u32, remains: &[u8]) -> Reply
        ensures does { LeadsTo (rulebook_of R.book_kind C.book_kind) D.PoweredDevice.most_calls
            (moment_of self.old) (restart_order calls_left remains.now) result
            (moment_of self.new) }
        ensures device { UsesDevice D.makes (rulebook_of R.book_kind C.book_kind)
            (moment_of self.old).phase (restart_order calls_left remains.now)
            (device_of self.old.condition) (device_of self.new.condition) }
    {
        match &mut self.condition {
            Condition::Shut(device, _, _) => {
                device.restart(calls_left, remains);
                Reply::Done
            }
            Condition::Running(_) => Reply::Misfit,
        }
    }

    // Opens the device while no engine runs, and presents the slip that is owed; or is a misfit.
    pub(crate) fn open(self) -> (Self, Reply)
        ensures does { LeadsTo (rulebook_of R.book_kind C.book_kind) D.PoweredDevice.most_calls
            (moment_of self) open_order result.1 (moment_of result.0) }
        ensures device { UsesDevice D.makes (rulebook_of R.book_kind C.book_kind)
            (moment_of self).phase open_order
            (device_of self.condition) (device_of result.0.condition) }
    {
        let Depository { condition, owed } = self;
        match condition {
            Condition::Shut(device, register, cash) => {
                let engine = Engine::open(device, register, cash);
                let answer = engine.opening();
                let found = engine.found();
                let (slip_answer, owed) = present_owed(&engine, owed);
                let condition = Condition::Running(engine);
                let reply = OpenReply {
                    answer,
                    found,
                    slip_answer,
                };
                (Depository { condition, owed }, Reply::ToOpen(reply))
            }
            condition => (Depository { condition, owed }, Reply::Misfit),
        }
    }

    // The engine's answer to a question, or a misfit.
    pub(crate) fn ask(&self, question: &Question) -> Reply
        ensures { LeadsTo (rulebook_of R.book_kind C.book_kind) D.PoweredDevice.most_calls
            (moment_of self.now) (ask_order question.now) result (moment_of self.now) }
    {
        match &self.condition {
            Condition::Running(engine) => Reply::ToAsk(answer_to_question(engine, question)),
            Condition::Shut(_, _, _) => Reply::Misfit,
        }
    }
}
