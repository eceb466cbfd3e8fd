// What a depository is asked, and what it answers.
use book::Holding;
use engine::Verdict;
use instruction::Instruction;
use refusals::{Fault, Refusal};
use rulebook::State;

/// A question to the engine, which changes nothing.
#[derive(Clone, Copy, Debug, PartialEq, Eq)]
pub enum Question {
    /// What an account has of an item.
    Securities {
        /// An account; 64 or more is answered 21.
        account: u16,
        /// An item of the register; one that it lacks is answered 22.
        item: u16,
    },
    /// What an account has of a currency.
    Money {
        /// An account; 64 or more is answered 21.
        account: u16,
        /// An item of the cash book; one that it lacks is answered 22.
        currency: u16,
    },
    /// The state of the trade with this number; 128 or more is answered 30.
    TradeState(u32),
    /// How many entries stand.
    Entries,
}

/// The answer to a question that is not refused.
#[derive(Clone, Copy, Debug, PartialEq, Eq)]
pub enum Fact {
    /// To `Question::Securities` and `Question::Money`: the free and the blocked amount.
    Holding(Holding),
    /// To `Question::TradeState`.
    State(State),
    /// To `Question::Entries`.
    Entries(u32),
}

/// A call of a depository. An instruct, a close and a question want an engine that runs, and a
/// restart and an open want none: else the call is a misfit, and does nothing.
#[derive(Clone, Copy, Debug, PartialEq, Eq)]
pub enum Call<'a> {
    /// Gives the engine an instruction.
    Instruct(Instruction),
    /// Closes the engine. If its slip is known, the depository owes that one from then on,
    /// and files the one that it owed before. An unknown slip is filed.
    Close,
    /// Restarts the device, as after a cut of the power.
    Restart {
        /// How many calls the device then has left, but no more than its kind's largest number.
        calls_left: u32,
        /// The bytes by which the device's kind says what its loose blocks hold then.
        remains: &'a [u8],
    },
    /// Opens an engine over the device and the books, and presents to it the slip that is owed.
    Open,
    /// Asks the engine a question.
    Ask(Question),
}

/// What an open answers.
#[derive(Clone, Copy, Debug, PartialEq, Eq)]
pub struct OpenReply {
    /// The opening's own answer.
    pub answer: Result<(), Fault>,
    /// How many entries the opening found: 0 if it was refused.
    pub found: u32,
    /// What the slip that was owed is answered, or `None` if none was owed. If the opening was
    /// refused this is 41 (`Refusal::OpeningRefused`), and the slip is still owed.
    pub slip_answer: Option<Result<Verdict, Refusal>>,
}

/// What a depository answers to a call.
#[derive(Clone, Copy, Debug, PartialEq, Eq)]
pub enum Reply {
    /// To a close or a restart, which never refuse.
    Done,
    /// To an instruct: whether the instruction was accepted.
    ToInstruct(Result<(), Fault>),
    /// To an open.
    ToOpen(OpenReply),
    /// To a question.
    ToAsk(Result<Fact, Refusal>),
    /// The call does not fit: it wants an engine where none runs, or a device that an engine has.
    Misfit,
}
