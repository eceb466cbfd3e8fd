//! What one line is answered.

ghost use Rattle.std.specs.Prelude.{◌≡◌};
ghost use Rattle.examination.specs.Answers.{answer_of, reopening_of};

use book::Holding;
use depository::{Fact, OpenReply, Reply};
use engine::Verdict;
use refusals::Refusal;

/// What a key says of the opening after a cut.
#[derive(Clone, Copy, Debug, PartialEq, Eq)]
pub struct Reopening {
    /// What the opening was answered.
    pub answer: Result<(), Refusal>,
    /// The number of entries that it found, 0 where it was refused.
    pub found: u32,
    /// What the last slip that is not unknown was answered, if there is one.
    pub slip_answer: Option<Result<Verdict, Refusal>>,
}

impl From<OpenReply> for Reopening {
    ghost from_gives = { λ opened reopening. reopening ≡ reopening_of opened };

    fn from(opened: OpenReply) -> Reopening {
        Reopening {
            answer: opened.answer.map_err(|fault| fault.refusal),
            found: opened.found,
            slip_answer: opened.slip_answer,
        }
    }
}

/// The answer to one line.
#[derive(Clone, Copy, Debug, PartialEq, Eq)]
pub enum LineAnswer {
    /// An instruction was accepted.
    Accepted,
    /// The amounts that a question asks for.
    Amounts(Holding),
    /// What came of a cut.
    Reopened(Reopening),
    /// The line, its instruction or its question was refused.
    Refused(Refusal),
    /// What no line asks for: a call that did not fit, or a fact of another kind.
    Unasked,
}

impl From<Reply> for LineAnswer {
    ghost from_gives = { λ reply answer. answer ≡ answer_of reply };

    fn from(reply: Reply) -> LineAnswer {
        match reply {
            Reply::Done | Reply::ToInstruct(Ok(())) => LineAnswer::Accepted,
            Reply::ToInstruct(Err(fault)) => LineAnswer::Refused(fault.refusal),
            Reply::ToOpen(opened) => LineAnswer::Reopened(opened.into()),
            Reply::ToAsk(Ok(Fact::Holding(holding))) => LineAnswer::Amounts(holding),
            Reply::ToAsk(Ok(_)) | Reply::Misfit => LineAnswer::Unasked,
            Reply::ToAsk(Err(refusal)) => LineAnswer::Refused(refusal),
        }
    }
}
