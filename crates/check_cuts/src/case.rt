// A case: calls, and beside each the reply that it is to have.
use depository::{Call, OpenReply, Reply};
use engine::Verdict;
use instruction::Instruction;
use refusals::Fault;
use std::alloc::{AllocError, Global};

#[derive(Drop)]
pub(crate) struct Case<'a> {
    /// The calls of the case, in order.
    pub calls: Vec<Call<'a>>,
    /// The replies that they must have, worked out by hand.
    pub expected: Vec<Reply>,
}

impl<'a> Case<'a> {
    pub(crate) fn new(heap: Global) -> Case<'a> {
        Case {
            calls: Vec::new(heap),
            expected: Vec::new(heap),
        }
    }

    pub(crate) fn add(&mut self, call: Call<'a>, reply: Reply) -> Result<(), AllocError> {
        self.calls.push(call)?;
        self.expected.push(reply)?;
        Ok(())
    }

    // An instruction, and its answer.
    pub(crate) fn instruct(
        &mut self,
        x: Instruction,
        answer: Result<(), Fault>,
    ) -> Result<(), AllocError> {
        self.add(Call::Instruct(x), Reply::ToInstruct(answer))
    }

    // A cut of the power: a close and a restart.
    pub(crate) fn cut_power(
        &mut self,
        calls_left: u32,
        remains: &'a [u8],
    ) -> Result<(), AllocError> {
        self.add(Call::Close, Reply::Done)?;
        let restart = Call::Restart {
            calls_left,
            remains,
        };
        self.add(restart, Reply::Done)
    }

    // An open that is answered 0: the entries found, and the verdict on the slip that is owed, if
    // any.
    pub(crate) fn open(&mut self, found: u32, verdict: Option<Verdict>) -> Result<(), AllocError> {
        let reply = OpenReply {
            answer: Ok(()),
            found,
            slip_answer: verdict.map(|verdict| Ok(verdict)),
        };
        self.add(Call::Open, Reply::ToOpen(reply))
    }
}
