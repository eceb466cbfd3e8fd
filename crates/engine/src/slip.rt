// The slip, which is owed until it is presented or filed, and the verdict on one.
ghost use Rattle.std.specs.Prelude.{◌≡◌, true, is_some};
ghost use Rattle.engine.specs.ClosingSlip.{contents, IsOwed, slip_verdict, HasVerdict, verdict_number, verdict_place, presented_number, PresentedNumbersDiffer, is_last_found};

use instruction::Instruction;
use refusals::{Place, Refusal};

/// What a slip says of the engine that was closed.
#[derive(Clone, Copy, Debug, PartialEq, Eq)]
pub struct Contents {
    /// How many entries stood, 0 to `journal::MOST_PAIRS`.
    pub entries: u32,
    /// The instruction in hand: the one that was being written when power went.
    pub hand: Option<Instruction>,
}

/// What an engine says of a slip that is presented to it. The discriminants are the
/// numbers that operators know.
#[derive(Clone, Copy, Debug, PartialEq, Eq)]
pub enum Verdict {
    /// 0: the opening found as many entries as stood at the closing.
    Same = 0,
    /// 1: it found one more, and that is the instruction in hand. So the instruction stands.
    Stands = 1,
    /// 53: the slip says nothing.
    Unknown = 53,
    /// 54: any other case.
    Differs = 54,
}

impl Verdict {
    /// The verdict's number, as operators know it.
    #[tactic(auto, using(crate::proofs::Verdicts::presented_apart))]
    pub fn number(self) -> u8
        ensures value { result ≡ verdict_number self }
        ensures apart { PresentedNumbersDiffer }
    {
        self as u8
    }

    /// The place of every verdict: the engine.
    pub fn place(self) -> Place
        ensures { result ≡ verdict_place self }
    {
        match self {
            Verdict::Same | Verdict::Stands | Verdict::Unknown | Verdict::Differs => Place::Engine,
        }
    }
}

/// The number of what a slip that was presented is answered: the verdict's, or the refusal's. No
/// two answers share one.
pub fn presented_number(presented: Result<Verdict, Refusal>) -> u8
    ensures { result ≡ presented_number presented }
{
    match presented {
        Ok(verdict) => verdict.number(),
        Err(refusal) => refusal.number(),
    }
}

/// A slip: what a close says of its engine, in plain numbers. Only a close makes one, and it is
/// owed: it cannot be dropped before it is presented to a later engine, or filed, which gives its
/// numbers. It says nothing where the opening of the engine that was closed had been refused.
#[derive(Debug)]
pub struct Slip {
    holds: Option<Contents>,
    // presented or filed
    spent: bool,
}

// A slip that is owed cannot be dropped.
impl Drop for Slip {
    fn drop(self)
        requires { self.spent ≡ true }
    {
        let Slip { holds: _, spent: _ } = self;
    }
}

impl Slip {
    // A new slip is owed.
    pub(crate) fn new(holds: Option<Contents>) -> Slip
        ensures holds { contents result ≡ holds }
        ensures owed { IsOwed result }
    {
        Slip {
            holds,
            spent: false,
        }
    }

    /// Whether the slip says anything.
    pub fn is_known(&self) -> bool
        ensures { result ≡ is_some (contents self.now) }
    {
        self.holds.is_some()
    }

    /// Files the slip, in place of presenting it, and gives what it says, if anything. The slip is
    /// then no longer owed.
    pub fn file(mut self) -> Option<Contents>
        ensures { result ≡ contents self }
    {
        self.spent = true;
        self.holds
    }

    // The verdict where so many entries were found, and this instruction is the last of them.
    pub(crate) fn verdict(self, found: u32, last: Option<Instruction>) -> Verdict
        ensures value { result ≡ slip_verdict (contents self) found last }
        ensures exact { HasVerdict (contents self) found last result }
    {
        let Some(holds) = self.file() else {
            return Verdict::Unknown;
        };
        if found == holds.entries {
            return Verdict::Same;
        }
        if holds.entries.checked_add(1) == Some(found) && is_last_found(holds.hand, last) {
            return Verdict::Stands;
        }
        Verdict::Differs
    }
}

// Whether an instruction is in hand, and it is the last that was found.
fn is_last_found(hand: Option<Instruction>, last: Option<Instruction>) -> bool
    ensures { result ≡ is_last_found hand last }
{
    hand.is_some() && hand == last
}
