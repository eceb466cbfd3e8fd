//! Why a call was refused: the refusal, its number and place, and the block, entry and trade that
//! it concerns.
//!
//! The numbers are those that operators and examiners know (docs/RULES.md). `Refusal::number`
//! promises by its clause `apart` that a number and its refusal each determine the other.
#![tactic(auto)]

ghost use Rattle.std.specs.Prelude.{◌≡◌};
ghost use Rattle.refusals.specs.Numbers.{number_of, answer_number, fault_number, place_of, NumbersTellApart};
ghost use Rattle.refusals.specs.Faults.{plain, at_block, in_entry, of_trade, of_record};

#[cfg(test)]
mod tests;

use std::error::Error;
use std::fmt;

/// The part that refuses.
#[derive(Clone, Copy, Debug, PartialEq, Eq)]
pub enum Place {
    /// A device of blocks.
    Device,
    /// The register of securities or the cash book.
    Book,
    /// The rules on instructions and on the states of trades.
    Trades,
    /// The journal on a device.
    Journal,
    /// The engine as a whole.
    Engine,
    /// The reader of scripts.
    Script,
}

impl fmt::Display for Place {
    fn fmt<W: fmt::Write>(&self, f: &mut fmt::Formatter<W>) -> fmt::Result {
        match self {
            Place::Device => write!(f, "device"),
            Place::Book => write!(f, "book"),
            Place::Trades => write!(f, "trades"),
            Place::Journal => write!(f, "journal"),
            Place::Engine => write!(f, "engine"),
            Place::Script => write!(f, "script"),
        }
    }
}

/// Why a call is refused. A variant's value is its number.
#[derive(Clone, Copy, Debug, PartialEq, Eq)]
pub enum Refusal {
    /// 11: the device has no block of this number.
    NoBlock = 11,
    /// 12: the buffer is not of one block's size.
    NotABlock = 12,
    /// 13: the device has no call left: power is gone.
    NoCalls = 13,
    /// 14: the block is unreadable. A write of the block makes it readable.
    Unreadable = 14,
    /// 21: an account is none of the book's.
    NoAccount = 21,
    /// 22: the book has no such item.
    NoItem = 22,
    /// 23: a quantity or an amount of 0.
    NoQuantity = 23,
    /// 24: the item's total would pass its ceiling.
    OverCeiling = 24,
    /// 25: more than the account has free.
    OverFree = 25,
    /// 26: more than the account has blocked.
    OverBlocked = 26,
    /// 30: there is no trade of this number.
    NoTrade = 30,
    /// 31: a field that the kind leaves unused is not 0.
    StrayField = 31,
    /// 32: the kind byte means no kind of instruction.
    UnknownKind = 32,
    /// 33: the seller is the buyer.
    SameParties = 33,
    /// 34: the trade was entered before.
    EverEntered = 34,
    /// 35: the trade is in no state from which the instruction may start.
    WrongState = 35,
    /// 36: every entry of the journal is used.
    JournalFull = 36,
    /// 41: the engine's opening was refused.
    OpeningRefused = 41,
    /// 42: the engine is down: power went while it wrote an entry.
    EngineDown = 42,
    /// 43: block 0 holds no header.
    NotAHeader = 43,
    /// 44: the header names other kinds of books than the ones given.
    OtherKinds = 44,
    /// 45: the device has too few blocks for the number of pairs in the header.
    TooFewBlocks = 45,
    /// 46: the bytes are no instruction, or no record of the entry.
    Malformed = 46,
    /// 47: the rules refuse the instruction of a record. The fault has their refusal too.
    RulesRefuse = 47,
    /// 61: a format of no pairs, of more than a journal may have, or of more than the device holds.
    NoRoom = 61,
    /// 71: the line is of no listed form.
    UnlistedLine = 71,
    /// 73: the input is longer than a script may be.
    InputTooLong = 73,
}

impl Refusal {
    /// The refusal's number, 11 to 73.
    #[tactic(auto, using(crate::proofs::Numbered::numbers_tell_apart))]
    pub fn number(self) -> u8
        ensures value { result ≡ number_of self }
        ensures apart { NumbersTellApart }
    {
        self as u8
    }

    /// The part that refuses.
    pub fn place(self) -> Place
        ensures { result ≡ place_of self }
    {
        match self {
            Refusal::NoBlock | Refusal::NotABlock | Refusal::NoCalls | Refusal::Unreadable =>
                Place::Device,
            Refusal::NoAccount
            | Refusal::NoItem
            | Refusal::NoQuantity
            | Refusal::OverCeiling
            | Refusal::OverFree
            | Refusal::OverBlocked => Place::Book,
            Refusal::NoTrade
            | Refusal::StrayField
            | Refusal::UnknownKind
            | Refusal::SameParties
            | Refusal::EverEntered
            | Refusal::WrongState => Place::Trades,
            Refusal::Malformed
            | Refusal::JournalFull
            | Refusal::NotAHeader
            | Refusal::OtherKinds
            | Refusal::TooFewBlocks
            | Refusal::RulesRefuse
            | Refusal::NoRoom => Place::Journal,
            Refusal::OpeningRefused | Refusal::EngineDown => Place::Engine,
            Refusal::UnlistedLine | Refusal::InputTooLong => Place::Script,
        }
    }
}

impl fmt::Display for Refusal {
    fn fmt<W: fmt::Write>(&self, f: &mut fmt::Formatter<W>) -> fmt::Result {
        match self {
            Refusal::NoBlock => write!(f, "the device has no such block"),
            Refusal::NotABlock => write!(f, "the buffer is not of one block's size"),
            Refusal::NoCalls => write!(f, "the device has no calls left"),
            Refusal::Unreadable => write!(f, "the block cannot be read"),
            Refusal::NoAccount => write!(f, "there is no such account"),
            Refusal::NoItem => write!(f, "the book has no such item"),
            Refusal::NoQuantity => write!(f, "the quantity is 0"),
            Refusal::OverCeiling => write!(f, "the item's total would pass its ceiling"),
            Refusal::OverFree => write!(f, "the account has less free"),
            Refusal::OverBlocked => write!(f, "the account has less blocked"),
            Refusal::NoTrade => write!(f, "there is no such trade"),
            Refusal::StrayField => write!(f, "a field that the kind leaves unused is not 0"),
            Refusal::UnknownKind => write!(f, "there is no such kind of instruction"),
            Refusal::SameParties => write!(f, "the seller is the buyer"),
            Refusal::EverEntered => write!(f, "the trade was entered before"),
            Refusal::WrongState => write!(f, "the trade's state does not allow it"),
            Refusal::JournalFull => write!(f, "the journal is full"),
            Refusal::OpeningRefused => write!(f, "the engine's opening was refused"),
            Refusal::EngineDown => write!(f, "the engine is down"),
            Refusal::NotAHeader => write!(f, "block 0 holds no header"),
            Refusal::OtherKinds => write!(f, "the journal is of other kinds of books"),
            Refusal::TooFewBlocks => write!(f, "the device is too small for the journal"),
            Refusal::Malformed => write!(f, "the bytes are no record and no instruction"),
            Refusal::RulesRefuse => write!(f, "the rules refuse a record"),
            Refusal::NoRoom => write!(f, "the device has no room for such a journal"),
            Refusal::UnlistedLine => write!(f, "the line is of no listed form"),
            Refusal::InputTooLong => write!(f, "the input is too long"),
        }
    }
}

impl Error for Refusal {}

/// The number that a call answers: 0, or its refusal's.
pub fn answer_number(answer: Result<(), Refusal>) -> u8
    ensures { result ≡ answer_number answer }
{
    match answer {
        Ok(()) => 0,
        Err(refusal) => refusal.number(),
    }
}

/// The number that a call answers whose refusal comes as a fault: 0, or its refusal's.
pub fn fault_number(answer: Result<(), Fault>) -> u8
    ensures { result ≡ fault_number answer }
{
    answer_number(answer.map_err(|fault| fault.refusal))
}

/// A refusal, and what it concerns.
#[derive(Clone, Copy, Debug, PartialEq, Eq)]
pub struct Fault {
    /// Why the call was refused.
    pub refusal: Refusal,
    /// The number of the device's block.
    pub block: Option<u32>,
    /// The number of the journal's entry, from 0.
    pub entry: Option<u32>,
    /// The number of the trade, as the instruction has it.
    pub trade: Option<u32>,
    /// Why the rules refuse what a journal holds.
    pub rule: Option<Refusal>,
}

impl Fault {
    /// A refusal that concerns no block, entry or trade.
    pub fn plain(refusal: Refusal) -> Fault
        ensures { result ≡ plain refusal }
    {
        Fault {
            refusal,
            block: None,
            entry: None,
            trade: None,
            rule: None,
        }
    }

    /// A device's refusal of a call that names a block.
    pub fn at_block(refusal: Refusal, block: u32) -> Fault
        ensures { result ≡ at_block refusal block }
    {
        Fault {
            block: Some(block),
            ..Fault::plain(refusal)
        }
    }

    /// This fault, met within an entry of a journal.
    pub fn in_entry(self, entry: u32) -> Fault
        ensures { result ≡ in_entry entry self }
    {
        Fault {
            entry: Some(entry),
            ..self
        }
    }

    /// This fault, of an instruction that names a trade.
    pub fn of_trade(self, number: u32) -> Fault
        ensures { result ≡ of_trade number self }
    {
        Fault {
            trade: Some(number),
            ..self
        }
    }

    /// The rules refuse the record of an entry, by this fault.
    pub fn of_record(self, number: u32) -> Fault
        ensures { result ≡ of_record number self }
    {
        Fault {
            entry: Some(number),
            trade: self.trade,
            rule: Some(self.refusal),
            ..Fault::plain(Refusal::RulesRefuse)
        }
    }

    /// The refusal's number.
    pub fn number(&self) -> u8
        ensures { result ≡ number_of self.now.refusal }
    {
        self.refusal.number()
    }

    /// The part that refuses.
    pub fn place(&self) -> Place
        ensures { result ≡ place_of self.now.refusal }
    {
        self.refusal.place()
    }
}

impl fmt::Display for Fault {
    fn fmt<W: fmt::Write>(&self, f: &mut fmt::Formatter<W>) -> fmt::Result {
        write!(
            f,
            "{} of the {}: {}",
            self.number(),
            self.place(),
            self.refusal
        )?;
        if let Some(block) = self.block {
            write!(f, ", block {block}")?;
        }
        if let Some(entry) = self.entry {
            write!(f, ", entry {entry}")?;
        }
        if let Some(trade) = self.trade {
            write!(f, ", trade {trade}")?;
        }
        if let Some(rule) = self.rule {
            write!(f, ", by rule {}: {}", rule.number(), rule)?;
        }
        Ok(())
    }
}

impl Error for Fault {}

/// A refusal by itself concerns no block, entry or trade.
impl From<Refusal> for Fault {
    ghost from_gives = { λ refusal fault. fault ≡ plain refusal };

    fn from(refusal: Refusal) -> Fault {
        Fault::plain(refusal)
    }
}
