// The rows that cross: of one size each, and of numbers alone. bench/library has the same rows.
ghost use Rattle.std.specs.Prelude.{◌≡◌, ◌+◌, ◌≤◌, ◌<◌, IfSome, IsNone};
ghost use Rattle.bench_library.specs.declared.rows.TheConstants.{MISFIT};
ghost use Rattle.bench_library.specs.Crossing.{instruction_of, fields_of, or_none, number_row, values_row, fault_row, answer_row, ruling_row, value_row, holding_row, slip_row};

use book::Holding;
use engine::Contents;
use instruction::Instruction;
use refusals::{Fault, Refusal};
use std::ops::Range;

// What stands for no block, no entry or no trade.
pub(crate) const NONE: u64 = 18446744073709551615;

// The number of the answer to a call that does not fit what there is, as an instruct without an
// engine.
pub(crate) const MISFIT: u8 = 255;

/// The device and the books that the calls are given to.
#[repr(C)]
#[derive(Clone, Copy)]
pub struct Setup {
    /// The kind of device: 0 simulated, 1 battery-backed.
    pub device: u8,
    /// The register's kind byte: 1 balances, 2 lots.
    pub register: u8,
    /// The cash book's kind byte.
    pub cash: u8,
    /// The number of calls that the device has left.
    pub calls_left: u32,
}

/// The fields of an instruction of any kind, or of a question.
#[repr(C)]
#[derive(Clone, Copy, Default)]
pub struct Fields {
    /// The kind byte of an instruction.
    pub kind: u8,
    /// The first account.
    pub account: u16,
    /// The second account.
    pub counterparty: u16,
    /// The item.
    pub item: u16,
    /// The currency, an item of the cash book.
    pub currency: u16,
    /// The trade's number.
    pub trade: u32,
    /// How much of the item.
    pub quantity: u64,
    /// How much of the currency.
    pub amount: u64,
}

impl Fields {
    pub(crate) fn instruction(&self) -> Instruction
        ensures { result ≡ instruction_of self.now }
    {
        Instruction {
            kind: self.kind,
            account: self.account,
            counterparty: self.counterparty,
            item: self.item,
            currency: self.currency,
            trade: self.trade,
            quantity: self.quantity,
            amount: self.amount,
        }
    }

    pub(crate) fn of_instruction(x: Instruction) -> Fields
        ensures { result ≡ fields_of x }
    {
        Fields {
            kind: x.kind,
            account: x.account,
            counterparty: x.counterparty,
            item: x.item,
            currency: x.currency,
            trade: x.trade,
            quantity: x.quantity,
            amount: x.amount,
        }
    }
}

/// One call.
#[repr(C)]
#[derive(Clone, Copy)]
pub struct CallRow {
    /// What is done, by the numbers of bench/library's `action`: 0 to 3 open, close and the slip,
    /// 10 to 17 an engine, 20 to 25 a format and the device, 30 to 37 the register, 40 to 47 the
    /// cash book.
    pub action: u8,
    /// The instruction, or what is asked for.
    pub fields: Fields,
    /// A block, a number of pairs, or a number of calls that a restart gives.
    pub number: u32,
    /// Where in the data the call's bytes begin.
    pub from: u32,
    /// How many bytes they are.
    pub length: u32,
}

impl CallRow {
    // The places of its bytes in `room` bytes of data, if all of them are there.
    pub(crate) fn range(&self, room: usize) -> Option<Range<usize>>
        ensures start { IfSome result (λ r. r.start ≡ self.now.from) }
        ensures end { IfSome result (λ r. r.end ≡ self.now.from + self.now.length) }
        ensures within { IfSome result (λ r. r.end ≤ room) }
        ensures none { IsNone result → room < self.now.from + self.now.length }
    {
        let start = self.from as usize;
        let end = start + self.length as usize;
        if end > room {
            return None;
        }
        Some(start..end)
    }
}

/// What a call is answered.
#[repr(C)]
#[derive(Clone, Copy)]
pub struct AnswerRow {
    /// 0, or the number of a refusal or of a verdict, or 255 where the call does not fit what
    /// there is.
    pub number: u8,
    /// The place of a refusal: 0 device, 1 book, 2 trades, 3 journal, 4 engine, 5 script.
    pub place: u8,
    /// The number of the rules' own refusal of a record, or 0.
    pub rule: u8,
    /// 1 if there is an instruction in hand, else 0.
    pub in_hand: u8,
    /// The block that a fault names, or the largest `u64` for none.
    pub block: u64,
    /// The entry that a fault names, or the largest `u64` for none.
    pub entry: u64,
    /// The trade that a fault names, or the largest `u64` for none.
    pub trade: u64,
    /// The first value that was asked for.
    pub first: u64,
    /// The second value.
    pub second: u64,
    /// The instruction in hand.
    pub hand: Fields,
}

fn or_none(named: Option<u32>) -> u64
    ensures { result ≡ or_none named }
{
    match named {
        Some(number) => number.into(),
        None => NONE,
    }
}

impl AnswerRow {
    // A number, and nothing else.
    pub(crate) fn of_number(number: u8) -> AnswerRow
        ensures { result ≡ number_row number }
    {
        AnswerRow {
            number,
            place: 0,
            rule: 0,
            in_hand: 0,
            block: NONE,
            entry: NONE,
            trade: NONE,
            first: 0,
            second: 0,
            hand: Fields::default(),
        }
    }

    // The call does not fit what there is.
    pub(crate) fn misfit() -> AnswerRow
        ensures { result ≡ number_row MISFIT }
    {
        AnswerRow::of_number(MISFIT)
    }

    pub(crate) fn of_values(first: u64, second: u64) -> AnswerRow
        ensures { result ≡ values_row first second }
    {
        AnswerRow {
            first,
            second,
            ..AnswerRow::of_number(0)
        }
    }

    fn of_fault(fault: Fault) -> AnswerRow
        ensures { result ≡ fault_row fault }
    {
        AnswerRow {
            place: fault.place() as u8,
            rule: match fault.rule {
                Some(refusal) => refusal.number(),
                None => 0,
            },
            block: or_none(fault.block),
            entry: or_none(fault.entry),
            trade: or_none(fault.trade),
            ..AnswerRow::of_number(fault.number())
        }
    }

    pub(crate) fn of_answer(answer: Result<(), Fault>) -> AnswerRow
        ensures { result ≡ answer_row answer }
    {
        match answer {
            Ok(()) => AnswerRow::of_number(0),
            Err(fault) => AnswerRow::of_fault(fault),
        }
    }

    pub(crate) fn of_ruling(answer: Result<(), Refusal>) -> AnswerRow
        ensures { result ≡ ruling_row answer }
    {
        match answer {
            Ok(()) => AnswerRow::of_number(0),
            Err(refusal) => AnswerRow::of_fault(refusal.into()),
        }
    }

    pub(crate) fn of_value(answer: Result<u64, Refusal>) -> AnswerRow
        ensures { result ≡ value_row answer }
    {
        match answer {
            Ok(value) => AnswerRow::of_values(value, 0),
            Err(refusal) => AnswerRow::of_fault(refusal.into()),
        }
    }

    pub(crate) fn of_holding(answer: Result<Holding, Refusal>) -> AnswerRow
        ensures { result ≡ holding_row answer }
    {
        match answer {
            Ok(holding) => AnswerRow::of_values(holding.free, holding.blocked),
            Err(refusal) => AnswerRow::of_fault(refusal.into()),
        }
    }

    // What a slip holds: whether it is known, how many entries, and what is in hand.
    pub(crate) fn of_slip(holds: Option<Contents>) -> AnswerRow
        ensures { result ≡ slip_row holds }
    {
        let Some(holds) = holds else {
            return AnswerRow::of_values(0, 0);
        };
        let row = AnswerRow::of_values(1, holds.entries.into());
        match holds.hand {
            None => row,
            Some(x) => AnswerRow {
                in_hand: 1,
                hand: Fields::of_instruction(x),
                ..row
            },
        }
    }
}
