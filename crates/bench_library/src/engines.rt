// Calls to an engine.
use crate::rows::{AnswerRow, CallRow};
use book::Book;
use device::Device;
use engine::Engine;
use instruction::Instruction;

// An instruction by its fields (10), or by bytes, which may be none (11); else a question.
pub(crate) fn to_engine<D: Device, R: Book, C: Book>(
    engine: &mut Engine<D, R, C>,
    call: &CallRow,
    data: &[u8],
) -> AnswerRow {
    match call.action {
        10 => AnswerRow::of_answer(engine.instruct(&call.fields.instruction())),
        11 => instruct_bytes(engine, call, data),
        _ => ask(engine, call),
    }
}

fn instruct_bytes<D: Device, R: Book, C: Book>(
    engine: &mut Engine<D, R, C>,
    call: &CallRow,
    data: &[u8],
) -> AnswerRow {
    let Some(range) = call.range(data.len()) else {
        return AnswerRow::misfit();
    };
    match Instruction::from_bytes(&data[range.start..range.end]) {
        Ok(x) => AnswerRow::of_answer(engine.instruct(&x)),
        Err(refusal) => AnswerRow::of_ruling(Err(refusal)),
    }
}

// What an account has in the register (12) or in the cash book (13), a trade's state (14), how
// many entries stand (15), what the opening was answered (16) and how many entries it found (17).
fn ask<D: Device, R: Book, C: Book>(engine: &Engine<D, R, C>, call: &CallRow) -> AnswerRow {
    let asked = &call.fields;
    match call.action {
        12 => AnswerRow::of_holding(engine.securities(asked.account, asked.item)),
        13 => AnswerRow::of_holding(engine.money(asked.account, asked.currency)),
        14 => AnswerRow::of_value(engine.trade_state(asked.trade).map(|state| state as u64)),
        15 => AnswerRow::of_value(engine.entries().map(u64::from)),
        16 => AnswerRow::of_answer(engine.opening()),
        17 => AnswerRow::of_values(engine.found().into(), 0),
        _ => AnswerRow::misfit(),
    }
}
