// Calls to a device and to books that are in no engine.
use crate::rows::{AnswerRow, CallRow};
use book::Book;
use device::{Device, PoweredDevice};
use journal::format;

// A format (20), or a call to the device (21 to 25), to the register (30 to 39) or to the cash
// book (40 to 49).
pub(crate) fn to_parts<D: PoweredDevice, R: Book, C: Book>(
    device: &mut D,
    register: &mut R,
    cash: &mut C,
    call: &CallRow,
    data: &mut [u8],
) -> AnswerRow {
    match call.action {
        20 => AnswerRow::of_answer(format(device, call.number, register.kind(), cash.kind())),
        21..=25 => to_device(device, call, data),
        30..=39 => to_book(register, call.action - 30, call),
        40..=49 => to_book(cash, call.action - 40, call),
        _ => AnswerRow::misfit(),
    }
}

// A restart (21), a read (22), a write (23), a sync (24), and the number of blocks (25).
fn to_device<D: PoweredDevice>(device: &mut D, call: &CallRow, data: &mut [u8]) -> AnswerRow {
    let Some(range) = call.range(data.len()) else {
        return AnswerRow::misfit();
    };
    let bytes = &mut data[range.start..range.end];
    match call.action {
        21 => {
            device.restart(call.number, bytes);
            AnswerRow::of_number(0)
        }
        22 => AnswerRow::of_answer(device.read(call.number, bytes)),
        23 => AnswerRow::of_answer(device.write(call.number, bytes)),
        24 => AnswerRow::of_answer(device.sync()),
        25 => AnswerRow::of_values(device.size().into(), 0),
        _ => AnswerRow::misfit(),
    }
}

// A credit (0), a block (1), a release (2), a transfer (3), what an account has (4), an item's
// total (5), what a credit would be answered (6), and a clearing (7).
fn to_book<B: Book>(book: &mut B, action: u8, call: &CallRow) -> AnswerRow {
    let named = &call.fields;
    let (account, item, quantity) = (named.account, named.item, named.quantity);
    match action {
        0 => AnswerRow::of_ruling(book.credit(account, item, quantity)),
        1 => AnswerRow::of_ruling(book.block(account, item, quantity)),
        2 => AnswerRow::of_ruling(book.release(account, item, quantity)),
        3 => AnswerRow::of_ruling(book.transfer(account, named.counterparty, item, quantity)),
        4 => AnswerRow::of_holding(book.holding(account, item)),
        5 => AnswerRow::of_value(book.total(item)),
        6 => AnswerRow::of_ruling(book.credit_ruling(account, item, quantity)),
        7 => {
            book.clear();
            AnswerRow::of_number(0)
        }
        _ => AnswerRow::misfit(),
    }
}
