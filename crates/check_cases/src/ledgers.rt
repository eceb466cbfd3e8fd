//! Instructions, among them those that no script can state, and strings of bytes.

use crate::headings::Source;
use balances::Balances;
use book::Book;
use instruction::{Instruction, Kind};
use ledger::Ledger;
use lots::Lots;
use refusals::Refusal;

fn give<R: Book, C: Book>(
    rt: &HostRuntime,
    ledger: &mut Ledger<R, C>,
    name: &str,
    x: &Instruction,
) -> anyhow::Result<()> {
    match ledger.instruct(x) {
        Ok(()) => println!(rt; "  {name}: 0")?,
        Err(fault) => {
            let number = fault.number();
            match fault.trade {
                Some(trade) => println!(rt; "  {name}: {number}, trade {trade}")?,
                None => println!(rt; "  {name}: {number}")?,
            }
        }
    }
    Ok(())
}

fn give_all<R: Book, C: Book>(
    rt: &HostRuntime,
    ledger: &mut Ledger<R, C>,
    named: &[(&str, Instruction)],
) -> anyhow::Result<()> {
    for (name, x) in named {
        give(rt, ledger, name, x)?;
    }
    Ok(())
}

// A kind byte that no kind has.
fn unknown(kind: u8) -> Instruction {
    Instruction {
        kind,
        ..Instruction::default()
    }
}

// Kind bytes that no kind has, two of them with a field that is not 0: the kind is checked first.
fn kinds<R: Book, C: Book>(rt: &HostRuntime, ledger: &mut Ledger<R, C>) -> anyhow::Result<()> {
    let with_trade = Instruction {
        trade: 1,
        ..unknown(8)
    };
    let with_amount = Instruction {
        amount: 1,
        ..unknown(255)
    };
    give_all(
        rt,
        ledger,
        &[
            ("kind 0", unknown(0)),
            ("kind 8", with_trade),
            ("kind 255", with_amount),
        ],
    )
}

// One field too many, for the kinds that credit an account.
fn stray_credits<R: Book, C: Book>(
    rt: &HostRuntime,
    ledger: &mut Ledger<R, C>,
) -> anyhow::Result<()> {
    let issue_of_amount = Instruction {
        amount: 1,
        ..Instruction::of_kind(Kind::Issue)
    };
    let pay_in_of_item = Instruction {
        item: 1,
        ..Instruction::of_kind(Kind::PayIn)
    };
    let pay_in_of_quantity = Instruction {
        quantity: 1,
        ..Instruction::of_kind(Kind::PayIn)
    };
    give_all(
        rt,
        ledger,
        &[
            ("Issue with a trade", Instruction::on_trade(Kind::Issue, 1)),
            ("Issue with an amount", issue_of_amount),
            ("Pay in with an item", pay_in_of_item),
            ("Pay in with a quantity", pay_in_of_quantity),
        ],
    )
}

// One field too many, for the kinds that use a trade alone.
fn stray_trades<R: Book, C: Book>(
    rt: &HostRuntime,
    ledger: &mut Ledger<R, C>,
) -> anyhow::Result<()> {
    let earmark = Instruction {
        account: 1,
        ..Instruction::on_trade(Kind::Earmark, 128)
    };
    let fund = Instruction {
        counterparty: 1,
        ..Instruction::on_trade(Kind::Fund, 127)
    };
    let settle = Instruction {
        currency: 1,
        ..Instruction::on_trade(Kind::Settle, u32::MAX)
    };
    let free = Instruction {
        amount: u64::MAX,
        ..Instruction::on_trade(Kind::Free, 0)
    };
    give_all(
        rt,
        ledger,
        &[
            ("Earmark with an account", earmark),
            ("Fund with a counterparty", fund),
            ("Settle with a currency", settle),
            ("Free with an amount", free),
        ],
    )
}

// An instruction about the last trade that there is.
fn on_last_trade(kind: Kind) -> Instruction {
    Instruction::on_trade(kind, 127)
}

// A whole settlement, and what comes too early, too late or twice.
fn settlement<R: Book, C: Book>(rt: &HostRuntime, ledger: &mut Ledger<R, C>) -> anyhow::Result<()> {
    let issue = Instruction {
        account: 1,
        quantity: 1,
        ..Instruction::of_kind(Kind::Issue)
    };
    let pay_in = Instruction {
        account: 2,
        amount: 1,
        ..Instruction::of_kind(Kind::PayIn)
    };
    let enter = Instruction {
        account: 1,
        counterparty: 2,
        quantity: 1,
        amount: 1,
        ..on_last_trade(Kind::Enter)
    };
    give_all(
        rt,
        ledger,
        &[
            ("Issue", issue),
            ("Pay in", pay_in),
            ("Earmark before Enter", on_last_trade(Kind::Earmark)),
            ("Enter", enter),
            ("Enter again", enter),
            ("Settle before Earmark", on_last_trade(Kind::Settle)),
            ("Earmark", on_last_trade(Kind::Earmark)),
            ("Settle before Fund", on_last_trade(Kind::Settle)),
            ("Fund", on_last_trade(Kind::Fund)),
            ("Settle", on_last_trade(Kind::Settle)),
            ("Free after Settle", on_last_trade(Kind::Free)),
        ],
    )
}

// A trade's state is printed as its place in the list of states, from 0 (never entered) to 5
// (freed).
fn states<R: Book, C: Book>(rt: &HostRuntime, ledger: &Ledger<R, C>) -> anyhow::Result<()> {
    for trade in [0, 127, 128, u32::MAX] {
        let answer = match ledger.trade_state(trade) {
            Ok(state) => state as u8,
            Err(refusal) => refusal.number(),
        };
        println!(rt; "  state of {trade}: {answer}")?;
    }
    Ok(())
}

fn all<R: Book, C: Book>(
    rt: &HostRuntime,
    name: &str,
    ledger: &mut Ledger<R, C>,
) -> anyhow::Result<()> {
    println!(rt; "{name} ({})", Source::Hand)?;
    kinds(rt, ledger)?;
    stray_credits(rt, ledger)?;
    stray_trades(rt, ledger)?;
    settlement(rt, ledger)?;
    states(rt, ledger)
}

fn print_read(rt: &HostRuntime, read: Result<Instruction, Refusal>) -> anyhow::Result<()> {
    match read {
        Ok(x) => {
            print!(rt; "{} {} {} {} ", x.kind, x.account, x.counterparty, x.item)?;
            println!(rt; "{} {} {} {}", x.currency, x.trade, x.quantity, x.amount)?;
        }
        Err(refusal) => {
            let number = refusal.number();
            println!(rt; "{number}")?;
        }
    }
    Ok(())
}

// Reads `count` bytes as an instruction: the byte at `place` is 1 and the others are 0.
fn read(rt: &HostRuntime, count: usize, place: usize) -> anyhow::Result<()> {
    let mut bytes = [0u8; 33];
    if let Some(byte) = bytes.get_mut(place) {
        *byte = 1;
    }
    let Some(given) = bytes.get(..count) else {
        return Ok(());
    };
    print!(rt; "  {count} bytes, byte {place} at 1: ")?;
    print_read(rt, Instruction::from_bytes(given))
}

pub(crate) fn run(rt: &HostRuntime) -> anyhow::Result<()> {
    let mut ledger = Ledger::new(Balances::new(), Balances::new());
    all(rt, "balances for balances", &mut ledger)?;
    let mut ledger = Ledger::new(Lots::new(), Balances::new());
    all(rt, "lots for balances", &mut ledger)?;
    let mut ledger = Ledger::new(Balances::new(), Lots::new());
    all(rt, "balances for lots", &mut ledger)?;
    println!(rt; "bytes ({})", Source::Hand)?;
    for count in [0, 1, 31, 33] {
        read(rt, count, 0)?;
    }
    for place in 0..32 {
        read(rt, 32, place)?;
    }
    Ok(())
}
