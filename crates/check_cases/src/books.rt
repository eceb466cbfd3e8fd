//! The changes and the questions of both books, with each number at 0, at its largest value and one
//! past it.

use crate::headings::Source;
use crate::tables::ACCOUNTS;
use balances::Balances;
use book::Book;
use lots::Lots;
use refusals::{Refusal, answer_number};
use std::fmt;

// The answer to a question: its number, and the amount or 0.
#[derive(Clone, Copy)]
struct Amount(Result<u64, Refusal>);

impl fmt::Display for Amount {
    fn fmt<W: fmt::Write>(&self, f: &mut fmt::Formatter<W>) -> fmt::Result {
        match self.0 {
            Ok(amount) => write!(f, "0 {amount}"),
            Err(refusal) => write!(f, "{} 0", refusal.number()),
        }
    }
}

// The questions of one account and item.
fn ask<B: Book>(rt: &HostRuntime, book: &B, account: u16, item: u16) -> anyhow::Result<()> {
    let free = Amount(book.free(account, item));
    let blocked = Amount(book.blocked(account, item));
    println!(rt; "  free {free} blocked {blocked}")?;
    Ok(())
}

// The calls that change one account's amounts.
fn change<B: Book>(
    rt: &HostRuntime,
    book: &mut B,
    account: u16,
    item: u16,
    quantity: u64,
) -> anyhow::Result<()> {
    let credit = answer_number(book.credit(account, item, quantity));
    let block = answer_number(book.block(account, item, quantity));
    let release = answer_number(book.release(account, item, quantity));
    let again = answer_number(book.block(account, item, quantity));
    println!(rt;
        "  {account} {item} {quantity}: credit {credit} block {block} release {release} \
         block {again}"
    )?;
    ask(rt, book, account, item)
}

fn transfer<B: Book>(
    rt: &HostRuntime,
    book: &mut B,
    from: u16,
    to: u16,
    item: u16,
) -> anyhow::Result<()> {
    let none = answer_number(book.transfer(from, to, item, 0));
    let one = answer_number(book.transfer(from, to, item, 1));
    let most = answer_number(book.transfer(from, to, item, u64::MAX));
    println!(rt; "  {from} to {to} of {item}: 0 {none} 1 {one} most {most}")?;
    ask(rt, book, to, item)
}

fn changes<B: Book>(rt: &HostRuntime, book: &mut B, item: u16) -> anyhow::Result<()> {
    let ceiling = book.ceiling();
    for account in ACCOUNTS {
        change(rt, book, account, item, 0)?;
        change(rt, book, account, item, u64::MAX)?;
        change(rt, book, account, item, ceiling.saturating_add(1))?;
        change(rt, book, account, item, ceiling)?;
        change(rt, book, account, item, 1)?;
    }
    for from in ACCOUNTS {
        for to in ACCOUNTS {
            transfer(rt, book, from, to, item)?;
        }
    }
    Ok(())
}

fn all<B: Book>(rt: &HostRuntime, name: &str, book: &mut B) -> anyhow::Result<()> {
    let items = book.items();
    let kind = book.kind();
    let ceiling = book.ceiling();
    println!(rt;
        "{name}: kind {kind}, {items} items, ceiling {ceiling} ({})",
        Source::Twin
    )?;
    changes(rt, book, 0)?;
    changes(rt, book, items.saturating_sub(1))?;
    changes(rt, book, items)?;
    changes(rt, book, 65535)?;
    book.clear();
    println!(rt; "  cleared")?;
    ask(rt, book, 0, 0)
}

pub(crate) fn run(rt: &HostRuntime) -> anyhow::Result<()> {
    let mut balances = Balances::new();
    all(rt, "balances", &mut balances)?;
    let mut lots = Lots::new();
    all(rt, "lots", &mut lots)
}
