//! A program that checks bad and edge input: for the books, for the ledger, for instructions as
//! bytes, and for scripts.
//!
//! It prints what each input is answered, and the gate compares that with the file `stdout`. The
//! heading of each block of rows says who worked the rows out: "by hand" is from docs/RULES.md, and
//! "by the twin" is from the independent program in bench/twin, whose `cases` holds the file
//! against what the twin answers.
#![tactic(auto)]

mod books;
mod cuts;
mod headings;
mod ledgers;
mod scripts;
mod tables;

fn main(rt: HostRuntime) -> anyhow::Result<()> {
    books::run(&rt)?;
    ledgers::run(&rt)?;
    scripts::run(&rt)?;
    cuts::run(&rt)
}
