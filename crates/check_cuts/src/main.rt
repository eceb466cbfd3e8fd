//! A program that checks: it cuts the power at every call of a small settlement's last three
//! instructions, with every byte of remains, on both devices and over both kinds of register. It
//! compares each reply of the depository with one that was worked out by hand from the rules.
//!
//! For each device and register it prints how many cases there were and how many differed, and
//! before that a line for each reply that differs.
#![tactic(auto)]

mod case;
mod cutting;
mod kinds;
mod settlement;

use balances::Balances;
use battery::Battery;
use cutting::check_all;
use lots::Lots;
use simulated::Simulated;
use std::io;

fn main(rt: HostRuntime) -> io::Result<()> {
    check_all::<Simulated, Balances>(&rt)?;
    check_all::<Simulated, Lots>(&rt)?;
    check_all::<Battery, Balances>(&rt)?;
    check_all::<Battery, Lots>(&rt)
}
