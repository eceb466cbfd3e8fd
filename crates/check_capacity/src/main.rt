//! A program that fills the largest journal there is, 32,767 entries on a device of 65,535 blocks, and
//! opens it again.
//!
//! What it must print was worked out by hand: the entries issue 1 to 32,767 of one item, in all
//! 536,854,528.
#![tactic(auto)]

mod filling;

use std::io;

fn main(rt: HostRuntime) -> io::Result<()> {
    filling::run(&rt)
}
