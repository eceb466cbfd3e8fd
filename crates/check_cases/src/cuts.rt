//! Scripts with cuts of the power: at each call of a device, with each kind of remains, and one
//! after another.

use crate::headings::Source;
use crate::scripts::{key, keys};
use crate::tables::{CUTS, REMAINS};

// With one entry an opening takes 4 of the calls, and the instruction after it has the others: with
// 1 its record is left loose, and with 3 its mark.
fn one_cut(rt: &HostRuntime, calls: u32, remains: u8) -> anyhow::Result<()> {
    println!(rt; "{calls} calls, then remains {remains} ({})", Source::Twin)?;
    let script = format!(in rt.alloc();
        "I 1 0 100\nC {calls}\nI 2 0 50\nC 100 {remains}\nQ 2 0\nI 2 0 50\nC 100\nQ 2 0\n"
    )?;
    key(rt, script.as_bytes())
}

fn each_cut(rt: &HostRuntime) -> anyhow::Result<()> {
    for calls in 4..8 {
        for remains in REMAINS {
            one_cut(rt, calls, remains)?;
        }
    }
    Ok(())
}

// Gives one instruction more than the journal has room for, and then cuts the power with so many
// calls.
fn full(rt: &HostRuntime, calls: u32) -> anyhow::Result<()> {
    println!(rt; "a full journal, then {calls} calls ({})", Source::Twin)?;
    let mut script = String::new(rt.alloc());
    for _ in 0..64 {
        script.push_str("I 0 0 1\n")?;
    }
    let rest = format!(in rt.alloc(); "I 0 16 1\nC {calls}\nI 0 16 1\nI 0 0 1\nQ 0 0\n")?;
    script.push_str(rest.as_str())?;
    key(rt, script.as_bytes())
}

pub(crate) fn run(rt: &HostRuntime) -> anyhow::Result<()> {
    keys(rt, Source::Twin, &CUTS)?;
    each_cut(rt)?;
    full(rt, 126)?;
    full(rt, 127)
}
