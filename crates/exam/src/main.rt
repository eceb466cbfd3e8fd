//! The examination program: reads a script from standard input and prints its key.
//!
//! What it prints is what `examination::examine` gives, which is proved to be the key of the script.
#![tactic(auto)]

use examination::examine;
use std::io::Read;

// One byte more than a script may have, so that a longer input is seen as too long and not read to
// its end.
const ENOUGH: u64 = 65537;

fn main(rt: HostRuntime) -> anyhow::Result<()> {
    let heap = rt.alloc();
    let mut script = Vec::new(heap);
    rt.stdin().take(ENOUGH).read_to_end(&mut script)?;
    let key = examine(heap, script.as_slice())?;
    print!(rt; "{key}")?;
    Ok(())
}
