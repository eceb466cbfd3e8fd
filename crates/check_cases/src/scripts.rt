//! Scripts: malformed lines, numbers at their edges, and inputs at the edge of the length that is
//! allowed.

use crate::headings::Source;
use crate::tables::{EDGES, SHAPES};
use battery::Battery;
use examination::text::key_text;
use examination::{LineAnswer, Stop, answer_script, examine};
use lots::Lots;

pub(crate) fn key(rt: &HostRuntime, script: &[u8]) -> anyhow::Result<()> {
    let text = examine(rt.alloc(), script)?;
    print!(rt; "{text}")?;
    Ok(())
}

// Prints the keys of scripts, each below its name.
pub(crate) fn keys(
    rt: &HostRuntime,
    source: Source,
    scripts: &[(&str, &[u8])],
) -> anyhow::Result<()> {
    for (name, script) in scripts {
        println!(rt; "{name} ({source})")?;
        key(rt, script)?;
    }
    Ok(())
}

// Three blocks: a header, and a pair of record and mark.
const IMAGE: usize = 3 * 257;

// Answers a script over a battery-backed device of three blocks, with lots for both books, and a
// journal of so many pairs.
fn over_lots(
    rt: &HostRuntime,
    pairs: u32,
    script: &[u8],
) -> anyhow::Result<Result<Vec<LineAnswer>, Stop>> {
    let image = vec![in rt.alloc(); 0; IMAGE]?;
    let device = Battery::new(image, 1000);
    Ok(answer_script(rt.alloc(), device, pairs, Lots::new(), Lots::new(), script))
}

// A script of so many line feeds: how many lines are answered, or why there is no key.
fn long(rt: &HostRuntime, pairs: u32, count: usize) -> anyhow::Result<()> {
    let script = vec![in rt.alloc(); b'\n'; count]?;
    println!(rt; "{count} line feeds, {pairs} pairs ({})", Source::Hand)?;
    match over_lots(rt, pairs, script.as_slice())? {
        Ok(answers) => {
            let answered = answers.len();
            println!(rt; "{answered} lines")?;
        }
        Err(Stop::ByFault(fault)) => {
            let refusal = fault.number();
            println!(rt; "refused {refusal}")?;
        }
        Err(Stop::NoMemory(error)) => return Err(error.into()),
    }
    Ok(())
}

// A lot has one owner, and the journal is full after the first instruction that is accepted.
fn lots(rt: &HostRuntime) -> anyhow::Result<()> {
    println!(rt; "lots ({})", Source::Hand)?;
    let script = b"Q 1 255\nI 1 255 1\nI 2 255 1\nI 2 254 1\nQ 1 255\nQ 2 256\nC 3\nC 2\n";
    if let Ok(answers) = over_lots(rt, 1, script)? {
        let text = key_text(rt.alloc(), answers.as_slice())?;
        print!(rt; "{text}")?;
    }
    Ok(())
}

pub(crate) fn run(rt: &HostRuntime) -> anyhow::Result<()> {
    keys(rt, Source::Hand, &SHAPES)?;
    keys(rt, Source::Hand, &EDGES)?;
    lots(rt)?;
    long(rt, 1, 65535)?;
    long(rt, 1, 65536)?;
    long(rt, 1, 65537)?;
    long(rt, 2, 1)?;
    long(rt, 0, 65537)?;
    println!(rt; "1000000 line feeds ({})", Source::Hand)?;
    let feeds = vec![in rt.alloc(); b'\n'; 1000000]?;
    key(rt, feeds.as_slice())
}
