//! Fills the journal, gives one instruction more, and opens the journal again.

use balances::Balances;
use book::Book;
use device::{MOST_BLOCKS, MOST_CALLS, PoweredDevice};
use engine::Engine;
use instruction::{Instruction, Kind};
use journal::{MOST_PAIRS, format};
use refusals::fault_number;
use simulated::Simulated;
use std::io;

// An image of as many blocks as a device can have, which a header and `MOST_PAIRS` pairs fill. A
// row of a simulated device has 514 bytes.
const IMAGE_LENGTH: usize = MOST_BLOCKS * 514;

type OpenEngine = Engine<Simulated, Balances, Balances>;

// Each entry issues one more than the one before, so that the total shows which of them stand.
fn issue(quantity: u32) -> Instruction {
    Instruction {
        quantity: quantity.into(),
        ..Instruction::of_kind(Kind::Issue)
    }
}

// Gives instructions until one is refused, at most one for each pair, and returns how many were
// accepted.
fn fill(engine: &mut OpenEngine) -> u32 {
    for entry in 0..MOST_PAIRS {
        if engine.instruct(&issue(entry + 1)).is_err() {
            return entry;
        }
    }
    MOST_PAIRS
}

// Prints what an opening found, and what the engine has.
fn print_opening(rt: &HostRuntime, engine: &OpenEngine) -> io::Result<()> {
    let answer = fault_number(engine.opening());
    let found = engine.found();
    println!(rt; "open: {answer}, {found} entries found")?;
    print_amounts(rt, engine)
}

fn print_amounts(rt: &HostRuntime, engine: &OpenEngine) -> io::Result<()> {
    match (engine.entries(), engine.securities(0, 0)) {
        (Ok(entries), Ok(holding)) => {
            println!(rt;
                "  {entries} entries, free {}, blocked {}",
                holding.free, holding.blocked
            )?;
        }
        (Err(refusal), _) | (_, Err(refusal)) => println!(rt; "  no answer: {}", refusal.number())?,
    }
    Ok(())
}

// Closes the engine, cuts the power, opens the device again and presents the slip.
fn reopen(rt: &HostRuntime, engine: OpenEngine) -> io::Result<()> {
    let (mut device, register, cash, slip) = engine.close();
    device.restart(MOST_CALLS, &[]);
    let engine = Engine::open(device, register, cash);
    let verdict = match engine.present(slip) {
        Ok(verdict) => verdict.number(),
        Err((refusal, slip)) => {
            let _ = slip.file();
            refusal.number()
        }
    };
    println!(rt; "closed, restarted and opened again: verdict {verdict}")?;
    print_opening(rt, &engine)
}

pub(crate) fn run(rt: &HostRuntime) -> io::Result<()> {
    let image = vec![in rt.alloc(); 0u8; IMAGE_LENGTH]?;
    let mut device = Simulated::new(image, MOST_CALLS);
    let register = Balances::new();
    let cash = Balances::new();
    let formatted = fault_number(format(&mut device, MOST_PAIRS, register.kind(), cash.kind()));
    println!(rt; "format: {formatted}")?;
    let mut engine = Engine::open(device, register, cash);
    print_opening(rt, &engine)?;
    let accepted = fill(&mut engine);
    println!(rt; "{accepted} instructions answered 0")?;
    let next = fault_number(engine.instruct(&issue(1)));
    println!(rt; "one more: {next}")?;
    print_amounts(rt, &engine)?;
    reopen(rt, engine)
}
