// What is to be timed. It is done many times over, so that the time of one is the difference of
// two runs.
use crate::rows::Fields;
use book::Book;
use device::{BLOCK_SIZE, Device, PoweredDevice};
use engine::Engine;
use journal::format;

/// What is to be timed, and how often.
#[repr(C)]
#[derive(Clone, Copy)]
pub struct Timing {
    /// 0 fills journals, 1 opens the journal that is there, 2 reads its blocks.
    pub what: u8,
    /// How often it is done.
    pub rounds: u32,
    /// The number of pairs of a journal to be filled.
    pub pairs: u32,
    /// How many instructions it is given that are accepted.
    pub entries: u32,
    /// How many instructions it is given then that are refused.
    pub refusals: u32,
    /// How many blocks are read.
    pub blocks: u32,
    /// The instruction that is accepted.
    pub accepted: Fields,
    /// The instruction that is refused.
    pub refused: Fields,
}

// Gives an instruction so many times, and counts how often it is accepted.
fn give<D: Device, R: Book, C: Book>(
    engine: &mut Engine<D, R, C>,
    fields: &Fields,
    times: u32,
) -> u64 {
    let x = fields.instruction();
    let mut accepted = 0u64;
    for _ in 0..times {
        if engine.instruct(&x).is_ok() {
            accepted = accepted.wrapping_add(1);
        }
    }
    accepted
}

// Closes an engine, and files its slip.
fn shut<D: Device, R: Book, C: Book>(engine: Engine<D, R, C>) -> (D, R, C) {
    let (device, register, cash, slip) = engine.close();
    let _ = slip.file();
    (device, register, cash)
}

fn fill<D: PoweredDevice, R: Book, C: Book>(parts: (D, R, C), timing: &Timing) -> ((D, R, C), u64) {
    let mut parts = parts;
    let mut accepted = 0u64;
    for _ in 0..timing.rounds {
        let (mut device, register, cash) = parts;
        device.restart(u32::MAX, &[]);
        let _ = format(&mut device, timing.pairs, register.kind(), cash.kind());
        let mut engine = Engine::open(device, register, cash);
        accepted = accepted.wrapping_add(give(&mut engine, &timing.accepted, timing.entries));
        accepted = accepted.wrapping_add(give(&mut engine, &timing.refused, timing.refusals));
        parts = shut(engine);
    }
    (parts, accepted)
}

fn reopen<D: Device, R: Book, C: Book>(parts: (D, R, C), rounds: u32) -> ((D, R, C), u64) {
    let mut parts = parts;
    let mut found_sum = 0u64;
    for _ in 0..rounds {
        let (device, register, cash) = parts;
        let engine = Engine::open(device, register, cash);
        found_sum = found_sum.wrapping_add(engine.found().into());
        parts = shut(engine);
    }
    (parts, found_sum)
}

fn sum_of(block: &[u8; BLOCK_SIZE]) -> u64 {
    let mut sum = 0u64;
    for byte in block {
        sum = sum.wrapping_add((*byte).into());
    }
    sum
}

// Reads the blocks in order, and sums their bytes. Without the sum the compiler could leave out
// the copy of a block.
fn read<D: Device>(device: &mut D, timing: &Timing) -> u64 {
    let mut block = [0; BLOCK_SIZE];
    let mut sum = 0u64;
    for _ in 0..timing.rounds {
        for number in 0..timing.blocks {
            if device.read(number, &mut block).is_ok() {
                sum = sum.wrapping_add(sum_of(&block));
            }
        }
    }
    sum
}

pub(crate) fn time<D: PoweredDevice, R: Book, C: Book>(
    parts: (D, R, C),
    timing: &Timing,
) -> ((D, R, C), u64) {
    match timing.what {
        0 => fill(parts, timing),
        1 => reopen(parts, timing.rounds),
        _ => {
            let (mut device, register, cash) = parts;
            let sum = read(&mut device, timing);
            ((device, register, cash), sum)
        }
    }
}
