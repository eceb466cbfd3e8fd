//! A program that cuts the power of both kinds of device and prints what their blocks hold then.
//!
//! What it must print is in `stdout`, beside this crate. `exercise::drill` is proved for any
//! powered device (the clause `drills`); that the program prints what the calls answer is tested
//! only.
#![tactic(auto)]

mod exercise;
mod pictures;

use battery::Battery;
use device::{BLOCK_SIZE, Device, PoweredDevice};
use exercise::{CutPoint, DrillWrites, Ends, drill, look};
use pictures::{DeviceKind, ROWS, TAIL, image_with};
use refusals::Fault;
use simulated::Simulated;
use std::io;

// The cuts that each kind of device is put to.
static CUTS: [CutPoint<'static>; 3] = [
    CutPoint {
        calls_left: 0,
        remains: &[1, 0, 2],
    },
    CutPoint {
        calls_left: 1,
        remains: &[3, 3, 200, 4, 1, 0, 9, 9],
    },
    CutPoint {
        calls_left: u32::MAX,
        remains: &[],
    },
];

fn print_answer(rt: &HostRuntime, answer: Result<(), Fault>) -> io::Result<()> {
    match answer {
        Ok(()) => println!(rt; " drilled, then all blocks"),
        Err(fault) => {
            let number = fault.number();
            println!(rt; " drill refused {number}, then all blocks")
        }
    }
}

fn print_block<D: Device>(rt: &HostRuntime, device: &mut D, block: u32) -> io::Result<()> {
    match look(device, block) {
        Ok(Ends { first, last }) => println!(rt; "  block {block}: {first} to {last}"),
        Err(fault) => {
            let number = fault.number();
            println!(rt; "  block {block}: refused {number}")
        }
    }
}

fn print_all<D: Device>(rt: &HostRuntime, device: &mut D) -> io::Result<()> {
    for block in 0..device.size() {
        print_block(rt, device, block)?;
    }
    Ok(())
}

// Cuts the power at once, with a number of calls for what follows, and then drills blocks 0 and 1.
// Each time all blocks are printed after one more restart, which loses nothing, since no block is
// loose then.
fn cut_and_drill<P: PoweredDevice>(
    rt: &HostRuntime,
    device: &mut P,
    cut: &CutPoint<'_>,
) -> io::Result<()> {
    device.restart(cut.calls_left, cut.remains);
    println!(rt; " cut, then block 0 twice")?;
    print_block(rt, device, 0)?;
    print_block(rt, device, 0)?;
    device.restart(u32::MAX, &[]);
    println!(rt; " all blocks")?;
    print_all(rt, device)?;
    let mut back = [0u8; BLOCK_SIZE];
    let writes = DrillWrites {
        synced_block: 0,
        loose_block: 1,
        bytes: &[77; BLOCK_SIZE],
    };
    let answer = drill(device, &writes, cut, &mut back);
    print_answer(rt, answer)?;
    device.restart(u32::MAX, &[]);
    print_all(rt, device)
}

// The image as the device left it: its length, and the last of its bytes, which no block has.
fn print_image(rt: &HostRuntime, image: &Vec<u8>) -> io::Result<()> {
    let length = image.len();
    let last = image.as_slice().last().copied().unwrap_or(0);
    println!(rt; " image of {length} bytes, the last {last}")
}

fn try_cut<K: DeviceKind>(rt: &HostRuntime, cut: &CutPoint<'_>) -> io::Result<()> {
    let name = K::NAME;
    let calls = cut.calls_left;
    let given = cut.remains.len();
    println!(rt; "{name}, {calls} calls, {given} bytes of remains")?;
    let mut image = image_with::<K>(rt.alloc(), &ROWS)?;
    image.extend_from_slice(&TAIL)?;
    let mut device = K::of_image(image);
    cut_and_drill(rt, &mut device, cut)?;
    print_image(rt, &device.back_to_image())
}

fn try_cuts<K: DeviceKind>(rt: &HostRuntime) -> io::Result<()> {
    for cut in &CUTS {
        try_cut::<K>(rt, cut)?;
    }
    Ok(())
}

fn main(rt: HostRuntime) -> io::Result<()> {
    try_cuts::<Simulated>(&rt)?;
    try_cuts::<Battery>(&rt)
}
