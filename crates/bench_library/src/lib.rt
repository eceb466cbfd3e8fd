//! The crates as a static library, which only the programs of bench/ use: they compare the proved
//! engine with another implementation, or time it.
//!
//! A call of the library carries out a whole list of calls to a device, two books and an engine,
//! so that none of these leave it: rows of numbers cross, and the bytes of an image. The contracts
//! of [`bench_run`] and [`bench_time`] say what is answered and what is left where the work was
//! not done. What it does with the calls is compared and not proved here: each of them is a call
//! of a crate with its own contract.
#![tactic(auto)]

ghost use Rattle.std.specs.Prelude.{◌≡◌, ◌<◌, ◌≤◌, ◌≢◌, ◌⊎◌, ◌↔◌, false, length};
ghost use Rattle.bench_library.specs.Statuses.{is_listed};

mod devices;
mod engines;
mod kinds;
mod rows;
mod session;
mod timing;
mod work;

use rows::{AnswerRow, CallRow, Setup};
use std::alloc::Global;
use timing::Timing;
use work::{Work, carry_out};

/// Carries out calls in order, and answers each in the row of its place. The calls read from
/// `data` and write to it. The image is left as the device is at the end.
///
/// It answers 0 where the calls were given, 1 where memory ran out, 2 where there is no such kind
/// of device or book, and 3 where the device gives back an image of another length.
#[unsafe(no_mangle)]
pub extern "C" fn bench_run(
    heap: Global,
    setup: &Setup,
    image: &mut [u8],
    data: &mut [u8],
    calls: &[CallRow],
    answers: &mut [AnswerRow],
) -> u8
    ensures status { result ≤ 3 }

    // 2 exactly where there is no such kind of device or of book
    ensures unlisted { (result ≡ 2) ↔ (is_listed setup.now ≡ false) }

    // 1, out of memory, only where the image has a byte
    ensures memory { result ≡ 1 → 0 < length image.old }
    ensures image { (result ≢ 0) → image.new ≡ image.old }

    // nothing was called where there is no such kind, or where memory ran out
    ensures bytes { (result ≡ 1) ⊎ (result ≡ 2) → «data».new ≡ «data».old }
    ensures answers { (result ≡ 1) ⊎ (result ≡ 2) → answers.new ≡ answers.old }
{
    match carry_out(setup, image, Work::Calls(calls), data, answers, heap) {
        Ok(_) => 0,
        Err(status) => status.number(),
    }
}

/// Does what is to be timed as often as it says, and counts in `count` the instructions that were
/// accepted, the entries that were found, or the sum of the bytes that were read.
///
/// It answers as [`bench_run`] does.
#[unsafe(no_mangle)]
pub extern "C" fn bench_time(
    heap: Global,
    setup: &Setup,
    image: &mut [u8],
    timing: &Timing,
    count: &mut u64,
) -> u8
    ensures status { result ≤ 3 }
    ensures unlisted { (result ≡ 2) ↔ (is_listed setup.now ≡ false) }
    ensures memory { result ≡ 1 → 0 < length image.old }
    ensures image { (result ≢ 0) → image.new ≡ image.old }
    ensures count { (result ≢ 0) → count.new ≡ count.old }
{
    match carry_out(setup, image, Work::Timing(timing), &mut [], &mut [], heap) {
        Ok(counted) => {
            *count = counted;
            0
        }
        Err(status) => status.number(),
    }
}
