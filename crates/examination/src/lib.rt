//! An examination: a script of lines is given to a depository, and its answers are the key.
//!
//! [`examine`] is what the program calls: it promises (clause `text`) the text of the script's key,
//! and (clause `one`) that there is no other. [`answer_script`] does the same over any powered
//! device and any books, and promises that the law of survival holds of the calls of the script's
//! lines. It rests on `script`, which reads the lines, and on `depository`, which is given the
//! calls.
#![tactic(auto)]

ghost use Rattle.std.specs.Prelude.{◌≡◌, ◌≤◌, MatchResult, Err, length, map, vec_capacity};
ghost use Rattle.ledger.specs.View.{rulebook_of, both_sides};
ghost use Rattle.journal.specs.Format.{format_answer};
ghost use Rattle.depository.specs.Orders.{order};
ghost use Rattle.examination.specs.Key.{AreReplies, IsKeyOf, IsStop};

mod answer;
mod lines;
mod program;
pub mod text;

pub use answer::{LineAnswer, Reopening};
use book::Book;
pub use depository::Stop;
use depository::{Call, Reply, serve};
use device::{Device, PoweredDevice};
use lines::{answers_for, calls_for, read_requests};
pub use program::{NoKey, examine};
use refusals::{Fault, Refusal};
use std::alloc::Global;

// The most bytes that a script may have.
const MOST_BYTES: usize = 65536;

// Formats a device for these books and gives a depository over it the calls. There is room for the
// replies. The slips that are owed in the end are filed.
fn replies_to<D: PoweredDevice + Drop, R: Book + Drop, C: Book + Drop>(
    device: D,
    pairs: u32,
    register: R,
    cash: C,
    calls: &[Call<'_>],
    replies: &mut Vec<Reply>,
) -> Result<(), Fault>
    requires room { length calls.now ≤ vec_capacity replies.old }
    ensures { let means = D.Device.medium in
        let books = both_sides (R.holdings register) (C.holdings cash) in
        let rules = rulebook_of R.book_kind C.book_kind in
        MatchResult result
        (λ _. AreReplies D.makes means rules D.PoweredDevice.most_calls pairs device books
        (map order calls.now) replies.new.items)
        (λ fault. format_answer pairs (means device) ≡ Err fault) }
{
    let (depository, served) = serve(device, pairs, register, cash, calls, replies);
    let _ = depository.finish();
    match served {
        Ok(()) => Ok(()),
        Err(Stop::ByFault(fault)) => Err(fault),
        Err(Stop::NoMemory(_)) => unreachable!(),
    }
}

/// Gives a script to a depository over this device and these books, and makes an answer to each
/// line of the replies. Memory is asked for before any call is given.
///
/// # Errors
///
/// `Stop::ByFault` with `InputTooLong` (73) where the script has more than 65,536 bytes, and with
/// the format's own fault where the device cannot be formatted. `Stop::NoMemory` where memory runs
/// out. No call of the script is given then.
pub fn answer_script<D: PoweredDevice + Drop, R: Book + Drop, C: Book + Drop>(
    heap: Global,
    device: D,
    pairs: u32,
    register: R,
    cash: C,
    script: &[u8],
) -> Result<Vec<LineAnswer>, Stop>
    ensures { let means = D.Device.medium in
        let books = both_sides (R.holdings register) (C.holdings cash) in
        let rules = rulebook_of R.book_kind C.book_kind in
        MatchResult result
        (λ answers. IsKeyOf D.makes means rules D.PoweredDevice.most_calls pairs device books
        script.now answers.items)
        (λ stop. IsStop pairs (means device) script.now stop) }
{
    if script.len() > MOST_BYTES {
        return Err(Stop::ByFault(Refusal::InputTooLong.into()));
    }
    let requests = read_requests(heap, script)?;
    let calls = calls_for(heap, requests.as_slice())?;
    let mut replies = Vec::with_capacity(heap, calls.len())?;
    let mut answers = Vec::with_capacity(heap, requests.len())?;
    let served = replies_to(
        device,
        pairs,
        register,
        cash,
        calls.as_slice(),
        &mut replies,
    );
    if let Err(fault) = served {
        return Err(Stop::ByFault(fault));
    }
    answers_for(requests.as_slice(), replies.as_slice(), &mut answers);
    Ok(answers)
}
