//! The examination that the program holds: the device and the books that each script gets.

ghost use Rattle.std.specs.Prelude.{◌≡◌, ◌⊎◌, IfOk, string_bytes};
ghost use Rattle.book.specs.Holdings.{nothing};
ghost use Rattle.balances.specs.Meaning.{meaning};
ghost use Rattle.examination.specs.declared.program.NoKey.TheVariants.{ForAnswers, ForText};
ghost use Rattle.examination.specs.Program.{zero_bytes, IsNew, IsPrinted, KeysAreUnique};

use crate::text::{key_text, refusal_text};
use crate::{Stop, answer_script};
use balances::Balances;
use simulated::Simulated;
use std::alloc::{AllocError, Global};
use std::error::Error;
use std::fmt;

// The bytes of the image: 127 blocks of 514 bytes each.
const IMAGE_LENGTH: usize = 65278;

// The pairs of record and mark, which with the header fill the blocks.
const PAIRS: u32 = 63;

// The calls that the device has before its format.
const CALLS: u32 = 1_000_000;

/// What memory was wanting for, so that a script got no key.
#[derive(Clone, Copy, Debug, PartialEq, Eq)]
pub enum NoKey {
    /// For the device, the books, the calls or the answers.
    ForAnswers(AllocError),
    /// For the text of the answers.
    ForText(AllocError),
}

impl fmt::Display for NoKey {
    fn fmt<W: fmt::Write>(&self, f: &mut fmt::Formatter<W>) -> fmt::Result {
        match self {
            NoKey::ForAnswers(_) => write!(f, "no memory for the key"),
            NoKey::ForText(error) => write!(f, "{error}"),
        }
    }
}

impl Error for NoKey {}

/// Before there is a text, memory is wanting for the answers.
impl From<AllocError> for NoKey {
    ghost from_gives = { λ error no_key. no_key ≡ ForAnswers error };

    fn from(error: AllocError) -> NoKey {
        Self::ForAnswers(error)
    }
}

/// Whatever memory was wanting for, it is want of memory.
impl From<NoKey> for AllocError {
    ghost from_gives = { λ no_key error. (no_key ≡ ForAnswers error) ⊎ (no_key ≡ ForText error) };

    fn from(no_key: NoKey) -> AllocError {
        match no_key {
            NoKey::ForAnswers(error) | NoKey::ForText(error) => error,
        }
    }
}

fn zero_bytes(heap: Global, count: usize) -> Result<Vec<u8>, AllocError>
    ensures { IfOk result (λ v. v.items ≡ zero_bytes count) }
{
    Ok(vec![in heap; 0; count]?)
}

fn new_device(heap: Global) -> Result<Simulated, AllocError>
    ensures { IfOk result (λ d. IsNew d) }
{
    let image = zero_bytes(heap, IMAGE_LENGTH)?;
    Ok(Simulated::new(image, CALLS))
}

// In a box, since each cut moves the books.
fn new_book(heap: Global) -> Result<Box<Balances>, AllocError>
    ensures { IfOk result (λ b. meaning b.value ≡ nothing) }
{
    Ok(Box::new(heap, Balances::new())?)
}

/// Answers a script on a new device and with new books, and gives what is to be printed: the whole
/// key, or line 0 where the script is too long.
///
/// # Errors
///
/// Where memory runs out. Then nothing is to be printed.
#[tactic(auto, using(crate::proofs::Prints::keys_are_unique))]
pub fn examine(heap: Global, script: &[u8]) -> Result<String, NoKey>
    ensures text { IfOk result (λ text. IsPrinted script.now (string_bytes text)) }
    ensures one { KeysAreUnique }
{
    let device = new_device(heap)?;
    let register = new_book(heap)?;
    let cash = new_book(heap)?;
    match answer_script(heap, device, PAIRS, register, cash, script) {
        Ok(answers) => key_text(heap, answers.as_slice()).map_err(NoKey::ForText),
        Err(Stop::ByFault(fault)) => refusal_text(heap, fault.refusal).map_err(NoKey::ForText),
        Err(Stop::NoMemory(error)) => Err(error.into()),
    }
}
