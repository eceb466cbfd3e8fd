//! The remains that a line gives: up to [`MOST_REMAINS`] bytes, held without memory.

ghost use Rattle.std.specs.Prelude.{◌≡◌, ◌<◌, ◌≤◌, [], ◌∷◌, ◌++◌, length, MatchOption};

use crate::MOST_REMAINS;
use std::marker::Model;

/// What becomes of the loose blocks at a restart: a byte for each, in rising number of the blocks.
///
/// A contract sees the list of the bytes.
// Past the given bytes stand zeros, so that equal lists are equal values.
#[derive(Clone, Copy, Debug, PartialEq, Eq)]
pub struct Remains {
    bytes: [u8; MOST_REMAINS],
    count: usize,
}

impl Model for Remains {
    ghost use Rattle.std.specs.Prelude.{ℕ, List, length, take};
    ghost use Rattle.script.specs.Padded.{with_zeros, IsPadded};
    ghost use Rattle.script.specs.PaddedLemmas.{with_zeros-own, count-own};

    ghost Value = { List ℕ };

    ghost view = { λ r. take r.count r.bytes };

    ghost invariant = { λ r. IsPadded r.bytes r.count };

    ghost inverse = { λ ns. record { bytes = with_zeros ns; count = length ns } };

    ghost inverse_ok = { λ r h i. record {
      bytes = with_zeros-own r.bytes r.count h i;
      count = count-own r.bytes r.count h i;
    } };
}

impl Remains {
    pub(crate) fn new() -> Remains
        ensures { result ≡ [] }
    {
        Remains {
            bytes: [0; MOST_REMAINS],
            count: 0,
        }
    }

    // Adds one more; `None` where there is no room.
    pub(crate) fn push(&mut self, byte: u8) -> Option<()>
        ensures { MatchOption result
            ((self.new ≡ self.old) × (MOST_REMAINS ≤ length self.old))
            (λ _. (self.new ≡ self.old ++ byte ∷ []) × (length self.old < MOST_REMAINS)) }
    {
        // By index: docs/DECISIONS.md says why.
        if self.count >= MOST_REMAINS {
            return None;
        }
        self.bytes[self.count] = byte;
        self.count += 1;
        Some(())
    }

    /// The bytes, in the order of the line.
    pub fn as_slice(&self) -> &[u8]
        ensures value { result.now ≡ self.now }
        ensures few { length result.now ≤ MOST_REMAINS }
    {
        &self.bytes[..self.count]
    }
}
