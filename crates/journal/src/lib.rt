//! The journal of an engine: its blocks as bytes, the format that makes a device into a journal
//! with no entries, and the calls that write an entry and read one.
//!
//! Block 0 holds the header. Entry `k`, counted from 0, has its record in block `2k + 1` and its
//! mark in block `2k + 2`. The record says the instruction, and the mark says that the record is
//! complete. (Write-ahead logging with redo and no undo: see Gray and Reuter, *Transaction
//! Processing*, 1993.)
//!
//! `format` promises a journal with no entries (clause `journal`, by `Journal` of specs/Journal),
//! and `write_entry` that the mark is touched only once the record is safe (clause `after`, by
//! `WritesEntry`). Each promises which calls it makes (clause `trace`). The functions between
//! bytes and values promise both ways (clauses `value` and `exact`), and where each byte lies
//! (`places`).
//!
//! It rests on `device`, which is an interface: all that stands here holds on any device.
#![tactic(auto)]

mod entry;
mod formatting;
mod header;
mod reading;
mod writing;
mod zeros;

pub use entry::{decode_record, is_good_mark, mark_block, record_block};
pub use formatting::format;
pub use header::Header;
pub use reading::{read_header, read_mark, read_record};
pub use writing::write_entry;

/// The most pairs of a record and a mark that a journal may have, and so the most entries.
pub const MOST_PAIRS: u32 = 32767;
