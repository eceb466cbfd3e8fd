//! The engine, over any device and any two books.
//!
//! It takes a device and two books, finds the list of entries in the device's journal, and from
//! then on writes each instruction that the rules accept into the journal before it carries it
//! out. So after a loss of power the list alone leads books and trades to where they stood.
//! (Write-ahead logging with redo and no undo: see Gray and Reuter, *Transaction Processing*,
//! 1993.)
//!
//! - `Engine::open` promises what it finds on a device that may hold anything, and why it is
//!   refused (clause `found`, by `Opens` of specs/Findings), and that it changes no block
//!   (`kept`).
//! - `Engine::instruct` promises the answer, what it leaves (`done`, by `TakesInstruction` of
//!   specs/Instructing), and when it takes the engine down (`cut`).
//! - `Engine::close` and `Engine::present` promise what the slip says (`slip`) and the
//!   verdict on it (`exact`, by `HasVerdict` of specs/ClosingSlip). A slip can be dropped only
//!   after it was presented or filed.
//! - `open` and `instruct` promise which calls they make to the device (`trace`).
//!
//! It rests on `device` and `book`, which are interfaces, on `ledger` for the rules, and on
//! `journal` for what stands on the device.
#![tactic(auto)]

mod asking;
mod closing;
mod engine;
mod instructing;
mod opening;
mod slip;

pub use engine::{Engine, FoundEntries, Mode};
pub use slip::{Contents, Slip, Verdict, presented_number};
