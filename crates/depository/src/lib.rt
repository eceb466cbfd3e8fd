//! A depository: one powered device with its register and its cash book, from a format on. It is
//! given calls, among them restarts, which stand for cuts of the power.
//!
//! What it promises is the law of survival, the clause `served` of `serve`: after any calls the
//! next open is answered 0 if calls enough are left, the verdict on the last known slip is 0 or 1,
//! and what stands is the tally of what was answered. The law stands in specs/Survival.antt.
//!
//! It rests on `journal` for the format, on `engine` for all that happens while an engine runs,
//! and on `device` for what a restart keeps.
#![tactic(auto)]

mod calls;
mod condition;
mod finishing;
mod serving;
mod slips;
mod steps;
mod stop;

pub use calls::{Call, Fact, OpenReply, Question, Reply};
pub use condition::{Condition, Depository};
pub use serving::serve;
pub use stop::Stop;
