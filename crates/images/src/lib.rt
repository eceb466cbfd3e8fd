//! What devices over an image share.
//!
//! An image is bytes, in rows of one width, a row for each block. [`Imaged`] reads, writes and
//! counts calls for every such device; a kind of device gives the width and a [`RowFormat`], which
//! says what a row reads as, whether it is loose, and what a write makes of it. `Imaged::read` and
//! `Imaged::write` promise what the interface `device` asks of a read and a write, in the clause
//! `call`, and say in the clause `image` what becomes of every byte.
#![tactic(auto)]

mod blocks;
mod imaged;

pub use blocks::whole_blocks;
pub use imaged::{Imaged, RowFormat, held_bytes};
