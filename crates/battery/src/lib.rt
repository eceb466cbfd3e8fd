//! A device that a battery backs: what is written is kept, so nothing is ever loose and a restart
//! loses nothing.
//!
//! [`Battery`] is a `Device` and a `PoweredDevice` and meets their contracts. What it says more of
//! a call is `Makes`: every byte of the image after it, so nothing is left open (the clause
//! `fixed` of `Battery::new`). docs/DEVICES.md has the rows.
#![tactic(auto)]

ghost use Rattle.device.specs.declared.TheConstants.{MOST_CALLS};
ghost use Rattle.images.specs.Images.{held_bytes};
ghost use Rattle.battery.specs.declared.row.TheConstants.{ROW};
ghost use Rattle.battery.specs.Meaning.{meaning, Makes};
ghost use Rattle.battery.specs.Rows.{never_loose};
ghost use Rattle.images.proofs.Meaning.{bounded};
ghost use Rattle.battery.specs.RowLemmas.{shows};
ghost use Rattle.std.proofs.Common.{rules};

mod row;
mod state;

use device::{Device, PoweredDevice};
use refusals::Fault;
use row::PlainRow;
pub use state::Battery;

impl Device for Battery {
    ghost medium = { meaning };

    ghost makes = { Makes };

    ghost bounds = { λ d. let r = d.rows in
        bounded ROW held_bytes never_loose shows r.image.items r.calls_left r.few_calls r.bytes };

    fn size(&self) -> u32 {
        self.rows.size
    }

    fn read(&mut self, block: u32, buffer: &mut [u8]) -> Result<(), Fault> {
        self.rows.read::<PlainRow>(block, buffer)
    }

    fn write(&mut self, block: u32, bytes: &[u8]) -> Result<(), Fault> {
        self.rows.write::<PlainRow>(block, bytes)
    }

    fn sync(&mut self) -> Result<(), Fault> {
        self.rows.spend()
    }
}

impl PoweredDevice for Battery {
    ghost most_calls = { MOST_CALLS };

    ghost most_calls_fit = { Prim.search rules };

    fn restart(&mut self, calls_left: u32, _remains: &[u8]) {
        self.rows.calls_left = calls_left;
    }
}
