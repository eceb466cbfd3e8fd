//! A device that is simulated over an image.
//!
//! [`Simulated`] keeps a block's old bytes beside its newer ones until a sync, and a restart picks
//! for each loose block what is left of it, by a byte of the remains: the old bytes, the new ones,
//! half of each, a fill, or nothing that can be read. It is a `Device` and a `PoweredDevice` and
//! meets their contracts. What it says more of a call is `Makes`: every byte of the image after
//! it, so nothing is left open (the clause `fixed` of `Simulated::new`). docs/DEVICES.md has the
//! rows.
#![tactic(auto)]

ghost use Rattle.device.specs.declared.TheConstants.{MOST_CALLS};
ghost use Rattle.simulated.specs.declared.rows.TheConstants.{ROW};
ghost use Rattle.simulated.specs.Rows.{is_loose, shown_bytes};
ghost use Rattle.simulated.specs.Meaning.{meaning, Makes};
ghost use Rattle.images.proofs.Meaning.{bounded};
ghost use Rattle.simulated.specs.RowLemmas.{shows};
ghost use Rattle.std.proofs.Common.{rules};

mod loose;
mod rows;
mod state;
mod sweeps;

use device::{Device, PoweredDevice};
use refusals::Fault;
use rows::{Halves, row_is_loose};
pub use state::Simulated;
use sweeps::restart_all;

impl Device for Simulated {
    ghost medium = { meaning };

    ghost makes = { Makes };

    ghost bounds = { λ d. let r = d.rows in
        bounded ROW shown_bytes is_loose shows r.image.items r.calls_left r.few_calls r.bytes };

    fn size(&self) -> u32 {
        self.rows.size
    }

    fn read(&mut self, block: u32, buffer: &mut [u8]) -> Result<(), Fault> {
        self.rows.read::<Halves>(block, buffer)
    }

    fn write(&mut self, block: u32, bytes: &[u8]) -> Result<(), Fault> {
        let loose = self.rows.row(block).is_some_and(row_is_loose);
        self.rows.write::<Halves>(block, bytes)?;
        self.loose.note(loose, block);
        Ok(())
    }

    fn sync(&mut self) -> Result<(), Fault> {
        self.rows.spend()?;
        self.loose.sync(&mut self.rows);
        self.loose.clear(*self.rows.image.allocator());
        Ok(())
    }
}

impl PoweredDevice for Simulated {
    ghost most_calls = { MOST_CALLS };

    ghost most_calls_fit = { Prim.search rules };

    fn restart(&mut self, calls_left: u32, remains: &[u8]) {
        self.rows.calls_left = calls_left;
        restart_all(&mut self.rows, remains);
        self.loose.clear(*self.rows.image.allocator());
    }
}
