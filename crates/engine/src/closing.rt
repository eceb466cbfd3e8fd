// Closing an engine: its device and its books come out again.
ghost use Rattle.std.specs.Prelude.{◌≡◌};
ghost use Rattle.rulebook.specs.Terms.{securities as in_securities, cash as in_cash};
ghost use Rattle.engine.specs.View.{view};
ghost use Rattle.engine.specs.ClosingSlip.{contents, IsOwed};
ghost use Rattle.engine.specs.Asking.{closing_contents};

use crate::engine::{Engine, Mode};
use crate::slip::{Contents, Slip};
use book::Book;
use device::Device;

impl<D: Device, R: Book, C: Book> Engine<D, R, C> {
    /// Gives the device and the books back, with a slip. The slip says how many entries
    /// stand, and which instruction is in hand if power went; it says nothing where the opening
    /// was refused.
    pub fn close(self) -> (D, R, C, Slip)
        ensures device { result.0 ≡ self.device }
        ensures register { R.holdings result.1 ≡ (view D.medium self).standing.book in_securities }
        ensures cash { C.holdings result.2 ≡ (view D.medium self).standing.book in_cash }
        ensures slip { contents result.3 ≡ closing_contents (view D.medium self) }
        ensures owed { IsOwed result.3 }
    {
        let Engine {
            device,
            ledger,
            mode,
            entry_count,
            pairs: _,
            found: _,
        } = self;
        let hand = match mode {
            Mode::Open => None,
            Mode::Down(x) => Some(x),
            Mode::Refused(_) => {
                let (register, cash) = ledger.into_books();
                return (device, register, cash, Slip::new(None));
            }
        };
        let (register, cash) = ledger.into_books();
        let holds = Contents {
            entries: entry_count,
            hand,
        };
        (device, register, cash, Slip::new(Some(holds)))
    }
}
