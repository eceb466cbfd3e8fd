// The end of a depository: what it owes is filed.
ghost use Rattle.std.specs.Prelude.{◌≡◌};
ghost use Rattle.depository.specs.OwedSlip.{owed_contents};

use crate::condition::{Condition, Depository};
use book::Book;
use device::PoweredDevice;
use engine::Contents;

impl<D: PoweredDevice, R: Book, C: Book> Depository<D, R, C> {
    /// Gives back what the depository consists of, and what the slip tells that it still owed, if
    /// any. That slip is filed.
    pub fn finish(self) -> (Condition<D, R, C>, Option<Contents>)
        ensures condition { result.0 ≡ self.condition }
        ensures slip { result.1 ≡ owed_contents self.owed }
    {
        let slip = match self.owed {
            Some(slip) => slip.file(),
            None => None,
        };
        (self.condition, slip)
    }
}
