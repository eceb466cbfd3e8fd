// What a depository consists of.
ghost use Rattle.depository.specs.OwedSlip.{IsNoneOrKnown};

use book::Book;
use device::{Device, PoweredDevice};
use engine::{Engine, Slip};

/// A device and its two books, with or without an engine over them.
#[derive(Drop)]
pub enum Condition<D: PoweredDevice, R: Book, C: Book> {
    /// An engine runs over them.
    Running(Engine<D, R, C>),
    /// No engine runs: the device, the register and the cash book.
    Shut(D, R, C),
}

/// A device that is restarted after cuts of the power, with its two books, which stay the same.
/// `serve` formats the device and makes the depository.
///
/// It owes the last known slip until an engine judges it, and cannot be dropped while it
/// owes one: `finish` files it.
#[derive(Drop)]
pub struct Depository<D: PoweredDevice, R: Book, C: Book> {
    pub(crate) condition: Condition<D, R, C>,
    pub(crate) owed: Option<Slip>,
    ghost owes_known: { IsNoneOrKnown owed },
}
