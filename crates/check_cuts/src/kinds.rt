// The kinds of device and of register that are put to every cut.
use balances::Balances;
use battery::Battery;
use book::Book;
use device::{BLOCK_SIZE, PoweredDevice};
use lots::Lots;
use simulated::Simulated;

// As many pairs as the settlement has instructions.
pub(crate) const PAIRS: u32 = 8;

// The blocks of a journal of so many pairs: a header, and a record and a mark for each.
const BLOCKS: usize = 17;

// More calls than a case makes of its device.
pub(crate) const ENOUGH_CALLS: u32 = 1_000;

pub(crate) trait DeviceKind: PoweredDevice + Drop {
    const NAME: &'static str;

    // How many bytes an image of so many blocks has.
    const IMAGE_LEN: usize;

    // A device over the image, with calls enough.
    fn over(image: Vec<u8>) -> Self;

    // Whether a mark is good after a restart with this byte of remains, if it was written over
    // zeros and not synced.
    fn keeps_mark(remains: u8) -> bool;
}

impl DeviceKind for Simulated {
    const NAME: &'static str = "simulated";

    const IMAGE_LEN: usize = BLOCKS * 2 * (1 + BLOCK_SIZE);

    fn over(image: Vec<u8>) -> Simulated {
        Simulated::new(image, ENOUGH_CALLS)
    }

    // 1 takes the newer bytes, and 3 the first 128 of them: the rest of a mark is zeros, as the
    // block was before.
    fn keeps_mark(remains: u8) -> bool {
        matches!(remains, 1 | 3)
    }
}

impl DeviceKind for Battery {
    const NAME: &'static str = "battery";

    const IMAGE_LEN: usize = BLOCKS * (1 + BLOCK_SIZE);

    fn over(image: Vec<u8>) -> Battery {
        Battery::new(image, ENOUGH_CALLS)
    }

    // Nothing is ever loose: what was written stays.
    fn keeps_mark(_remains: u8) -> bool {
        true
    }
}

pub(crate) trait RegisterKind: Book + Drop {
    const NAME: &'static str;

    // How much of an item is settled.
    const QUANTITY: u64;

    fn empty() -> Self;
}

impl RegisterKind for Balances {
    const NAME: &'static str = "balances";

    const QUANTITY: u64 = 100;

    fn empty() -> Balances {
        Balances::new()
    }
}

impl RegisterKind for Lots {
    const NAME: &'static str = "lots";

    const QUANTITY: u64 = 1;

    fn empty() -> Lots {
        Lots::new()
    }
}
