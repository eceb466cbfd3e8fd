// Images to make devices from.
ghost use Rattle.std.specs.Prelude.{◌≡◌, ℕ, true, List, ◌++◌, is_ok, IfOk};
ghost use Rattle.std.specs.List.{flat_map};
ghost use Rattle.check_drill.specs.Pictures.{half, simulated_row, battery_row};

use battery::Battery;
use device::{BLOCK_SIZE, PoweredDevice};
use simulated::Simulated;
use std::alloc::{AllocError, Global};

/// A block in an image. Its kept bytes are all alike, and so are its newer ones, which only a
/// simulated device has.
#[derive(Clone, Copy)]
pub struct Row {
    /// 0 if the block is readable.
    pub flag: u8,
    /// Each kept byte.
    pub kept: u8,
    /// 0 if the block is not loose.
    pub loose: u8,
    /// Each newer byte.
    pub newer: u8,
}

/// The blocks at the start: two that are not loose, and six that are in a simulated device.
pub static ROWS: [Row; 8] = [
    Row {
        flag: 0,
        kept: 10,
        loose: 0,
        newer: 110,
    },
    Row {
        flag: 1,
        kept: 11,
        loose: 0,
        newer: 111,
    },
    Row {
        flag: 0,
        kept: 12,
        loose: 1,
        newer: 112,
    },
    Row {
        flag: 9,
        kept: 13,
        loose: 1,
        newer: 113,
    },
    Row {
        flag: 0,
        kept: 14,
        loose: 7,
        newer: 114,
    },
    Row {
        flag: 0,
        kept: 15,
        loose: 1,
        newer: 115,
    },
    Row {
        flag: 1,
        kept: 16,
        loose: 1,
        newer: 116,
    },
    Row {
        flag: 0,
        kept: 17,
        loose: 255,
        newer: 117,
    },
];

/// Bytes past the last whole row.
pub static TAIL: [u8; 3] = [7, 8, 9];

// Adds a flag and a block's bytes, all alike.
fn add_half(image: &mut Vec<u8>, flag: u8, byte: u8) -> Result<(), AllocError>
    ensures { is_ok result ≡ true → image.new.items ≡ image.old.items ++ half flag byte }
{
    image.push(flag)?;
    image.extend_from_slice(&[byte; BLOCK_SIZE])
}

// A kind of device: its name, what of a row its image holds, and how it is made of an image and
// gives it back.
pub(crate) trait DeviceKind: PoweredDevice + Drop {
    ghost use Rattle.check_drill.specs.declared.pictures.Row.{Row};

    // the bytes of a row in an image of this kind
    ghost image_row: { Row → List ℕ };

    // the bytes of the image that a device is made from
    ghost image_of: { Self → List ℕ };

    const NAME: &'static str;

    // Adds to an image what it holds of a row.
    fn add_row(image: &mut Vec<u8>, row: Row) -> Result<(), AllocError>
        ensures { is_ok result ≡ true → image.new.items ≡ image.old.items ++ image_row row };

    // A device over the image, with no calls.
    fn of_image(image: Vec<u8>) -> Self
        ensures image { image_of result ≡ image.items }
        ensures calls_left { (Self.Device.medium result).calls_left ≡ 0 };

    fn back_to_image(self) -> Vec<u8>
        ensures { result.items ≡ image_of self };
}

impl DeviceKind for Simulated {
    ghost use Rattle.simulated.specs.Meaning.{image_of};

    ghost image_row = { simulated_row };

    ghost image_of = { image_of };

    const NAME: &'static str = "simulated";

    fn add_row(image: &mut Vec<u8>, row: Row) -> Result<(), AllocError> {
        add_half(image, row.flag, row.kept)?;
        add_half(image, row.loose, row.newer)
    }

    fn of_image(image: Vec<u8>) -> Simulated {
        Simulated::new(image, 0)
    }

    fn back_to_image(self) -> Vec<u8> {
        self.into_image()
    }
}

impl DeviceKind for Battery {
    ghost use Rattle.battery.specs.Meaning.{image_of};

    ghost image_row = { battery_row };

    ghost image_of = { image_of };

    const NAME: &'static str = "battery";

    fn add_row(image: &mut Vec<u8>, row: Row) -> Result<(), AllocError> {
        add_half(image, row.flag, row.kept)
    }

    fn of_image(image: Vec<u8>) -> Battery {
        Battery::new(image, 0)
    }

    fn back_to_image(self) -> Vec<u8> {
        self.into_image()
    }
}

// The image of a device of this kind with these blocks.
pub(crate) fn image_with<K: DeviceKind>(heap: Global, rows: &[Row]) -> Result<Vec<u8>, AllocError>
    ensures { IfOk result (λ v. v.items ≡ flat_map K.image_row rows.now) }
{
    let mut image = Vec::new(heap);
    for row in rows {
        K::add_row(&mut image, *row)?;
    }
    Ok(image)
}
