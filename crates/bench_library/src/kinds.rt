// The kinds of device and of book that a caller may ask for.
ghost use Rattle.std.specs.Prelude.{◌≡◌, ℕ, List};
ghost use Rattle.book.specs.Holdings.{nothing};

use balances::Balances;
use battery::Battery;
use book::Book;
use device::PoweredDevice;
use lots::Lots;
use simulated::Simulated;

// A kind of device, which is made of an image and gives it back.
pub(crate) trait DeviceKind: PoweredDevice {
    // the bytes of the image that a device is made from
    ghost image_of: { Self → List ℕ };

    fn of_image(image: Vec<u8>, calls_left: u32) -> Self
        ensures image { image_of result ≡ image.items }
        ensures calls_left { (Self.Device.medium result).calls_left ≡ calls_left };

    fn image(self) -> Vec<u8>
        ensures { result.items ≡ image_of self };
}

impl DeviceKind for Simulated {
    ghost use Rattle.simulated.specs.Meaning.{image_of};

    ghost image_of = { image_of };

    fn of_image(image: Vec<u8>, calls_left: u32) -> Simulated {
        Simulated::new(image, calls_left)
    }

    fn image(self) -> Vec<u8> {
        self.into_image()
    }
}

impl DeviceKind for Battery {
    ghost use Rattle.battery.specs.Meaning.{image_of};

    ghost image_of = { image_of };

    fn of_image(image: Vec<u8>, calls_left: u32) -> Battery {
        Battery::new(image, calls_left)
    }

    fn image(self) -> Vec<u8> {
        self.into_image()
    }
}

// A kind of book.
pub(crate) trait BookKind: Book + Drop {
    // A book in which no account has anything.
    fn fresh() -> Self
        ensures { Self.Book.holdings result ≡ nothing };
}

impl BookKind for Balances {
    fn fresh() -> Balances {
        Balances::new()
    }
}

impl BookKind for Lots {
    fn fresh() -> Lots {
        Lots::new()
    }
}
