// The work: a device is made of a copy of the image, calls are given to it and to two fresh books,
// and the image that it gives back is copied out.
ghost use Rattle.std.specs.Prelude.{◌≡◌, true};
ghost use Rattle.bench_library.specs.Statuses.{status_number, status_of, are_books, is_listed, CarriesOut};

use crate::kinds::{BookKind, DeviceKind};
use crate::rows::{AnswerRow, CallRow, Setup};
use crate::session::Session;
use crate::timing::{Timing, time};
use balances::Balances;
use battery::Battery;
use lots::Lots;
use simulated::Simulated;
use std::alloc::{AllocError, Global};

// Calls to carry out, or what is to be timed.
#[derive(Clone, Copy)]
pub(crate) enum Work<'a> {
    Calls(&'a [CallRow]),
    Timing(&'a Timing),
}

// Why the work was not done.
#[derive(Clone, Copy)]
pub(crate) enum Status {
    // Memory for the copy of the image ran out.
    NoMemory = 1,
    // There is no such kind of device or book.
    Unlisted = 2,
    // The device gives back an image of another length.
    OtherLength = 3,
}

impl Status {
    pub(crate) fn number(self) -> u8
        ensures { result ≡ status_number self }
    {
        self as u8
    }
}

impl From<AllocError> for Status {
    ghost use Rattle.bench_library.specs.declared.work.Status.TheVariants.{NoMemory};

    ghost from_gives = { λ error status. status ≡ NoMemory };

    fn from(_: AllocError) -> Status {
        Status::NoMemory
    }
}

fn do_work<D: DeviceKind, R: BookKind, C: BookKind>(
    device: D,
    work: Work<'_>,
    data: &mut [u8],
    answers: &mut [AnswerRow],
) -> (D, u64) {
    let parts = (device, R::fresh(), C::fresh());
    let (parts, count) = match work {
        Work::Timing(timing) => time(parts, timing),
        Work::Calls(calls) => {
            let (device, register, cash) = parts;
            let session = Session::new(device, register, cash);
            (session.run(calls, data, answers).finish(), 0)
        }
    };
    let (device, _, _) = parts;
    (device, count)
}

fn on_image<D: DeviceKind, R: BookKind, C: BookKind>(
    setup: &Setup,
    image: &mut [u8],
    work: Work<'_>,
    data: &mut [u8],
    answers: &mut [AnswerRow],
    heap: Global,
) -> Result<u64, Status>
    ensures { CarriesOut true image.old image.new «data».old «data».new answers.old answers.new
        (status_of result) }
{
    let mut copy = Vec::new(heap);
    copy.extend_from_slice(image)?;
    let device = D::of_image(copy, setup.calls_left);
    let (device, count) = do_work::<D, R, C>(device, work, data, answers);
    let after = device.image();
    if after.len() != image.len() {
        return Err(Status::OtherLength);
    }
    image.copy_from_slice(after.as_slice());
    Ok(count)
}

fn on_device<D: DeviceKind>(
    setup: &Setup,
    image: &mut [u8],
    work: Work<'_>,
    data: &mut [u8],
    answers: &mut [AnswerRow],
    heap: Global,
) -> Result<u64, Status>
    ensures { CarriesOut (are_books setup.now.register setup.now.cash)
        image.old image.new «data».old «data».new answers.old answers.new (status_of result) }
{
    match (setup.register, setup.cash) {
        (1, 1) => on_image::<D, Balances, Balances>(setup, image, work, data, answers, heap),
        (1, 2) => on_image::<D, Balances, Lots>(setup, image, work, data, answers, heap),
        (2, 1) => on_image::<D, Lots, Balances>(setup, image, work, data, answers, heap),
        (2, 2) => on_image::<D, Lots, Lots>(setup, image, work, data, answers, heap),
        _ => Err(Status::Unlisted),
    }
}

pub(crate) fn carry_out(
    setup: &Setup,
    image: &mut [u8],
    work: Work<'_>,
    data: &mut [u8],
    answers: &mut [AnswerRow],
    heap: Global,
) -> Result<u64, Status>
    ensures { CarriesOut (is_listed setup.now)
        image.old image.new «data».old «data».new answers.old answers.new (status_of result) }
{
    match setup.device {
        0 => on_device::<Simulated>(setup, image, work, data, answers, heap),
        1 => on_device::<Battery>(setup, image, work, data, answers, heap),
        _ => Err(Status::Unlisted),
    }
}
