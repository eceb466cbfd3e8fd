// A depository from its format on.
ghost use Rattle.std.specs.Prelude.{◌≡◌, ◌+◌, ◌<◌, ◌≤◌, MatchResult, OnErr, [], Err, None, length, map, vec_len, vec_capacity, alloc_error};
ghost use Rattle.ledger.specs.View.{rulebook_of, both_sides};
ghost use Rattle.depository.specs.Orders.{order};
ghost use Rattle.depository.specs.Moments.{shut, moment_in, moment_of};
ghost use Rattle.depository.specs.DeviceUse.{device_of};
ghost use Rattle.depository.specs.Paths.{Path};
ghost use Rattle.depository.specs.declared.stop.Stop.TheVariants.{NoMemory};
ghost use Rattle.depository.specs.Survival.{FormatLeaves, Survives, GivesNoCalls};

use crate::calls::{Call, Reply};
use crate::condition::{Condition, Depository};
use crate::stop::Stop;
use book::Book;
use device::{Device, PoweredDevice};
use journal::format;
use refusals::Fault;

impl<D: PoweredDevice, R: Book, C: Book> Depository<D, R, C> {
    // A depository in which no engine runs, and which owes no slip.
    fn new(device: D, register: R, cash: C) -> Self
        ensures moment { moment_of result
            ≡ moment_in
            (shut (D.Device.medium device) (both_sides (R.holdings register) (C.holdings cash)))
            None }
        ensures device { device_of result.condition ≡ device }
    {
        Depository {
            condition: Condition::Shut(device, register, cash),
            owed: None,
        }
    }

    // Gives the calls in order. There is room for their answers.
    //
    // A call that moves neither device nor books is carried out in place: a depository is large,
    // and moving it takes longer than most instructions do.
    fn run(self, calls: &[Call<'_>], replies: &mut Vec<Reply>) -> Self
        requires room { vec_len replies.old + length calls.now ≤ vec_capacity replies.old }
        requires none { replies.old.items ≡ [] }
        ensures path { Path D.makes D.Device.medium
            (rulebook_of R.book_kind C.book_kind) D.PoweredDevice.most_calls
            (moment_of self) (device_of self.condition) (map order calls.now) replies.new.items
            (moment_of result) (device_of result.condition) }
        ensures room { vec_capacity replies.new ≡ vec_capacity replies.old }
    {
        let mut depository = self;
        for call in calls {
            let reply = match call {
                Call::Instruct(x) => depository.instruct(*x),
                Call::Close => {
                    let (shut, reply) = depository.close();
                    depository = shut;
                    reply
                }
                Call::Restart {
                    calls_left,
                    remains,
                } => depository.restart(*calls_left, remains),
                Call::Open => {
                    let (running, reply) = depository.open();
                    depository = running;
                    reply
                }
                Call::Ask(question) => depository.ask(question),
            };
            replies.push_reserved(reply);
        }
        depository
    }
}

// Formats a device for books of these kinds.
fn format_for<D: Device, R: Book, C: Book>(
    device: &mut D,
    pairs: u32,
    register: &R,
    cash: &C,
) -> Result<(), Fault>
    ensures { FormatLeaves D.makes D.medium (rulebook_of R.book_kind C.book_kind) pairs
        device.old result device.new }
{
    format(device, pairs, register.kind(), cash.kind())
}

/// Formats a device for these two books, with so many pairs (1 to 32,767) in its journal, and
/// gives the depository the calls, one after another.
///
/// `replies` is emptied first, and then holds the answer to each call, in order. The depository
/// comes back whatever happens; the caller ends it with `Depository::finish`.
///
/// The clause `served` is the law of survival, and says what is left where no call was given.
///
/// # Errors
///
/// - `Stop::ByFault` if the format is refused: with 61 if there is no room for so many pairs, or
///   with 13 if the device has too few calls left.
/// - `Stop::NoMemory` if memory ran out for the answers. It cannot come if `replies` has the
///   capacity for them already.
pub fn serve<D: PoweredDevice, R: Book, C: Book>(
    mut device: D,
    pairs: u32,
    register: R,
    cash: C,
    calls: &[Call<'_>],
    replies: &mut Vec<Reply>,
) -> (Depository<D, R, C>, Result<(), Stop>)
    ensures served { let h = rulebook_of R.book_kind C.book_kind in
        let books = both_sides (R.holdings register) (C.holdings cash) in
        MatchResult result.1
        (λ _. Survives D.makes D.Device.medium h D.PoweredDevice.most_calls pairs device books
        (map order calls.now) replies.new.items
        (moment_of result.0) (device_of result.0.condition))
        (λ stop. GivesNoCalls D.makes D.Device.medium h pairs device books stop
        (moment_of result.0) (device_of result.0.condition)) }
    ensures memory { result.1 ≡ Err (NoMemory alloc_error)
        → vec_capacity replies.old < length calls.now }
    ensures no_replies { OnErr result.1 (replies.new.items ≡ []) }
    ensures lent { vec_capacity replies.old ≤ vec_capacity replies.new }
{
    replies.clear();
    if let Err(error) = replies.reserve(calls.len()) {
        return (
            Depository::new(device, register, cash),
            Err(Stop::NoMemory(error)),
        );
    }
    let formatted = format_for(&mut device, pairs, &register, &cash);
    let depository = Depository::new(device, register, cash);
    if let Err(fault) = formatted {
        return (depository, Err(Stop::ByFault(fault)));
    }
    let depository = depository.run(calls, replies);
    (depository, Ok(()))
}
