// The slips of a depository: the last known one is owed, and the others are filed.
ghost use Rattle.std.specs.Prelude.{◌≡◌};
ghost use Rattle.engine.specs.View.{view};
ghost use Rattle.engine.specs.ClosingSlip.{contents};
ghost use Rattle.depository.specs.OwedSlip.{owed_contents, newest_known, IsNoneOrKnown};
ghost use Rattle.depository.specs.Calling.{slip_answer, owed_after_open};

use book::Book;
use device::Device;
use engine::{Engine, Slip, Verdict};
use refusals::Refusal;

// The slip that is owed after a close gave one more.
pub(crate) fn newest_known(before: Option<Slip>, given: Slip) -> Option<Slip>
    requires { IsNoneOrKnown before }
    ensures value { owed_contents result ≡ newest_known (contents given) (owed_contents before) }
    ensures known { IsNoneOrKnown result }
{
    if !given.is_known() {
        let _ = given.file();
        return before;
    }
    if let Some(old) = before {
        let _ = old.file();
    }
    Some(given)
}

// Presents the slip that is owed, if there is one. The second result is what is owed then: an
// engine whose opening was refused gives the slip back.
pub(crate) fn present_owed<D: Device, R: Book, C: Book>(
    engine: &Engine<D, R, C>,
    owed: Option<Slip>,
) -> (Option<Result<Verdict, Refusal>>, Option<Slip>)
    requires { IsNoneOrKnown owed }
    ensures answer { let v = view D.medium engine.now in
        result.0 ≡ slip_answer v.mode v.found v.last_found (owed_contents owed) }
    ensures owed { owed_contents result.1
        ≡ owed_after_open (view D.medium engine.now).mode (owed_contents owed) }
    ensures known { IsNoneOrKnown result.1 }
{
    let Some(slip) = owed else {
        return (None, None);
    };
    match engine.present(slip) {
        Ok(verdict) => (Some(Ok(verdict)), None),
        Err((refusal, slip)) => (Some(Err(refusal)), Some(slip)),
    }
}
