// Opening: the header, then one entry after another until a mark is not good.
ghost use Rattle.std.specs.Prelude.{◌≡◌, ℕ, ◌+◌, ◌-◌, ◌*◌, ◌<◌, ◌≤◌, true, false, [], ◌∷◌, take, IfOk, None, Ok};
ghost use Rattle.rulebook.specs.Rules.{empty};
ghost use Rattle.ledger.specs.View.{rulebook_of, standing_of};
ghost use Rattle.engine.specs.Opening.{refused_view, view_by_header, opening_view};
ghost use Rattle.engine.specs.Recovery.{entry_answer, calls_spent, standing_after, scan, FollowsScan};
ghost use Rattle.engine.specs.Findings.{Opens, OpensIfEnoughCalls};
ghost use Rattle.device.specs.Calls.{SameBlocks};
ghost use Rattle.device.specs.Traces.{IsTrace};
ghost use Rattle.engine.specs.Tracing.{turn_reads, recovery_reads, view_reads, opening_calls};
ghost use Rattle.journal.specs.Journal.{mark_at, record_at};
ghost use Rattle.journal.specs.Entries.{after_reads, block_read, read_mark_answer, read_record_answer};
ghost use Rattle.journal.specs.Headers.{Fits, after_read_header, read_header_answer};
ghost use Rattle.engine.specs.View.{view};

use crate::engine::{Engine, FoundEntries, Mode};
use book::Book;
use device::Device;
use instruction::Instruction;
use journal::{MOST_PAIRS, read_header, read_mark, read_record};
use ledger::Ledger;
use refusals::Fault;

// Reads an entry and carries out its instruction. The answer is None where the mark is not good,
// which ends the list.
fn replay_entry<D: Device, R: Book, C: Book>(
    device: &mut D,
    ledger: &mut Ledger<R, C>,
    entry: u32,
) -> Result<Option<Instruction>, Fault>
    requires small { entry < MOST_PAIRS }
    requires within { mark_at entry < (D.medium device.old).size }
    ensures answer { result ≡ entry_answer (rulebook_of R.book_kind C.book_kind)
        (D.medium device.old) (standing_of ledger.old) entry }
    ensures after { D.medium device.new ≡ after_reads (calls_spent result) (D.medium device.old) }
    ensures trace { let left = (D.medium device.old).calls_left in
        IsTrace D.makes (take (left + 1) (turn_reads result entry)) device.old device.new }
    ensures books { standing_of ledger.new ≡ standing_after (standing_of ledger.old) result }
{
    if !read_mark(device, entry)? {
        return Ok(None);
    }
    let x = read_record(device, entry)?;
    ledger.instruct(&x).map_err(|fault| fault.of_record(entry))?;
    Ok(Some(x))
}

// Carries out the entries of a journal in order, up to the end of the list.
fn replay<D: Device, R: Book, C: Book>(
    device: &mut D,
    ledger: &mut Ledger<R, C>,
    pairs: u32,
) -> Result<FoundEntries, Fault>
    requires few { pairs ≤ MOST_PAIRS }
    requires within { 1 + 2 * pairs ≤ (D.medium device.old).size }
    ensures scanned { let h = rulebook_of R.book_kind C.book_kind in FollowsScan
        (scan h pairs (D.medium device.old) 0 (standing_of ledger.old) None)
        (D.medium device.old) (D.medium device.new) (standing_of ledger.new) result }
    ensures within { IfOk result (λ found. found.count ≤ pairs) }
    ensures trace { let left = (D.medium device.old).calls_left in
        IsTrace D.makes (take (left + 1) (recovery_reads result pairs)) device.old device.new }
{
    let mut done: u32 = 0;
    let mut last = None;
    // The list ends where a mark is not good, or after the last pair.
    let count = loop {
        if done >= pairs {
            break done;
        }
        let Some(x) = replay_entry(device, ledger, done)? else {
            break done;
        };
        last = Some(x);
        done += 1;
    };
    Ok(FoundEntries { count, last })
}

impl<D: Device, R: Book, C: Book> Engine<D, R, C> {
    /// Opens the journal on a device, for these two books: it reads the header, then each entry's
    /// mark and record, and carries out the instructions. It makes no other calls than reads.
    ///
    /// It always gives an engine. Where the opening is refused, `opening` tells the fault, and
    /// books and trades are cleared:
    ///
    /// - 11, 13, 14, 43, 44 or 45: the header could not be read, or does not fit the books and
    ///   the device (`journal::read_header` says which is which).
    /// - 13, 14 or 46, with the entry: a mark or a record could not be read
    ///   (`journal::read_mark`, `journal::read_record`).
    /// - 47, with the entry and the rule's number: the rules refuse the instruction of a record.
    pub fn open(mut device: D, register: R, cash: C) -> Self
        ensures opened { view D.medium result
            ≡ opening_view (rulebook_of R.book_kind C.book_kind) (D.medium device) }
        ensures found { let v = view D.medium result in
            Opens (rulebook_of R.book_kind C.book_kind) (D.medium device) v v.mode }
        ensures prompt { OpensIfEnoughCalls (rulebook_of R.book_kind C.book_kind)
            (D.medium device) (view D.medium result).mode }
        ensures kept { SameBlocks (D.medium device) (D.medium result.device) }
        ensures trace { let h = rulebook_of R.book_kind C.book_kind in
            IsTrace D.makes (opening_calls h (D.medium device)) device result.device }
    {
        let register_kind = register.kind();
        let cash_kind = cash.kind();
        let ledger = Ledger::new(register, cash);
        match read_header(&mut device, register_kind, cash_kind) {
            Ok(pairs) => Engine::from_entries(device, ledger, pairs),
            Err(fault) => Engine::from_refusal(device, ledger, fault),
        }
    }

    // The engine that the entries of a journal with so many pairs lead to.
    fn from_entries(mut device: D, mut ledger: Ledger<R, C>, pairs: u32) -> Self
        requires fits { Fits pairs (D.medium device) }
        requires empty { standing_of ledger ≡ empty }
        ensures opened { view D.medium result
            ≡ view_by_header (rulebook_of R.book_kind C.book_kind) (D.medium device) (Ok pairs) }
        ensures trace { let left = (D.medium device).calls_left in let v = view D.medium result in
            IsTrace D.makes (take (left + 1) (view_reads v.mode v)) device result.device }
    {
        let found = match replay(&mut device, &mut ledger, pairs) {
            Ok(found) => found,
            Err(fault) => return Engine::from_refusal(device, ledger, fault),
        };
        Engine {
            device,
            ledger,
            mode: Mode::Open,
            pairs,
            found,
            entry_count: found.count,
        }
    }

    // The engine of a refused opening: books and trades are cleared again.
    fn from_refusal(device: D, mut ledger: Ledger<R, C>, fault: Fault) -> Self
        ensures refused { view D.medium result ≡ refused_view fault (D.medium device) }
        ensures device { result.device ≡ device }
    {
        ledger.clear();
        Engine {
            device,
            ledger,
            mode: Mode::Refused(fault),
            pairs: 0,
            found: FoundEntries::default(),
            entry_count: 0,
        }
    }
}
