// Every cut: the calls of its case, the expected replies, and where the replies differ.
use crate::case::Case;
use crate::kinds::{DeviceKind, ENOUGH_CALLS, PAIRS, RegisterKind};
use crate::settlement::{TRADE, first_five, last_three, pay_in, rows};
use balances::Balances;
use depository::{Call, Reply, serve};
use engine::Verdict;
use refusals::{Fault, Refusal};
use std::alloc::{AllocError, Global};
use std::cmp::Ordering;
use std::io;

// How many calls of the device are left to the last three instructions, and the byte of remains
// that each loose block takes at the restart after them.
#[derive(Clone, Copy, Debug)]
struct CutPoint {
    calls_left: u8,
    remains: u8,
}

// An instruction takes four calls: its record and its mark, with a sync after each.
const ENTRY_CALLS: u8 = 4;

// The last three take 12.
const LAST_CALLS: u8 = 12;

// An opening that finds five entries takes 12 calls: the header, five marks with their records,
// and the sixth mark.
const OPENING_CALLS: u32 = 12;

// The fault of an instruction whose entry is cut after so many of its four calls. The record of
// entry k is block 1 + 2k, and its mark is the block after that. A sync names no block.
fn cut_fault(entry: u32, calls_made: u8, trade: Option<u32>) -> Fault {
    let record = entry.saturating_mul(2).saturating_add(1);
    let block = match calls_made {
        0 => Some(record),
        2 => Some(record.saturating_add(1)),
        _ => None,
    };
    Fault {
        block,
        entry: Some(entry),
        trade,
        ..Fault::plain(Refusal::NoCalls)
    }
}

// What the instruction at this place of the last three is answered. Only the first, the Settle,
// names a trade. The five before them have the entries 0 to 4.
fn answer_at(calls_left: u8, place: u8) -> Result<(), Fault> {
    match place.cmp(&(calls_left / ENTRY_CALLS)) {
        Ordering::Less => Ok(()),
        Ordering::Equal => {
            let trade = if place == 0 { Some(TRADE) } else { None };
            Err(cut_fault(5 + u32::from(place), calls_left % ENTRY_CALLS, trade))
        }
        Ordering::Greater => Err(Refusal::EngineDown.into()),
    }
}

// Whether the instruction in hand stands: it can if its mark was written and not synced.
fn hand_stands<D: DeviceKind>(cut: CutPoint) -> bool {
    cut.calls_left < LAST_CALLS && cut.calls_left % ENTRY_CALLS == 3 && D::keeps_mark(cut.remains)
}

// Five instructions and a cut of the power, and three more with so many calls left.
fn add_settlement(case: &mut Case<'_>, quantity: u64, calls_left: u8) -> Result<(), AllocError> {
    case.open(0, None)?;
    for x in first_five(quantity) {
        case.instruct(x, Ok(()))?;
    }
    case.cut_power(OPENING_CALLS + u32::from(calls_left), &[])?;
    case.open(5, Some(Verdict::Same))?;
    let [settle, issue, pay] = last_three(quantity);
    case.instruct(settle, answer_at(calls_left, 0))?;
    case.instruct(issue, answer_at(calls_left, 1))?;
    case.instruct(pay, answer_at(calls_left, 2))
}

// One more instruction, and another cut. The instruction takes the next entry, whatever is left
// there of the one that was cut; there is no entry after the eighth.
fn add_one_more(case: &mut Case<'_>, standing: u8) -> Result<(), AllocError> {
    if standing < 3 {
        case.instruct(pay_in(1), Ok(()))?;
        case.cut_power(ENOUGH_CALLS, &[])?;
        case.open(6 + u32::from(standing), Some(Verdict::Same))
    } else {
        case.instruct(pay_in(1), Err(Refusal::JournalFull.into()))?;
        case.cut_power(ENOUGH_CALLS, &[])?;
        case.open(8, Some(Verdict::Same))
    }
}

// The whole case of one cut: the settlement, the cut, what stands then, and one more instruction.
fn case_of<'a, D: DeviceKind>(
    heap: Global,
    quantity: u64,
    cut: CutPoint,
    remains: &'a [u8],
) -> Result<Case<'a>, AllocError> {
    let stands = hand_stands::<D>(cut);
    let standing = cut.calls_left / ENTRY_CALLS + u8::from(stands);
    let verdict = if stands {
        Verdict::Stands
    } else {
        Verdict::Same
    };
    let mut case = Case::new(heap);
    add_settlement(&mut case, quantity, cut.calls_left)?;
    case.cut_power(ENOUGH_CALLS, remains)?;
    case.open(5 + u32::from(standing), Some(verdict))?;
    for row in rows(quantity) {
        case.add(Call::Ask(row.question), row.reply(standing))?;
    }
    add_one_more(&mut case, standing)?;
    Ok(case)
}

// Prints each reply that is not as expected, and answers whether there was none.
fn compare(
    rt: &HostRuntime,
    cut: CutPoint,
    replies: &[Reply],
    expected: &[Reply],
) -> io::Result<bool> {
    let mut same = true;
    for (place, (reply, wanted)) in replies.iter().zip(expected).enumerate() {
        if reply != wanted {
            println!(rt; "  {cut:?}: call {place} was answered {reply:?}, not {wanted:?}")?;
            same = false;
        }
    }
    if replies.len() != expected.len() {
        println!(rt; "  {cut:?}: another number of replies")?;
        same = false;
    }
    Ok(same)
}

// Carries a case out, and answers whether all is as expected.
fn check<D: DeviceKind, R: RegisterKind>(rt: &HostRuntime, cut: CutPoint) -> io::Result<bool> {
    let image = vec![in rt.alloc(); 0u8; D::IMAGE_LEN]?;
    let remains = [cut.remains; 8];
    let case = case_of::<D>(rt.alloc(), R::QUANTITY, cut, &remains)?;
    let calls = case.calls.as_slice();
    let mut replies = Vec::with_capacity(rt.alloc(), calls.len())?;
    let (depository, served) = serve(
        D::over(image),
        PAIRS,
        R::empty(),
        Balances::new(),
        calls,
        &mut replies,
    );
    let (_, owed) = depository.finish();
    if let Err(stop) = served {
        println!(rt; "  {cut:?}: {stop}")?;
        return Ok(false);
    }
    let same = compare(rt, cut, &replies, &case.expected)?;
    if owed.is_some() {
        println!(rt; "  {cut:?}: a slip is still owed")?;
    }
    Ok(same && owed.is_none())
}

// Every cut of one kind of device and of register.
pub(crate) fn check_all<D: DeviceKind, R: RegisterKind>(rt: &HostRuntime) -> io::Result<()> {
    let mut cases = 0u32;
    let mut differing = 0u32;
    for calls_left in 0..=LAST_CALLS {
        for remains in 0..=u8::MAX {
            let cut = CutPoint {
                calls_left,
                remains,
            };
            let same = check::<D, R>(rt, cut)?;
            cases = cases.saturating_add(1);
            differing = differing.saturating_add(u32::from(!same));
        }
    }
    println!(rt;
        "{}, {}: {cases} cases, {differing} differ",
        D::NAME,
        R::NAME
    )
}
