// The texts that people read. They were written by hand: no clause says them.
use crate::{Fault, Refusal};
use std::alloc::AllocError;

#[test]
fn a_fault_says_what_it_concerns(rt: HostRuntime) -> Result<(), AllocError> {
    let fault = Fault::plain(Refusal::WrongState).of_trade(7).of_record(3);
    let text = format!(in rt.alloc(); "{fault}")?;
    let expected = "47 of the journal: the rules refuse a record, entry 3, trade 7, \
        by rule 35: the trade's state does not allow it";
    assert_eq!(rt; text.as_str(), expected);

    let fault = Fault::at_block(Refusal::NoBlock, 9);
    let text = format!(in rt.alloc(); "{fault}")?;
    assert_eq!(rt;
        text.as_str(),
        "11 of the device: the device has no such block, block 9"
    );
    Ok(())
}
