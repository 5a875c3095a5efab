//! Texts of faults: each can be displayed.

use crate::tests::asserts::assert_equal;
use hunk_words::{Failed, Fault, Reason, WriteFault};
use std::test::Fail;

#[test]
fn texts(rt: HostRuntime) -> Result<(), Fail> {
    let (place, reason) = (52, Reason::BadOffset);
    let fault = Fault { place, reason };
    let text = format!(in rt.alloc(); "{fault}: {}", fault.class())?;
    let want = "refused at byte 52: BadOffset (24): damaged";
    assert_equal(&rt, text.as_str(), want);
    let (place, reason) = (56, Reason::NoBase(1));
    let text = format!(in rt.alloc(); "{}; {reason}", Fault { place, reason })?;
    let want = "refused at byte 56: NoBase (29) hunk 1; NoBase (29) hunk 1";
    assert_equal(&rt, text.as_str(), want);
    let text = format!(in rt.alloc(); "{}, {Failed}", WriteFault { written: 6 })?;
    let want = "writing failed after 6 bytes, reading or writing failed";
    assert_equal(&rt, text.as_str(), want);
    Ok(())
}
