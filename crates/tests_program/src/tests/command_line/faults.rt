//! The order of no word at all, and the lines of what is no order.

use crate::tests::asserts::assert_equal;
use hunk_command_line::{Order, OrderFault, VERSION_LINE, order};
use std::alloc::{AllocError, Global};
use std::process::Abort;
use std::test::Fail;

/// Whether the order is to relocate text from standard input to 0, within the default budget.
fn is_default(asked: &Result<Order, OrderFault>) -> bool {
    matches!(
        asked,
        Ok(Order::Relocate {
            hex: true,
            wide: false,
            base: 0,
            budget: 16_777_216,
            file: None
        })
    )
}

/// Not even the program's name, which the system puts in front of the words.
#[test]
fn no_word_at_all(rt: HostRuntime) {
    assert!(rt; is_default(&order(rt.alloc(), &[])));
}

/// Sees that the fault is displayed as this text.
fn expect(
    rt: &impl Abort,
    alloc: Global,
    fault: &OrderFault,
    want: &str,
) -> Result<(), AllocError> {
    let got = format!(in alloc; "{fault}")?;
    assert_equal(rt, got.as_str(), want);
    Ok(())
}

#[test]
fn faults_are_shown(rt: HostRuntime) -> Result<(), Fail> {
    let alloc = rt.alloc();
    let help = OrderFault::Help(String::from_str(alloc, "a help\n")?);
    expect(&rt, alloc, &help, "a help\n")?;
    let line = OrderFault::Line(String::new(alloc));
    expect(&rt, alloc, &line, "command line refused")?;
    expect(&rt, alloc, &OrderFault::NotText, "command line refused")?;
    expect(&rt, alloc, &OrderFault::Version, VERSION_LINE)?;
    expect(&rt, alloc, &OrderFault::Memory, "out of memory")?;
    Ok(())
}
