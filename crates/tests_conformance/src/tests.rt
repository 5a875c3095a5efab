//! The answers of the suite, and what the loader and the decoder of whole files have to agree in.

mod asserts;
mod changes;
mod cuts;
mod images;
mod objects;
mod readings;
mod whole;
mod wide;
mod writes;

use crate::tests::asserts::assert_equal;
use std::process::Abort;

/// Sees that a row of the suite has this text, which has two digits for each of the bytes.
fn expect_text(rt: &impl Abort, row: &str, text: &str, bytes: &[u8]) {
    assert_equal(rt, row, text);
    assert_equal(rt, 2 * bytes.len(), text.len());
}
