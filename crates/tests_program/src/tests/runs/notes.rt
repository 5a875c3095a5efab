//! What is said of a failed output where the system says why. Other notes are in `tests/program/cases`.

use crate::tests::asserts::assert_equal;
use hunk_run::Note;
use std::alloc::Global;
use std::io;
use std::process::Abort;
use std::test::Fail;

/// What is said, where the system says of standard output that a quota was exceeded.
fn said_with_quota(alloc: Global, note: Note) -> Result<String, Fail> {
    let quota = io::Error::from(io::ErrorKind::QuotaExceeded);
    let note = note.with_cause(Some(quota));
    Ok(format!(in alloc; "{note}")?)
}

#[test]
fn says_why_the_output_failed(rt: HostRuntime) -> Result<(), Fail> {
    let said = said_with_quota(rt.alloc(), Note::Output { cause: None })?;
    let want = "hunkinfo: standard output: quota exceeded\n";
    assert_equal(&rt, said.as_str(), want);
    let said = said_with_quota(rt.alloc(), Note::NotText)?;
    let want =
        "hunkinfo: a word of the command line is no UTF-8 text: give a file of such a name as standard \
        input, as in hunkinfo show < FILE\n";
    assert_equal(&rt, said.as_str(), want);
    Ok(())
}
