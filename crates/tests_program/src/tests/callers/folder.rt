//! Surveys of a folder, with files, and of texts.

use crate::tests::asserts::assert_equal;
use hunk_examples::{Collection, survey, survey_folder};
use std::fs;
use std::process::Abort;
use std::test::Fail;
use test_helpers::{examples, spelled};

/// Makes the first folder of `hunk-callers-test-0` and so on that is not there yet.
fn make_folder(rt: &HostRuntime) -> Result<String, Fail> {
    for number in 0..10_000u32 {
        let folder = format!(in rt.alloc(); "hunk-callers-test-{number}")?;
        if fs::create_dir(rt, &folder).is_ok() {
            return Ok(folder);
        }
    }
    Err("no folder can be made")?
}

/// The files of the folder: their names, and what is in them.
const FILES: &[(&str, &str)] = &[
    ("program", examples::WITH_A_SYMBOL),
    ("another", examples::TWO_HUNKS),
    ("part.o", examples::TWO_FINDINGS),
    ("cut", "3F3 0 1"),
];

/// What a folder with the files, and with a folder in it, has.
fn survey_of_files(rt: &HostRuntime, folder: &str) -> Result<Collection, Fail> {
    for (name, text) in FILES {
        let file = format!(in rt.alloc(); "{folder}/{name}")?;
        fs::write(rt, &file, spelled(rt.alloc(), text)?.as_slice())?;
    }
    fs::create_dir(rt, &format!(in rt.alloc(); "{folder}/empty")?)?;
    Ok(survey_folder(rt, folder)?)
}

/// Whether a folder that no run makes is surveyed.
fn surveys_none(rt: &HostRuntime, folder: &str) -> Result<bool, Fail> {
    let missing = format!(in rt.alloc(); "{folder}/missing")?;
    Ok(survey_folder(rt, &missing).is_ok())
}

/// A program of 4 bytes with a symbol, one of two hunks that declare 12 bytes, an object file with two findings, and
/// a file that is cut short.
#[test]
fn surveys_a_folder(rt: HostRuntime) -> Result<(), Fail> {
    let folder = make_folder(&rt)?;
    let found = survey_of_files(&rt, &folder);
    let removed = fs::remove_dir_all(&rt, &folder);
    let found = found?;
    removed?;
    assert_equal(
        &rt,
        (found.programs, found.segment_bytes, found.symbols),
        (2, 16, 1),
    );
    assert_equal(
        &rt,
        (found.objects, found.findings, found.refused),
        (1, 2, 1),
    );
    assert!(rt; !surveys_none(&rt, &folder)?);
    Ok(())
}

/// Example 1, and the front of its header.
const TEXTS: [&str; 2] = [
    "000003F3 00000000 00000001 00000000 00000000 00000001 000003E9 00000001 4E754E71 000003F2",
    "000003F3 00000000 00000001",
];

#[test]
fn surveys_texts(rt: HostRuntime) -> Result<(), Fail> {
    let found = survey(rt.alloc(), TEXTS.as_slice())?;
    let want = Collection {
        programs: 1,
        segment_bytes: 4,
        symbols: 0,
        objects: 0,
        findings: 0,
        refused: 1,
    };
    assert_equal(&rt, found, want);
    Ok(())
}
