//! Each object file, and each front of it that is one, checked and written again.

use crate::tests::asserts::{assert_equal, assert_equal_at};
use crate::tests::expect_text;
use hunk_files::{ObjectFile, ObjectView};
use hunk_vectors::{OBJECT_TEXTS, OBJECTS, ObjectVector, ObjectWant, object_bytes};
use hunk_words::{FromWrite, LongWriter};
use std::alloc::Global;
use std::process::Abort;
use std::test::Fail;

fn answer(alloc: Global, bytes: &[u8]) -> Result<ObjectWant, Fail> {
    match ObjectFile::decode(alloc, bytes) {
        Ok(file) => Ok(ObjectWant::Accepted {
            units: file.units().len() as u64,
            findings: file.check(alloc)?.len() as u64,
        }),
        Err(fault) => Ok(ObjectWant::Refused {
            place: fault.place,
            number: fault.reason.number(),
        }),
    }
}

/// Whether the bytes are no object file, or are written again as they are.
fn is_written_again(alloc: Global, bytes: &[u8]) -> bool {
    let Ok(file) = ObjectFile::decode(alloc, bytes) else {
        return true;
    };
    let mut writer = LongWriter::new(FromWrite::new(Vec::new(alloc)));
    file.encode(&mut writer).is_ok() && writer.into_inner().into_inner().as_slice() == bytes
}

/// Whether the view of the bytes answers what is wanted of their decoder.
fn is_viewed(bytes: &[u8], want: ObjectWant) -> bool {
    match (ObjectView::read(bytes), want) {
        (Ok(_), ObjectWant::Accepted { .. }) => true,
        (Err(refusal), ObjectWant::Refused { place, number }) => {
            refusal.fault.place == place && refusal.fault.reason.number() == number
        }
        _ => false,
    }
}

/// Sees that the file of this number in the table has this text and these bytes, and that the view, the decoder and the
/// check answer what the table says.
fn expect(
    rt: &impl Abort,
    alloc: Global,
    table: &[ObjectVector],
    i: usize,
    text: &str,
    bytes: &[u8],
) -> Result<(), Fail> {
    let Some(vector) = table.get(i) else {
        panic!(rt; "no {i}");
    };
    expect_text(rt, vector.text, text, bytes);
    assert!(rt; is_viewed(bytes, vector.want), "{i}");
    assert_equal_at(rt, answer(alloc, bytes)?, vector.want, i);
    Ok(())
}

#[test]
fn answers(rt: HostRuntime) -> Result<(), Fail> {
    assert_equal(&rt, OBJECTS.len(), OBJECT_TEXTS.len());
    for i in 0..OBJECT_TEXTS.len() {
        let bytes = object_bytes(rt.alloc(), i)?;
        expect(&rt, rt.alloc(), &OBJECTS, i, OBJECT_TEXTS[i], &bytes)?;
    }
    Ok(())
}

#[test]
fn fronts_again(rt: HostRuntime) -> Result<(), Fail> {
    for i in 0..OBJECT_TEXTS.len() {
        let bytes = object_bytes(rt.alloc(), i)?;
        for n in 0..=bytes.len() {
            assert!(rt;
                is_written_again(rt.alloc(), &bytes[..n]),
                "{n} bytes of {i}"
            );
        }
    }
    Ok(())
}
