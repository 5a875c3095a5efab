//! The texts that a writer has to give, read and written again.

use crate::tests::asserts::assert_equal;
use hunk_files::LoadFile;
use hunk_vectors::{WRITE_TEXTS, WRITE_VALUES, written_bytes};
use hunk_words::{FromWrite, LongWriter};
use std::alloc::Global;
use std::test::Fail;

/// Whether the bytes begin with a load file, which this many follow, and which is written as it stands there.
pub(super) fn is_written(alloc: Global, bytes: &[u8], after: usize) -> bool {
    let Ok((file, count)) = LoadFile::decode(alloc, bytes) else {
        return false;
    };
    let mut writer = LongWriter::new(FromWrite::new(Vec::new(alloc)));
    count.checked_add(after) == Some(bytes.len())
        && file.encode(&mut writer).is_ok()
        && Some(writer.into_inner().into_inner().as_slice()) == bytes.get(..count)
}

#[test]
fn texts(rt: HostRuntime) -> Result<(), Fail> {
    assert_equal(&rt, WRITE_VALUES.len(), WRITE_TEXTS.len());
    for i in 0..WRITE_TEXTS.len() {
        let bytes = written_bytes(rt.alloc(), i)?;
        assert!(rt;
            is_written(rt.alloc(), &bytes, 0),
            "{i}: {}",
            WRITE_VALUES[i]
        );
    }
    Ok(())
}
