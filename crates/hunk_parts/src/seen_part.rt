//! A row with the bytes that it points at.
ghost use Rattle.std.specs.Prelude.{◌*◌, ◌≡◌, ◌<◌, ◌≤◌, ◌^◌, ◌%◌, IfNone, IfSome, None, Some};
ghost use Rattle.std.specs.Prelude.{length};
ghost use Rattle.std.specs.Option.{option_copied};
ghost use Rattle.hunk_parts.specs.PartFaults.{size_of_part};
ghost use Rattle.hunk_parts.specs.Parts.{run_at, seen};
ghost use Rattle.hunk_parts.specs.RowsText.{part_seen};

use crate::part_row::PartRow;
use crate::part_size::PartSize;

/// A row whose bytes are there.
#[derive(Clone, Copy)]
pub(crate) struct SeenPart<'a> {
    pub(crate) what: u32,
    pub(crate) word: u32,
    pub(crate) value: u32,
    /// The bytes of its content, or its name, without the zero bytes that follow.
    pub(crate) content: &'a [u8],
    /// The bytes of its offsets.
    pub(crate) offsets: &'a [u8],
}

/// The bytes from this place on, where that many are there.
#[inline(always)]
fn run_at(bytes: &[u8], place: u64, count: u64) -> Option<&[u8]>
    ensures { option_copied result ≡ run_at bytes.now place count }
{
    if count == 0 {
        return Some(&[]);
    }
    let end = place.checked_add(count)?;
    if end > bytes.len() as u64 {
        return None;
    }
    Some(&bytes[place as usize..end as usize])
}

/// The bytes of so many longwords from this place on, where they are there.
#[inline(always)]
fn longs_at(bytes: &[u8], place: u64, count: u64) -> Option<&[u8]>
    ensures { option_copied result ≡ run_at bytes.now place (4 * count) }
{
    if count == 0 {
        return Some(&[]);
    }
    run_at(bytes, place, count.checked_mul(4)?)
}

impl<'a> SeenPart<'a> {
    /// The row with its bytes, where they are there.
    #[inline(always)]
    pub(crate) fn of(bytes: &'a [u8], row: &PartRow) -> Option<SeenPart<'a>>
        ensures some { IfSome result (λ part. seen bytes.now row.now ≡ Some (part_seen part)) }
        ensures whole { IfSome result (λ part. length part.offsets.now % 4 ≡ 0) }
        ensures none { IfNone result (seen bytes.now row.now ≡ None) }
    {
        let content = run_at(bytes, row.content, row.content_bytes)?;
        let offsets = longs_at(bytes, row.offsets, row.offset_count)?;
        Some(SeenPart {
            what: row.what,
            word: row.word,
            value: row.value,
            content,
            offsets,
        })
    }

    /// The part with the numbers of its longwords.
    #[inline(always)]
    pub(crate) fn size(&self) -> PartSize
        ensures value { result ≡ size_of_part (part_seen self.now) }
        ensures content { result.content ≤ 2 ^ 62 }
        ensures offsets { result.offsets < 2 ^ 62 }
    {
        PartSize {
            what: self.what,
            word: self.word,
            value: self.value,
            content: (self.content.len() as u64).div_ceil(4),
            offsets: self.offsets.len() as u64 / 4,
        }
    }
}
