//! What the type of a row says of its numbers.
ghost use Rattle.hunk_words.specs.Longs.{IsLong};
ghost use Rattle.hunk_parts.specs.RowFields.{AreRows, IsRow};

use crate::part_row::PartRow;

/// A number of 32 bits is a longword.
#[inline(always)]
fn is_long(_number: u32)
    ensures { IsLong _number }
{}

/// The numbers of a row fit their fields.
#[inline(always)]
fn is_row(row: &PartRow)
    ensures { IsRow row.now }
{
    is_long(row.word);
    is_long(row.value);
}

/// The numbers of all rows fit their fields. No byte is read.
#[inline(always)]
pub(crate) fn are_rows(rows: &[PartRow])
    ensures { AreRows rows.now }
{
    'rows: for i in 0..rows.len() {
        is_row(&rows[i]);
    }
}
