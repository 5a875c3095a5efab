//! The file that parts spell.
ghost use Rattle.std.specs.Prelude.{◌≡◌, ◌≤◌, Err, length};
ghost use Rattle.hunk_files.specs.HunkFile.{file_bytes};
ghost use Rattle.hunk_files.specs.declared.hunk_file.HunkFile.{HunkFile};
ghost use Rattle.hunk_parts.specs.Parts.{AreParts};
ghost use Rattle.hunk_c.specs.Building.{Answers, built_answer, refusal_number, refused_row};

use crate::answer::{Answer, STRANGE, done, no_room};
use hunk_parts::{BuiltSize, NotBuilt, PartRow, RowFault, RowRefusal, build};

/// Writes the file that the rows spell to the front of the text.
#[unsafe(no_mangle)]
pub extern "C" fn hunk_build(rows: &[PartRow], bytes: &[u8], text: &mut [u8]) -> Answer
    ensures outcome { Answers bytes.now rows.now text.old text.new result }
    ensures succeeds { (file : HunkFile) → AreParts bytes.now rows.now file
        → length (file_bytes file) ≤ length text.old → result.number ≡ 0 }
{
    answer_of(build(rows, bytes, text))
}

/// The answer for what building a file came to.
fn answer_of(built: Result<BuiltSize, NotBuilt>) -> Answer
    ensures { result ≡ built_answer built }
{
    match built {
        Ok(size) => done(size.hunks, size.bytes, size.bytes),
        Err(error) => not_built(error),
    }
}

/// The answer where no file was written.
fn not_built(error: NotBuilt) -> Answer
    ensures { result ≡ built_answer (Err error) }
{
    match error {
        NotBuilt::NoRoom(size) => no_room(size.hunks, size.bytes, size.bytes),
        NotBuilt::Refused(fault) => refused_row(fault),
    }
}

/// The answer for the first row that is refused.
fn refused_row(fault: RowFault) -> Answer
    ensures { result ≡ refused_row fault }
{
    Answer {
        number: refusal_number(fault.refusal),
        hunk: 0,
        place: fault.place,
        count: fault.row,
    }
}

/// The number that says why.
fn refusal_number(refusal: RowRefusal) -> u32
    ensures { result ≡ refusal_number refusal }
{
    match refusal {
        RowRefusal::Strange => STRANGE,
        RowRefusal::Refused(reason) => u32::from(reason.number()),
    }
}
