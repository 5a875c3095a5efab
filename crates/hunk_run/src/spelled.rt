//! What is said of an input that is spelled otherwise than its plain spelling.
ghost use Rattle.std.specs.Prelude.{◌≡◌, Some};
ghost use Rattle.hunk_run.specs.Notes.{block_words, spelled_line, spelled_told};

use crate::note::Named;
use hunk_command_line::FileName;
use hunk_wide::Spelling;
use std::fmt;

/// How much of an input is spelled otherwise than its plain spelling. It is displayed as a line, as
/// `hunkinfo: prog: 2 blocks of short relocations, 1 END put in`.
#[derive(Drop)]
pub struct Spelled {
    /// The name of the input; `None` is standard input.
    pub name: Option<FileName>,
    /// How many blocks of short relocations it has.
    pub short_blocks: u64,
    /// How many END it leaves out.
    pub ends: u64,
}

/// What is said of the input of this name, where it was read, and spelled otherwise.
pub(crate) fn said_of(name: Option<FileName>, spelling: Option<Spelling>) -> Option<Spelled>
    ensures { result ≡ spelled_told name spelling }
{
    let Spelling {
        len: _,
        short_blocks,
        ends,
    } = spelling?;
    if short_blocks == 0 && ends == 0 {
        return None;
    }
    Some(Spelled {
        name,
        short_blocks,
        ends,
    })
}

/// What so many blocks are called.
fn block_words(blocks: u64) -> &'static str
    ensures { result.now ≡ block_words blocks }
{
    if blocks == 1 { "block" } else { "blocks" }
}

impl fmt::Display for Spelled {
    ghost output = { λ spelled. Some (spelled_line spelled) };

    fn fmt<W: fmt::Write>(&self, f: &mut fmt::Formatter<W>) -> fmt::Result {
        let name = Named(&self.name, "standard input");
        let blocks = self.short_blocks;
        let ends = self.ends;
        let what = block_words(blocks);
        if blocks == 0 {
            return write!(f, "hunkinfo: {name}: {ends} END put in\n");
        }
        if ends == 0 {
            return write!(
                f,
                "hunkinfo: {name}: {blocks} {what} of short relocations\n"
            );
        }
        write!(
            f,
            "hunkinfo: {name}: {blocks} {what} of short relocations, {ends} END put in\n"
        )
    }
}
