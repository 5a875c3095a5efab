//! What the reasons of refusals mean, as `docs/reasons` writes it of `docs/reasons.tsv`.
ghost use Rattle.std.specs.Prelude.{◌≡◌};
ghost use Rattle.hunk_words.specs.Meanings.{meaning_of};

use crate::reason::Reason;

impl Reason {
    /// What it means: a sentence of at most 75 bytes, with no full stop.
    pub fn meaning(self) -> &'static str
        ensures { result.now ≡ meaning_of self }
    {
        match self {
            Reason::NotLoadFile => "the first longword is not 3F3",
            Reason::IsObject => "a load file is needed, and this is an object file: link it first",
            Reason::Library => "a library for a linker, with a LIB or INDEX block",
            Reason::Resident => "the header names resident libraries, as for the first AmigaDOS",
            Reason::NoHunks => "the header has a table of no hunks",
            Reason::TooManyHunks => "the header has a table of more than 65,536 hunks",
            Reason::FirstHunk => "the first hunk of the table is not 0",
            Reason::LastHunk => {
                "the last hunk is not the table size less 1, as in files with overlays"
            }
            Reason::BothBits => "a block word has bits 30 and 31 both set",
            Reason::Advisory => "reserved: no answer has this number",
            Reason::Overlay => "an OVERLAY block, of a file with overlays",
            Reason::Break => "a BREAK block, of a file with overlays",
            Reason::ShortReloc => "a block of short relocations, whose offsets have 16 bits",
            Reason::NotInLoadFile => {
                "a block that only object files have: the file is only partly linked"
            }
            Reason::Misplaced => {
                "a HEADER or UNIT where none may stand, or a block before the first UNIT"
            }
            Reason::UnknownBlock => {
                "a type of block that is not known, without the bit of advisory blocks"
            }
            Reason::SecondContent => "a second CODE, DATA or BSS block in a hunk",
            Reason::BeforeContent => {
                "a relocation or EXT block before the CODE, DATA or BSS block of its hunk"
            }
            Reason::NoContent => "a hunk ends without a CODE, DATA or BSS block",
            Reason::ContentTooLong => "more content than the hunk is declared to have",
            Reason::NameWord => "the top byte of the longword with the length of a name is not 0",
            Reason::NothingToRelocate => "a relocation in a hunk of 0 bytes",
            Reason::BadTarget => "the target of a relocation is no hunk of the file",
            Reason::BadOffset => "a relocated longword runs past the end of its hunk",
            Reason::ExtKind => "an EXT entry of a type that is not known",
            Reason::Truncated => "the input ends too soon",
            Reason::Budget => "the hunks declare more bytes than the budget allows",
            Reason::FileLimit => {
                "as many bytes as may be read were read, and the file had not ended"
            }
            Reason::NoBase(_) => "a hunk has no base, or would pass the address 2^32",
            Reason::Read => "the input could not be read",
            Reason::OutOfMemory => "memory was refused",
        }
    }
}
