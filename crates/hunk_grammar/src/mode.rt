//! The files that a block may stand in, and the block words that they refuse.
ghost use Rattle.std.specs.Prelude.{◌≡◌};
ghost use Rattle.hunk_grammar.specs.Modes.{refuse_alone_word};

use hunk_words::{BlockWord, Kind, Reason};

/// The files that a block may stand in.
#[derive(Clone, Copy, Debug, PartialEq, Eq)]
pub enum Mode {
    /// Load files: RELOC32 alone relocates, and nothing is external.
    Load,
    /// Object files.
    Object,
}

impl Mode {
    /// Why this block word is refused, wherever the block stands; `None` where it is not.
    ///
    /// Numbers and flags are those of `dos/doshunks.h`. In a load file 3F7 is the short relocation
    /// block of V37's LoadSeg. From V39 of dos an unknown kind with the advisory flag is ignored,
    /// so it is accepted. To refuse both memory bits, overlays, libraries, short relocations and
    /// other unknown kinds, and in load files EXT and all relocations but RELOC32, is this
    /// project's own choice.
    #[inline(always)]
    pub fn refuse(self, word: BlockWord) -> Option<Reason>
        ensures { result ≡ refuse_alone_word self word }
    {
        match (self, word.kind()) {
            _ if word.has_both_memory_bits() => Some(Reason::BothBits),
            (_, Kind::Overlay) => Some(Reason::Overlay),
            (_, Kind::Break) => Some(Reason::Break),
            (_, Kind::Reloc32Short) | (Mode::Load, Kind::Drel32) => Some(Reason::ShortReloc),
            (_, Kind::Lib | Kind::Index) => Some(Reason::Library),
            (_, Kind::Header | Kind::Unit) => Some(Reason::Misplaced),
            (_, Kind::Unknown(_)) if !word.is_advisory() => Some(Reason::UnknownBlock),
            (Mode::Object, _) | (Mode::Load, Kind::Reloc32) => None,
            (Mode::Load, Kind::Ext) => Some(Reason::NotInLoadFile),
            (Mode::Load, kind) if kind.is_relocation() => Some(Reason::NotInLoadFile),
            _ => None,
        }
    }
}
