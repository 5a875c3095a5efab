//! What the next bytes of a wide spelling are for.
ghost use Rattle.std.specs.Prelude.{◌≡◌, ◌≤◌, ◌+◌};
ghost use Rattle.hunk_wide.specs.Halves.{behind_half};
ghost use Rattle.hunk_wide.specs.Longwords.{behind_block, behind_first, behind_load, behind_long};
ghost use Rattle.hunk_wide.specs.Longwords.{behind_object, behind_same, behind_straight};
ghost use Rattle.hunk_wide.specs.Longwords.{behind_word, given, given_block, given_object, go_on};
ghost use Rattle.hunk_wide.specs.Longwords.{long_word};

use crate::position::FilePosition;
use hunk_grammar::{ObjectPosition, OpenHunk, Phase, Position, WordPlace, open_next};
use hunk_words::{BlockWord, HEADER_WORD, Kind, UNIT_WORD};

/// What a word of 16 bits of a short block is for.
///
/// `owed` is how many more offsets follow the next, or follow the first after a target.
#[derive(Clone, Copy)]
pub enum ShortPart {
    /// The number of offsets of a group, or the 0 that ends the block.
    Count,
    /// The number of the hunk that a group relocates to.
    Target { owed: u16 },
    /// An offset of a group.
    Offset { owed: u16 },
}

/// What the next bytes are for.
#[derive(Clone, Copy)]
pub enum Spot {
    /// From here on all bytes pass as they are.
    Passing,
    /// A byte that is given out as it is, and `owed` more, and then a longword at this position:
    /// content, a name, debug data, offsets of 32 bits, or of an external entry.
    Straight {
        owed: u64,
        next: FilePosition,
    },
    /// A longword, which the plain spelling has at this position.
    Long(FilePosition),
    /// A word of 16 bits of a short block, after an odd number of them or an even one. The next
    /// block word stands at `after`.
    Half {
        after: FilePosition,
        part: ShortPart,
        is_odd: bool,
    },
    /// The word of 16 bits, 0, with which a short block fills up its last longword. The next block
    /// word stands at this position.
    Filler(FilePosition),
}

/// What the plain spelling has for a longword.
#[derive(Clone, Copy)]
pub enum Given {
    /// The same longword.
    Same,
    /// END, which was left out, and then the longword.
    BehindEnd,
    /// The block word of RELOC32, with the flags of the longword.
    AsLong,
}

impl Spot {
    /// After a longword that stands at this position.
    #[inline(always)]
    pub fn behind_long(position: FilePosition, word: u32) -> Spot
        ensures { result ≡ behind_long position word }
    {
        match position {
            FilePosition::Load(position) => Spot::behind_load(position, word),
            FilePosition::Object(position) => Spot::behind_object(position, word),
        }
    }

    /// After a longword of a load file, or the first of any file.
    #[inline(always)]
    fn behind_load(position: Position, word: u32) -> Spot
        ensures { result ≡ behind_load position word }
    {
        match position {
            Position::Body(hunk, phase) => match phase {
                Phase::FirstBlock | Phase::BlockWord => {
                    Spot::behind_block(Given::of_block(hunk, word), hunk, phase, word)
                }
                _ => Spot::at(FilePosition::Load(position.step(word))),
            },
            _ => Spot::behind_same(position, word),
        }
    }

    /// After a block word of this hunk of a load file.
    #[inline(always)]
    fn behind_block(given: Given, hunk: OpenHunk, phase: Phase, word: u32) -> Spot
        ensures { result ≡ behind_block given hunk phase word }
    {
        match given {
            Given::Same => Spot::at(FilePosition::Load(Position::Body(hunk, phase).step(word))),
            Given::BehindEnd => {
                let next = open_next(hunk.hunks, hunk.ahead);
                Spot::at(FilePosition::Load(next.step(word)))
            }
            Given::AsLong => Spot::Half {
                after: FilePosition::after_short(hunk),
                part: ShortPart::Count,
                is_odd: false,
            },
        }
    }

    /// After a longword of a load file that is no block word of a hunk, or the first of any file.
    #[inline(always)]
    fn behind_same(position: Position, word: u32) -> Spot
        ensures { result ≡ behind_same position word }
    {
        match position {
            Position::FirstLong => Spot::behind_first(word),
            _ => Spot::at(FilePosition::Load(position.step(word))),
        }
    }

    /// After the first longword of a file, which says of what kind it is.
    ///
    /// Where it is of neither kind, all bytes pass.
    #[inline(always)]
    fn behind_first(word: u32) -> Spot
        ensures { result ≡ behind_first word }
    {
        if word == HEADER_WORD {
            Spot::at(FilePosition::Load(Position::FirstLong.step(word)))
        } else if word == UNIT_WORD {
            Spot::at(FilePosition::Object(ObjectPosition::UnitCount))
        } else {
            Spot::Passing
        }
    }

    /// After a longword of an object file.
    #[inline(always)]
    fn behind_object(position: ObjectPosition, word: u32) -> Spot
        ensures { result ≡ behind_object position word }
    {
        match position {
            ObjectPosition::Word(place) => {
                Spot::behind_word(Given::of_object(word), place, word)
            }
            _ => Spot::at(FilePosition::Object(position.step(word))),
        }
    }

    /// After the word of a block or of a unit of an object file.
    #[inline(always)]
    fn behind_word(given: Given, place: WordPlace, word: u32) -> Spot
        ensures { result ≡ behind_word given place word }
    {
        match given {
            Given::AsLong => Spot::Half {
                after: FilePosition::after_object_short(place),
                part: ShortPart::Count,
                is_odd: false,
            },
            _ => Spot::at(FilePosition::Object(ObjectPosition::Word(place).step(word))),
        }
    }

    /// At this position. After a load file all bytes pass.
    #[inline(always)]
    fn at(position: FilePosition) -> Spot
        ensures { result ≡ go_on position }
    {
        match position {
            FilePosition::Load(Position::Done) => Spot::Passing,
            _ => match position.straight_longs() {
                0 => Spot::Long(position),
                longs => Spot::Straight {
                    owed: 4 * (longs - 1) + 3,
                    next: position.after_straight(),
                },
            },
        }
    }

    /// After `count` bytes that are given out as they are.
    #[inline(always)]
    pub(crate) fn behind_straight(owed: u64, next: FilePosition, count: u64) -> Spot
        requires { count ≤ owed + 1 }
        ensures { result ≡ behind_straight owed next count }
    {
        if count <= owed {
            let owed = owed - count;
            Spot::Straight { owed, next }
        } else {
            Spot::Long(next)
        }
    }

    /// After a word of 16 bits of a short block.
    #[inline(always)]
    pub fn behind_half(after: FilePosition, part: ShortPart, is_odd: bool, half: u16) -> Spot
        ensures { result ≡ behind_half after part is_odd half }
    {
        let part = match part {
            ShortPart::Count if half == 0 => {
                return if is_odd {
                    Spot::Long(after)
                } else {
                    Spot::Filler(after)
                };
            }
            ShortPart::Count => ShortPart::Target { owed: half - 1 },
            ShortPart::Target { owed } => ShortPart::Offset { owed },
            ShortPart::Offset { owed: 0 } => ShortPart::Count,
            ShortPart::Offset { owed } => ShortPart::Offset { owed: owed - 1 },
        };
        Spot::Half {
            after,
            part,
            is_odd: !is_odd,
        }
    }
}

impl Given {
    /// Of a longword at this position.
    #[inline(always)]
    pub fn of(position: FilePosition, word: u32) -> Given
        ensures { result ≡ given position word }
    {
        match position {
            FilePosition::Load(Position::Body(hunk, Phase::FirstBlock | Phase::BlockWord)) => {
                Given::of_block(hunk, word)
            }
            FilePosition::Object(ObjectPosition::Word(_)) => Given::of_object(word),
            _ => Given::Same,
        }
    }

    /// Of a block word in this hunk of a load file.
    #[inline(always)]
    fn of_block(hunk: OpenHunk, word: u32) -> Given
        ensures { result ≡ given_block hunk word }
    {
        let block = BlockWord::of(word);
        if block.has_both_memory_bits() {
            return Given::Same;
        }
        match block.kind() {
            Kind::Reloc32Short | Kind::Drel32 => Given::AsLong,
            Kind::Code | Kind::Data | Kind::Bss if hunk.has_content && hunk.ahead > 0 => {
                Given::BehindEnd
            }
            _ => Given::Same,
        }
    }

    /// Of the word of a block or of a unit of an object file, where 3F7 is not short.
    #[inline(always)]
    fn of_object(word: u32) -> Given
        ensures { result ≡ given_object word }
    {
        let block = BlockWord::of(word);
        match block.kind() {
            Kind::Reloc32Short if !block.has_both_memory_bits() => Given::AsLong,
            _ => Given::Same,
        }
    }
}

/// The block word of RELOC32 with the flags of this one.
#[inline(always)]
pub fn long_word(word: u32) -> u32
    ensures { result ≡ long_word word }
{
    (word >> 29) * 0x2000_0000 + 0x3EC
}
