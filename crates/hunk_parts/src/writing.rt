//! The text of a part.
ghost use Rattle.std.specs.Prelude.{◌≡◌, ◌+◌, ◌∷◌, ◌++◌, ◌%◌, [], Some, if◌then◌else◌};
ghost use Rattle.std.specs.Prelude.{length};
ghost use Rattle.hunk_words.specs.Bits.{kind};
ghost use Rattle.hunk_words.specs.Longs.{bytes_of};
ghost use Rattle.hunk_grammar.specs.ExtKinds.{ext_shape};
ghost use Rattle.hunk_files.specs.ObjectFile.{unit_header};
ghost use Rattle.hunk_parts.specs.Parts.{FilePart};
ghost use Rattle.hunk_parts.specs.RowsText.{closing, named_text, part_seen, part_text, payload_text, shape_text};

use crate::fields::{items_of, shape_of_type};
use crate::longs::{put_count, put_padded, put_whole, put_word};
use crate::part_row::{BLOCK_PART, ENTRY_PART, GROUP_PART, SYMBOL_PART, UNIT_PART};
use crate::seen_part::SeenPart;
use crate::steps::closes;
use hunk_files::TakesBytes;
use hunk_grammar::ExtShape;
use hunk_words::{BlockWord, Kind, NAME_LIMIT, UNIT_WORD};

/// Hands over the zero that ends the open list before such a part.
#[inline(always)]
pub(crate) fn put_closing<T: TakesBytes>(taker: &mut T, list: Option<Kind>, what: u32)
    ensures { T.takes taker.old (bytes_of (closing list what)) taker.new }
{
    if closes(list, what) {
        put_word(taker, 0);
    }
}

/// Hands over a count and the content, or the name, after it.
fn put_content<T: TakesBytes>(taker: &mut T, count: u64, part: &SeenPart<'_>)
    ensures { T.takes taker.old (bytes_of (count ∷ (part_seen part.now).content)) taker.new }
{
    put_count(taker, count);
    put_padded(taker, part.content);
}

/// Hands over how many offsets there are, and these.
fn put_offsets<T: TakesBytes>(taker: &mut T, part: &SeenPart<'_>)
    requires { length part.now.offsets.now % 4 ≡ 0 }
    ensures { T.takes taker.old (bytes_of (length (part_seen part.now).offsets
        ∷ (part_seen part.now).offsets)) taker.new }
{
    put_count(taker, part.size().offsets);
    put_whole(taker, part.offsets);
}

/// Hands over a unit's word and its name.
fn put_unit<T: TakesBytes>(taker: &mut T, part: &SeenPart<'_>)
    ensures { T.takes taker.old (bytes_of (unit_header (part_seen part.now).content)) taker.new }
{
    put_word(taker, UNIT_WORD);
    put_content(taker, part.size().content, part);
}

/// Whether a count and as many longwords follow the word of a block of this kind.
fn has_payload(kind: Kind) -> bool
    ensures { (part : FilePart) → payload_text kind part ≡ (if result
        then (part.value + length part.content) ∷ part.content else []) }
{
    kind != Kind::End && items_of(kind) == 0
}

/// Hands over a size word, or a count, and as many longwords.
fn put_sized<T: TakesBytes>(taker: &mut T, part: &SeenPart<'_>)
    ensures { T.takes taker.old (bytes_of ((part.now.value + length (part_seen part.now).content)
        ∷ (part_seen part.now).content)) taker.new }
{
    let count = part.size().content;
    put_content(taker, u64::from(part.value) + count, part);
}

/// Hands over what follows the word of a block of this kind, but for its items.
fn put_payload<T: TakesBytes>(taker: &mut T, kind: Kind, part: &SeenPart<'_>)
    ensures { T.takes taker.old (bytes_of (payload_text kind (part_seen part.now))) taker.new }
{
    if has_payload(kind) {
        put_sized(taker, part);
    }
}

/// Hands over a block's word and what follows it, but for its items.
fn put_block<T: TakesBytes>(taker: &mut T, part: &SeenPart<'_>)
    ensures { T.takes taker.old (bytes_of (part.now.word
        ∷ payload_text (kind part.now.word) (part_seen part.now))) taker.new }
{
    put_word(taker, part.word);
    put_payload(taker, BlockWord::of(part.word).kind(), part);
}

/// Hands over the offsets of a group, after their number and the target.
fn put_group<T: TakesBytes>(taker: &mut T, part: &SeenPart<'_>)
    requires { length part.now.offsets.now % 4 ≡ 0 }
    ensures { T.takes taker.old (bytes_of (length (part_seen part.now).offsets
        ∷ part.now.word ∷ (part_seen part.now).offsets)) taker.new }
{
    put_count(taker, part.size().offsets);
    put_word(taker, part.word);
    put_whole(taker, part.offsets);
}

/// Hands over the first longword of a symbol or an entry, and its name.
fn put_name<T: TakesBytes>(taker: &mut T, part: &SeenPart<'_>)
    ensures { T.takes taker.old (bytes_of (named_text (part_seen part.now))) taker.new }
{
    let count = part.size().content;
    put_content(
        taker,
        u64::from(part.word) * u64::from(NAME_LIMIT) + count,
        part,
    );
}

/// Hands over what follows the name of an entry of this shape.
fn put_shape<T: TakesBytes>(taker: &mut T, shape: ExtShape, part: &SeenPart<'_>)
    requires { length part.now.offsets.now % 4 ≡ 0 }
    ensures { T.takes taker.old (bytes_of (shape_text (Some shape) (part_seen part.now))) taker.new }
{
    match shape {
        ExtShape::Definition => put_word(taker, part.value),
        ExtShape::References => put_offsets(taker, part),
        ExtShape::Common => {
            put_word(taker, part.value);
            put_offsets(taker, part);
        }
    }
}

/// Hands over what follows the name of an entry.
fn put_after_name<T: TakesBytes>(taker: &mut T, part: &SeenPart<'_>)
    requires { length part.now.offsets.now % 4 ≡ 0 }
    ensures { T.takes taker.old (bytes_of (shape_text (ext_shape part.now.word)
        (part_seen part.now))) taker.new }
{
    if let Some(shape) = shape_of_type(part.word) {
        put_shape(taker, shape, part);
    }
}

/// Hands over a symbol.
fn put_symbol<T: TakesBytes>(taker: &mut T, part: &SeenPart<'_>)
    ensures { T.takes taker.old (bytes_of (named_text (part_seen part.now)
        ++ part.now.value ∷ [])) taker.new }
{
    put_name(taker, part);
    put_word(taker, part.value);
}

/// Hands over an entry.
fn put_entry<T: TakesBytes>(taker: &mut T, part: &SeenPart<'_>)
    requires { length part.now.offsets.now % 4 ≡ 0 }
    ensures { T.takes taker.old (bytes_of (named_text (part_seen part.now)
        ++ shape_text (ext_shape part.now.word) (part_seen part.now))) taker.new }
{
    put_name(taker, part);
    put_after_name(taker, part);
}

/// Hands over the text of a part, but of HUNK in the body.
#[inline(always)]
pub(crate) fn put_part<T: TakesBytes>(taker: &mut T, part: &SeenPart<'_>)
    requires { length part.now.offsets.now % 4 ≡ 0 }
    ensures { T.takes taker.old (bytes_of (part_text (part_seen part.now))) taker.new }
{
    match part.what {
        UNIT_PART => put_unit(taker, part),
        BLOCK_PART => put_block(taker, part),
        GROUP_PART => put_group(taker, part),
        SYMBOL_PART => put_symbol(taker, part),
        ENTRY_PART => put_entry(taker, part),
        _ => {}
    }
}
