//! Blocks and headers of units of an object file that are given out as they are, passed over at once.
ghost use Rattle.std.specs.Prelude.{◌≡◌, ◌≤◌, IfNone, IfSome, length, take};
ghost use Rattle.hunk_grammar.specs.declared.object_position.ObjectPosition.TheVariants.{Word};
ghost use Rattle.hunk_wide.specs.Parts.{AsIs, IsUnitBlock, IsUnitBody, front_word, object_at};
ghost use Rattle.hunk_wide.specs.declared.spot.Spot.TheVariants.{Long};

use crate::parts::{Run, body_size, counted_size, front_word};
use crate::position::FilePosition;
use crate::spot::Given;
use hunk_grammar::{ObjectPosition, WordPlace, by_kind};
use hunk_words::BlockWord;

/// The blocks and the headers of units that the bytes begin with, where the word of one stands at
/// this place: all that are whole, up to the word of a short block.
#[inline(never)]
pub(crate) fn unit_blocks_at(place: WordPlace, bytes: &[u8]) -> Run
    ensures inside { result.size ≤ length bytes.now }
    ensures as_is { AsIs (object_at (Word place)) (take result.size bytes.now) (Long result.next) }
{
    let mut place = place;
    let mut at = 0;
    'units: while let Some(size) = pass_block(&mut place, &bytes[at..]) {
        at += size;
    }
    Run {
        size: at,
        next: FilePosition::Object(ObjectPosition::Word(place)),
    }
}

/// The number of the bytes of the block or the header in front. It goes on to the place after it.
/// `None` leaves that as it was.
#[inline(always)]
fn pass_block(place: &mut WordPlace, bytes: &[u8]) -> Option<usize>
    ensures some { IfSome result (λ size. IsUnitBlock place.old bytes.now size place.new) }
    ensures none { IfNone result (place.new ≡ place.old) }
{
    if bytes.len() < 4 {
        return None;
    }
    let word = front_word(bytes);
    by_kind!(BlockWord::of(word).kind(), pass_word(place, bytes, word))
}

/// The same, by its word. It is compiled for each kind by itself.
#[inline(always)]
fn pass_word(place: &mut WordPlace, bytes: &[u8], word: u32) -> Option<usize>
    requires inside { 4 ≤ length bytes.now }
    requires word { word ≡ front_word bytes.now }
    ensures some { IfSome result (λ size. IsUnitBlock place.old bytes.now size place.new) }
    ensures none { IfNone result (place.new ≡ place.old) }
{
    let here = ObjectPosition::Word(*place);
    match Given::of(FilePosition::Object(here), word) {
        Given::Same => (),
        _ => return None,
    }
    let (size, next) = unit_body(here.step(word), &bytes[4..])?;
    *place = next;
    Some(4 + size)
}

/// How many bytes come after the word of a block or of a unit, where they are all there, and the
/// place after them.
#[inline(always)]
fn unit_body(position: ObjectPosition, bytes: &[u8]) -> Option<(usize, WordPlace)>
    ensures { IfSome result (λ body. IsUnitBody position bytes.now body.0 body.1) }
{
    if let ObjectPosition::Word(place) = position {
        return Some((0, place));
    }
    if bytes.len() < 4 {
        return None;
    }
    match position {
        ObjectPosition::UnitCount => {
            let size = counted_size(front_word(bytes), bytes)?;
            Some((size, WordPlace::BetweenHunks))
        }
        ObjectPosition::Block { after, phase } => {
            let size = body_size(phase, bytes)?;
            Some((size, after))
        }
        _ => None,
    }
}
