//! EXT entries that are given out as they are, passed over at once.
ghost use Rattle.std.specs.Prelude.{◌≡◌, ◌≢◌, ◌≤◌, ◌<◌, ◌+◌, ◌*◌, ◌^◌, IfSome, drop, length};
ghost use Rattle.hunk_grammar.specs.declared.phase.Phase.TheVariants as phases;
ghost use Rattle.hunk_wide.specs.Parts.{IsBody, IsEntry, front_word};

use crate::parts::{counted_size, front_word};
use hunk_grammar::{ExtShape, shape_of};
use hunk_words::NAME_LIMIT;

/// The size of the entries up to the 0 that ends them.
#[inline(never)]
pub(crate) fn entries_size(bytes: &[u8]) -> Option<usize>
    ensures { IfSome result (λ size. IsBody phases.ExtWord bytes.now size) }
{
    let mut at = 0;
    'entries: while bytes.len() - at >= 4 {
        let word = front_word(&bytes[at..]);
        if word == 0 {
            return Some(at + 4);
        }
        at += entry_size(word, &bytes[at..])?;
    }
    None
}

/// The size of the entry in front, which has this word, where it is all there.
#[inline(always)]
fn entry_size(word: u32, bytes: &[u8]) -> Option<usize>
    requires inside { 4 ≤ length bytes.now }
    requires word { word ≡ front_word bytes.now }
    requires some { word ≢ 0 }
    ensures { IfSome result (λ size. IsEntry bytes.now size) }
{
    // The word and the name.
    let named = 4 + 4 * (word % NAME_LIMIT) as usize;
    match shape_of(word)? {
        ExtShape::Definition if bytes.len() < named + 4 => None,
        ExtShape::Definition => Some(named + 4),
        ExtShape::References => referenced_size(named, bytes),
        ExtShape::Common => referenced_size(named + 4, bytes),
    }
}

/// The size of what stands up to this byte, of the count there, and of so many references.
#[inline(always)]
fn referenced_size(at: usize, bytes: &[u8]) -> Option<usize>
    requires { at < 2 ^ 32 }
    ensures { IfSome result (λ size. (size ≡ at + (4 + 4 * front_word (drop at bytes.now)))
        × (size ≤ length bytes.now)) }
{
    if bytes.len() < at + 4 {
        return None;
    }
    let references = counted_size(front_word(&bytes[at..]), &bytes[at..])?;
    Some(at + references)
}
