//! The walk over the longwords of an object file, from the first to the last.
ghost use Rattle.std.specs.Prelude.{MatchResult};
ghost use Rattle.hunk_files.specs.FileParts.{IsPartAt};
ghost use Rattle.hunk_files.specs.HunkFile.{AreObjectFile};
ghost use Rattle.hunk_files.specs.ObjectFault.{HasObjectFault};
ghost use Rattle.hunk_grammar.specs.declared.file_kind.Sniff.TheVariants.{Object};

use crate::object::part::{counted, refusal_at};
use crate::object::passing::pass_over;
use crate::refusal::Refusal;
use hunk_grammar::{ObjectPosition, WordPlace};
use hunk_words::{Reason, word_at};

/// Whether the bytes are an object file, from the first to the last, or else their first fault.
///
/// It takes no memory. Payloads, names and lists of offsets are passed over at once, as no test
/// looks at their longwords, and so are blocks and headers of units that are whole.
///
/// # Errors
///
/// The first fault of the bytes, at the first byte of its longword, from the start of the input;
/// `Truncated` at 4 times the number of whole longwords.
pub(crate) fn walk_object(bytes: &[u8]) -> Result<(), Refusal>
    ensures { MatchResult result (λ _. AreObjectFile bytes.now)
        (λ refusal. HasObjectFault bytes.now refusal.fault.place refusal.fault.reason
        × IsPartAt Object bytes.now refusal.fault.place refusal.part) }
{
    let count = bytes.len() / 4;
    let mut position = ObjectPosition::Word(WordPlace::BeforeUnits);
    // The units that began before the position, and the parts of the last that are whole.
    let mut units = 0;
    let mut whole = 0;
    let mut at = 0;
    'walking: while at < count {
        let word = word_at(bytes, at);
        (units, whole) = counted(position, units, whole);
        let stride = match position.stride_from(word) {
            Ok(stride) => stride,
            Err(reason) => return Err(refusal_at(units, whole, 4 * at as u64, reason)),
        };
        at += 1 + stride.run as usize;
        (at, position, units, whole) = pass_over(bytes, at, stride.after, units, whole);
    }
    let end = 4 * count as u64;
    if at > count {
        return Err(refusal_at(units, whole, end, Reason::Truncated));
    }
    if bytes.len() % 4 != 0 || !position.may_end() {
        (units, whole) = counted(position, units, whole);
        return Err(refusal_at(units, whole, end, Reason::Truncated));
    }
    Ok(())
}
