//! The names of the numbers that answers have, and what these mean.
ghost use Rattle.hunk_c.specs.Names.{IsMeaningOf, IsNameOf, Means, Names, PutsText};

use crate::answer::{Answer, NO_ROOM, STRANGE, done, no_room};
use hunk_words::Reason;

/// Writes the name of an answer's number to the text.
#[unsafe(no_mangle)]
pub extern "C" fn hunk_reason(number: u32, text: &mut [u8]) -> Answer
    ensures { Names number text.old text.new result }
{
    put_words(name_of_number(number), text)
}

/// Writes what an answer's number means to the text.
#[unsafe(no_mangle)]
pub extern "C" fn hunk_reason_text(number: u32, text: &mut [u8]) -> Answer
    ensures { Means number text.old text.new result }
{
    put_words(meaning_of_number(number), text)
}

/// Writes the words to the front of the text, unless it has fewer bytes.
fn put_words(words: &str, text: &mut [u8]) -> Answer
    ensures { PutsText words.now text.old text.new result }
{
    let words = words.as_bytes();
    if words.len() > text.len() {
        return no_room(0, 0, words.len() as u64);
    }
    text[..words.len()].copy_from_slice(words);
    done(0, 0, words.len() as u64)
}

/// The name of an answer's number, or nothing.
fn name_of_number(number: u32) -> &'static str
    ensures { IsNameOf number result.now }
{
    if number == NO_ROOM {
        return "NoRoom";
    }
    if number == STRANGE {
        return "Strange";
    }
    match Reason::from_number(number) {
        Some(reason) => reason.name(),
        None => "",
    }
}

/// What an answer's number means, or nothing.
fn meaning_of_number(number: u32) -> &'static str
    ensures { IsMeaningOf number result.now }
{
    if number == NO_ROOM {
        return "the array of the caller has too few elements";
    }
    if number == STRANGE {
        return "the numbers are none of a loader or of parts, or do not fit";
    }
    match Reason::from_number(number) {
        Some(reason) => reason.meaning(),
        None => "",
    }
}
