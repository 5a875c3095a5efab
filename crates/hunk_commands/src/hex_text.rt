//! Bytes from hexadecimal text.
ghost use Rattle.std.specs.Prelude.{◌≡◌, ◌<◌, ◌≤◌, ◌*◌, ◌%◌, ◌++◌, [], ℕ, List, Ok, None, true, length};
ghost use Rattle.std.specs.Prelude.{take, ⊤};
ghost use Rattle.std.specs.Prelude.{◌∷◌, IfOk, IfErr, IfSome, OnErr};
ghost use Rattle.hex.specs.Hex.{decode_of};
ghost use Rattle.hunk_commands.specs.HexText.{AppendsSpelled, ReadsHex, ReadsNoHex, RefusesHex, SpellsHex};
ghost use Rattle.hunk_commands.specs.HexText.{is_blank, without_blanks};
ghost use Rattle.hunk_scatter.specs.LoadOutcomes.{GivesAtMost};
ghost use Rattle.hunk_commands.specs.Inputs.{TellsReading};

use crate::fault::RunFault;
use crate::input::{Taker, read_all};
use hunk_words::{History, Source};
use std::alloc::{AllocError, Global};
use std::marker::Model;

/// How many pairs of digits are decoded before their bytes are appended together.
const PAIRS: usize = 1_024;

/// Hexadecimal text that comes by pieces, of which only the bytes that it spells are kept, and a
/// digit whose pair is not whole. Contracts see it as the text so far.
#[derive(Drop)]
struct HexDecoder {
    bytes: Vec<u8>,
    held: Option<u8>,
    refused: bool,
    text: History,
}

impl Model for HexDecoder {
    ghost use Rattle.std.specs.Prelude.{ℕ, List};
    ghost use Rattle.hunk_commands.specs.HexText.{IsDecoded, held_digits};

    ghost Value = { List ℕ };

    ghost view = { λ s. s.text.bytes };

    ghost invariant = { λ s. IsDecoded s.refused s.text.bytes s.bytes.items (held_digits s.held) };
}

impl HexDecoder {
    /// A decoder of no text yet.
    fn new(alloc: Global) -> HexDecoder
        ensures { result ≡ [] }
    {
        HexDecoder {
            bytes: Vec::new(alloc),
            held: None,
            refused: false,
            text: History::new(),
        }
    }

    /// Takes the first byte of the text that follows: a blank, or a digit. It answers how many bytes
    /// that is, all of them where the text is refused before.
    fn take_front(&mut self, text: &[u8]) -> Result<usize, AllocError>
        requires { 0 < length text.now }
        ensures taken { IfOk result (λ count. self.new ≡ self.old ++ take count text.now) }
        ensures some { IfOk result (λ count. 0 < count) }
        ensures inside { IfOk result (λ count. count ≤ length text.now) }
    {
        if self.refused {
            self.text = self.text.and(text);
            return Ok(text.len());
        }
        if !is_blank(text[0]) {
            match self.held {
                None => self.held = Some(text[0]),
                Some(first) => {
                    self.refused = !append_pair(&mut self.bytes, [first, text[0]])?;
                    self.held = None;
                }
            }
        }
        self.text = self.text.and(&text[..1]);
        Ok(1)
    }

    /// Takes the pairs of digits in front of the text that follows, where no digit is held, and
    /// answers how many bytes that is.
    fn take_pairs(&mut self, text: &[u8]) -> Result<usize, AllocError>
        ensures taken { IfOk result (λ count. self.new ≡ self.old ++ take count text.now) }
        ensures inside { IfOk result (λ count. count ≤ length text.now) }
    {
        if self.refused || self.held.is_some() {
            return Ok(0);
        }
        let count = append_pairs(&mut self.bytes, text)?;
        self.text = self.text.and(&text[..count]);
        Ok(count)
    }

    /// The bytes that the text spells.
    ///
    /// # Errors
    ///
    /// `HexText` where it spells none, and `Memory` where memory is refused.
    fn finish(self) -> Result<Vec<u8>, RunFault>
        ensures spelled { IfOk result (λ bytes. SpellsHex self bytes.items) }
        ensures refused { IfErr result (RefusesHex self) }
    {
        let HexDecoder {
            bytes,
            held,
            refused,
            text: _,
        } = self;
        if refused {
            return Err(RunFault::HexText);
        }
        match held {
            None => Ok(bytes),
            Some(_) => Err(RunFault::HexText),
        }
    }
}

impl Taker for HexDecoder {
    ghost took = { λ s. s };

    ghost wants = { λ _ _. ⊤ };

    fn take(&mut self, piece: &[u8]) -> Result<(), AllocError> {
        let mut at = 0;
        'parts: while at < piece.len() {
            at += self.take_pairs(&piece[at..])?;
            if at < piece.len() {
                at += self.take_front(&piece[at..])?;
            }
        }
        Ok(())
    }
}

/// Appends the byte that two digits spell, and answers whether they spell one.
fn append_pair(bytes: &mut Vec<u8>, digits: [u8; 2]) -> Result<bool, AllocError>
    ensures spelled { IfOk result
        (λ spelled. AppendsSpelled spelled digits bytes.old.items bytes.new.items) }
    ensures same { OnErr result (bytes.new.items ≡ bytes.old.items) }
{
    let mut byte = [0u8; 1];
    if hex::decode_to_slice(digits.as_slice(), &mut byte).is_err() {
        return Ok(false);
    }
    bytes.extend_from_slice(&byte)?;
    Ok(true)
}

/// Appends the bytes that the pairs of digits in front of the text spell, at most `PAIRS` bytes, and
/// answers how many digits these are.
fn append_pairs(bytes: &mut Vec<u8>, text: &[u8]) -> Result<usize, AllocError>
    ensures spelled { IfOk result (λ count.
        AppendsSpelled true (take count text.now) bytes.old.items bytes.new.items) }
    ensures inside { IfOk result (λ count. count ≤ length text.now) }
    ensures even { IfOk result (λ count. length (take count text.now) % 2 ≡ 0) }
    ensures digits { IfOk result
        (λ count. without_blanks (take count text.now) ≡ take count text.now) }
    ensures same { OnErr result (bytes.new.items ≡ bytes.old.items) }
{
    let mut room = [0u8; PAIRS];
    let count = decode_pairs(text, &mut room);
    bytes.extend_from_slice(&room[..count])?;
    Ok(2 * count)
}

/// Decodes the pairs of digits in front of the text, as far as there is room for their bytes, and
/// answers how many pairs these are.
fn decode_pairs(text: &[u8], room: &mut [u8]) -> usize
    ensures decoded { decode_of (take (2 * result) text.now) ≡ Ok (take result room.new) }
    ensures inside { 2 * result ≤ length text.now }
    ensures fits { result ≤ length room.new }
{
    let most = room.len().min(text.len() / 2);
    let mut count = 0;
    'pairs: while count < most {
        let Some(byte) = byte_of(text[2 * count], text[2 * count + 1]) else {
            return count;
        };
        room[count] = byte;
        count += 1;
    }
    count
}

/// The byte that two digits spell, where both are digits.
#[inline(always)]
fn byte_of(high: u8, low: u8) -> Option<u8>
    ensures { IfSome result (λ byte. decode_of (high ∷ low ∷ []) ≡ Ok (byte ∷ [])) }
{
    let high = VALUES[high as usize];
    let low = VALUES[low as usize];
    if high > 15 || low > 15 {
        return None;
    }
    Some(high * 16 + low)
}

/// The value of each digit, in either case, and 255 for each other byte.
static VALUES: [u8; 256] = [
    255, 255, 255, 255, 255, 255, 255, 255, 255, 255, 255, 255, 255, 255, 255, 255, 255, 255, 255,
    255, 255, 255, 255, 255, 255, 255, 255, 255, 255, 255, 255, 255, 255, 255, 255, 255, 255, 255,
    255, 255, 255, 255, 255, 255, 255, 255, 255, 255, 0, 1, 2, 3, 4, 5, 6, 7, 8, 9, 255, 255, 255,
    255, 255, 255, 255, 10, 11, 12, 13, 14, 15, 255, 255, 255, 255, 255, 255, 255, 255, 255, 255,
    255, 255, 255, 255, 255, 255, 255, 255, 255, 255, 255, 255, 255, 255, 255, 255, 10, 11, 12, 13,
    14, 15, 255, 255, 255, 255, 255, 255, 255, 255, 255, 255, 255, 255, 255, 255, 255, 255, 255,
    255, 255, 255, 255, 255, 255, 255, 255, 255, 255, 255, 255, 255, 255, 255, 255, 255, 255, 255,
    255, 255, 255, 255, 255, 255, 255, 255, 255, 255, 255, 255, 255, 255, 255, 255, 255, 255, 255,
    255, 255, 255, 255, 255, 255, 255, 255, 255, 255, 255, 255, 255, 255, 255, 255, 255, 255, 255,
    255, 255, 255, 255, 255, 255, 255, 255, 255, 255, 255, 255, 255, 255, 255, 255, 255, 255, 255,
    255, 255, 255, 255, 255, 255, 255, 255, 255, 255, 255, 255, 255, 255, 255, 255, 255, 255, 255,
    255, 255, 255, 255, 255, 255, 255, 255, 255, 255, 255, 255, 255, 255, 255, 255, 255, 255, 255,
    255, 255, 255, 255, 255, 255, 255, 255, 255, 255, 255, 255, 255, 255, 255, 255, 255, 255, 255,
    255, 255, 255,
];

/// Whether the byte may stand between digits.
fn is_blank(byte: u8) -> bool
    ensures { result ≡ is_blank byte }
{
    matches!(byte, b' ' | b'\t' | b'\r' | b'\n')
}

/// The bytes that the text spells, two digits a byte, where its spaces, tabs, CR and LF count for
/// nothing.
///
/// # Errors
///
/// `HexText` where it spells none: another byte than a digit or a blank, or an odd number of
/// digits. `Memory` where memory is refused.
pub fn unhex(alloc: Global, text: &[u8]) -> Result<Vec<u8>, RunFault>
    ensures spelled { IfOk result (λ bytes. SpellsHex text.now bytes.items) }
    ensures refused { IfErr result (RefusesHex text.now) }
{
    let mut decoder = HexDecoder::new(alloc);
    decoder.take(text)?;
    decoder.finish()
}

/// The bytes that all of the source's text spells, as by `unhex`, of fewer than `most` bytes of
/// text. The text is decoded as it is read, and not kept.
///
/// # Errors
///
/// The places are in bytes of text, from where the source stood before the call.
///
/// - `Refused` with `FileLimit`, at `most`, where `most` bytes of text were read, before an end is
///   looked for.
/// - `Read` where the source failed, at the number of bytes of text read.
/// - `HexText` where the text was read to its end and spells no bytes.
/// - `Memory` where memory is refused.
///
/// What was read of the source stays read.
pub fn read_hex<S: Source>(alloc: Global, source: &mut S, most: u64) -> Result<Vec<u8>, RunFault>
    ensures spelled { IfOk result
        (λ bytes. ReadsHex (S.supply source.old) (S.supply source.new) most bytes.items) }
    ensures refused { IfErr result
        (λ fault. ReadsNoHex fault (S.supply source.old) (S.supply source.new) most) }
    ensures limit { GivesAtMost (S.supply source.old) (S.supply source.new) most }
    ensures tells_read { TellsReading (S.supply source.old) (S.supply source.new) result }
{
    let mut decoder = HexDecoder::new(alloc);
    read_all(source, most, &mut decoder)?;
    decoder.finish()
}
