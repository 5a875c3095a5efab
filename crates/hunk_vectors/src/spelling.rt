//! The bytes of the files of the suite.
ghost use Rattle.std.specs.Prelude.{◌≡◌, ◌<◌, true, length, is_ok, map, slice_get, IfOk, IfSome, IsTrue};
ghost use Rattle.std.specs.List.{list_all};
ghost use Rattle.hex.specs.Hex.{decode_of};
ghost use Rattle.hunk_vectors.specs.Texts.{Spells};

use crate::image_table::MEMORY_TEXTS;
use crate::load_table::{LOAD_TEXTS, VECTORS};
use crate::object_table::{OBJECT_TEXTS, OBJECTS};
use crate::vector::Vector;
use crate::wide_texts::{PLAIN_TEXTS, WIDE_TEXTS};
use crate::write_table::WRITE_TEXTS;
use hex::FromHexError;
use std::alloc::{AllocError, Global};

/// The bytes that the text of entry `i` of `VECTORS` spells, counted from 0.
///
/// # Errors
///
/// `AllocError` where memory is refused.
pub fn bytes(alloc: Global, i: usize) -> Result<Vec<u8>, AllocError>
    requires { i < length LOAD_TEXTS }
    ensures { IfOk result
        (λ bytes. IfSome (slice_get (map (λ text. text.now) LOAD_TEXTS) i)
        (λ text. Spells text bytes.items)) }
{
    row_bytes(alloc, &VECTORS, i)
}

/// The bytes that the text of entry `i` of `OBJECTS` spells, counted from 0.
///
/// # Errors
///
/// `AllocError` where memory is refused.
pub fn object_bytes(alloc: Global, i: usize) -> Result<Vec<u8>, AllocError>
    requires { i < length OBJECT_TEXTS }
    ensures { IfOk result
        (λ bytes. IfSome (slice_get (map (λ text. text.now) OBJECT_TEXTS) i)
        (λ text. Spells text bytes.items)) }
{
    row_bytes(alloc, &OBJECTS, i)
}

/// The bytes that entry `i` of `WIDE_TEXTS` spells, counted from 0.
///
/// # Errors
///
/// `AllocError` where memory is refused.
pub fn wide_bytes(alloc: Global, i: usize) -> Result<Vec<u8>, AllocError>
    requires { i < length WIDE_TEXTS }
    ensures { IfOk result
        (λ bytes. IfSome (slice_get (map (λ text. text.now) WIDE_TEXTS) i)
        (λ text. Spells text bytes.items)) }
{
    listed_bytes(alloc, &WIDE_TEXTS, i)
}

/// The bytes that entry `i` of `PLAIN_TEXTS` spells, counted from 0: none where the text is refused.
///
/// # Errors
///
/// `AllocError` where memory is refused.
pub fn plain_bytes(alloc: Global, i: usize) -> Result<Vec<u8>, AllocError>
    requires { i < length PLAIN_TEXTS }
    ensures { IfOk result
        (λ bytes. IfSome (slice_get (map (λ text. text.now) PLAIN_TEXTS) i)
        (λ text. Spells text bytes.items)) }
{
    listed_bytes(alloc, &PLAIN_TEXTS, i)
}

/// The bytes that entry `i` of `MEMORY_TEXTS` spells, counted from 0.
///
/// # Errors
///
/// `AllocError` where memory is refused.
pub fn memory_bytes(alloc: Global, i: usize) -> Result<Vec<u8>, AllocError>
    requires { i < length MEMORY_TEXTS }
    ensures { IfOk result
        (λ bytes. IfSome (slice_get (map (λ text. text.now) MEMORY_TEXTS) i)
        (λ text. Spells text bytes.items)) }
{
    listed_bytes(alloc, &MEMORY_TEXTS, i)
}

/// The bytes that entry `i` of `WRITE_TEXTS` spells, counted from 0.
///
/// # Errors
///
/// `AllocError` where memory is refused.
pub fn written_bytes(alloc: Global, i: usize) -> Result<Vec<u8>, AllocError>
    requires { i < length WRITE_TEXTS }
    ensures { IfOk result
        (λ bytes. IfSome (slice_get (map (λ text. text.now) WRITE_TEXTS) i)
        (λ text. Spells text bytes.items)) }
{
    listed_bytes(alloc, &WRITE_TEXTS, i)
}

/// The bytes that text `i` spells.
fn listed_bytes(alloc: Global, texts: &[&'static str], i: usize) -> Result<Vec<u8>, AllocError>
    requires inside { i < length texts.now }
    requires texts { list_all (λ text. is_ok (decode_of text.now)) texts.now ≡ true }
    ensures { IfOk result
        (λ bytes. IfSome (slice_get (map (λ text. text.now) texts.now) i)
        (λ text. Spells text bytes.items)) }
{
    text_bytes(alloc, texts[i])
}

/// The bytes that the text of row `i` spells.
fn row_bytes<W>(alloc: Global, rows: &[Vector<W>], i: usize) -> Result<Vec<u8>, AllocError>
    requires inside { i < length rows.now }
    requires texts { list_all (λ row. is_ok (decode_of row.text.now)) rows.now ≡ true }
    ensures { IfOk result
        (λ bytes. IfSome (slice_get (map (λ row. row.text.now) rows.now) i)
        (λ text. Spells text bytes.items)) }
{
    text_bytes(alloc, rows[i].text)
}

/// The bytes that a text spells.
fn text_bytes(alloc: Global, text: &str) -> Result<Vec<u8>, AllocError>
    requires { IsTrue (is_ok (decode_of text.now)) }
    ensures { IfOk result (λ bytes. Spells text.now bytes.items) }
{
    match hex::decode(alloc, text) {
        Ok(bytes) => Ok(bytes),
        Err(FromHexError::OutOfMemory) => Err(AllocError),
        Err(_) => unreachable!(),
    }
}
