//! A row of the suite: a file, and what a reader has to answer.

/// What `LoadFile::decode` answers.
#[derive(Clone, Copy, Debug, PartialEq, Eq)]
pub enum Want {
    /// The bytes begin with a load file of that many hunks, which declare that many bytes together.
    Accepted { hunks: u32, bytes: u64 },
    /// The longword at this byte is refused, for the reason of this number, or the bytes end too
    /// soon, at 4 times the number of whole longwords (number 26).
    Refused { place: u64, number: u8 },
}

/// What `ObjectFile::decode` and `check` answer.
#[derive(Clone, Copy, Debug, PartialEq, Eq)]
pub enum ObjectWant {
    /// The bytes are an object file of that many units, with that many findings.
    Accepted { units: u64, findings: u64 },
    /// The longword at this byte is refused, or the bytes end too soon, as in `Want`.
    Refused { place: u64, number: u8 },
}

/// What a reader of wide spellings answers.
#[derive(Clone, Copy, Debug, PartialEq, Eq)]
pub enum WideWant {
    /// The bytes begin with a wide spelling of a file, which has a plain spelling.
    Accepted,
    /// What begins at this byte of the wide spelling is refused, or the bytes end too soon, as in
    /// `Want`.
    Refused { place: u64, number: u8 },
}

/// A file as hexadecimal text, and its answer: a load file, where nothing else is said.
#[derive(Clone, Copy, Debug, PartialEq, Eq)]
pub struct Vector<W = Want> {
    /// The number of the worked example that it is from.
    pub row: u32,
    /// The file, in hexadecimal digits alone, two for each byte.
    pub text: &'static str,
    /// What a reader has to answer.
    pub want: W,
}

/// An object file and its answer.
pub type ObjectVector = Vector<ObjectWant>;

/// The answer to a wide spelling: of an object file, where its first longword is 3E7, and else of a
/// load file.
#[derive(Clone, Copy, Debug, PartialEq, Eq)]
pub struct WideVector {
    /// The number of the example that it is from.
    pub row: u32,
    /// What a reader has to answer.
    pub want: WideWant,
}

/// A load file of the suite, whose hunks lie one after the other in memory.
#[derive(Clone, Copy, Debug, PartialEq, Eq)]
pub struct ImageVector {
    /// The entry of `VECTORS` that is loaded.
    pub file: usize,
    /// The address of its first hunk.
    pub base: u32,
}

/// The row of the table with this example, this text, and what a reader has to answer.
macro_rules! row {
    ($row:literal, $text:ident => $want:ident::$answer:ident { $($field:ident: $number:literal),* }) => {
        $crate::vector::Vector {
            row: $row,
            text: $text,
            want: $want::$answer { $($field: $number),* },
        }
    };
}

/// The answer to a wide spelling of this example.
macro_rules! wide {
    ($row:literal => $($want:tt)+) => {
        WideVector {
            row: $row,
            want: WideWant::$($want)+,
        }
    };
}

/// The load file of this number, and its base.
macro_rules! image {
    ($file:literal, $base:literal) => {
        ImageVector {
            file: $file,
            base: $base,
        }
    };
}

pub(crate) use image;
pub(crate) use row;
pub(crate) use wide;
