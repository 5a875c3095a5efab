//! Where hunks go.
ghost use Rattle.std.specs.Prelude.{◌≡◌, ℕ, Option};
ghost use Rattle.hunk_files.specs.declared.row.Row.{Row};
ghost use Rattle.hunk_scatter.specs.Placing.{listed_in, packed_from};

use hunk_files::Row;

/// Says where each hunk of a load file goes.
pub trait Placer {
    ghost base: { Self → ℕ → Row → ℕ → Option ℕ };

    /// The address at which the hunk begins; `None` where there is no place for it.
    ///
    /// `hunk` is its number, counted from 0, and `row` its entry of the table, with base 0.
    /// `before` is the number of bytes that the earlier hunks declare together. The answer is a
    /// function of the placer's value and these.
    fn base(&self, hunk: u32, row: &Row, before: u64) -> Option<u32>
        ensures { result ≡ base self.now hunk row.now before };
}

/// Hunks one after another from `start` on, up to the end of the address space of 32 bits.
#[derive(Clone, Copy, Debug, PartialEq, Eq)]
pub struct Packed {
    /// The address of the first hunk.
    pub start: u32,
}

impl Placer for Packed {
    ghost base = { λ s. packed_from s.start };

    fn base(&self, _hunk: u32, row: &Row, before: u64) -> Option<u32> {
        const END: u64 = 1 << 32;
        if before >= END - u64::from(self.start) {
            return None;
        }
        let base = u64::from(self.start) + before;
        if base + row.size().bytes() > END {
            return None;
        }
        Some(base as u32)
    }
}

/// Hunks at these addresses: that of hunk `i`, counted from 0, stands at index `i`. A hunk past
/// their end has none.
#[derive(Clone, Copy, Debug)]
pub struct Listed<'a>(pub &'a [u32]);

impl Placer for Listed<'_> {
    ghost base = { λ s. listed_in s.0.now };

    fn base(&self, hunk: u32, _row: &Row, _before: u64) -> Option<u32> {
        self.0.get(hunk as usize).copied()
    }
}
