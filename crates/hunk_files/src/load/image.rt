//! The memory of a load file's hunks, as one list of bytes.
ghost use Rattle.std.specs.Prelude.{◌≡◌, ◌≢◌, ◌↔◌, Err, IfOk, length};
ghost use Rattle.hunk_files.specs.Image.{images};
ghost use Rattle.hunk_files.specs.declared.load.image.ImageFault.TheVariants as faults;

use crate::load::file::LoadFile;
use std::alloc::{AllocError, Global};
use thiserror::Error;

/// Why there is no image.
#[derive(Clone, Copy, Debug, PartialEq, Eq, Error)]
pub enum ImageFault {
    /// There is not just one base for each hunk.
    #[error("wrong number of bases")]
    BaseCount,
    /// Memory was refused.
    #[error("out of memory")]
    OutOfMemory,
}

impl From<AllocError> for ImageFault {
    ghost from_gives = { λ _ fault. fault ≡ faults.OutOfMemory };

    fn from(_: AllocError) -> ImageFault {
        ImageFault::OutOfMemory
    }
}

impl LoadFile<'_> {
    /// The memory of all hunks, one after the other, where hunk number i lies at `bases[i]`.
    ///
    /// A hunk's memory is its contents, zero bytes up to its declared bytes, and for each RELOC32
    /// offset, in file order, the base of the target added to the long there, modulo 2^32: at any
    /// offset, also where longs overlap. It takes memory for `total()` bytes.
    ///
    /// That RELOC32 adds the base of the target is from The AmigaDOS Manual and `dos/doshunks.h`.
    /// The zero bytes, the order, odd offsets and the sum modulo 2^32 are this project's own
    /// choice.
    ///
    /// # Errors
    ///
    /// - `BaseCount` where the number of bases is not `hunks()`, and only there.
    /// - `OutOfMemory` where memory is refused.
    pub fn image(&self, alloc: Global, bases: &[u32]) -> Result<Vec<u8>, ImageFault>
        ensures count { (result ≡ Err faults.BaseCount) ↔ (length bases.now ≢ length self.now) }
        ensures image { IfOk result (λ memory. memory.items ≡ images bases.now self.now) }
    {
        if bases.len() != self.hunks.len() {
            return Err(ImageFault::BaseCount);
        }
        let mut memory = vec![in alloc; 0; self.total() as usize]?;
        let mut bases = bases;
        self.view.fill_images(&mut memory, &mut bases);
        Ok(memory)
    }
}
