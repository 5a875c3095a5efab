//! Bytes that are copied to the caller's text, range after range.
ghost use Rattle.std.specs.Prelude.{◌≡◌};
ghost use Rattle.std.proofs.Common.{◌∙◌, refl};
ghost use Rattle.hunk_parts.specs.Copying.{Copies, copies_none, copies_more};

use hunk_files::TakesBytes;

/// Copies each range after the one before, unless there is no room for it.
#[derive(Drop)]
pub struct Copier<'t> {
    pub text: &'t mut [u8],
    /// The place of the next range.
    pub at: usize,
}

impl TakesBytes for Copier<'_> {
    ghost takes = { λ a xs b. (b.text.ghost_name ≡ a.text.ghost_name)
        × Copies a.text.now a.at xs b.text.now b.at };

    ghost none = { λ s. (refl, copies_none s.text.now s.at) };

    ghost more = { λ a b c xs ys first next. (
      next.0 ∙ first.0,
      copies_more a.text.now b.text.now c.text.now a.at b.at c.at xs ys first.1 next.1,
    ) };

    fn take(&mut self, bytes: &[u8]) {
        let room = self.text.len();
        if self.at <= room && bytes.len() <= room - self.at {
            let end = self.at + bytes.len();
            self.text[self.at..end].copy_from_slice(bytes);
            self.at = end;
        }
    }
}
