//! What answers say of a file of either kind.
ghost use Rattle.std.specs.Prelude.{◌≡◌};
ghost use Rattle.hunk_files.specs.FileView.{file_of};
ghost use Rattle.hunk_c.specs.Files.{hunks_in};

use hunk_files::FileView;

/// The number of hunks of a load file; of an object file, 0.
pub(crate) fn hunks_in(file: &FileView<'_>) -> u32
    ensures { result ≡ hunks_in (file_of file.now) }
{
    match file {
        FileView::Load { file, rest: _ } => file.hunks(),
        FileView::Object(_) => 0,
    }
}
