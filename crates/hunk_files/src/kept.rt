//! The blocks that a stripped file keeps.
ghost use Rattle.std.specs.Prelude.{◌≡◌};
ghost use Rattle.hunk_files.specs.Strip.{is_kept};

use hunk_blocks::{Block, Body};

/// Whether the block says what the hunk is, rather than names, describes or comments it.
pub(crate) fn is_kept(block: &Block<'_>) -> bool
    ensures { result ≡ is_kept block.now.body }
{
    !matches!(
        block.body(),
        Body::Name(_) | Body::Symbol(_) | Body::Debug(_) | Body::Advisory(_)
    )
}
