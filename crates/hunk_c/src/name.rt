//! Names that stand in a file.
ghost use Rattle.std.specs.Prelude.{◌≡◌, length};
ghost use Rattle.hunk_blocks.specs.NameText.{before_zero};

/// How many bytes stand before the first zero byte.
pub(crate) fn text_length(name: &[u8]) -> u64
    ensures { result ≡ length (before_zero name.now) }
{
    'bytes: for (at, byte) in name.iter().enumerate() {
        if *byte == 0 {
            return at as u64;
        }
    }
    name.len() as u64
}
