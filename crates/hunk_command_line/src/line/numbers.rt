//! The numbers of a command line, HEX and N.
ghost use Rattle.std.specs.Prelude.{◌≡◌, ◌==◌, slice_index};
ghost use Rattle.hunk_command_line.specs.Line.{base_spelled, budget_spelled};

/// Whether the text begins with a plus, which `from_str_radix` and `parse` pass over.
fn has_plus(text: &str) -> bool
    ensures { result ≡ (slice_index text.now 0 == 43) }
{
    text.as_bytes().first() == Some(&b'+')
}

/// The number that HEX spells: exactly eight hexadecimal digits.
pub(super) fn base_of(text: &str) -> Option<u32>
    ensures { result ≡ base_spelled text.now }
{
    if text.len() != 8 || has_plus(text) {
        return None;
    }
    u32::from_str_radix(text, 16).ok()
}

/// The number that N spells: one or more decimal digits, of a number below 2^64.
pub(super) fn budget_of(text: &str) -> Option<u64>
    ensures { result ≡ budget_spelled text.now }
{
    if has_plus(text) {
        return None;
    }
    text.parse::<u64>().ok()
}
