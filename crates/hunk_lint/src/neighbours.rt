//! What stands near an offset, among those of its hunk.
ghost use Rattle.std.specs.Prelude.{◌≡◌, ◌+◌, ◌^◌, ◌<◌, ◌≤◌, ◌==◌, IfSome, IfNone, length, nat_lt, slice_index};
ghost use Rattle.std.specs.List.{count_by, filter};
ghost use Rattle.std.specs.List.Sorted.{IsNonDecreasing, IsPartitionPoint};
ghost use Rattle.hunk_lint.specs.Suspicious.{is_close, least};

/// What stands near an offset.
#[derive(Clone, Copy)]
pub(crate) struct Neighbours {
    /// Whether the offset stands twice.
    pub(crate) is_twice: bool,
    /// The least of the others that are 1 to 3 apart.
    pub(crate) other: Option<u32>,
}

/// What stands near this offset, among rising ones.
///
/// Equal offsets, however many, cost nothing more.
pub(crate) fn neighbours_of(rising: &[u32], offset: u32) -> Neighbours
    requires rising { IsNonDecreasing rising.now }
    requires inside { offset + 4 < 2 ^ 32 }
    ensures twice { result.is_twice ≡ nat_lt 1 (count_by (λ o. o == offset) rising.now) }
    ensures other { result.other ≡ least (filter (is_close offset) rising.now) }
{
    let first = below(rising, offset.saturating_sub(3));
    let here = below(rising, offset);
    let after = below(rising, offset + 1);
    let at = if first < here { first } else { after };
    let is_twice = here + 1 < after;
    let other = element_below(rising, at, offset + 4);
    Neighbours { is_twice, other }
}

/// The element at `at`, where there is one and it is below `end`.
fn element_below(rising: &[u32], at: usize, end: u32) -> Option<u32>
    ensures some { IfSome result (λ n. (at < length rising.now) × (slice_index rising.now at ≡ n)
        × (n < end)) }
    ensures none { IfNone result (at < length rising.now → end ≤ slice_index rising.now at) }
{
    match rising.get(at) {
        Some(&element) if element < end => Some(element),
        _ => None,
    }
}

/// How many of the rising offsets are below this one.
fn below(rising: &[u32], offset: u32) -> usize
    requires { IsNonDecreasing rising.now }
    ensures bound { result ≤ length rising.now }
    ensures point { IsPartitionPoint (λ y. y < offset) (λ y. offset ≤ y) rising.now result }
{
    rising.partition_point(|it| *it < offset)
}
