//! Lists that grow.
ghost use Rattle.std.specs.Prelude.{◌≡◌, ◌≤◌, ◌++◌, ◌∷◌, [], OnErr, is_ok, if◌then◌else◌, vec_capacity, vec_len};

use std::alloc::AllocError;

/// How many items a list that has no room gets room for.
const FIRST_ROOM: usize = 4;

/// Appends the item; a list that has no room gets its first at once, without the call that grows a
/// list.
///
/// # Errors
///
/// `AllocError` where memory is refused, which only a list without room to spare asks for. The item
/// is dropped, and the list has the items that it had.
#[inline(always)]
pub fn append<T: Drop>(list: &mut Vec<T>, item: T) -> Result<(), AllocError>
    ensures items { list.new.items
        ≡ (if is_ok result then list.old.items ++ item ∷ [] else list.old.items) }

    // Only a list without room to spare asks for memory.
    ensures full { OnErr result (vec_capacity list.old ≤ vec_len list.old) }
{
    if list.is_empty() && list.capacity() == 0 {
        *list = Vec::with_capacity(*list.allocator(), FIRST_ROOM)?;
    }
    list.push(item)?;
    Ok(())
}
