//! The plain spelling of an input that is in hand whole, written at once.
ghost use Rattle.std.specs.Prelude.{◌≡◌, ◌<◌, ◌≤◌, ◌++◌, ◌⊎◌, [], IfErr, IfOk, OnErr, length, drop};
ghost use Rattle.hunk_wide.specs.Held.{left_of, wanted};
ghost use Rattle.hunk_wide.specs.Plain.{plain, plain_from};

use crate::expander::{Expander, is_last};
use crate::position::FilePosition;
use crate::spelling::{spelling_from, spelling_of};
use crate::spot::Spot;
use crate::units::expand;
use hunk_grammar::Position;

/// An input of fewer bytes is counted before it is written.
const FEW: usize = 8192;

/// There is no room for the plain spelling.
#[derive(Clone, Copy, Debug, PartialEq, Eq)]
pub struct NoRoom {
    /// The number of its bytes.
    pub needed: u64,
}

/// Writes the plain spelling of the input to the front of `out`, and gives the number of its bytes.
/// The bytes of `out` after it stay as they were.
///
/// # Errors
///
/// `NoRoom` where `out` has fewer bytes than the plain spelling. Then nothing is written.
pub fn write_plain(bytes: &[u8], out: &mut [u8]) -> Result<usize, NoRoom>
    ensures count { IfOk result (λ count. count ≡ length (plain bytes.now)) }
    ensures written { IfOk result (λ count. out.new ≡ plain bytes.now ++ drop count out.old) }
    ensures needed { IfErr result (λ e. e.needed ≡ length (plain bytes.now)) }
    ensures no_room { IfErr result (λ e. length out.old < e.needed) }
    ensures stays { OnErr result (out.new ≡ out.old) }
{
    // The plain spelling has at most twice as many bytes. Few are sooner counted and copied.
    if bytes.len() < FEW || out.len() / 2 < bytes.len() {
        let spelling = spelling_of(bytes);
        let needed = spelling.len;
        if needed > out.len() as u64 {
            return Err(NoRoom { needed });
        }
        if spelling.is_plain() {
            copy(bytes, &mut out[..bytes.len()]);
            return Ok(bytes.len());
        }
    }
    Ok(fill(bytes, out))
}

/// Fills the buffer, which has just as many bytes, with the input, which is its own plain spelling.
#[inline(always)]
fn copy(bytes: &[u8], out: &mut [u8])
    requires same { plain bytes.now ≡ bytes.now }
    requires room { length out.old ≡ length (plain bytes.now) }
    ensures { out.new ≡ plain bytes.now }
{
    out.copy_from_slice(bytes);
}

/// Writes the plain spelling to the front of the buffer, which has room for it, and gives the number
/// of its bytes.
#[inline(never)]
fn fill(bytes: &[u8], out: &mut [u8]) -> usize
    requires { length (plain bytes.now) ≤ length out.old }
    ensures count { result ≡ length (plain bytes.now) }
    ensures written { out.new ≡ plain bytes.now ++ drop result out.old }
{
    let on = expand(
        Spot::Long(FilePosition::Load(Position::FirstLong)),
        bytes,
        out,
    );
    on.given + fill_front(on.next, &bytes[on.taken..], &mut out[on.given..])
}

/// The same of these bytes, which are for this, up to the end of the input.
#[inline(never)]
fn fill_front(spot: Spot, bytes: &[u8], out: &mut [u8]) -> usize
    requires { length (plain_from spot bytes.now) ≤ length out.old }
    ensures count { result ≡ length (plain_from spot bytes.now) }
    ensures written { out.new ≡ plain_from spot bytes.now ++ drop result out.old }
{
    if bytes.is_empty() && !is_last(spot) {
        return 0;
    }
    let count = spelling_from(spot, bytes).len as usize;
    fill_rest(spot, bytes, &mut out[..count]);
    count
}

/// The same where the buffer has just as many bytes. It goes a unit at a time.
#[inline(never)]
fn fill_rest(spot: Spot, bytes: &[u8], out: &mut [u8])
    requires { length out.old ≡ length (plain_from spot bytes.now) }
    ensures { out.new ≡ plain_from spot bytes.now }
{
    let mut held = Expander::at(spot);
    let mut rest = bytes;
    let mut at = 0;
    'units: loop {
        at += held.give(&mut out[at..]);
        let want = held.want();
        if want == 0 || rest.len() < want {
            break 'units;
        }
        held.take(&rest[..want]);
        rest = &rest[want..];
    }
    fill_last(held, rest, &mut out[at..]);
}

/// The same, where this is held, and all bytes pass, or no unit is whole.
#[inline(never)]
fn fill_last(held: Expander, bytes: &[u8], out: &mut [u8])
    requires ready { held.ready ≡ [] }
    requires few { (wanted held ≡ 0) ⊎ (length bytes.now < wanted held) }
    requires room { length out.old ≡ length (left_of held bytes.now) }
    ensures { out.new ≡ left_of held bytes.now }
{
    let mut held = held;
    if held.want() == 0 {
        out.copy_from_slice(bytes);
        return;
    }
    held.take(bytes);
    held.end();
    held.give(out);
}
