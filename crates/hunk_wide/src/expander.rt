//! What is held between the bytes of a wide spelling and those of the plain one.
ghost use Rattle.std.specs.Prelude.{◌≡◌, ℕ, ◌+◌, ◌-◌, ◌*◌, ◌==◌, ◌≤◌, ◌<◌, List, [], ◌∷◌, ◌++◌};
ghost use Rattle.std.specs.Prelude.{length, take, drop, min};
ghost use Rattle.std.specs.Prelude.{IsTrue, ◌↔◌, ◌⊎◌};
ghost use Rattle.hunk_grammar.specs.declared.position.Position.TheVariants.{FirstLong};
ghost use Rattle.hunk_words.specs.Longs.{bytes_of};
ghost use Rattle.hunk_words.specs.PendingBytes.{pending_of};
ghost use Rattle.hunk_wide.specs.Held.{left_of, owed, reach, straight_of, unit, wanted};
ghost use Rattle.hunk_wide.specs.FileEnds.{ends, is_last};
ghost use Rattle.hunk_wide.specs.InFile.{spot_after, spot_of};
ghost use Rattle.hunk_wide.specs.Longwords.{out_long};
ghost use Rattle.hunk_wide.specs.Plain.{plain, plain_from};
ghost use Rattle.std.specs.Int.{to_be_bytes, w32};
ghost use Rattle.hunk_wide.specs.declared.position.FilePosition.TheVariants.{Load};
ghost use Rattle.hunk_wide.specs.declared.spot.Spot.TheVariants.{Filler, Half, Long, Passing, Straight};

use crate::position::FilePosition;
use crate::ready::Ready;
use crate::spot::{Given, ShortPart, Spot, long_word};
use crate::units::expand;
use hunk_grammar::{Phase, Position};
use hunk_words::Pending;
use std::fmt;
use std::marker::Model;

/// Makes the bytes of the plain spelling from those of a wide one.
///
/// Contracts see what it holds: the bytes that are ready to be given out, what the next bytes are
/// for, and which of these have come.
#[derive(Drop)]
pub struct Expander {
    ready: Ready,
    spot: Spot,
    begun: Pending,
}

impl Model for Expander {
    ghost use Rattle.std.specs.Prelude.{◌≡◌, ◌≤◌, ◌-◌, ◌⊎◌, []};
    ghost use Rattle.hunk_words.specs.PendingBytes.{pending_of};
    ghost use Rattle.hunk_wide.specs.Held.{Held, unit};

    ghost Value = { Held };

    ghost view = { λ s. record { ready = s.ready; spot = s.spot; begun = pending_of s.begun } };

    ghost invariant = { λ s. (s.begun.count ≤ unit s.spot - 1)
        × ((s.ready ≡ []) ⊎ (s.begun.count ≡ 0)) };
}

impl fmt::Debug for Expander {
    fn fmt<F: fmt::Write>(&self, f: &mut fmt::Formatter<F>) -> fmt::Result {
        f.debug_struct("Expander").finish_non_exhaustive()
    }
}

impl Expander {
    /// Of a file that begins here.
    pub fn new() -> Expander
        ensures left { (more : List ℕ) → left_of result more ≡ plain more }
        ensures spot { (more : List ℕ) → spot_of result more
            ≡ spot_after (Long (Load FirstLong)) more }
    {
        Expander::at(Spot::Long(FilePosition::Load(Position::FirstLong)))
    }

    /// Where nothing is held, and the next bytes are for this.
    #[inline(always)]
    pub(crate) fn at(spot: Spot) -> Expander
        ensures { result ≡ record { ready = []; spot = spot; begun = [] } }
    {
        Expander {
            ready: Ready::none(),
            spot,
            begun: Pending::NONE,
        }
    }

    /// How many bytes are wanted before any can be given out: none where there are some, or where
    /// all bytes pass. Never more is held than 8 bytes that are ready, and 3 that have come.
    pub fn want(&self) -> usize
        ensures value { result ≡ wanted self.now }
        ensures bound { result ≤ 4 }
        ensures holds_few { (length self.now.ready ≤ 8) × (length self.now.begun < 4) }
        ensures one_unit { (self.now.ready ≡ []) ⊎ (self.now.begun ≡ []) }
        ensures passes { result ≡ 0 → self.now.ready ≡ []
            → (self.now.spot ≡ Passing) × (self.now.begun ≡ []) }
    {
        if !self.ready.is_empty() {
            return 0;
        }
        let unit = match self.spot {
            Spot::Passing => 0,
            Spot::Straight { owed: _, next: _ } => 1,
            Spot::Long(_) => 4,
            Spot::Half { .. } | Spot::Filler(_) => 2,
        };
        unit - usize::from(self.begun.count)
    }

    /// Takes bytes that are wanted.
    pub fn take(&mut self, piece: &[u8])
        requires { length piece.now ≤ wanted self.old }
        ensures left { (more : List ℕ) → left_of self.new more
            ≡ left_of self.old (piece.now ++ more) }
        ensures spot { (more : List ℕ) → spot_of self.new more
            ≡ spot_of self.old (piece.now ++ more) }
        ensures fewer { 0 < length piece.now → owed self.new < owed self.old }
        ensures wants { wanted self.old ≤ wanted self.new + length piece.now }
    {
        'bytes: for byte in piece {
            self.push(*byte);
        }
    }

    /// Takes one byte.
    fn push(&mut self, byte: u8)
        requires { 0 < wanted self.old }
        ensures left { (more : List ℕ) → left_of self.new more ≡ left_of self.old (byte ∷ more) }
        ensures spot { (more : List ℕ) → spot_of self.new more ≡ spot_of self.old (byte ∷ more) }
        ensures wanted { wanted self.old ≤ wanted self.new + 1 }
        ensures fewer { owed self.new < owed self.old }
    {
        *self = after(self.spot, self.begun, byte);
    }

    /// No byte comes any more.
    pub fn end(&mut self)
        requires { self.old.ready ≡ [] }
        ensures given { self.new.ready ≡ left_of self.old [] }
        ensures nothing { self.new.begun ≡ [] }
        ensures passes { self.new.spot ≡ Passing }
    {
        self.ready = ready_end(self.spot, self.begun);
        self.spot = Spot::Passing;
        self.begun = Pending::NONE;
    }

    /// Of the bytes of the piece, if they come next, the first ones that are given out as they are.
    pub fn straight<'a>(&self, piece: &'a [u8]) -> &'a [u8]
        ensures front { result.now ≡ straight_of self.now piece.now }
        ensures bare { 0 < length result.now → (self.now.ready ≡ []) × (self.now.begun ≡ []) }
    {
        if !self.is_bare() {
            return &piece[..0];
        }
        match self.spot {
            Spot::Passing => piece,
            Spot::Straight { owed, next: _ } => {
                let most = (piece.len() as u64).min(owed.saturating_add(1)) as usize;
                &piece[..most]
            }
            _ => &piece[..0],
        }
    }

    /// So many bytes were given out as they are.
    pub fn pass(&mut self, count: u64)
        requires { (bytes : List ℕ) → length bytes ≡ count → straight_of self.old bytes ≡ bytes }
        ensures left { (bytes more : List ℕ) → length bytes ≡ count
            → left_of self.old (bytes ++ more) ≡ bytes ++ left_of self.new more }
        ensures spot { (bytes more : List ℕ) → length bytes ≡ count
            → spot_of self.old (bytes ++ more) ≡ spot_of self.new more }
        ensures same { (self.new.ready ≡ self.old.ready) × (self.new.begun ≡ self.old.begun) }
        ensures straight { (bytes : List ℕ) → count ≤ length (straight_of self.old bytes)
            → straight_of self.new (drop count bytes) ≡ drop count (straight_of self.old bytes) }
    {
        if count == 0 {
            return;
        }
        if let Spot::Straight { owed, next } = self.spot {
            self.spot = Spot::behind_straight(owed, next, count);
        }
    }

    /// Whether no byte is ready, and none of the next unit has come.
    fn is_bare(&self) -> bool
        ensures { IsTrue result ↔ ((self.now.ready ≡ []) × (self.now.begun ≡ [])) }
    {
        self.ready.is_empty() && self.begun.count == 0
    }

    /// Gives out into the buffer what the first bytes of the piece are for, as far as both go, and
    /// how many bytes it took and gave out. It takes whole longwords, or words of 16 bits. Where
    /// nothing is held it takes some of a piece of 4 bytes or more, into a buffer of 8 or more.
    pub fn expand(&mut self, piece: &[u8], buf: &mut [u8]) -> (usize, usize)
        ensures taken { result.0 ≤ length piece.now }
        ensures given { result.1 ≤ length buf.new }
        ensures bare { 0 < result.1 → (self.new.ready ≡ []) × (self.new.begun ≡ []) }
        ensures nothing_held { 0 < result.0 → (self.new.ready ≡ []) × (self.new.begun ≡ []) }
        ensures left { (more : List ℕ) → left_of self.old (take result.0 piece.now ++ more)
            ≡ take result.1 buf.new ++ left_of self.new more }
        ensures spot { (more : List ℕ) → spot_of self.old (take result.0 piece.now ++ more)
            ≡ spot_of self.new more }
        ensures some { self.old.ready ≡ [] → self.old.begun ≡ [] → 4 ≤ length piece.now
            → 8 ≤ length buf.new → 0 < result.0 }
    {
        if !self.is_bare() {
            return (0, 0);
        }
        let on = expand(self.spot, piece, buf);
        self.spot = on.next;
        (on.taken, on.given)
    }

    /// Whether no byte is ready.
    pub fn is_empty(&self) -> bool
        ensures { result ≡ (length self.now.ready == 0) }
    {
        self.ready.is_empty()
    }

    /// Gives out as many bytes as are ready and fit, and their number.
    pub fn give(&mut self, buf: &mut [u8]) -> usize
        ensures number { result ≡ min (length self.old.ready) (length buf.old) }
        ensures rest { result < length buf.new → self.new.ready ≡ [] }
        ensures begun { self.new.begun ≡ self.old.begun }
        ensures spot { self.new.spot ≡ self.old.spot }
        ensures gives { (more : List ℕ) →
            left_of self.old more ≡ take result buf.new ++ left_of self.new more }
    {
        self.ready.give(buf)
    }
}

/// After a byte, where so much of its unit has come.
fn after(spot: Spot, begun: Pending, byte: u8) -> Expander
    requires { begun.count < unit spot }
    ensures left { (more : List ℕ) → left_of result more
        ≡ plain_from spot (pending_of begun ++ byte ∷ more) }
    ensures spot { (more : List ℕ) → spot_of result more
        ≡ spot_after spot (pending_of begun ++ byte ∷ more) }
    ensures wanted { unit spot ≤ wanted result + begun.count + 1 }
    ensures fewer { owed result + begun.count < reach spot }
{
    match spot {
        Spot::Passing => unreachable!(),
        Spot::Straight { owed, next } => after_straight(owed, next, byte),
        Spot::Long(position) => after_long(position, begun, byte),
        Spot::Half {
            after,
            part,
            is_odd,
        } => after_half(after, part, is_odd, begun, byte),
        Spot::Filler(after) => after_filler(after, begun, byte),
    }
}

/// After a byte that is given out as it is.
fn after_straight(count: u64, next: FilePosition, byte: u8) -> Expander
    ensures left { (more : List ℕ) → left_of result more
        ≡ plain_from (Straight count next) (byte ∷ more) }
    ensures spot { (more : List ℕ) → spot_of result more
        ≡ spot_after (Straight count next) (byte ∷ more) }
    ensures wanted { wanted result ≡ 0 }
    ensures owed { owed result ≡ 0 }
{
    Expander {
        ready: Ready::one(byte),
        spot: Spot::behind_straight(count, next, 1),
        begun: Pending::NONE,
    }
}

/// After a byte of a longword, where so much of that has come.
fn after_long(position: FilePosition, begun: Pending, byte: u8) -> Expander
    requires { begun.count < 4 }
    ensures left { (more : List ℕ) → left_of result more
        ≡ plain_from (Long position) (pending_of begun ++ byte ∷ more) }
    ensures spot { (more : List ℕ) → spot_of result more
        ≡ spot_after (Long position) (pending_of begun ++ byte ∷ more) }
    ensures wanted { 4 ≤ wanted result + begun.count + 1 }
    ensures fewer { owed result + begun.count < 4 }
{
    match begun.take(byte) {
        (begun, None) => Expander {
            ready: Ready::none(),
            spot: Spot::Long(position),
            begun,
        },
        (_, Some(word)) => long_done(position, word),
    }
}

/// After a longword.
fn long_done(position: FilePosition, word: u32) -> Expander
    ensures left { (more : List ℕ) → left_of result more
        ≡ plain_from (Long position) (bytes_of (word ∷ []) ++ more) }
    ensures spot { (more : List ℕ) → spot_of result more
        ≡ spot_after (Long position) (bytes_of (word ∷ []) ++ more) }
    ensures wanted { wanted result ≡ 0 }
    ensures owed { owed result ≡ 0 }
{
    Expander {
        ready: ready_long(Given::of(position, word), word),
        spot: Spot::behind_long(position, word),
        begun: Pending::NONE,
    }
}

/// The same in a word of 16 bits of a short block.
fn after_half(
    after: FilePosition,
    part: ShortPart,
    is_odd: bool,
    begun: Pending,
    byte: u8,
) -> Expander
    requires { begun.count < 2 }
    ensures left { (more : List ℕ) → left_of result more
        ≡ plain_from (Half after part is_odd) (pending_of begun ++ byte ∷ more) }
    ensures spot { (more : List ℕ) → spot_of result more
        ≡ spot_after (Half after part is_odd) (pending_of begun ++ byte ∷ more) }
    ensures wanted { 2 ≤ wanted result + begun.count + 1 }
    ensures fewer { owed result + begun.count < 2 }
{
    if begun.count == 0 {
        return begun_by(
            Spot::Half {
                after,
                part,
                is_odd,
            },
            byte,
        );
    }
    let half = begun.first as u16 * 256 + byte as u16;
    Expander {
        ready: Ready::four([0, 0, begun.first, byte]),
        spot: Spot::behind_half(after, part, is_odd, half),
        begun: Pending::NONE,
    }
}

/// The same in the word with which a short block is filled up.
fn after_filler(after: FilePosition, begun: Pending, byte: u8) -> Expander
    requires { begun.count < 2 }
    ensures left { (more : List ℕ) → left_of result more
        ≡ plain_from (Filler after) (pending_of begun ++ byte ∷ more) }
    ensures spot { (more : List ℕ) → spot_of result more
        ≡ spot_after (Filler after) (pending_of begun ++ byte ∷ more) }
    ensures wanted { 2 ≤ wanted result + begun.count + 1 }
    ensures fewer { owed result + begun.count < 6 }
{
    if begun.count == 0 {
        return begun_by(Spot::Filler(after), byte);
    }
    let half = begun.first as u16 * 256 + byte as u16;
    if half == 0 {
        return Expander {
            ready: Ready::none(),
            spot: Spot::Long(after),
            begun: Pending::NONE,
        };
    }
    Expander {
        ready: Ready::six(begun.first, byte),
        spot: Spot::Passing,
        begun: Pending::NONE,
    }
}

/// Where one byte has come.
fn begun_by(spot: Spot, byte: u8) -> Expander
    requires { 1 < unit spot }
    ensures { result ≡ record { ready = []; spot = spot; begun = byte ∷ [] } }
{
    Expander {
        ready: Ready::none(),
        spot,
        begun: Pending {
            count: 1,
            first: byte,
            second: 0,
            third: 0,
        },
    }
}

/// What is given out at the end of the input.
fn ready_end(spot: Spot, begun: Pending) -> Ready
    requires { begun.count ≤ unit spot - 1 }
    ensures { result ≡ plain_from spot (pending_of begun) }
{
    if begun.count > 0 {
        return Ready::some(
            [begun.first, begun.second, begun.third, 0],
            begun.count as usize,
        );
    }
    if is_last(spot) {
        Ready::four([0, 0, 3, 0xF2])
    } else {
        Ready::none()
    }
}

/// Whether only the END of the last hunk is to come, no byte of which has come.
pub(crate) fn is_last(spot: Spot) -> bool
    ensures { result ≡ is_last spot }
{
    match spot {
        Spot::Long(position) => ends(position),
        _ => false,
    }
}

/// Whether only the END of the last hunk is to come.
fn ends(position: FilePosition) -> bool
    ensures { result ≡ ends position }
{
    match position {
        FilePosition::Load(Position::Body(hunk, Phase::FirstBlock | Phase::BlockWord)) => {
            hunk.has_content && hunk.ahead == 0
        }
        _ => false,
    }
}

/// What is given out for a longword.
fn ready_long(given: Given, word: u32) -> Ready
    ensures { result ≡ out_long given (to_be_bytes w32 word) word }
{
    match given {
        Given::Same => Ready::four(word.to_be_bytes()),
        Given::BehindEnd => Ready::eight([0, 0, 3, 0xF2], word.to_be_bytes()),
        Given::AsLong => Ready::four(long_word(word).to_be_bytes()),
    }
}
