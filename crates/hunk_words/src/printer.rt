//! A page of fixed size before a writer.
ghost use Rattle.std.specs.Prelude.{◌≡◌, ℕ, List, ◌+◌, ◌<◌, ◌≤◌, ◌++◌, [], ◌∷◌, length, drop, take, true, false};
ghost use Rattle.hunk_words.specs.Longs.{bytes_of};
ghost use Rattle.hunk_words.specs.Prints.{Prints, Sends};
ghost use Rattle.hunk_words.specs.Carriers.{Writing};
ghost use Rattle.hunk_words.specs.Puts.{PutsText};

use crate::history::History;
use crate::long_writer::{LongWriter, WriteFault};
use crate::sink::Sink;
use std::fmt;
use std::marker::Model;
use std::mem::ManuallyDrop;
use std::snapshot::Snapshot;

/// How many bytes the page of a whole text has room for: 80 KiB.
const PAGE: usize = 81_920;

/// How many bytes a line that is put together on the page has at most.
pub const LINE: usize = 96;

/// A line of at most `LINE` bytes, or the front of one, which is put together on the page itself:
/// none of it is copied there afterwards. Contracts see its `text`.
pub trait PageLine {
    ghost text: { Self → List ℕ };

    /// Puts the text to the front of the room, and answers how many bytes it has.
    fn put(&self, room: &mut [u8]) -> usize
        requires { LINE ≤ length room.old }
        ensures inside { result ≤ LINE }
        ensures text { take result room.new ≡ text self.now };
}

/// A printer with a page of 81,920 bytes, which is a part of the printer itself and so stands on
/// the stack: few writes for a text of any length, and no memory is taken.
pub type Printer<'a, W> = PagePrinter<'a, W, PAGE>;

/// Prints a text through a page of fixed size, which goes out when it is full, and at `flush`.
/// Where the page has no room at all, each piece that is printed goes out at once.
///
/// Contracts see the text that was printed so far. A failure of the writer is kept for `flush`:
/// what is printed after it goes nowhere.
#[derive(Drop)]
pub struct PagePrinter<'a, W: Sink, const ROOM: usize> {
    out: &'a mut LongWriter<W>,
    held: Page<ROOM>,
    /// The writer at first, for clauses alone; so it is not dropped.
    outset: ManuallyDrop<Snapshot<LongWriter<W>>>,
    history: History,
}

impl<'a, W: Sink, const ROOM: usize> Model for PagePrinter<'a, W, ROOM> {
    ghost use Rattle.std.specs.Mem.{manually_drop_value};
    ghost use Rattle.hunk_words.specs.Prints.{Printing, Sends};

    ghost Value = { Printing W };

    ghost view = { λ s. record {
      out = s.out;
      origin = record { name = s.out.ghost_name; writer = (manually_drop_value s.outset).value };
      text = s.history.bytes;
    } };

    ghost invariant = { λ s. Sends W.outlet
        (manually_drop_value s.outset).value s.out.now s.history.bytes s.held };
}

impl<W: Sink, const ROOM: usize> fmt::Debug for PagePrinter<'_, W, ROOM> {
    fn fmt<F: fmt::Write>(&self, f: &mut fmt::Formatter<F>) -> fmt::Result {
        f.debug_struct("PagePrinter")
            .field("out", &self.out)
            .field("held", &self.held.count)
            .finish_non_exhaustive()
    }
}

impl<'a, W: Sink, const ROOM: usize> PagePrinter<'a, W, ROOM> {
    /// A printer that has printed nothing yet. Its `requires` only names the writer as it is.
    pub fn new(out: &'a mut LongWriter<W>) -> PagePrinter<'a, W, ROOM>
        ghost writer: { Writing W }
        requires { out.old ≡ writer }
        ensures origin { result.origin ≡ record { name = out.entry.ghost_name; writer = writer } }
        ensures empty { result.text ≡ [] }
    {
        let outset = ManuallyDrop::new(Snapshot::of(&*out));
        PagePrinter {
            out,
            held: Page {
                bytes: [0; ROOM],
                count: 0,
            },
            outset,
            history: History::new(),
        }
    }

    /// Prints the bytes. The writer gets none as long as all that was printed has room on the page.
    #[inline(always)]
    pub fn print(&mut self, bytes: &[u8])
        ensures prints { Prints self.old self.new bytes.now }
        ensures kept { length self.new.text ≤ ROOM → self.new.out ≡ self.old.out }
    {
        if !self.held.append(bytes) {
            send_on(self.out, &mut self.held, bytes);
        }
        self.history = self.history.and(bytes);
    }

    /// Prints the line, which is put together where it is held. What is held is sent on before where
    /// fewer than `LINE` bytes of the page are left.
    #[inline(always)]
    pub fn print_line<L: PageLine>(&mut self, line: &L)
        requires { LINE ≤ ROOM }
        ensures prints { Prints self.old self.new (L.text line.now) }
        ensures kept { length self.old.text + LINE ≤ ROOM → self.new.out ≡ self.old.out }
    {
        if ROOM - self.held.len() < LINE {
            send_held(self.out, &mut self.held);
        }
        let start = self.held.len();
        self.held.put_line(line);
        self.history = self.history.and(self.held.after(start));
    }

    /// Prints the longword, high byte first, as `print`.
    #[tactic(auto, unfolding(crate::specs::Longs::bytes_of))]
    pub fn print_long(&mut self, word: u32)
        ensures prints { Prints self.old self.new (bytes_of (word ∷ [])) }
        ensures kept { length self.new.text ≤ ROOM → self.new.out ≡ self.old.out }
    {
        self.print(word.to_be_bytes().as_slice());
    }

    /// Sends what is still held.
    ///
    /// # Errors
    ///
    /// A `WriteFault` where the sink failed, now or before: just the first `written` bytes of all
    /// that was ever put have gone out.
    #[tactic(auto, using(crate::proofs::PrintLaws::put_held))]
    pub fn flush(&mut self) -> Result<(), WriteFault>
        ensures prints_nothing { Prints self.old self.new [] }
        ensures same_reference { self.new.out.ghost_name ≡ self.old.origin.name }
        ensures puts { PutsText W.outlet
            self.old.origin.writer self.new.out.now self.old.text result }
    {
        let held = &mut self.held;
        let result = self.out.put_bytes(&held.bytes[..held.count]);
        held.count = 0;
        result
    }

    /// Hands the writer back. What is still held is lost.
    pub fn into_inner(self) -> &'a mut LongWriter<W>
        ensures { result ≡ self.entry.out }
    {
        self.out
    }
}

/// Puts what is held, so that nothing is.
#[cold]
fn send_held<W: Sink, const ROOM: usize>(out: &mut LongWriter<W>, held: &mut Page<ROOM>)
    ensures sends { (first : Writing W) → (text : List ℕ) →
        Sends W.outlet first out.old text held.old → Sends W.outlet first out.new text held.new }
    ensures empty { held.new ≡ [] }
{
    let _held = out.put_bytes(&held.bytes[..held.count]);
    held.count = 0;
}

/// Puts what is held, and holds the bytes, or puts them too where a page has no room for them.
#[cold]
fn send_on<W: Sink, const ROOM: usize>(out: &mut LongWriter<W>, held: &mut Page<ROOM>, bytes: &[u8])
    ensures { (first : Writing W) → (text : List ℕ) → Sends W.outlet first out.old text held.old
        → Sends W.outlet first out.new (text ++ bytes.now) held.new }
{
    send_held(out, held);
    if !held.append(bytes) {
        let _rest = out.put_bytes(bytes);
    }
}

/// A page with room for `ROOM` bytes, filled from its front. Contracts see it as the bytes that
/// stand on it.
#[derive(Drop)]
struct Page<const ROOM: usize> {
    bytes: [u8; ROOM],
    count: usize,
}

impl<const ROOM: usize> Model for Page<ROOM> {
    ghost use Rattle.std.specs.Prelude.{ℕ, ◌≤◌, List, length, take};

    ghost Value = { List ℕ };

    ghost view = { λ s. take s.count s.bytes };

    ghost invariant = { λ s. s.count ≤ length s.bytes };
}

impl<const ROOM: usize> Page<ROOM> {
    /// How many bytes stand on it.
    #[inline(always)]
    fn len(&self) -> usize
        ensures count { result ≡ length self.now }
        ensures bound { result ≤ ROOM }
    {
        self.count
    }

    /// What stands after the first `start` bytes.
    #[inline(always)]
    fn after(&self, start: usize) -> &[u8]
        requires { start ≤ length self.now }
        ensures { result.now ≡ drop start self.now }
    {
        let held = &self.bytes[..self.count];
        &held[start..]
    }

    /// Puts the line.
    #[inline(always)]
    fn put_line<L: PageLine>(&mut self, line: &L)
        requires { length self.old + LINE ≤ ROOM }
        ensures { self.new ≡ self.old ++ L.text line.now }
    {
        let end = self.count;
        let bytes = &mut self.bytes[..];
        let len = line.put(&mut bytes[end..]);
        self.count = end + len;
    }

    /// Appends the bytes where they have room, and answers whether they have.
    #[inline(always)]
    fn append(&mut self, bytes: &[u8]) -> bool
        ensures appends { result ≡ true → self.new ≡ self.old ++ bytes.now }
        ensures full { result ≡ false → ROOM < length self.old + length bytes.now }
        ensures same { result ≡ false → self.new ≡ self.old }
    {
        if self.bytes.len() - self.count < bytes.len() {
            return false;
        }
        let end = self.count + bytes.len();
        let room = &mut self.bytes[..];
        room[self.count..end].copy_from_slice(bytes);
        self.count = end;
        true
    }
}
