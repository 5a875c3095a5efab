//! The loader of a body.
ghost use Rattle.std.specs.Prelude.{◌≡◌, ℕ, ◌+◌, ◌*◌, ◌/◌, ◌<◌, ◌≤◌, List, ◌++◌, length, take, Some, None};
ghost use Rattle.std.specs.Prelude.{Ok, Err, IfOk, IfErr, OnOk};
ghost use Rattle.std.specs.Prelude.{OnErr, IsOk, IsTrue, ◌⊎◌};
ghost use Rattle.hunk_words.specs.Carriers.{saturated};
ghost use Rattle.hunk_words.specs.Longs.{bytes_of};
ghost use Rattle.hunk_words.specs.declared.fault.Fault.{Fault};
ghost use Rattle.hunk_grammar.specs.declared.file_kind.Sniff.TheVariants.{Load};
ghost use Rattle.hunk_files.specs.declared.part.Part.TheVariants.{Hunk};
ghost use Rattle.hunk_files.specs.Fault.{IsTruncated};
ghost use Rattle.hunk_files.specs.FileParts.{IsPartAt};
ghost use Rattle.hunk_files.specs.Image.{declared_bytes};
ghost use Rattle.hunk_files.specs.LoadFile.{LoadFileValue, IsLoadFile};
ghost use Rattle.hunk_files.specs.LoadText.{text};
ghost use Rattle.hunk_scatter.specs.LoaderReasons.{is_of_body};
ghost use Rattle.hunk_scatter.specs.LoaderValues.{FeedsFront, HasNoRefusal, IsImageOf, IsWholeFile};
ghost use Rattle.hunk_scatter.specs.LoaderValues.{IsHunkRefusal, MayGoOnInFile};
ghost use Rattle.hunk_scatter.specs.BodyLoaderFields.{FeedsOrRefuses};
ghost use Rattle.hunk_scatter.specs.LoadOutcomes.{GoesPastNoFile};
ghost use Rattle.hunk_scatter.specs.Owing.{BytesToCome, most_want};
ghost use Rattle.hunk_scatter.specs.Rows.{entries_of};

use crate::header_loader::bytes_wanted;
use crate::image::{Image, starts_of};
use crate::stream::{Standing, Stop, feed_all};
use hunk_files::Row;
use hunk_grammar::Position;
use hunk_words::{History, LoadFault};
use std::marker::Model;

/// Takes the body of a load file, and leaves each segment in its place.
///
/// Contracts see the bytes that were consumed, header and body joined, the rows with their bases,
/// the refusal, and the number of the hunk that is read. No call takes memory.
#[derive(Drop)]
pub struct BodyLoader {
    pub(crate) rows: Vec<Row>,
    pub(crate) store: Vec<u8>,
    pub(crate) standing: Standing,
    pub(crate) refused: Option<LoadFault>,
    pub(crate) history: History,
}

impl Model for BodyLoader {
    ghost use Rattle.hunk_scatter.specs.LoaderValues.{BodyLoaderValue};
    ghost use Rattle.hunk_scatter.specs.BodyLoaderFields.{BodyLoaderInvariant};

    ghost Value = { BodyLoaderValue };

    ghost view = { λ s. record {
      fed = s.history.bytes;
      rows = s.rows.items;
      refused = s.refused;
      hunk = s.standing.state.hunk;
    } };

    ghost invariant = { λ s. BodyLoaderInvariant s.rows.items s.store.items s.standing
        s.refused s.history.bytes };
}

impl BodyLoader {
    /// Takes the piece as `feed` does, where no longword was refused before it, and gives the number
    /// of bytes consumed. Where a longword is refused, the loader keeps why, so that the answer of
    /// this function, through which each piece goes, stays in a register. It is one function for all
    /// sources of loads.
    #[inline(never)]
    fn take(&mut self, piece: &[u8]) -> usize
        requires { self.old.refused ≡ None }
        ensures { FeedsOrRefuses self.old piece.now self.new result }
    {
        let (store, rows) = (self.store.as_mut_slice(), self.rows.as_slice());
        match feed_all(store, rows, &mut self.standing, piece) {
            Ok(taken) => {
                self.history = self.history.and(&piece[..taken]);
                taken
            }
            Err(Stop::Refused(fault)) => {
                self.refused = Some(fault);
                0
            }
            // The numbers are a loader's.
            Err(Stop::Strange) => unreachable!(),
        }
    }

    /// How many bytes to read next, at most; 0 where nothing more is taken.
    ///
    /// Every load file with this table that begins with what was fed has at least as many bytes
    /// more. While a content, a name, a payload or a list of offsets is under way, what is still to
    /// come of it is wanted at once, up to 256 bytes. No longword that was fed is refused before
    /// `feed` answers that; where this is not 0 and the input ends here, the input is truncated, in
    /// the hunk that `hunk` answers.
    #[tactic(auto, using(crate::proofs::BodyFields::fed_truncated, crate::proofs::BodyFields::not_whole, crate::proofs::PartLaws::hunk_here))]
    #[inline(always)]
    pub fn want(&self) -> usize
        ensures bound { result ≤ most_want }
        ensures least { (v : LoadFileValue) (more : List ℕ) → IsLoadFile v
            → bytes_of (text v) ≡ self.now.fed ++ more → result ≤ length more }
        ensures to_come { self.now.refused ≡ None → (p : ℕ) → BytesToCome self.now.fed p
            → (p ≤ result) ⊎ (most_want ≤ result) }
        ensures over { self.now.refused ≡ None → IsWholeFile self.now.rows self.now.fed
            → result ≡ 0 }
        ensures finished { self.now.refused ≡ None → result ≡ 0
            → IsWholeFile self.now.rows self.now.fed }
        ensures wants_nothing { (f : Fault) → self.now.refused ≡ Some f → result ≡ 0 }
        ensures clean { self.now.refused ≡ None → HasNoRefusal self.now.fed }
        ensures truncated { 0 < result → IsTruncated self.now.fed (4 * (length self.now.fed / 4)) }
        ensures next_hunk { 0 < result
            → IsPartAt Load self.now.fed (4 * (length self.now.fed / 4)) (Hunk self.now.hunk) }
    {
        if self.refused.is_some() {
            return 0;
        }
        // After a header a hunk is open, or the file is whole.
        let Position::Body(hunk, phase) = self.standing.state.position else {
            return 0;
        };
        let longs = Position::Body(hunk, phase).least_longs();
        bytes_wanted(longs, self.standing.pending)
    }

    /// Consumes the piece, or up to the end of the file where that stands inside it, and gives the
    /// number of bytes consumed. A file that is whole consumes nothing. It takes no memory.
    ///
    /// # Errors
    ///
    /// The first fault of all that was fed, this piece included, however it was cut. The place is
    /// the first byte of the longword that is refused, from the start of the file, or 2^64 - 4
    /// where that is more. It is never `Truncated` and never `OutOfMemory`.
    ///
    /// Nothing is consumed then: `fed` stays as it was, and `hunk` is that of the longword. Each
    /// later `feed` answers the same and changes nothing, and `want` is 0.
    #[inline(always)]
    pub fn feed(&mut self, piece: &[u8]) -> Result<usize, LoadFault>
        ensures rows { self.new.rows ≡ self.old.rows }

        // Success.
        ensures taken { IfOk result (FeedsFront self.old.fed piece.now self.new.fed) }
        ensures all { IfOk result
            (λ n. n < length piece.now → IsWholeFile self.new.rows self.new.fed) }
        ensures inside_file { OnOk result (GoesPastNoFile self.new.fed) }
        ensures takes_no_more { self.old.refused ≡ None → IsWholeFile self.old.rows self.old.fed
            → result ≡ Ok 0 }
        ensures reading { OnOk result ((self.old.refused ≡ None) × (self.new.refused ≡ None)) }

        // Refusals.
        ensures refusal { self.old.refused ≡ None
            → IfErr result (IsHunkRefusal (self.old.fed ++ piece.now) self.new.hunk) }
        ensures accepts { self.old.refused ≡ None → MayGoOnInFile (self.old.fed ++ piece.now)
            → IsOk result }
        ensures own_reasons { IfErr result (λ f. IsTrue (is_of_body f.reason)) }

        // A loader that has refused.
        ensures remembers { IfErr result (λ f. self.new.refused ≡ Some f) }
        ensures nothing { OnErr result (self.new.fed ≡ self.old.fed) }
        ensures stays { (f : Fault) → self.old.refused ≡ Some f → (result ≡ Err f)
            × (self.new ≡ self.old) }
    {
        if let Some(fault) = self.refused {
            return Err(fault);
        }
        let taken = self.take(piece);
        match self.refused {
            Some(fault) => Err(fault),
            None => Ok(taken),
        }
    }

    /// The number of the hunk that the next longword is of, or a longword was refused in, counted
    /// from 0. Where the file is whole, it is the number of hunks.
    #[tactic(auto, using(crate::proofs::BodyFields::done_if_whole, crate::proofs::PartLaws::hunks_after))]
    pub fn hunk(&self) -> u32
        ensures value { result ≡ self.now.hunk }
        ensures whole { self.now.refused ≡ None → IsWholeFile self.now.rows self.now.fed
            → result ≡ length self.now.rows }
    {
        self.standing.state.hunk
    }

    /// The bytes that are held: those of the store, and 12 for each hunk.
    pub fn held(&self) -> u64
        ensures { result ≡ declared_bytes (entries_of self.now.rows) + 12 * length self.now.rows }
    {
        self.store.len() as u64 + 12 * self.rows.len() as u64
    }

    /// The number of bytes of header and body that were consumed, or 2^64 - 1 where these are more.
    /// A refused piece adds none.
    pub fn fed(&self) -> u64
        ensures { result ≡ saturated (length self.now.fed) }
    {
        self.standing.fed
    }

    /// The image of a file that is whole.
    ///
    /// # Errors
    ///
    /// The loader as it was, where the file is not whole or a piece was refused.
    pub fn finish(self) -> Result<Image, BodyLoader>
        ensures image { IfOk result (λ image. IsImageOf self.rows self.fed image.segments) }
        ensures rows { IfOk result (λ image. image.rows ≡ self.rows) }
        ensures reading { OnOk result (self.refused ≡ None) }
        ensures finishes { self.refused ≡ None → IsWholeFile self.rows self.fed → IsOk result }
        ensures same { IfErr result (λ loader. loader ≡ self) }
    {
        if self.refused.is_some() {
            return Err(self);
        }
        if !self.standing.is_whole() {
            return Err(self);
        }
        let BodyLoader {
            rows,
            store,
            standing: _,
            refused: _,
            history: _,
        } = self;
        let starts = starts_of(rows.as_slice());
        Ok(Image {
            rows,
            store,
            starts,
        })
    }
}
