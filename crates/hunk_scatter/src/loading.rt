//! A load from a source.
ghost use Rattle.std.specs.Prelude.{◌≡◌, ℕ, ◌+◌, ◌<◌, ◌≤◌, ◌^◌, Bool, List, ◌++◌, length, [], take, None};
ghost use Rattle.std.specs.Prelude.{IfOk, ◌⊎◌};
ghost use Rattle.std.specs.Prelude.{IfErr, OnOk, OnErr};
ghost use Rattle.std.specs.Prelude.{IsErrAnd, MatchResult};
ghost use Rattle.std.specs.Io.KnownBytes.{Consumes};
ghost use Rattle.hunk_words.specs.declared.reason.Reason.TheVariants as reasons;
ghost use Rattle.hunk_files.specs.Image.{declared_bytes};
ghost use Rattle.hunk_files.specs.declared.part.Part.TheVariants.{Header, Hunk};
ghost use Rattle.hunk_scatter.specs.BodyFeeds.{FeedsMore, IsCutShort};
ghost use Rattle.hunk_scatter.specs.HeaderBytes.{IsHeader, IsHeaderTable, header_bytes};
ghost use Rattle.hunk_scatter.specs.HeaderFaults.{IsOverBudget};
ghost use Rattle.hunk_scatter.specs.HeaderFeeds.{FeedsHeader, IsHeaderCutShort};
ghost use Rattle.hunk_scatter.specs.LoaderValues.{HasNoRefusal, IsImageOf, IsWholeFile};
ghost use Rattle.hunk_scatter.specs.LoadOutcomes.{Gives, GivesAtMost, GoesPastNoFile, GoesPastNoHeader};
ghost use Rattle.hunk_scatter.specs.LoadOutcomes.{HasFileWithin, IsAllShown, IsBodyStop, IsHeaderStop};
ghost use Rattle.hunk_scatter.specs.LoadOutcomes.{IsReadFault, Loads, PassesBudget, StaysAllShown};
ghost use Rattle.hunk_scatter.specs.LoadOutcomes.{StopsAfterFile, TakesNoFurther};
ghost use Rattle.hunk_scatter.specs.LoadOutcomes.{StopsAfterHeader, TellsFailure};
ghost use Rattle.hunk_scatter.specs.LoadRefusals.{IsFaultIn, LoadsOrNames, NamesPart, fault_of, without_part};
ghost use Rattle.hunk_scatter.specs.Owing.{most_want};

use crate::body_loader::BodyLoader;
use crate::declared::Declared;
use crate::header_loader::{HeaderLoader, MOST_WANT};
use crate::image::Image;
use crate::load_refusal::LoadRefusal;
use crate::placer::Placer;
use hunk_files::Part;
use hunk_words::{LoadFault, Reason, Source};
use std::alloc::Global;

/// The limits of a load, in bytes.
#[derive(Clone, Copy, Debug, PartialEq, Eq)]
pub struct Limits {
    /// The most bytes that all segments together may have.
    pub budget: u64,
    /// The most bytes that may be read.
    pub file_bytes: u64,
}

/// Reads a next piece of at most `want` bytes, where `count` were read before it.
#[inline(always)]
fn read_piece<R: Source>(
    r: &mut R,
    buf: &mut [u8],
    want: usize,
    count: u64,
    limit: u64,
) -> Result<usize, LoadFault>
    requires nonempty { 0 < want }
    requires buffer { want ≤ length buf.old }
    requires below_limit { count ≤ limit }
    ensures nonempty { IfOk result (λ n. 0 < n) }
    ensures most { IfOk result (λ n. n ≤ want) }
    ensures limit { IfOk result (λ n. count + n ≤ limit) }
    ensures piece { IfOk result
        (λ n. Consumes (R.supply r.old).left (R.supply r.new).left (take n buf.new)) }
    ensures fault { IfErr result (IsReadFault limit (R.supply r.new) count) }
    ensures nothing { OnErr result (Consumes (R.supply r.old).left (R.supply r.new).left []) }
    ensures no_failure { OnOk result ((R.supply r.new).failed ≡ (R.supply r.old).failed) }
    ensures tells_read { TellsFailure (R.supply r.old) (R.supply r.new) result }
{
    if count >= limit {
        return Err(LoadFault {
            place: limit,
            reason: Reason::FileLimit,
        });
    }
    let most = (limit - count).min(want as u64) as usize;
    match r.pull(&mut buf[..most]) {
        Ok(0) => Err(LoadFault {
            place: count / 4 * 4,
            reason: Reason::Truncated,
        }),
        Ok(n) => Ok(n),
        Err(_) => Err(LoadFault {
            place: count,
            reason: Reason::Read,
        }),
    }
}

/// How many bytes of a piece there are up to the end of the longword at this place, where so many
/// bytes were fed before the piece.
#[inline(always)]
fn up_to_end(place: u64, fed: u64) -> usize
    requires ends_in_piece { fed < place + 4 }
    requires room { place + 4 < 2 ^ 64 }
    ensures { fed + result ≡ place + 4 }
{
    (place + 4 - fed) as usize
}

/// Feeds the loader a piece of at most `want` bytes, which is pulled into the buffer.
#[inline(always)]
fn feed_header_pulled<R: Source>(
    r: &mut R,
    buf: &mut [u8],
    loader: &mut HeaderLoader,
    want: usize,
    file_bytes: u64,
) -> Result<(), LoadFault>
    requires reading { loader.old.refused ≡ None }
    requires below_limit { length loader.old.fed ≤ file_bytes }
    requires nonempty { 0 < want }
    requires buffer { want ≤ length buf.old }
    requires cut_short { IsHeaderCutShort loader.old want }
    requires none_held { (R.shown r.old ≡ []) ⊎ (file_bytes ≤ length loader.old.fed) }
    ensures feeds { FeedsHeader (R.supply r.old) (R.supply r.new) file_bytes
        loader.old loader.new result }
    ensures buffer_kept { length buf.new ≡ length buf.old }
    ensures tells_read { TellsFailure (R.supply r.old) (R.supply r.new) result }
    ensures shows { OnOk result (StaysAllShown (R.supply r.old) (R.shown r.old)
        (R.supply r.new) (R.shown r.new)) }
    ensures no_further { IsAllShown (R.supply r.old) (R.shown r.old)
        → IfErr result (TakesNoFurther (R.supply r.old) (R.supply r.new) loader.old.fed) }
{
    let n = match read_piece(r, buf, want, loader.fed(), file_bytes) {
        Ok(n) => n,
        Err(fault) => return Err(fault),
    };
    match loader.feed(&buf[..n]) {
        Ok(_) => Ok(()),
        Err(fault) => Err(fault),
    }
}

/// Feeds the loader what the source holds, where it lies, and takes of it what the loader took: all
/// up to the limit, or to the end of the header. Where a longword is refused, it is the last that is
/// taken.
#[inline(always)]
fn feed_header_held<R: Source>(
    r: &mut R,
    loader: &mut HeaderLoader,
    file_bytes: u64,
) -> Result<(), LoadFault>
    requires reading { loader.old.refused ≡ None }
    requires below_limit { length loader.old.fed < file_bytes }
    requires some { 0 < length (R.shown r.old) }
    requires goes_on { ¬ IsHeader loader.old.fed }
    ensures feeds { FeedsHeader (R.supply r.old) (R.supply r.new) file_bytes
        loader.old loader.new result }
    ensures works { (R.supply r.new).failed ≡ (R.supply r.old).failed }
    ensures shows { OnOk result (StaysAllShown (R.supply r.old) (R.shown r.old)
        (R.supply r.new) (R.shown r.new)) }
    ensures no_further { IfErr result
        (TakesNoFurther (R.supply r.old) (R.supply r.new) loader.old.fed) }
{
    let held = r.held();
    let fed = loader.fed();
    let most = (file_bytes - fed).min(held.len() as u64) as usize;
    let front = match loader.feed(&held[..most]) {
        Ok(front) => front,
        Err(fault) => {
            let end = up_to_end(fault.place, fed);
            r.consume(end);
            return Err(fault);
        }
    };
    r.consume(front);
    Ok(())
}

/// Feeds the loader a next piece: what the source holds, or else at most `want` bytes that are
/// pulled.
#[inline(always)]
fn feed_header_next<R: Source>(
    r: &mut R,
    buf: &mut [u8],
    loader: &mut HeaderLoader,
    want: usize,
    file_bytes: u64,
) -> Result<(), LoadFault>
    requires reading { loader.old.refused ≡ None }
    requires below_limit { length loader.old.fed ≤ file_bytes }
    requires nonempty { 0 < want }
    requires buffer { want ≤ length buf.old }
    requires cut_short { IsHeaderCutShort loader.old want }
    ensures feeds { FeedsHeader (R.supply r.old) (R.supply r.new) file_bytes
        loader.old loader.new result }
    ensures buffer_kept { length buf.new ≡ length buf.old }
    ensures tells_read { TellsFailure (R.supply r.old) (R.supply r.new) result }
    ensures shows { OnOk result (StaysAllShown (R.supply r.old) (R.shown r.old)
        (R.supply r.new) (R.shown r.new)) }
    ensures no_further { IsAllShown (R.supply r.old) (R.shown r.old)
        → IfErr result (TakesNoFurther (R.supply r.old) (R.supply r.new) loader.old.fed) }
{
    if r.held().is_empty() || loader.fed() >= file_bytes {
        return feed_header_pulled(r, buf, loader, want, file_bytes);
    }
    feed_header_held(r, loader, file_bytes)
}

/// Reads the header.
fn load_header<R: Source>(
    alloc: Global,
    r: &mut R,
    buf: &mut [u8],
    limits: Limits,
) -> Result<Declared, LoadFault>
    requires { length buf.old ≡ most_want }
    ensures ends { (given : List ℕ)
        × Gives (R.supply r.old) (R.supply r.new) limits.file_bytes given
        × GoesPastNoHeader given
        × MatchResult result
        (λ declared. IsHeaderTable declared.table × (given ≡ header_bytes declared.table)
        × (declared_bytes declared.table ≤ limits.budget))
        (λ f. IsHeaderStop limits (R.supply r.new) given f × IsFaultIn given Header f) }
    ensures tells_read { TellsFailure (R.supply r.old) (R.supply r.new) result }
    ensures shows { OnOk result (StaysAllShown (R.supply r.old) (R.shown r.old)
        (R.supply r.new) (R.shown r.new)) }
    ensures no_further { IsAllShown (R.supply r.old) (R.shown r.old)
        → IfErr result (TakesNoFurther (R.supply r.old) (R.supply r.new) []) }
{
    let mut loader = HeaderLoader::new(alloc, limits.budget);
    'reading: loop {
        let want = loader.want();
        if want == 0 {
            break 'reading;
        }
        match feed_header_next(r, buf, &mut loader, want, limits.file_bytes) {
            Ok(_) => {}
            Err(fault) => return Err(fault),
        }
    }
    match loader.declared() {
        Ok(declared) => Ok(declared),
        Err(_) => unreachable!(),
    }
}

/// The refusal for a fault at the next longword of a body.
#[inline(never)]
fn refused_in_hunk(loader: &BodyLoader, fault: LoadFault) -> LoadRefusal
    ensures fault { fault_of result ≡ fault }
    ensures names { (given : List ℕ) → IsFaultIn given (Hunk loader.now.hunk) fault
        → NamesPart given result }
{
    let number = u64::from(loader.hunk());
    LoadRefusal::in_part(fault, Part::Hunk { number })
}

/// Feeds the loader a piece of at most `want` bytes, which is pulled into the buffer.
#[inline(always)]
fn feed_pulled<R: Source>(
    r: &mut R,
    buf: &mut [u8],
    loader: &mut BodyLoader,
    want: usize,
    limit: u64,
) -> Result<(), LoadFault>
    requires reading { loader.old.refused ≡ None }
    requires below_limit { length loader.old.fed ≤ limit }
    requires nonempty { 0 < want }
    requires buffer { want ≤ length buf.old }
    requires cut_short { IsCutShort loader.old want }
    requires none_held { (R.shown r.old ≡ []) ⊎ (limit ≤ length loader.old.fed) }
    ensures feeds { FeedsMore (R.supply r.old) (R.supply r.new) limit loader.old loader.new result }
    ensures buffer_kept { length buf.new ≡ length buf.old }
    ensures tells_read { TellsFailure (R.supply r.old) (R.supply r.new) result }
    ensures shows { OnOk result (StaysAllShown (R.supply r.old) (R.shown r.old)
        (R.supply r.new) (R.shown r.new)) }
    ensures no_further { IsAllShown (R.supply r.old) (R.shown r.old)
        → IfErr result (TakesNoFurther (R.supply r.old) (R.supply r.new) loader.old.fed) }
{
    let n = match read_piece(r, buf, want, loader.fed(), limit) {
        Ok(n) => n,
        Err(fault) => return Err(fault),
    };
    match loader.feed(&buf[..n]) {
        Ok(_) => Ok(()),
        Err(fault) => Err(fault),
    }
}

/// Feeds the loader what the source holds, where it lies, and takes of it what the loader took: all
/// up to the limit, or to the end of the file. Where a longword is refused, it is the last that is
/// taken.
#[inline(always)]
fn feed_held<R: Source>(r: &mut R, loader: &mut BodyLoader, limit: u64) -> Result<(), LoadFault>
    requires reading { loader.old.refused ≡ None }
    requires below_limit { length loader.old.fed < limit }
    requires some { 0 < length (R.shown r.old) }
    requires goes_on { ¬ IsWholeFile loader.old.rows loader.old.fed }
    requires clean { HasNoRefusal loader.old.fed }
    ensures feeds { FeedsMore (R.supply r.old) (R.supply r.new) limit loader.old loader.new result }
    ensures works { (R.supply r.new).failed ≡ (R.supply r.old).failed }
    ensures shows { OnOk result (StaysAllShown (R.supply r.old) (R.shown r.old)
        (R.supply r.new) (R.shown r.new)) }
    ensures no_further { IfErr result
        (TakesNoFurther (R.supply r.old) (R.supply r.new) loader.old.fed) }
{
    let held = r.held();
    let fed = loader.fed();
    let most = (limit - fed).min(held.len() as u64) as usize;
    let taken = match loader.feed(&held[..most]) {
        Ok(taken) => taken,
        Err(fault) => {
            let count = up_to_end(fault.place, fed);
            r.consume(count);
            return Err(fault);
        }
    };
    r.consume(taken);
    Ok(())
}

/// Feeds the loader a next piece: what the source holds, or else at most `want` bytes that are
/// pulled.
#[inline(always)]
fn feed_next<R: Source>(
    r: &mut R,
    buf: &mut [u8],
    loader: &mut BodyLoader,
    want: usize,
    limit: u64,
) -> Result<(), LoadFault>
    requires reading { loader.old.refused ≡ None }
    requires below_limit { length loader.old.fed ≤ limit }
    requires nonempty { 0 < want }
    requires buffer { want ≤ length buf.old }
    requires goes_on { ¬ IsWholeFile loader.old.rows loader.old.fed }
    requires cut_short { IsCutShort loader.old want }
    ensures feeds { FeedsMore (R.supply r.old) (R.supply r.new) limit loader.old loader.new result }
    ensures buffer_kept { length buf.new ≡ length buf.old }
    ensures tells_read { TellsFailure (R.supply r.old) (R.supply r.new) result }
    ensures shows { OnOk result (StaysAllShown (R.supply r.old) (R.shown r.old)
        (R.supply r.new) (R.shown r.new)) }
    ensures no_further { IsAllShown (R.supply r.old) (R.shown r.old)
        → IfErr result (TakesNoFurther (R.supply r.old) (R.supply r.new) loader.old.fed) }
{
    if r.held().is_empty() || loader.fed() >= limit {
        return feed_pulled(r, buf, loader, want, limit);
    }
    feed_held(r, loader, limit)
}

/// Reads the body after its header.
fn load_body<R: Source>(
    r: &mut R,
    buf: &mut [u8],
    loader: BodyLoader,
    limit: u64,
) -> Result<Image, LoadRefusal>
    requires buffer { length buf.old ≡ most_want }
    requires reading { loader.refused ≡ None }
    requires below_limit { length loader.fed ≤ limit }
    requires in_file { GoesPastNoFile loader.fed }
    ensures ends { (more : List ℕ) × Consumes (R.supply r.old).left (R.supply r.new).left more
        × (length (loader.fed ++ more) ≤ limit) × GoesPastNoFile (loader.fed ++ more)
        × MatchResult result
        (λ image. IsImageOf loader.rows (loader.fed ++ more) image.segments
        × (image.rows ≡ loader.rows))
        (λ refusal. IsBodyStop limit (R.supply r.new) (loader.fed ++ more) (fault_of refusal)
        × NamesPart (loader.fed ++ more) refusal) }
    ensures tells_read { TellsFailure (R.supply r.old) (R.supply r.new) (without_part result) }
    ensures no_further { IsAllShown (R.supply r.old) (R.shown r.old) → IfErr (without_part result)
        (TakesNoFurther (R.supply r.old) (R.supply r.new) loader.fed) }
{
    let mut loader = loader;
    'reading: loop {
        let want = loader.want();
        if want == 0 {
            break 'reading;
        }
        match feed_next(r, buf, &mut loader, want, limit) {
            Ok(()) => {}
            Err(fault) => return Err(refused_in_hunk(&loader, fault)),
        }
    }
    match loader.finish() {
        Ok(image) => Ok(image),
        Err(_) => unreachable!(),
    }
}

/// Loads a file from a source, as it comes, each hunk to where the placer puts it.
///
/// At most `limits.budget` bytes of segments and 12 bytes for each hunk are held, beside a buffer
/// of 256 bytes. A file that is loaded is read to its end and no further: what follows it is still
/// to be read. Memory is asked for the rows that were read, and once for the store.
///
/// # Errors
///
/// The place is in bytes from where the source stood before the call.
///
/// - The first fault of the file, at the first byte of the longword that is refused.
/// - `Truncated` where the source ends inside the file, at 4 times the number of whole longwords.
/// - `Budget` at the size word with which the declared bytes first pass `limits.budget`, and
///   `NoBase`, with the number of the first hunk without a base, at the end of the header: both
///   before a byte after the header is read.
/// - `FileLimit` where `limits.file_bytes` bytes were read and more are needed, at that number.
/// - `Read` where the source failed, at the number of bytes read.
/// - `OutOfMemory` where memory is refused: for a row at the longword that completes it, or for the
///   store at the end of the header.
///
/// There is no image then. What was read of the source stays read, at most `limits.file_bytes`
/// bytes. Where a longword is refused, it is the last that was taken of what the source holds, so
/// what follows it is still to be read. Of a source that holds nothing, at most `want` bytes are
/// pulled at a time.
pub fn load<R: Source, P: Placer>(
    alloc: Global,
    r: &mut R,
    limits: Limits,
    p: &P,
) -> Result<Image, LoadFault>
    ensures loads { Loads (P.base p.now) limits (R.supply r.old) (R.supply r.new) result }

    // What is read at most.
    ensures one_file { StopsAfterFile (R.supply r.old) (R.supply r.new) }
    ensures header_first { StopsAfterHeader (P.base p.now) limits.budget
        (R.supply r.old) (R.supply r.new) }

    // Of a source that shows all that it has left, no byte past the longword at the fault.
    ensures no_further { IsAllShown (R.supply r.old) (R.shown r.old) → IfErr result
        (λ f. GivesAtMost (R.supply r.old) (R.supply r.new) (f.place + 4)) }

    // Success, and where there is none.
    ensures succeeds { HasFileWithin (P.base p.now) limits (R.supply r.old)
        → (R.supply r.new).failed ≡ Bool.false
        → IfErr result (λ f. f.reason ≡ reasons.OutOfMemory) }

    ensures over_budget { (at : ℕ) → PassesBudget limits (R.supply r.old) (R.supply r.new) at
        → IsErrAnd result (IsOverBudget at) }

    // A read that fails ends the load.
    ensures tells_read { TellsFailure (R.supply r.old) (R.supply r.new) result }
{
    match load_naming_part(alloc, r, limits, p) {
        Ok(image) => Ok(image),
        Err(refusal) => Err(refusal.fault()),
    }
}

/// Loads a file as `load` does, and where that refuses it names the part of the file, too.
///
/// # Errors
///
/// The fault is that of `load`. The part is the one that the longword at its place is of: for
/// `Truncated`, the longword that would come next. There is none for `Budget`, `NoBase`,
/// `FileLimit`, `Read` and `OutOfMemory`.
pub fn load_naming_part<R: Source, P: Placer>(
    alloc: Global,
    r: &mut R,
    limits: Limits,
    p: &P,
) -> Result<Image, LoadRefusal>
    ensures loads { LoadsOrNames (P.base p.now) limits (R.supply r.old) (R.supply r.new) result }

    // What is read at most.
    ensures one_file { StopsAfterFile (R.supply r.old) (R.supply r.new) }
    ensures header_first { StopsAfterHeader (P.base p.now) limits.budget
        (R.supply r.old) (R.supply r.new) }

    // Of a source that shows all that it has left, no byte past the longword at the fault.
    ensures no_further { IsAllShown (R.supply r.old) (R.shown r.old) → IfErr (without_part result)
        (λ f. GivesAtMost (R.supply r.old) (R.supply r.new) (f.place + 4)) }

    // Success, and where there is none.
    ensures succeeds { HasFileWithin (P.base p.now) limits (R.supply r.old)
        → (R.supply r.new).failed ≡ Bool.false
        → IfErr (without_part result) (λ f. f.reason ≡ reasons.OutOfMemory) }

    ensures over_budget { (at : ℕ) → PassesBudget limits (R.supply r.old) (R.supply r.new) at
        → IsErrAnd (without_part result) (IsOverBudget at) }

    // A read that fails ends the load.
    ensures tells_read { TellsFailure (R.supply r.old) (R.supply r.new) (without_part result) }
{
    let mut buf = [0u8; MOST_WANT];
    let declared = match load_header(alloc, r, buf.as_mut_slice(), limits) {
        Ok(declared) => declared,
        Err(fault) => return Err(LoadRefusal::in_part(fault, Part::Header)),
    };
    let place = declared.header_len();
    let loader = match declared.place(p) {
        Ok(loader) => loader,
        Err(unplaced) => {
            let reason = unplaced.reason;
            let fault = LoadFault { place, reason };
            return Err(LoadRefusal::in_part(fault, Part::Header));
        }
    };
    load_body(r, buf.as_mut_slice(), loader, limits.file_bytes)
}
