//! The check of a load file that comes by pieces: the tests of a load, with no store.
ghost use Rattle.std.specs.Prelude.{◌≡◌, ◌*◌, ◌/◌, ◌<◌, ◌++◌, [], ℕ, List, None, IfErr, IfOk, IsTrue, length};
ghost use Rattle.hunk_words.specs.declared.reason.Reason.TheVariants.{Truncated};
ghost use Rattle.hunk_files.specs.Fault.{BeginsWithLoadFile, HasFault, is_load_refusal};
ghost use Rattle.hunk_files.specs.FileParts.{IsPartAt};
ghost use Rattle.hunk_grammar.specs.declared.file_kind.Sniff.TheVariants.{Load};
ghost use Rattle.hunk_scatter.specs.HeaderBytes.{header_bytes};
ghost use Rattle.hunk_scatter.specs.HeaderFaults.{CompletesRowIn};
ghost use Rattle.hunk_scatter.specs.LoadChecks.{IsBodyAfter, IsStageAfter, IsSummary, counted_bytes};
ghost use Rattle.hunk_scatter.specs.LoadChecks.{no_budget};

use crate::body_check::check_all;
use crate::declared::Declared;
use crate::header_loader::HeaderLoader;
use crate::stream::Standing;
use hunk_files::{Part, Refusal, Row};
use hunk_grammar::Position;
use hunk_words::{FileFault, History, Reason};
use std::alloc::{AllocError, Global};
use std::marker::Model;

/// What a load file declares, and what follows it.
#[derive(Clone, Copy)]
pub struct LoadSummary {
    /// The number of hunks, 1 to 65,536.
    pub hunks: u32,
    /// The number of bytes that they declare together.
    pub bytes: u64,
    /// The number of bytes after the file.
    pub rest: u64,
}

/// The table of a file whose body is under way, and where the check stands in it.
#[derive(Drop)]
struct BodyCheck {
    rows: Vec<Row>,
    total: u64,
    standing: Standing,
}

/// What a check has come to.
#[derive(Drop)]
enum Stage {
    Header(HeaderLoader),
    Body(BodyCheck),
    Whole(LoadSummary),
    Refused(Refusal),
}

/// Checks the load file that bytes begin with, as they come. It holds 12 bytes for each hunk, until
/// the file is whole or refused. Contracts see it as the bytes that were fed.
#[derive(Drop)]
pub struct LoadCheck {
    stage: Stage,
    history: History,
}

impl Model for LoadCheck {
    ghost use Rattle.std.specs.Prelude.{ℕ, List};
    ghost use Rattle.hunk_scatter.specs.LoadChecks.{IsStageAfter};

    ghost Value = { List ℕ };

    ghost view = { λ s. s.history.bytes };

    ghost invariant = { λ s. IsStageAfter s.stage s.history.bytes };
}

impl BodyCheck {
    /// The check of the body after the header of this table.
    fn of(declared: Declared) -> BodyCheck
        ensures { (fed : List ℕ) → fed ≡ header_bytes declared.table → IsBodyAfter result fed }
    {
        let Declared {
            alloc: _,
            rows,
            total,
            budget: _,
            count,
            history: _,
        } = declared;
        let standing = Standing::after_header(rows.len() as u32, count);
        BodyCheck {
            rows,
            total,
            standing,
        }
    }

    /// The check after the piece.
    fn feed(self, piece: &[u8]) -> Stage
        requires { (fed : List ℕ) × IsBodyAfter self fed }
        ensures { (fed : List ℕ) → IsBodyAfter self fed
            → IsStageAfter result (fed ++ piece.now) }
    {
        let mut body = self;
        let taken = match check_all(body.rows.as_slice(), &mut body.standing, piece) {
            Ok(taken) => taken,
            Err(fault) => {
                let number = u64::from(body.standing.state.hunk);
                let part = Part::Hunk { number };
                return Stage::Refused(Refusal { fault, part });
            }
        };
        match body.standing.state.position {
            Position::Done => Stage::Whole(LoadSummary {
                hunks: body.rows.len() as u32,
                bytes: body.total,
                rest: (piece.len() - taken) as u64,
            }),
            _ => Stage::Body(body),
        }
    }
}

/// The check after the piece, where the header was under way.
fn feed_header(loader: HeaderLoader, piece: &[u8]) -> Result<Stage, AllocError>
    requires reading { loader.refused ≡ None }
    requires budget { loader.budget ≡ no_budget }
    ensures stage { IfOk result (λ stage. IsStageAfter stage (loader.fed ++ piece.now)) }
    ensures wants { IfErr result (λ _. CompletesRowIn loader.fed piece.now) }
{
    let mut loader = loader;
    let taken = match loader.feed(piece) {
        Ok(taken) => taken,
        Err(fault) => match fault.reason {
            Reason::OutOfMemory => return Err(AllocError),
            _ => {
                let part = Part::Header;
                return Ok(Stage::Refused(Refusal { fault, part }));
            }
        },
    };
    match loader.declared() {
        Ok(declared) => Ok(BodyCheck::of(declared).feed(&piece[taken..])),
        Err(loader) => Ok(Stage::Header(loader)),
    }
}

/// The refusal of a file that ends after this many bytes, in this part.
fn truncated(fed: u64, part: Part) -> Refusal
    ensures place { result.fault.place ≡ 4 * (fed / 4) }
    ensures reason { result.fault.reason ≡ Truncated }
    ensures part { result.part ≡ part }
{
    let fault = FileFault {
        place: fed / 4 * 4,
        reason: Reason::Truncated,
    };
    Refusal { fault, part }
}

impl LoadCheck {
    /// A check of no bytes yet. It takes no memory.
    pub fn new(alloc: Global) -> LoadCheck
        ensures { result ≡ [] }
    {
        LoadCheck {
            stage: Stage::Header(HeaderLoader::new(alloc, u64::MAX)),
            history: History::new(),
        }
    }

    /// The check after the piece. What follows the file, or the longword that is refused, is
    /// counted and not looked at.
    ///
    /// # Errors
    ///
    /// `AllocError` where memory is refused for a hunk's row. The piece has the last byte of the
    /// longword that completes it.
    pub fn feed(self, piece: &[u8]) -> Result<LoadCheck, AllocError>
        ensures fed { IfOk result (λ next. next ≡ self ++ piece.now) }
        ensures wants { IfErr result (λ _. CompletesRowIn self piece.now) }
    {
        let LoadCheck { stage, history } = self;
        let stage = match stage {
            Stage::Header(loader) => feed_header(loader, piece)?,
            Stage::Body(body) => body.feed(piece),
            Stage::Whole(summary) => Stage::Whole(LoadSummary {
                rest: summary.rest.saturating_add(piece.len() as u64),
                ..summary
            }),
            Stage::Refused(refusal) => Stage::Refused(refusal),
        };
        let history = history.and(piece);
        Ok(LoadCheck { stage, history })
    }

    /// What the load file declares that the bytes begin with.
    ///
    /// # Errors
    ///
    /// The refusal that `LoadView::read` answers for the bytes.
    pub fn finish(self) -> Result<LoadSummary, Refusal>
        requires few { length self < counted_bytes }
        ensures summary { IfOk result (IsSummary self) }
        ensures fault { IfErr result (λ r. HasFault self r.fault.place r.fault.reason) }
        ensures part { IfErr result (λ r. IsPartAt Load self r.fault.place r.part) }
        ensures none { IfErr result (λ r. BeginsWithLoadFile self → ⊥) }
        ensures own_reasons { IfErr result (λ r. IsTrue (is_load_refusal r.fault.reason)) }
    {
        let LoadCheck { stage, history: _ } = self;
        match stage {
            Stage::Header(loader) => Err(truncated(loader.fed(), Part::Header)),
            Stage::Body(body) => {
                let number = u64::from(body.standing.state.hunk);
                Err(truncated(body.standing.fed, Part::Hunk { number }))
            }
            Stage::Whole(summary) => Ok(summary),
            Stage::Refused(refusal) => Err(refusal),
        }
    }
}
