//! What follows the word of a block, read where it lies.
ghost use Rattle.std.specs.Prelude.{◌≡◌, IfErr, IfOk};
ghost use Rattle.hunk_words.specs.declared.reason.Reason.TheVariants as reasons;
ghost use Rattle.hunk_blocks.specs.BodyViews.{EndsListItemAt, HasListAt, viewed};
ghost use Rattle.hunk_blocks.specs.Cuts.{body_cut};
ghost use Rattle.hunk_blocks.specs.Parts.{body_text};
ghost use Rattle.hunk_blocks.specs.Reading.{BeginsWithSome, ReadsValue};
ghost use Rattle.hunk_blocks.specs.Values.{FitsWord, content_bytes};
ghost use Rattle.hunk_blocks.specs.Views.{body_of};

use crate::body::Body;
use crate::entries::{EntriesIter, keep_entries};
use crate::groups::{GroupsIter, keep_groups};
use crate::long_reader::LongReader;
use crate::payload::Payload;
use crate::symbols::{SymbolsIter, keep_symbols};
use hunk_words::{BlockFault, BlockWord, CONTENT_LIMIT, Kind};
use std::alloc::Global;

/// What follows the word of a block, by its kind, as `Body` has it. The groups and entries of a
/// list are read as they are asked for.
#[derive(Drop)]
pub enum BodyView<'a> {
    /// A NAME block: the bytes of the name, padded with zero bytes.
    Name(Payload<'a>),
    /// A CODE block. `top` is the top two bits of the size word, 0 to 3.
    Code { top: u8, payload: Payload<'a> },
    /// A DATA block. `top` is the top two bits of the size word, 0 to 3.
    Data { top: u8, payload: Payload<'a> },
    /// A BSS block. `size` is the whole size word; its low 30 bits count longwords.
    Bss { size: u32 },
    /// A block of any relocation kind.
    Reloc(GroupsIter<'a>),
    /// An EXT block.
    Ext(EntriesIter<'a>),
    /// A SYMBOL block.
    Symbol(SymbolsIter<'a>),
    /// A DEBUG block, whose contents are not interpreted.
    Debug(Payload<'a>),
    /// An END block, which has nothing after its word.
    End,
    /// A block of unknown kind with the advisory flag, which readers may pass over.
    Advisory(Payload<'a>),
}

impl BodyView<'_> {
    /// How many bytes of content the block has, as `Body::content_bytes`.
    pub fn content_bytes(&self) -> Option<u64>
        ensures { result ≡ content_bytes (viewed self.now) }
    {
        match self {
            BodyView::Code { top: _, payload } => Some(payload.byte_count()),
            BodyView::Data { top: _, payload } => Some(payload.byte_count()),
            BodyView::Bss { size } => Some(4 * u64::from(*size % CONTENT_LIMIT)),
            _ => None,
        }
    }
}

/// What follows a block word, of which the reader goes on after the block.
#[tactic(auto, using(crate::proofs::BodyReading::counted_stands))]
#[inline(always)]
pub(crate) fn read_body<'a>(reader: &mut LongReader<'a>, word: BlockWord) -> BodyView<'a>
    requires { BeginsWithSome (FitsWord word) body_text reader.old.rest }
    ensures read { ReadsValue (body_cut word) reader.old reader.new (viewed result) }
    ensures place { HasListAt reader.old.place result }
{
    match word.kind() {
        kind @ (Kind::Name | Kind::Debug | Kind::Unknown(_)) => {
            let payload = reader.counted();
            match kind {
                Kind::Name => BodyView::Name(payload),
                Kind::Debug => BodyView::Debug(payload),
                _ => BodyView::Advisory(payload),
            }
        }
        Kind::Code => {
            let (top, payload) = reader.sized();
            BodyView::Code { top, payload }
        }
        Kind::Data => {
            let (top, payload) = reader.sized();
            BodyView::Data { top, payload }
        }
        Kind::Bss => BodyView::Bss {
            size: reader.long(),
        },
        Kind::Ext => BodyView::Ext(EntriesIter::of(reader)),
        Kind::Symbol => BodyView::Symbol(SymbolsIter::of(reader)),
        Kind::End => BodyView::End,
        kind if kind.is_relocation() => BodyView::Reloc(GroupsIter::of(reader)),
        _ => unreachable!(),
    }
}

/// The same with its groups or entries in a list.
///
/// # Errors
///
/// `OutOfMemory` at the last longword of the group or entry for which no memory was found.
pub(crate) fn keep_body<'a>(alloc: Global, body: BodyView<'a>) -> Result<Body<'a>, BlockFault>
    ensures kept { IfOk result (λ kept. body_of kept ≡ viewed body.entry) }
    ensures memory { IfErr result (λ fault. fault.reason ≡ reasons.OutOfMemory) }
    ensures place { IfErr result (λ fault. EndsListItemAt body.entry fault.place) }
{
    Ok(match body {
        BodyView::Name(payload) => Body::Name(payload),
        BodyView::Code { top, payload } => Body::Code { top, payload },
        BodyView::Data { top, payload } => Body::Data { top, payload },
        BodyView::Bss { size } => Body::Bss { size },
        BodyView::Reloc(groups) => Body::Reloc(keep_groups(alloc, groups)?),
        BodyView::Ext(entries) => Body::Ext(keep_entries(alloc, entries)?),
        BodyView::Symbol(symbols) => Body::Symbol(keep_symbols(alloc, symbols)?),
        BodyView::Debug(payload) => Body::Debug(payload),
        BodyView::End => Body::End,
        BodyView::Advisory(payload) => Body::Advisory(payload),
    })
}
