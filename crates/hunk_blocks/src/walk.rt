//! The walk over the longwords of one block: its end, or the first fault.
ghost use Rattle.std.specs.Prelude.{◌≡◌, ◌≤◌, ◌*◌, ◌<◌, ◌^◌, MatchResult};
ghost use Rattle.hunk_words.specs.declared.reason.Reason.TheVariants as reasons;
ghost use Rattle.hunk_blocks.specs.Faults.{HasBlockFault, refuse_alone};
ghost use Rattle.hunk_blocks.specs.Begins.{HasBlockText};
ghost use Rattle.hunk_grammar.specs.PhaseSteps as inside;
ghost use Rattle.hunk_grammar.specs.PhaseSteps.{part_at};

use hunk_grammar::{Mode, Phase};
use hunk_words::{BlockFault, BlockWord, Reason, word_at};

/// The number of bytes of the block of the mode that the bytes begin with, or their first fault.
///
/// It takes no memory. Payloads, names and lists of offsets are passed over at once, as no test
/// looks at their longwords.
///
/// # Errors
///
/// The first fault of the bytes, at the first byte of its longword, from the start of the input;
/// `Truncated` at 4 times the number of whole longwords.
pub fn walk_block(bytes: &[u8], mode: Mode) -> Result<usize, BlockFault>
    ensures { MatchResult result (λ size. HasBlockText mode bytes.now size)
        (λ fault. HasBlockFault mode bytes.now fault.place fault.reason) }
{
    let count = bytes.len() / 4;
    let mut position = Some(Phase::BlockWord);
    let mut at = 0;
    'walking: while let Some(phase) = position {
        if at >= count {
            return Err(cut(count));
        }
        let word = word_at(bytes, at);
        if let Some(reason) = refuse_alone(phase, mode, word) {
            return Err(BlockFault {
                place: 4 * at as u64,
                reason,
            });
        }
        let after = phase.step(word);
        at += 1 + longest_run_of(after) as usize;
        position = pass_longest_run_of(after);
    }
    if at > count {
        return Err(cut(count));
    }
    Ok(4 * at)
}

/// Why the longword of a block that stands alone is refused, where it is.
#[inline(always)]
fn refuse_alone(phase: Phase, mode: Mode, word: u32) -> Option<Reason>
    ensures { result ≡ refuse_alone mode (part_at phase) word }
{
    match phase {
        Phase::FirstBlock | Phase::BlockWord => mode.refuse(BlockWord::of(word)),
        _ => phase.refuse(word),
    }
}

/// The refusal of an input of `count` whole longwords that ends too soon.
fn cut(count: usize) -> BlockFault
    requires { count < 2 ^ 62 }
    ensures { result ≡ record { place = 4 * count; reason = reasons.Truncated } }
{
    BlockFault {
        place: 4 * count as u64,
        reason: Reason::Truncated,
    }
}

/// How many longwords of the block come at least that no test looks at.
#[inline(always)]
fn longest_run_of(phase: Option<Phase>) -> u64
    ensures value { result ≡ inside.longest_run_of phase }
    ensures bound { result ≤ 2 ^ 32 }
{
    match phase {
        Some(phase) => phase.longest_run(),
        None => 0,
    }
}

/// After all of them.
#[inline(always)]
fn pass_longest_run_of(phase: Option<Phase>) -> Option<Phase>
    ensures { result ≡ inside.pass_longest_run_of phase }
{
    phase?.pass_longest_run()
}
