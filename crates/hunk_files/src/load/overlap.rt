//! Offsets whose longs overlap.
ghost use Rattle.std.specs.Prelude.{◌≡◌, ◌<◌, ◌++◌, IfOk, OnOk, MatchOption, length, map};
ghost use Rattle.std.specs.List.{flat_map};
ghost use Rattle.std.specs.List.Sorted.{IsNonDecreasing};
ghost use Rattle.hunk_blocks.specs.Views.{group_of};
ghost use Rattle.hunk_files.specs.Image.{block_relocations, group_relocations, offsets};
ghost use Rattle.hunk_files.specs.Overlap.{AreApart, IsFirstOverlap, hunk_offsets};

use crate::load::file::LoadFile;
use hunk_blocks::{Block, Body, Groups, Longs};
use std::alloc::{AllocError, Global};

impl LoadFile<'_> {
    /// Two offsets of hunk `i`, counted from 0, whose longs overlap: 1 to 3 bytes apart.
    ///
    /// `None` is answered where there are none. Else the pair is the smaller and the larger of two
    /// neighbours, among the distinct offsets of the hunk's RELOC32 blocks in rising order, that
    /// are 1 to 3 apart: the pair with the least smaller offset. Offsets are in bytes from the
    /// start of the hunk. It takes memory for the offsets, 4 bytes each.
    ///
    /// # Errors
    ///
    /// `AllocError` where memory for the offsets is refused.
    pub fn overlap(&self, alloc: Global, i: u32) -> Result<Option<(u32, u32)>, AllocError>
        requires { i < length self.now }
        ensures { IfOk result (λ found. MatchOption found (AreApart (hunk_offsets self.now i))
            (λ pair. IsFirstOverlap (hunk_offsets self.now i) pair.0 pair.1)) }
    {
        let mut rising = Vec::new(alloc);
        push_hunk_offsets(&mut rising, &self.hunks[i as usize].blocks)?;
        rising.sort_unstable();
        Ok(first_close(&rising))
    }
}

/// The first two neighbours among rising offsets that are 1 to 3 apart.
#[tactic(auto, using(crate::proofs::image::Rising::first_is))]
fn first_close(rising: &[u32]) -> Option<(u32, u32)>
    requires { IsNonDecreasing rising.now }
    ensures { MatchOption result (AreApart rising.now)
        (λ pair. IsFirstOverlap rising.now pair.0 pair.1) }
{
    for i in 1..rising.len() {
        let smaller = rising[i - 1];
        let larger = rising[i];
        if smaller < larger && larger - smaller < 4 {
            return Some((smaller, larger));
        }
    }
    None
}

/// Appends the offsets of all relocations of the blocks, in file order.
fn push_hunk_offsets(rising: &mut Vec<u32>, blocks: &[Block<'_>]) -> Result<(), AllocError>
    ensures { OnOk result (rising.new.items ≡ rising.old.items
        ++ offsets (flat_map (λ b. block_relocations b.body) blocks.now)) }
{
    'pushing: for block in blocks {
        if let Body::Reloc(groups) = block.body() {
            push_offsets(rising, groups)?;
        }
    }
    Ok(())
}

/// Appends the offsets of all groups.
fn push_offsets(rising: &mut Vec<u32>, groups: &Groups<'_>) -> Result<(), AllocError>
    ensures { OnOk result (rising.new.items ≡ rising.old.items
        ++ offsets (flat_map group_relocations (map group_of groups.now))) }
{
    'pushing: for group in groups {
        push_longs(rising, &group.offsets)?;
    }
    Ok(())
}

/// Appends the longwords.
fn push_longs(rising: &mut Vec<u32>, longs: &Longs<'_>) -> Result<(), AllocError>
    ensures { OnOk result (rising.new.items ≡ rising.old.items ++ longs.now) }
{
    'pushing: for long in longs {
        rising.push(long)?;
    }
    Ok(())
}
