//! The findings of an object file, kept.
ghost use Rattle.std.specs.Prelude.{◌≡◌, ◌≢◌, ◌<◌, ◌↔◌, [], IfOk, OnErr, IsTrue, Some, length, slice_get};
ghost use Rattle.std.specs.Slice.Iter.{iter_rest};
ghost use Rattle.hunk_files.specs.Findings.{findings};
ghost use Rattle.hunk_files.specs.Collecting.{Keeps, keeps_none, keeps_more};

use crate::object::check::Finding;
use crate::object::file::ObjectFile;
use crate::takes::Takes;
use std::alloc::{AllocError, Global};
use std::marker::Model;
use std::slice;

/// What is wrong with the offsets of an object file, in file order. Contracts see it as a list.
#[derive(Debug, Drop)]
pub struct Findings {
    findings: Vec<Finding>,
}

impl Model for Findings {
    ghost use Rattle.std.specs.Prelude.{List};
    ghost use Rattle.hunk_files.specs.declared.object.check.Finding.{Finding};

    ghost Value = { List Finding };

    ghost view = { λ s. s.findings.items };
}

impl Findings {
    /// How many findings there are.
    pub fn len(&self) -> usize
        ensures { result ≡ length self.now }
    {
        self.findings.len()
    }

    /// Whether nothing was found.
    pub fn is_empty(&self) -> bool
        ensures { IsTrue result ↔ (self.now ≡ []) }
    {
        self.findings.is_empty()
    }

    /// The findings in turn.
    pub fn iter(&self) -> slice::Iter<'_, Finding>
        ensures { iter_rest result ≡ self.now }
    {
        self.findings.iter()
    }

    /// The finding number `i`, counted from 0.
    pub fn at(&self, i: usize) -> &Finding
        requires { i < length self.now }
        ensures { slice_get self.now i ≡ Some result.now }
    {
        &self.findings[i]
    }
}

impl<'b> IntoIterator for &'b Findings {
    type Item = &'b Finding;

    type IntoIter = slice::Iter<'b, Finding>;

    ghost into_iter_gives = { λ found it. iter_rest it ≡ found.now };

    fn into_iter(self) -> Self::IntoIter {
        self.iter()
    }
}

/// Keeps findings, until memory runs out.
#[derive(Drop)]
struct Collector {
    found: Vec<Finding>,
    lost: bool,
}

impl Takes<Finding> for Collector {
    ghost takes = { λ a xs b. Keeps a.lost a.found.items xs b.lost b.found.items };

    ghost none = { λ s. keeps_none s.lost s.found.items };

    ghost more = { λ a b c xs ys. keeps_more a.lost b.lost c.lost
        a.found.items b.found.items c.found.items xs ys };

    fn take(&mut self, item: Finding) {
        if !self.lost {
            self.lost = self.found.push(item).is_err();
        }
    }
}

impl ObjectFile<'_> {
    /// What is wrong with the offsets of all relocations and external references, in file order.
    ///
    /// For each offset there is `BadTarget` where it is a relocation's and the target is not below
    /// the unit's number of hunks, then `OutsideHunk` where the bytes that are relocated or refer
    /// go past the end of the hunk. `check_with` hands the findings over one by one instead, and
    /// takes no memory.
    ///
    /// # Errors
    ///
    /// `AllocError` where memory for a finding is refused; never where there is nothing to find.
    pub fn check(&self, alloc: Global) -> Result<Findings, AllocError>
        ensures value { IfOk result (λ found. found ≡ findings self.now) }
        ensures finds { OnErr result (findings self.now ≢ []) }
    {
        let mut collector = Collector {
            found: Vec::new(alloc),
            lost: false,
        };
        self.check_with(&mut collector);
        let Collector { found, lost } = collector;
        if lost {
            return Err(AllocError);
        }
        Ok(Findings { findings: found })
    }
}
