//! A table whose hunks are not placed.
ghost use Rattle.std.specs.Prelude.{◌≡◌, ◌*◌, ◌<◌, ◌≤◌, length, map, slice_get, Some, None, IfOk, IfErr, OnOk};
ghost use Rattle.hunk_words.specs.Limits.{most_hunks};
ghost use Rattle.hunk_files.specs.Image.{declared_bytes};
ghost use Rattle.hunk_scatter.specs.HeaderBytes.{header_bytes};
ghost use Rattle.hunk_scatter.specs.Placing.{AreBases, IsFirstUnplaced, IsUnplacedFor};
ghost use Rattle.hunk_scatter.specs.UnplacedLine.{unplaced_line};
ghost use Rattle.hunk_scatter.specs.Rows.{row_of, entries_of, bases_of};

use crate::body_loader::BodyLoader;
use crate::placer::Placer;
use crate::stream::Standing;
use hunk_files::Row;
use hunk_words::{History, LoadFault, Reason};
use std::alloc::Global;
use std::error::Error;
use std::fmt;
use std::marker::Model;

/// The table of a load file, which keeps to a budget. No hunk is placed.
///
/// Contracts see the entries of the table, and the budget.
#[derive(Drop)]
pub struct Declared {
    pub(crate) alloc: Global,
    pub(crate) rows: Vec<Row>,
    pub(crate) total: u64,
    pub(crate) budget: u64,
    pub(crate) count: u64,
    pub(crate) history: History,
}

impl Model for Declared {
    ghost use Rattle.hunk_scatter.specs.LoaderValues.{DeclaredValue};
    ghost use Rattle.hunk_scatter.specs.HeaderLoaderFields.{DeclaredInvariant};
    ghost use Rattle.hunk_scatter.specs.Rows.{entries_of};

    ghost Value = { DeclaredValue };

    ghost view = { λ s. record { table = entries_of s.rows.items; budget = s.budget } };

    ghost invariant = { λ s. DeclaredInvariant s.rows.items s.total s.budget s.count
        s.history.bytes };
}

/// A table that could not be placed, and why.
///
/// It is displayed as the refusal of a load that ends so, at the end of the header.
#[derive(Debug, Drop)]
pub struct Unplaced {
    /// The table as it was, every base 0.
    pub declared: Declared,
    /// `NoBase` of the hunk without a base, or `OutOfMemory`.
    pub reason: Reason,
}

impl fmt::Display for Unplaced {
    ghost output = { λ unplaced. Some (unplaced_line unplaced) };

    fn fmt<W: fmt::Write>(&self, f: &mut fmt::Formatter<W>) -> fmt::Result {
        let fault = LoadFault {
            place: self.declared.header_len(),
            reason: self.reason,
        };
        write!(f, "{fault}")
    }
}

impl Error for Unplaced {}

/// Gives each row its base, or answers the first hunk that has none.
fn place_rows<P: Placer>(rows: &mut [Row], placer: &P) -> Result<(), u32>
    requires few { length rows.old ≤ most_hunks }
    requires unplaced { rows.old ≡ map row_of (entries_of rows.old) }
    ensures entries { entries_of rows.new ≡ entries_of rows.old }
    ensures given { OnOk result
        (AreBases (P.base placer.now) (entries_of rows.old) (bases_of rows.new)) }
    ensures missing { IfErr result (IsFirstUnplaced (P.base placer.now) (entries_of rows.old)) }
{
    let mut before = 0;
    for (hunk, row) in rows.iter_mut().enumerate() {
        match placer.base(hunk as u32, row, before) {
            Some(base) => row.base = base,
            None => return Err(hunk as u32),
        }
        before += row.size().bytes();
    }
    Ok(())
}

/// Makes each row's base 0 again.
#[tactic(auto, using(crate::proofs::PlacingLaws::unplaced_next))]
fn clear_bases(rows: &mut [Row])
    ensures { rows.new ≡ map row_of (entries_of rows.old) }
{
    for row in rows {
        row.base = 0;
    }
}

impl Declared {
    /// The number of hunks, 1 to 65,536.
    pub fn hunks(&self) -> u32
        ensures { result ≡ length self.now.table }
    {
        self.rows.len() as u32
    }

    /// The table's entry of hunk `i`, counted from 0, with base 0.
    pub fn row(&self, i: u32) -> Row
        requires { i < length self.now.table }
        ensures { slice_get (map row_of self.now.table) i ≡ Some result }
    {
        self.rows[i as usize]
    }

    /// The number of bytes that all hunks declare together, at most the budget.
    pub fn total(&self) -> u64
        ensures value { result ≡ declared_bytes self.now.table }
        ensures bound { result ≤ self.now.budget }
    {
        self.total
    }

    /// The bytes that are held: 12 for each hunk.
    pub fn held(&self) -> u64
        ensures { result ≡ 12 * length self.now.table }
    {
        12 * self.rows.len() as u64
    }

    /// The number of bytes of the header, from the start of the file to the end of the table.
    pub(crate) fn header_len(&self) -> u64
        ensures { result ≡ length (header_bytes self.now.table) }
    {
        self.count
    }

    /// Places each hunk, and makes the store, of as many zero bytes as are declared.
    ///
    /// The placer is asked for the hunks in rising order.
    ///
    /// # Errors
    ///
    /// `NoBase` of the first hunk that has no base; `OutOfMemory` where memory for the store is
    /// refused. Either way the table comes back as it was, every base 0.
    pub fn place<P: Placer>(self, placer: &P) -> Result<BodyLoader, Unplaced>
        ensures fed { IfOk result (λ loader. loader.fed ≡ header_bytes self.table) }
        ensures rows { IfOk result (λ loader. entries_of loader.rows ≡ self.table) }
        ensures bases { IfOk result
            (λ loader. AreBases (P.base placer.now) self.table (bases_of loader.rows)) }
        ensures unrefused { IfOk result (λ loader. loader.refused ≡ None) }
        ensures reason { IfErr result
            (λ unplaced. IsUnplacedFor (P.base placer.now) self.table unplaced.reason) }
        ensures same { IfErr result (λ unplaced. unplaced.declared ≡ self) }
    {
        let mut table = self;
        if let Err(hunk) = place_rows(table.rows.as_mut_slice(), placer) {
            clear_bases(table.rows.as_mut_slice());
            return Err(Unplaced {
                declared: table,
                reason: Reason::NoBase(hunk),
            });
        }
        let Ok(store) = vec![in table.alloc; 0; table.total as usize] else {
            clear_bases(table.rows.as_mut_slice());
            return Err(Unplaced {
                declared: table,
                reason: Reason::OutOfMemory,
            });
        };
        let Declared {
            alloc: _,
            rows,
            total: _,
            budget: _,
            count,
            history,
        } = table;
        let standing = Standing::after_header(rows.len() as u32, count);
        Ok(BodyLoader {
            rows,
            store,
            standing,
            refused: None,
            history,
        })
    }
}
