//! Histories that only proofs read. They take no memory, and their methods do nothing at run time.
ghost use Rattle.std.specs.Prelude.{◌≡◌, ℕ, List, [], ◌++◌};
ghost use Rattle.std.specs.Borrow.{ftrue};

use std::marker::Model;

/// The bytes so far, for clauses alone, which read them as `bytes`.
#[derive(Drop)]
pub struct History {
    pub ghost bytes: { List ℕ },
}

impl Model for History {
    ghost also_owns = { λ _. ftrue };
}

impl History {
    /// A history of no bytes.
    pub fn new() -> History
        ensures { result.bytes ≡ [] }
    {
        History {}
    }

    /// This history with the piece after it. The piece is for the contract alone.
    pub fn and(&self, _piece: &[u8]) -> History
        ensures { result.bytes ≡ self.now.bytes ++ _piece.now }
    {
        History {}
    }
}
