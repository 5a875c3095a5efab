//! What things that are found are handed to.
ghost use Rattle.std.specs.Prelude.{◌∷◌, ◌++◌, List, []};

/// Takes things one by one, and refuses none: what goes wrong with one is kept for the end.
///
/// `takes` says that just these were taken, in this order, from the one state to the other.
pub trait Takes<T> {
    ghost takes: { Self → List T → Self → Type 0 };

    /// Takes this one, after those that were taken before.
    fn take(&mut self, item: T)
        ensures { takes self.old (item ∷ []) self.new };

    ghost none: { (s : Self) → takes s [] s };

    ghost more: { (a b c : Self) (xs ys : List T) → takes a xs b → takes b ys c
        → takes a (xs ++ ys) c };
}
