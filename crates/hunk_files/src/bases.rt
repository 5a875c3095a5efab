//! Where hunks lie.
ghost use Rattle.std.specs.Prelude.{◌≡◌, ◌<◌, ℕ, List, get_or, length};

/// Says where each hunk of a load file lies, in any way that answers alike each time.
pub trait Bases {
    ghost bases: { Self → List ℕ };

    /// The address of the hunk's first byte; `hunk` is its number, counted from 0.
    fn base(&mut self, hunk: u32) -> u32
        requires { hunk < length (bases self.old) }
        ensures base { result ≡ get_or (bases self.old) hunk 0 }
        ensures stays { bases self.new ≡ bases self.old };
}

/// The base of hunk `i`, counted from 0, stands at index `i`.
impl Bases for &[u32] {
    ghost bases = { λ s. s.now };

    #[inline(always)]
    fn base(&mut self, hunk: u32) -> u32 {
        self[hunk as usize]
    }
}
