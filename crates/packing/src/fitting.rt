//! What a fitting rule is.
ghost use Rattle.std.specs.Prelude.{◌≡◌, ℕ, List, Option};
ghost use Rattle.packing.specs.Fitting.{Lawful};

/// A fitting rule names the open server that an item goes to, or none.
pub trait Fitting {
    /// The answer, from the parts used by each open server in order of opening, the unit, and the item's rate.
    ghost fits: { Self → List ℕ → ℕ → ℕ → Option ℕ };

    fn fit(&self, used: &[u16], unit: u16, rate: u16) -> Option<usize>
        ensures { result ≡ fits self.now used.now unit rate };

    /// A named server is open and has room; none is named exactly if no open server has room.
    ghost lawful: { (rule : Self) → Lawful (fits rule) };
}
