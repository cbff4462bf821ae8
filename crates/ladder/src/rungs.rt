ghost use Rattle.std.specs.Prelude.{◌≡◌, ℕ};
ghost use Rattle.terms.specs.Prices.{IsPrice};
ghost use Rattle.ladder.specs.Rungs.{Rungs, In, Lowest, Highest};

/// Some prices, called rungs, and where the nearest of them is from any number.
pub trait Ladder {
    // Which numbers are rungs.
    ghost rungs: { Self → Rungs };

    // None but prices are.
    ghost priced: { (s : Self) (p : ℕ) → In (rungs s) p → IsPrice p };

    /// Whether `p` is a rung.
    fn is_rung(&self, p: u32) -> bool
        ensures { result ≡ rungs self.now p };

    // Two questions and no direction as a parameter: a caller asks one way, and each way has its own arithmetic.
    /// The nearest rung upward from `p`, `p` included.
    fn at_or_above(&self, p: u32) -> Option<u32>
        ensures { Lowest (rungs self.now) p result };

    /// The nearest rung downward from `p`, `p` included.
    fn at_or_below(&self, p: u32) -> Option<u32>
        ensures { Highest (rungs self.now) p result };
}

/// A ladder that is lent answers as itself.
// Each question is passed on by itself: Rust has no shorter form.
impl<L: Ladder> Ladder for &L {
    ghost rungs = { λ s. L.Ladder.rungs s.now };

    ghost priced = { λ s. L.Ladder.priced s.now };

    fn is_rung(&self, p: u32) -> bool {
        L::is_rung(self, p)
    }

    fn at_or_above(&self, p: u32) -> Option<u32> {
        L::at_or_above(self, p)
    }

    fn at_or_below(&self, p: u32) -> Option<u32> {
        L::at_or_below(self, p)
    }
}
