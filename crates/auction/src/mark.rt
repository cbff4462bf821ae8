ghost use Rattle.std.specs.Prelude.{◌≡◌, Some};
ghost use Rattle.auction.specs.Marks.{ahead, trades};

/// The mark of a rung: what would trade there.
#[derive(Clone, Copy, PartialEq, Eq, Debug)]
pub struct RungMark {
    pub price: u32,
    /// The shares that would trade.
    pub shares: u32,
    /// The size of the surplus: the shares of one side that would find no other side.
    pub surplus: u32,
    /// How far the rung is from the reference.
    pub distance: u32,
}

impl RungMark {
    /// Whether a share trades.
    pub fn trades(&self) -> bool
        ensures { result ≡ trades (Some self.now) }
    {
        self.shares > 0
    }

    /// Whether this mark comes before `other`: more shares, then less surplus, then nearer, then higher.
    pub fn leads(&self, other: &RungMark) -> bool
        ensures { result ≡ ahead self.now other.now }
    {
        let order = self
            .shares
            .cmp(&other.shares)
            .then_with(|| other.surplus.cmp(&self.surplus))
            .then_with(|| other.distance.cmp(&self.distance))
            .then_with(|| self.price.cmp(&other.price));
        order.is_gt()
    }
}
