ghost use Rattle.std.specs.Prelude.{◌≡◌};
ghost use Rattle.book.specs.Depths.{bid, offered};

use super::order::Side;
use super::sound::Book;

impl Book<'_> {
    /// The shares bid and the shares offered at a number as price.
    pub fn depth(&self, price: u32) -> (u32, u32)
        ensures { result ≡ (bid self.now.lines.now price, offered self.now.lines.now price) }
    {
        let mut bid = 0;
        let mut offered = 0;
        for line in self.lines {
            bid += line.shares_at(Side::Buy, price);
            offered += line.shares_at(Side::Sell, price);
        }
        (bid, offered)
    }
}
