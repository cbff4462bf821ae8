ghost use Rattle.std.specs.Prelude.{◌≡◌, take};
ghost use Rattle.terms.specs.Refusals.{Admitted};
ghost use Rattle.ladder.specs.Eithers.{either};
ghost use Rattle.ladder.specs.Bands.{banded};
ghost use Rattle.ladder.specs.Multiples.{multiples};
ghost use Rattle.book.specs.Fills.{all_fills, recorded};
ghost use Rattle.book.specs.PriceTimes.{ahead};
ghost use Rattle.bridge.specs.Calls.{filled, is_ladder, priced, rungs_of};

use super::types::Auction;
use auction::{RungMark, price_within};
use book::{Book, Fill, Order, PriceTime};
use ladder::{Either, Flat, Limit, Table};
use terms::Refusal;

impl Auction {
    // The ladder of the band, or of the step where the band is 0.
    fn ladder(&self) -> Result<Either<Flat, Table>, Refusal>
        ensures { Admitted (is_ladder self.now.band self.now.step) result (λ l. either (λ f. multiples f.step) (λ t. banded t.band) l ≡ rungs_of self.now.band self.now.step) }
    {
        if self.band == 0 {
            Flat::new(u64::from(self.step)).map(Either::Left)
        } else {
            Table::new(u64::from(self.band)).map(Either::Right)
        }
    }
}

// C hands over lines, `used` and `next` apart: the first step of each call makes a `Book` of them.

/// The auction price of the first `used` lines.
pub(crate) fn price(
    lines: &[Order],
    used: usize,
    next: u64,
    auction: &Auction,
) -> Result<Option<RungMark>, Refusal>
    ensures { result ≡ priced used next auction.now lines.now }
{
    let book = Book::new(lines, used, next)?;
    let limit = Limit::new(
        auction.ladder()?,
        u64::from(auction.reference),
        u64::from(auction.percent),
    )?;
    Ok(price_within(&book, &limit))
}

/// Fills the first `used` lines by price and time.
pub(crate) fn fill(
    lines: &[Order],
    used: usize,
    next: u64,
    price: u32,
    trading: u32,
    fills: &mut [Fill],
) -> Result<usize, Refusal>
    ensures count { result ≡ filled used next price trading lines.now fills.old }
    ensures written { fills.new ≡ recorded result (all_fills ahead price trading (take used lines.now)) fills.old }
{
    Book::new(lines, used, next)?.fill(&PriceTime, price, trading, fills)
}
