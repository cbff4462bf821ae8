ghost use Rattle.std.specs.Prelude.{◌≡◌, ◌-◌, ◌≤◌};
ghost use Rattle.ladder.specs.Limits.{limited};
ghost use Rattle.ladder.specs.Rungs.{Lowest, Highest};
ghost use Rattle.auction.specs.Auctions.{auction_price, AnySearch};
ghost use Rattle.auction.specs.Found.{Improves};
ghost use Rattle.auction.specs.Marks.{marked};
ghost use Rattle.auction.specs.Promises.{Promised};
ghost use Rattle.auction.specs.Turns.{turn};

use super::mark::RungMark;
use super::merit::foremost_of;
use super::turn::turn;
use book::{Book, Order};
use ladder::{Ladder, Limit};

// A search for the auction price: the book, the ladder and the reference are the same at each of its steps.
#[derive(Drop)]
struct Search<'a, L> {
    book: &'a Book<'a>,
    ladder: &'a L,
    reference: u32,
}

impl<L: Ladder> Search<'_, L> {
    // The mark of a rung, if there is one.
    // A function of its own in the program too: beside the ladder's code, its loop over the lines took up to a fifth longer.
    #[inline(never)]
    fn weighed(&self, rung: Option<u32>) -> Option<RungMark>
        ensures { result ≡ marked self.now.book.now.lines.now self.now.reference rung }
    {
        let price = rung?;
        let (bid, offered) = self.book.depth(price);
        Some(RungMark {
            price,
            shares: bid.min(offered),
            surplus: bid.abs_diff(offered),
            distance: price.abs_diff(self.reference),
        })
    }

    // The highest rung up to `low`, and the lowest from `high` on.
    fn next_to(&self, low: u32, high: u32) -> (Option<u32>, Option<u32>)
        ensures below { Highest (L.Ladder.rungs self.now.ladder.now) low result.0 }
        ensures above { Lowest (L.Ladder.rungs self.now.ladder.now) high result.1 }
    {
        (self.ladder.at_or_below(low), self.ladder.at_or_above(high))
    }

    // The foremost of the best so far and the rungs next to two prices.
    fn improved(&self, low: u32, high: u32, best: Option<RungMark>) -> Option<RungMark>
        ensures { Improves (L.Ladder.rungs self.now.ladder.now) self.now.book.now.lines.now self.now.reference low high best result }
    {
        let (below, above) = self.next_to(low, high);
        foremost_of(best, self.weighed(below), self.weighed(above))
    }

    // The foremost of the best so far and the rungs just below the turn of an order and from it on.
    fn around_turn(&self, line: &Order, best: Option<RungMark>) -> Option<RungMark>
        requires { line.now.limit ≤ 1000000000 }
        ensures { Improves (L.Ladder.rungs self.now.ladder.now) self.now.book.now.lines.now self.now.reference (turn line.now - 1) (turn line.now) best result }
    {
        let turn = turn(line);
        self.improved(turn.saturating_sub(1), turn, best)
    }
}

/// The rung at which most shares trade, with its mark; none where no share trades.
/// Of equal ones the one with the smaller surplus, then the nearer to the reference, then the higher.
#[tactic(auto, using(crate::proofs::Improving::none_searched))]
pub fn auction_price<L: Ladder>(book: &Book, ladder: &L, reference: u32) -> Option<RungMark>
    ensures searched { AnySearch (L.Ladder.rungs ladder.now) book.now.lines.now reference result }
    ensures promised { Promised (L.Ladder.rungs ladder.now) book.now.lines.now reference result }
{
    let search = Search {
        book,
        ladder,
        reference,
    };
    let mut best = search.improved(reference, reference, None);
    for line in book.lines {
        best = search.around_turn(line, best);
    }
    best
}

/// The auction price among the rungs of a limit, with its centre as reference.
pub fn price_within<L: Ladder>(book: &Book, limit: &Limit<L>) -> Option<RungMark>
    ensures searched { result ≡ marked book.now.lines.now limit.now.centre (auction_price (L.Ladder.rungs limit.now.inner) book.now.lines.now limit.now.centre limit.now.percent) }
    ensures promised { Promised (limited (L.Ladder.rungs limit.now.inner) limit.now.centre limit.now.percent) book.now.lines.now limit.now.centre result }
{
    auction_price(book, limit, limit.centre())
}
