ghost use Rattle.std.specs.Prelude.{◌≡◌, ◌≤◌, ◌++◌, min, length, drop, nat_le};
ghost use Rattle.terms.specs.Refusals.{Passed};
ghost use Rattle.terms.specs.declared.refusal.Refusal.TheVariants.{TooFewRecords};
ghost use Rattle.book.specs.Fills.{accepting, all_fills, fills_of, Fair, recorded, waits};

use super::choose::{Merit, first_among};
use super::order::{Order, Side};
use super::sound::Book;
use terms::Refusal;

/// The shares that an order gains in a call.
#[repr(C)]
#[derive(Clone, Copy, PartialEq, Eq, Debug)]
pub struct Fill {
    /// The number of the order.
    pub number: u32,
    pub shares: u32,
}

impl Order {
    // The shares that it gets where so many are left to deal.
    fn gets(&self, rest: u32) -> u32
        ensures { result ≡ min rest self.now.left }
    {
        rest.min(self.left)
    }
}

// A price at which the orders of a book are to trade so many shares, dealt out in merit.
#[derive(Drop)]
struct Deal<'a, M> {
    book: Book<'a>,
    merit: &'a M,
    price: u32,
    trading: u32,
}

impl<'a, M: Merit<Order>> Deal<'a, M> {
    // Whether an order of a side accepts the price and comes after the last one served, if one was.
    fn waits(&self, side: Side, last: Option<Order>, order: &Order) -> bool
        ensures { result ≡ waits (M.Merit.before self.now.merit.now) side self.now.price last order.now }
    {
        last.is_none_or(|served| self.merit.comes_before(&served, order))
            && order.accepts(side, self.price)
    }

    // Fills a side, and says how many records that takes.
    fn fill_side(&self, side: Side, fills: &mut [Fill]) -> usize
        requires { length (accepting side self.now.price self.now.book.lines.now) ≤ length fills.old }
        ensures within { result ≤ length fills.old }
        ensures count { result ≡ length (fills_of (M.Merit.before self.now.merit.now) side self.now.price self.now.trading self.now.book.lines.now) }
        ensures written { fills.new ≡ fills_of (M.Merit.before self.now.merit.now) side self.now.price self.now.trading self.now.book.lines.now ++ drop result fills.old }
    {
        let lines = self.book.lines;
        let mut rest = self.trading;
        let mut last = None;
        // With its place, which is how many records there are before it.
        for (count, record) in fills.iter_mut().enumerate() {
            if rest == 0 {
                return count;
            }
            let waits = |order: &Order| self.waits(side, last, order);
            let Some(next) = first_among(lines, self.merit, waits) else {
                return count;
            };
            let line = lines[next];
            let shares = line.gets(rest);
            *record = Fill {
                number: line.number,
                shares,
            };
            rest -= shares;
            last = Some(line);
        }
        fills.len()
    }

    // Fills the buys and then the sells.
    #[tactic(auto, using(crate::proofs::Sides::accepting_length, crate::proofs::Sides::fills_length))]
    fn fill_both(&self, fills: &mut [Fill]) -> usize
        requires { length self.now.book.lines.now ≤ length fills.old }
        ensures count { result ≡ length (all_fills (M.Merit.before self.now.merit.now) self.now.price self.now.trading self.now.book.lines.now) }
        ensures written { fills.new ≡ all_fills (M.Merit.before self.now.merit.now) self.now.price self.now.trading self.now.book.lines.now ++ drop result fills.old }
        ensures fair { Fair (M.Merit.before self.now.merit.now) self.now.price self.now.trading self.now.book.lines.now }
    {
        let bought = self.fill_side(Side::Buy, fills);
        let sold = self.fill_side(Side::Sell, &mut fills[bought..]);
        bought + sold
    }
}

impl Book<'_> {
    /// Fills both sides at `price` with `trading` shares, each in merit, and says how many records that takes:
    /// those of the buys, then those of the sells. Refuses fewer records than there are lines.
    // The records' memory is the caller's, so their number comes back by itself, as from a reader.
    // Price and shares are apart, and no `Trade`: that has a price, and here any number may come.
    pub fn fill<M: Merit<Order>>(
        &self,
        merit: &M,
        price: u32,
        trading: u32,
        fills: &mut [Fill],
    ) -> Result<usize, Refusal>
        ensures answered { Passed TooFewRecords (nat_le (length self.now.lines.now) (length fills.old)) result (λ n. (n ≡ length (all_fills (M.Merit.before merit.now) price trading self.now.lines.now)) × Fair (M.Merit.before merit.now) price trading self.now.lines.now) }
        ensures written { fills.new ≡ recorded result (all_fills (M.Merit.before merit.now) price trading self.now.lines.now) fills.old }
    {
        if fills.len() < self.lines.len() {
            return Err(Refusal::TooFewRecords);
        }
        let deal = Deal {
            book: *self,
            merit,
            price,
            trading,
        };
        Ok(deal.fill_both(fills))
    }
}
