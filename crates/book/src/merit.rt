ghost use Rattle.book.specs.PriceTimes.{ahead};
ghost use Rattle.std.proofs.Common.{rules};

use super::choose::Merit;
use super::order::{Order, Side};

/// The merit of orders: among buys the higher limit comes first, among sells the lower, and then the lower number.
/// Orders of different sides do not come before each other.
#[derive(Clone, Copy)]
pub struct PriceTime;

impl Merit<Order> for PriceTime {
    ghost before = { λ _. ahead };

    ghost never_itself = { Prim.search rules };

    ghost one_first = { Prim.search rules };

    ghost carries = { Prim.search rules };

    fn comes_before(&self, a: &Order, b: &Order) -> bool {
        if a.side != b.side {
            false
        } else if a.is_on(Side::Buy) {
            (b.limit, a.number) < (a.limit, b.number)
        } else {
            (a.limit, a.number) < (b.limit, b.number)
        }
    }
}
