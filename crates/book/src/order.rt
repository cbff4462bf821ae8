ghost use Rattle.std.specs.Prelude.{◌≡◌};
ghost use Rattle.book.specs.Orders.{side_number, accepts as accepts_at, on_side, shares_at, told_apart};

use super::choose::Distinct;

/// Whether an order buys or sells.
#[derive(Clone, Copy, PartialEq, Eq, Debug)]
pub enum Side {
    Buy = 1,
    Sell = 2,
}

impl From<Side> for u32 {
    ghost from_gives = { λ side n. n ≡ side_number side };

    /// The number that stands for a side in an order line.
    fn from(side: Side) -> u32 {
        side as u32
    }
}

/// An order line. It holds plain numbers, since a free line is all zeros and lines come from outside.
#[repr(C)]
#[derive(Clone, Copy, PartialEq, Eq, Debug)]
pub struct Order {
    pub number: u32,
    pub member: u32,
    /// 1 to buy, 2 to sell.
    pub side: u32,
    pub limit: u32,
    /// The shares with which it was entered.
    pub entered: u32,
    /// The shares that it still has to trade.
    pub left: u32,
    /// The last day on which it stands, as the number of a date.
    pub last_day: u32,
}

impl Order {
    /// A line that is not in use.
    // A constant, which a derived `default()` is not, so that callers can name it in constants of their own.
    pub const FREE: Order = Order {
        number: 0,
        member: 0,
        side: 0,
        limit: 0,
        entered: 0,
        left: 0,
        last_day: 0,
    };

    /// Whether this is an order of `side`.
    pub fn is_on(&self, side: Side) -> bool
        ensures { result ≡ on_side side self.now }
    {
        self.side == u32::from(side)
    }

    /// Whether this is an order of `side` that accepts `price`.
    pub fn accepts(&self, side: Side, price: u32) -> bool
        ensures { result ≡ accepts_at side price self.now }
    {
        let within_limit = match side {
            Side::Buy => price <= self.limit,
            Side::Sell => self.limit <= price,
        };
        self.is_on(side) && within_limit
    }

    /// The shares that this order brings to `side` at `price`.
    pub fn shares_at(&self, side: Side, price: u32) -> u32
        ensures { result ≡ shares_at side price self.now }
    {
        if self.accepts(side, price) {
            self.left
        } else {
            0
        }
    }
}

impl Distinct for Order {
    ghost apart = { told_apart };
}
