ghost use Rattle.std.specs.Prelude.{◌≡◌, ◌*◌, true, false, MatchOption};
ghost use Rattle.terms.specs.Prices.{is_price};

use super::price::is_price;

/// What an auction trades: shares, all at one price.
#[derive(Clone, Copy, PartialEq, Eq, Debug)]
pub struct Trade {
    price: u32,
    shares: u32,
    ghost valid: { is_price price ≡ true },
}

impl Trade {
    /// A trade at a price, or none where the number is no price.
    pub fn new(price: u32, shares: u32) -> Option<Trade>
        ensures { MatchOption result (is_price price ≡ false) (λ t. (is_price price ≡ true) × (t.price ≡ price) × (t.shares ≡ shares)) }
    {
        // an `if`, since only its first arm knows that the price is one, as a trade has to
        if is_price(u64::from(price)) {
            Some(Trade { price, shares })
        } else {
            None
        }
    }

    /// The price of each share.
    pub fn price(self) -> u32
        ensures { result ≡ self.price }
    {
        self.price
    }

    /// How many shares change hands.
    pub fn shares(self) -> u32
        ensures { result ≡ self.shares }
    {
        self.shares
    }

    /// What the shares cost together.
    pub fn turnover(self) -> u64
        ensures { result ≡ self.price * self.shares }
    {
        u64::from(self.price) * u64::from(self.shares)
    }
}
