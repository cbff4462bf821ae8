ghost use Rattle.std.specs.Prelude.{◌≡◌};
ghost use Rattle.terms.specs.Prices.{is_price};

/// The highest price, 100,000 euros. Prices are counted in ten-thousandths of a euro.
pub const MAX_PRICE: u32 = 1_000_000_000;

/// Whether a number is a price.
pub fn is_price(n: u64) -> bool
    ensures { result ≡ is_price n }
{
    (1..=u64::from(MAX_PRICE)).contains(&n)
}
