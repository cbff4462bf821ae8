ghost use Rattle.std.specs.Prelude.{◌≡◌, take};
ghost use Rattle.book.specs.Fills.{all_fills, recorded};
ghost use Rattle.book.specs.PriceTimes.{ahead};
ghost use Rattle.bridge.specs.Calls.{answered, code_of, filled, found_of, priced};

use super::calls::{fill, price};
use super::types::{Auction, Found};
use book::{Fill, Order};
use terms::Refusal;

// Writes a value into `out` and answers 0, or answers the number of a refusal, which writes nothing: C has no `Result`.
fn answer<T: Copy>(outcome: Result<T, Refusal>, out: &mut T) -> u32
    ensures code { result ≡ code_of outcome }
    ensures out { out.new ≡ answered (λ x. x) outcome out.old }
{
    match outcome {
        Ok(value) => {
            *out = value;
            0
        }
        Err(why) => u32::from(why),
    }
}

/// Writes the auction price of the first `used` lines into `found`; answers 0, or the number of a refusal, which writes nothing.
#[unsafe(no_mangle)]
pub extern "C" fn zubryqan_price(
    lines: &[Order],
    used: usize,
    next: u64,
    auction: &Auction,
    found: &mut Found,
) -> u32
    ensures code { result ≡ code_of (priced used next auction.now lines.now) }
    ensures found { found.new ≡ answered found_of (priced used next auction.now lines.now) found.old }
{
    answer(price(lines, used, next, auction).map(Found::from), found)
}

/// Fills the first `used` lines at `price` with `trading` shares into `fills`, and writes how many records that takes into `written`; answers 0, or the number of a refusal, which writes nothing.
#[unsafe(no_mangle)]
pub extern "C" fn zubryqan_fill(
    lines: &[Order],
    used: usize,
    next: u64,
    price: u32,
    trading: u32,
    fills: &mut [Fill],
    written: &mut usize,
) -> u32
    ensures code { result ≡ code_of (filled used next price trading lines.now fills.old) }
    ensures written { written.new ≡ answered (λ n. n) (filled used next price trading lines.now fills.old) written.old }
    ensures records { fills.new ≡ recorded (filled used next price trading lines.now fills.old) (all_fills ahead price trading (take used lines.now)) fills.old }
{
    answer(fill(lines, used, next, price, trading, fills), written)
}
