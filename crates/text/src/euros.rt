ghost use Rattle.std.specs.Prelude.{◌≡◌, ℕ, ◌^◌, ◌<◌, ◌≤◌, length, IfSome, MatchOption};
ghost use Rattle.text.specs.Euros.{InEuros, digits, euros};

use crate::split::split_once;

/// The ten-thousandths of a euro that a text of decimal euros says: 1 to 6 digits, and after them nothing, or a point and 1 to 4 digits.
#[tactic(auto, using(crate::proofs::Amounts::amount_reads, crate::proofs::Amounts::amount_said))]
pub fn read_euros(text: &[u8]) -> Option<u64>
    ensures value { result ≡ euros text.now }
    ensures says { MatchOption result ((n : ℕ) → InEuros text.now n → ⊥) (InEuros text.now) }
{
    let Some((whole, decimals)) = split_once(text, b'.') else {
        return Some(digits(text, 6)? * 10_000);
    };
    let whole = digits(whole, 6)?;
    let part = digits(decimals, 4)?;
    let places = decimals.len() as u32;
    Some(whole * 10_000 + part * 10u64.pow(4 - places))
}

/// The number that 1 to `most` digits write. None where the text is anything else.
fn digits(text: &[u8], most: usize) -> Option<u64>
    requires { most ≤ 6 }
    ensures value { result ≡ digits most text.now }
    ensures small { IfSome result (λ n. (length text.now ≤ most) × (n < 10 ^ most)) }
{
    if text.is_empty() || text.len() > most {
        return None;
    }
    let mut value = 0;
    for byte in text {
        value = value * 10 + u64::from(char::from(*byte).to_digit(10)?);
    }
    Some(value)
}
