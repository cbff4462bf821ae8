ghost use Rattle.terms.specs.Prices.{within};
ghost use Rattle.terms.specs.Refusals.{Admitted};
ghost use Rattle.std.specs.Prelude.{◌≡◌};

use super::refusal::Refusal;

/// The value, if it is from `low` to `high`.
pub fn admit(low: u32, high: u32, value: u64) -> Result<u32, Refusal>
    ensures { Admitted (within low high value) result (λ n. n ≡ value) }
{
    if (u64::from(low)..=u64::from(high)).contains(&value) {
        Ok(value as u32)
    } else {
        Err(Refusal::Parameter)
    }
}
