ghost use Rattle.std.specs.Prelude.{◌≡◌, ◌<◌, ◌≤◌};
ghost use Rattle.terms.specs.Prices.{within};
ghost use Rattle.terms.specs.Refusals.{Admitted};
ghost use Rattle.ladder.specs.Multiples.{multiples, multiples_priced};

use super::rungs::Ladder;
use terms::{MAX_PRICE, Refusal, admit, is_price};

/// The prices that are a multiple of a step of at most `MOST`.
#[derive(Clone, Copy)]
pub struct Multiples<const MOST: u32> {
    pub(crate) step: u32,
    ghost low: { 0 < step },
    ghost high: { step ≤ MOST },
}

/// A flat ladder: rungs at equal distances, as far as prices go.
pub type Flat = Multiples<1_000_000>;

impl<const MOST: u32> Multiples<MOST> {
    /// Takes a step from 1 to `MOST`.
    pub fn new(step: u64) -> Result<Multiples<MOST>, Refusal>
        ensures { Admitted (within 1 MOST step) result (λ m. m.step ≡ step) }
    {
        Ok(Multiples {
            step: admit(1, MOST, step)?,
        })
    }
}

impl<const MOST: u32> Ladder for Multiples<MOST> {
    ghost rungs = { λ s. multiples s.step };

    ghost priced = { λ s. multiples_priced s.step };

    fn is_rung(&self, p: u32) -> bool {
        is_price(u64::from(p)) && p.is_multiple_of(self.step)
    }

    #[tactic(auto, using(crate::proofs::Roundings::rounds_up))]
    fn at_or_above(&self, p: u32) -> Option<u32> {
        let rung = p.clamp(1, MAX_PRICE + 1).div_ceil(self.step) * self.step;
        (rung <= MAX_PRICE).then_some(rung)
    }

    #[tactic(auto, using(crate::proofs::Roundings::rounds_down))]
    fn at_or_below(&self, p: u32) -> Option<u32> {
        let rung = p.min(MAX_PRICE) / self.step * self.step;
        (rung > 0).then_some(rung)
    }
}
