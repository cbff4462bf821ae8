ghost use Rattle.std.specs.Prelude.{◌≡◌, ◌*◌, ◌/◌, ◌<◌, ◌≤◌, ◌&&◌, nat_le};
ghost use Rattle.terms.specs.Prices.{is_price};
ghost use Rattle.terms.specs.Refusals.{Admitted};
ghost use Rattle.ladder.specs.Limits.{limited, limited_in};

use super::rungs::Ladder;
use terms::{MAX_PRICE, Refusal, admit};

// The widest limit, in percent.
const MAX_PERCENT: u32 = 100;

/// A limit over a ladder: its rungs that are at most `percent` per cent of `centre` away from it.
#[derive(Drop)]
pub struct Limit<L> {
    inner: L,
    centre: u32,
    percent: u32,
    ghost above: { 0 < centre },
    ghost price: { centre ≤ 1000000000 },
    ghost part: { percent ≤ 100 },
}

impl<L: Ladder + Drop> Limit<L> {
    /// The limit over `inner` with a price as centre and a percentage from 0 to 100.
    pub fn new(inner: L, centre: u64, percent: u64) -> Result<Limit<L>, Refusal>
        ensures { Admitted (is_price centre && nat_le percent 100) result (λ l. (l.inner ≡ inner) × (l.centre ≡ centre) × (l.percent ≡ percent)) }
    {
        Ok(Limit {
            inner,
            centre: admit(1, MAX_PRICE, centre)?,
            percent: admit(0, MAX_PERCENT, percent)?,
        })
    }
}

impl<L: Ladder> Limit<L> {
    /// The price that the limit is around.
    pub fn centre(&self) -> u32
        ensures { result ≡ self.now.centre }
    {
        self.centre
    }

    // How far a rung may be from the centre.
    fn reach(&self) -> u32
        ensures part { result ≡ self.now.percent * self.now.centre / 100 }
        ensures within { result ≤ self.now.centre }
    {
        (u64::from(self.percent) * u64::from(self.centre) / 100) as u32
    }
}

impl<L: Ladder> Ladder for Limit<L> {
    ghost rungs = { λ s. limited (L.Ladder.rungs s.inner) s.centre s.percent };

    ghost priced = { λ s p h. L.Ladder.priced s.inner p (limited_in (L.Ladder.rungs s.inner) s.centre s.percent p h) };

    fn is_rung(&self, p: u32) -> bool {
        self.inner.is_rung(p) && p.abs_diff(self.centre) <= self.reach()
    }

    fn at_or_above(&self, p: u32) -> Option<u32> {
        let reach = self.reach();
        self.inner
            .at_or_above(p.max(self.centre - reach))
            .filter(|rung| *rung <= self.centre + reach)
    }

    fn at_or_below(&self, p: u32) -> Option<u32> {
        let reach = self.reach();
        self.inner
            .at_or_below(p.min(self.centre + reach))
            .filter(|rung| *rung >= self.centre - reach)
    }
}
