ghost use Rattle.std.specs.Prelude.{◌≡◌, ◌<◌};
ghost use Rattle.sheet.specs.Thresholds.{minimum_in, reached, reference_in};

use super::float::Float;
use super::gate::Gate;

/// What a share is traded on, from its founding sheet.
#[derive(Clone, Copy)]
pub struct Terms {
    pub float: Float,
    /// The reference threshold that the bank chose for Gate 2.
    pub choice: u32,
    /// The shares in circulation.
    pub circulation: u32,
    /// The widest that Limit 2 may be, in percent.
    pub cap: u32,
    /// The first order number.
    pub first: u32,
}

impl Terms {
    // The threshold that ends a period.
    pub(crate) fn reference_in(&self, gate: Gate) -> u32
        ensures { result ≡ reference_in gate self.now }
    {
        match gate {
            Gate::One => self.float.eased(1000),
            Gate::Two => self.choice,
            Gate::Three => 500,
        }
    }

    // The threshold below which an intermediate period widens the limit.
    pub(crate) fn minimum_in(&self, gate: Gate) -> u32
        ensures { result ≡ minimum_in gate self.now }
    {
        match gate {
            Gate::One => self.float.eased(100),
            Gate::Two => 100,
            Gate::Three => 0,
        }
    }

    // Whether so many shares reach a threshold.
    pub(crate) fn reached(&self, threshold: u32, shares: u64) -> bool
        requires { shares < 10000000000 }
        ensures { result ≡ reached self.now threshold shares }
    {
        100_000 * shares >= u64::from(threshold) * u64::from(self.circulation)
    }
}
