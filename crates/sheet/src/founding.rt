ghost use Rattle.std.specs.Prelude.{◌≡◌};
ghost use Rattle.terms.specs.Refusals.{Admitted};
ghost use Rattle.sheet.specs.Foundings.{founded, sheet_in_range, terms_in_range, terms_of};
ghost use Rattle.sheet.specs.Sounds.{is_choice};

use super::float::Float;
use super::gate::Gate;
use super::sheet::Sheet;
use super::thresholds::Terms;
use terms::{MAX_PRICE, Refusal, admit};

const MAX_CIRCULATION: u32 = 1_000_000_000;

const MAX_CAP: u32 = 100;

// Limit 1 at the founding, in percent.
const FIRST_LIMIT: u32 = 8;

/// What a share is founded on, as it is handed in: any numbers.
// Gate and float are numbers here too: they are judged when the share is listed, and a bad one is a refusal.
#[derive(Clone, Copy)]
pub struct FoundingSheet {
    /// From 1 to 3.
    pub gate: u64,
    /// From 1 to 3.
    pub float: u64,
    /// The reference threshold that the bank chose for Gate 2.
    pub choice: u64,
    /// The shares in circulation.
    pub circulation: u64,
    /// The Reference Price.
    pub reference: u64,
    /// The widest that Limit 2 may be, in percent.
    pub cap: u64,
    /// The first order number.
    pub first: u64,
}

// The value, if it is a threshold that a bank may choose.
fn choice(value: u64) -> Result<u32, Refusal>
    ensures { Admitted (is_choice value) result (λ n. n ≡ value) }
{
    match u32::try_from(value) {
        Ok(n @ (1000 | 1200 | 1500 | 2000 | 2500 | 3000)) => Ok(n),
        _ => Err(Refusal::Parameter),
    }
}

impl FoundingSheet {
    // The terms that stay.
    pub(crate) fn terms(self) -> Result<Terms, Refusal>
        ensures { Admitted (terms_in_range self) result (λ t. t ≡ terms_of self) }
    {
        Ok(Terms {
            float: Float::try_from(self.float)?,
            choice: choice(self.choice)?,
            circulation: admit(1, MAX_CIRCULATION, self.circulation)?,
            cap: admit(1, MAX_CAP, self.cap)?,
            first: admit(1, u32::MAX, self.first)?,
        })
    }

    // The first sheet.
    pub(crate) fn sheet(self) -> Result<Sheet, Refusal>
        ensures { Admitted (sheet_in_range self) result (λ s. s ≡ founded self) }
    {
        let gate = Gate::try_from(self.gate)?;
        let reference = admit(1, MAX_PRICE, self.reference)?;
        Ok(Sheet::fresh(gate, FIRST_LIMIT, reference, None))
    }
}
