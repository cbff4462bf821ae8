ghost use Rattle.std.specs.Prelude.{◌≡◌};
ghost use Rattle.terms.specs.Prices.{within};
ghost use Rattle.terms.specs.Refusals.{Admitted};
ghost use Rattle.sheet.specs.Gates.{gate_number, lasts};

use terms::Refusal;

/// The gate that a share trades behind: how much trade it takes to move the Reference Price, and how soon a period ends.
#[derive(Clone, Copy, PartialEq, Eq, Debug)]
pub enum Gate {
    One = 1,
    Two = 2,
    Three = 3,
}

// Written out for gates and for floats: one function for both would need their kinds as a list, and a search.
impl TryFrom<u64> for Gate {
    type Error = Refusal;

    ghost try_from_gives = { λ number r. Admitted (within 1 3 number) r (λ g. gate_number g ≡ number) };

    /// The gate of a number from 1 to 3.
    fn try_from(number: u64) -> Result<Gate, Refusal> {
        match number {
            1 => Ok(Gate::One),
            2 => Ok(Gate::Two),
            3 => Ok(Gate::Three),
            _ => Err(Refusal::Parameter),
        }
    }
}

impl From<Gate> for u32 {
    ghost from_gives = { λ gate n. n ≡ gate_number gate };

    /// The gate's number.
    fn from(gate: Gate) -> u32 {
        gate as u32
    }
}

impl Gate {
    // After how many whole months an opening ends the period.
    pub(crate) fn lasts(self) -> u32
        ensures { result ≡ lasts self }
    {
        match self {
            Gate::One | Gate::Two => 12,
            Gate::Three => 2,
        }
    }
}
