ghost use Rattle.std.specs.Prelude.{◌≡◌};
ghost use Rattle.terms.specs.Prices.{within};
ghost use Rattle.terms.specs.Refusals.{Admitted};
ghost use Rattle.sheet.specs.Gates.{float_number};
ghost use Rattle.sheet.specs.Thresholds.{eased};

use terms::Refusal;

/// The free float of a share: how much of it is in the hands of those who may trade it.
#[derive(Clone, Copy, PartialEq, Eq, Debug)]
pub enum Float {
    AboveQuarter = 1,
    AtMostQuarter = 2,
    AtMostTenth = 3,
}

// Written out, as for gates.
impl TryFrom<u64> for Float {
    type Error = Refusal;

    ghost try_from_gives = { λ number r. Admitted (within 1 3 number) r (λ f. float_number f ≡ number) };

    /// The float of a number from 1, above a quarter, to 3, at most a tenth.
    fn try_from(number: u64) -> Result<Float, Refusal> {
        match number {
            1 => Ok(Float::AboveQuarter),
            2 => Ok(Float::AtMostQuarter),
            3 => Ok(Float::AtMostTenth),
            _ => Err(Refusal::Parameter),
        }
    }
}

impl From<Float> for u32 {
    ghost from_gives = { λ float n. n ≡ float_number float };

    /// The float's number.
    fn from(float: Float) -> u32 {
        float as u32
    }
}

impl Float {
    // What the float makes of a threshold.
    pub(crate) fn eased(self, threshold: u32) -> u32
        ensures { result ≡ eased self threshold }
    {
        match self {
            Float::AboveQuarter => threshold,
            Float::AtMostQuarter => threshold / 2,
            Float::AtMostTenth => threshold / 4,
        }
    }
}
