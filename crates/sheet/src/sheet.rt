ghost use Rattle.std.specs.Prelude.{◌≡◌};
ghost use Rattle.sheet.specs.Sheets.{fresh};

use super::gate::Gate;
use terms::Date;

/// The period sheet: what the next call of a share rests on, and how its running period has gone so far.
#[derive(Clone, Copy, PartialEq, Eq, Debug)]
pub struct Sheet {
    pub gate: Gate,
    /// Limit 1, in percent.
    pub limit: u32,
    /// The Reference Price.
    pub reference: u32,
    /// When the running period started.
    pub start: Option<Date>,
    /// The shares traded in the period.
    pub volume: u64,
    /// What they cost together.
    pub turnover: u64,
    /// The intermediate period: which two months of the period these are, from 1 to 6.
    pub intermediate: u32,
    /// The shares traded in it.
    pub recent: u64,
}

impl Sheet {
    // A sheet with nothing traded yet.
    pub(crate) fn fresh(gate: Gate, limit: u32, reference: u32, start: Option<Date>) -> Sheet
        ensures { result ≡ fresh gate limit reference start }
    {
        Sheet {
            gate,
            limit,
            reference,
            start,
            volume: 0,
            turnover: 0,
            intermediate: 1,
            recent: 0,
        }
    }
}
