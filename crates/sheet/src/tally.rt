ghost use Rattle.std.specs.Prelude.{◌≡◌, ◌*◌, ◌<◌, ◌≤◌};
ghost use Rattle.sheet.specs.Sheets.{averaged, ended, grade_after, settled};

use super::gate::Gate;
use super::sheet::Sheet;
use super::standing::Standing;
use super::thresholds::Terms;
use terms::Date;

/// The terms and the period sheet of a share whose period may be over: all that is known is that the sums fit.
// The fields are those of a `Standing`; what is known of them is another thing, and all that the type is for.
#[derive(Clone, Copy)]
pub struct Tally {
    pub terms: Terms,
    pub sheet: Sheet,
    ghost few: { sheet.volume < 4400000000 },
    ghost priced: { sheet.turnover ≤ 1000000000 * sheet.volume },
}

impl From<Standing> for Tally {
    ghost from_gives = { λ standing t. (t.terms ≡ standing.terms) × (t.sheet ≡ standing.sheet) };

    #[tactic(auto, using(crate::proofs::Keeping::bounds))]
    fn from(standing: Standing) -> Tally {
        Tally {
            terms: standing.terms,
            sheet: standing.sheet,
        }
    }
}

impl Tally {
    // The sheet after its period, if the shares traded end it.
    pub(crate) fn settled(self) -> Sheet
        ensures { result ≡ settled self.terms self.sheet }
    {
        let threshold = self.terms.reference_in(self.sheet.gate);
        if self.terms.reached(threshold, self.sheet.volume) {
            self.ended(None)
        } else {
            self.sheet
        }
    }

    // The sheet after the end of its period.
    pub(crate) fn ended(self, start: Option<Date>) -> Sheet
        ensures { result ≡ ended self.terms self.sheet start }
    {
        let (gate, limit) = self.grade_after();
        Sheet::fresh(gate, limit, self.averaged(), start)
    }

    // The Reference Price after the period: the average price of its shares, halves up, or the old one where there were none.
    fn averaged(self) -> u32
        ensures { result ≡ averaged self.sheet }
    {
        let Sheet {
            volume,
            turnover,
            reference,
            ..
        } = self.sheet;
        if volume == 0 {
            reference
        } else {
            ((2 * turnover + volume) / (2 * volume)) as u32
        }
    }

    // The gate and Limit 1 that the shares traded lead to.
    fn grade_after(self) -> (Gate, u32)
        ensures { result ≡ grade_after self.sheet.gate self.terms self.sheet.volume }
    {
        let reached = |threshold: u32| self.terms.reached(threshold, self.sheet.volume);
        match self.sheet.gate {
            Gate::Three => (Gate::Three, 8),
            Gate::One | Gate::Two => {
                if reached(1200) {
                    (Gate::Two, 4)
                } else if reached(1000) {
                    (Gate::Two, 6)
                } else if reached(800) {
                    (Gate::Two, 8)
                } else {
                    (Gate::One, 8)
                }
            }
        }
    }
}
