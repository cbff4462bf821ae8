ghost use Rattle.std.specs.Prelude.{◌≡◌, ◌-◌, ◌<◌, ◌≤◌, true, replicate, is_some};
ghost use Rattle.sheet.specs.Sheets.{added, after, closed, next, opened, posted};
ghost use Rattle.sheet.specs.declared.event.Event.TheVariants.{IntermediateClose};
ghost use Rattle.sheet.specs.Sounds.{Due, is_sound};

use super::event::Event;
use super::gate::Gate;
use super::sheet::Sheet;
use super::tally::Tally;
use super::thresholds::Terms;
use terms::{Date, Trade};

// By how much a limit widens, in percentage points.
const WIDENING: u32 = 4;

/// How a share stands: the terms that it is traded on, and a period sheet that is sound on them.
// That the terms stay is a clause of each step: of a value that is made anew a caller knows what the clauses say.
#[derive(Clone, Copy)]
pub struct Standing {
    pub terms: Terms,
    pub sheet: Sheet,
    ghost sound: { is_sound terms sheet ≡ true },
}

impl Standing {
    // After an opening on a date.
    pub(crate) fn opened(self, date: Date) -> Standing
        ensures terms { result.terms ≡ self.terms }
        ensures sheet { result.sheet ≡ opened self.terms self.sheet date }
    {
        match self.sheet.start {
            None => self.next(Event::Opening(date)),
            Some(start) => {
                let months = date.months_since(start);
                if months >= self.sheet.gate.lasts() {
                    self.next(Event::TimeEnd(date))
                } else {
                    self.closed_before(months / 2 + 1)
                }
            }
        }
    }

    // After the posting of what a call traded.
    pub(crate) fn posted(self, trade: Option<Trade>) -> Standing
        ensures terms { result.terms ≡ self.terms }
        ensures sheet { result.sheet ≡ posted self.terms self.sheet trade }
    {
        self.next(Event::Posting(trade))
    }

    // After the close of each intermediate period before the one given.
    #[tactic(auto, using(crate::proofs::Closing::one_further, crate::proofs::Closing::start_stays, crate::proofs::Closing::first_close))]
    fn closed_before(self, intermediate: u32) -> Standing
        requires runs { is_some self.sheet.start ≡ true }
        requires last { intermediate ≤ 6 }
        ensures terms { result.terms ≡ self.terms }
        ensures sheet { result.sheet ≡ after self.terms self.sheet (replicate (intermediate - self.sheet.intermediate) IntermediateClose) }
    {
        // A `fold` would say no more, and its closure would have to be shown callable at every step.
        let mut standing = self;
        for _closing in self.sheet.intermediate..intermediate {
            standing = standing.next(Event::IntermediateClose);
        }
        standing
    }

    // After an event.
    #[tactic(auto, using(crate::proofs::Keeping::next_sound))]
    fn next(self, event: Event) -> Standing
        requires { Due self.sheet event }
        ensures terms { result.terms ≡ self.terms }
        ensures sheet { result.sheet ≡ next self.terms self.sheet event }
    {
        Standing {
            terms: self.terms,
            sheet: self.sheet_after(event),
        }
    }

    // The sheet after an event.
    fn sheet_after(self, event: Event) -> Sheet
        requires { Due self.sheet event }
        ensures { result ≡ next self.terms self.sheet event }
    {
        // Events are data, which definitions and laws list, so no closure stands for one.
        match (self.sheet.gate, event) {
            (_, Event::Opening(date)) => Sheet {
                start: Some(date),
                intermediate: 1,
                ..self.sheet
            },
            (_, Event::TimeEnd(date)) => Tally::from(self).ended(Some(date)),
            (Gate::One | Gate::Two, Event::IntermediateClose) => self.closed(),
            (Gate::Three, Event::IntermediateClose) => self.sheet,
            (_, Event::Posting(trade)) => self.added(trade).settled(),
        }
    }

    // The sheet after the close of its intermediate period.
    #[tactic(auto, using(crate::proofs::Keeping::bounds))]
    fn closed(self) -> Sheet
        requires { self.sheet.intermediate < 6 }
        ensures { result ≡ closed self.terms self.sheet }
    {
        let Standing { terms, sheet } = self;
        let wider = if terms.reached(terms.minimum_in(sheet.gate), sheet.recent) {
            0
        } else {
            WIDENING
        };
        Sheet {
            limit: sheet.limit + wider,
            intermediate: sheet.intermediate + 1,
            recent: 0,
            ..sheet
        }
    }

    // With a trade in the sums.
    #[tactic(auto, using(crate::proofs::Keeping::bounds, crate::proofs::Averages::turnover_most))]
    fn added(self, trade: Option<Trade>) -> Tally
        ensures terms { result.terms ≡ self.terms }
        ensures sheet { result.sheet ≡ added self.sheet trade }
    {
        let Some(trade) = trade else {
            return Tally::from(self);
        };
        let shares = u64::from(trade.shares());
        Tally {
            terms: self.terms,
            sheet: Sheet {
                volume: self.sheet.volume + shares,
                turnover: self.sheet.turnover + trade.turnover(),
                recent: self.sheet.recent + shares,
                ..self.sheet
            },
        }
    }
}
