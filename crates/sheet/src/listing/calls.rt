ghost use Rattle.std.specs.Prelude.{◌≡◌, ◌≤◌, min, true, if◌then◌else◌, Some, None};
ghost use Rattle.terms.specs.Prices.{is_price};
ghost use Rattle.terms.specs.Refusals.{Admitted, Passed};
ghost use Rattle.terms.specs.declared.refusal.Refusal.TheVariants.{NotLater};
ghost use Rattle.sheet.specs.Foundings.{founded, in_range, terms_of};
ghost use Rattle.sheet.specs.Sheets.{opened, posted};
ghost use Rattle.sheet.specs.Sounds.{is_later};

use super::Listing;
use crate::founding::FoundingSheet;
use crate::standing::Standing;
use terms::{Date, Refusal, Trade};

// Whether a date is later than the last one opened.
fn is_later(last: Option<Date>, date: Date) -> bool
    ensures { result ≡ is_later last date }
{
    last.is_none_or(|last| date > last)
}

impl Listing {
    /// Lists a share on its founding sheet.
    #[tactic(auto, using(crate::proofs::Keeping::founded_sound), unfolding(crate::specs::Sounds::is_current))]
    pub fn new(founding: FoundingSheet) -> Result<Listing, Refusal>
        ensures { Admitted (in_range founding) result (λ l. (l.standing.terms ≡ terms_of founding) × (l.standing.sheet ≡ founded founding) × (l.last ≡ None)) }
    {
        Ok(Listing {
            standing: Standing {
                terms: founding.terms()?,
                sheet: founding.sheet()?,
            },
            last: None,
        })
    }

    /// The Reference Price.
    #[tactic(auto, using(crate::proofs::Keeping::reference_price))]
    pub fn reference(&self) -> u32
        ensures value { result ≡ self.now.standing.sheet.reference }
        ensures price { is_price result ≡ true }
    {
        self.standing.sheet.reference
    }

    /// Limit 1 in percent.
    #[tactic(auto, using(crate::proofs::Keeping::at_most_28))]
    pub fn limit_1(&self) -> u32
        ensures value { result ≡ self.now.standing.sheet.limit }
        ensures most { result ≤ 28 }
    {
        self.standing.sheet.limit
    }

    /// Limit 2 in percent: Limit 1, unless the cap is narrower.
    pub fn limit_2(&self) -> u32
        ensures value { result ≡ min self.now.standing.sheet.limit self.now.standing.terms.«cap» }
        ensures most { result ≤ 28 }
    {
        self.limit_1().min(self.standing.terms.cap)
    }

    /// Opens a call on a date later than the last.
    #[tactic(auto, using(crate::proofs::Dating::opened_current))]
    pub fn open(&mut self, date: Date) -> Result<(), Refusal>
        ensures answer { Passed NotLater (is_later self.old.last date) result (λ _. Unit {0}) }
        ensures terms { self.new.standing.terms ≡ self.old.standing.terms }
        ensures sheet { self.new.standing.sheet ≡ (if is_later self.old.last date then opened self.old.standing.terms self.old.standing.sheet date else self.old.standing.sheet) }
        ensures last { self.new.last ≡ (if is_later self.old.last date then Some date else self.old.last) }
    {
        if !is_later(self.last, date) {
            return Err(Refusal::NotLater);
        }
        self.standing = self.standing.opened(date);
        self.last = Some(date);
        Ok(())
    }

    /// Posts what a call traded, if it did.
    #[tactic(auto, using(crate::proofs::Dating::posted_current))]
    pub fn post(&mut self, trade: Option<Trade>)
        ensures terms { self.new.standing.terms ≡ self.old.standing.terms }
        ensures sheet { self.new.standing.sheet ≡ posted self.old.standing.terms self.old.standing.sheet trade }
        ensures last { self.new.last ≡ self.old.last }
    {
        self.standing = self.standing.posted(trade);
    }
}
