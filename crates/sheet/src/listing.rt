ghost use Rattle.std.specs.Prelude.{◌≡◌, true};
ghost use Rattle.sheet.specs.Sounds.{is_current, is_sound};

use super::sheet::Sheet;
use super::standing::Standing;
use super::thresholds::Terms;
use terms::Date;

mod calls;

/// A share that is listed: its terms, its period sheet, and the last date on which a call was opened.
#[derive(Clone, Copy)]
pub struct Listing {
    standing: Standing,
    last: Option<Date>,
    ghost current: { is_current standing.sheet last ≡ true },
}

impl Listing {
    /// The terms that the share is traded on.
    pub fn terms(&self) -> Terms
        ensures { result ≡ self.now.standing.terms }
    {
        self.standing.terms
    }

    /// The period sheet.
    pub fn sheet(&self) -> Sheet
        ensures value { result ≡ self.now.standing.sheet }
        ensures sound { is_sound self.now.standing.terms result ≡ true }
        ensures current { is_current result self.now.last ≡ true }
    {
        self.standing.sheet
    }

    /// The last date on which a call was opened.
    pub fn last(&self) -> Option<Date>
        ensures { result ≡ self.now.last }
    {
        self.last
    }
}
