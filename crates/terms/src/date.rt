ghost use Rattle.std.specs.Prelude.{◌≡◌, true};
ghost use Rattle.terms.specs.Dates.{days_in, is_date, month_count, whole_months};
ghost use Rattle.terms.specs.Refusals.{Passed};
ghost use Rattle.terms.specs.declared.refusal.Refusal.TheVariants.{InvalidDate};

use super::refusal::Refusal;

/// A day of the Gregorian calendar in the years 2000 to 2099.
#[derive(Clone, Copy, PartialEq, Eq, PartialOrd, Ord, Debug)]
pub struct Date {
    number: u32,
    ghost valid: { is_date number ≡ true },
}

// How many days a month has.
fn days_in(year: u64, month: u64) -> u64
    ensures { result ≡ days_in year month }
{
    match month {
        2 => {
            if year.is_multiple_of(4) && (!year.is_multiple_of(100) || year.is_multiple_of(400)) {
                29
            } else {
                28
            }
        }
        4 | 6 | 9 | 11 => 30,
        _ => 31,
    }
}

impl TryFrom<u64> for Date {
    type Error = Refusal;

    ghost try_from_gives = { λ number r. Passed InvalidDate (is_date number) r (λ d. d.number ≡ number) };

    /// The date that a number says: its year, then two digits for the month and two for the day.
    fn try_from(number: u64) -> Result<Date, Refusal> {
        let year = number / 10_000;
        let month = number / 100 % 100;
        let day = number % 100;
        if !(2000..=2099).contains(&year) || !(1..=12).contains(&month) {
            return Err(Refusal::InvalidDate);
        }
        if !(1..=days_in(year, month)).contains(&day) {
            return Err(Refusal::InvalidDate);
        }
        Ok(Date {
            number: number as u32,
        })
    }
}

impl Date {
    /// The number that says this date.
    pub fn number(self) -> u32
        ensures { result ≡ self.number }
    {
        self.number
    }

    /// How many whole months have passed since `start`; none if this date is the earlier one.
    pub fn months_since(self, start: Date) -> u32
        ensures { result ≡ whole_months start.number self.number }
    {
        let months = self.month_count().saturating_sub(start.month_count());
        let begun = u32::from(self.number % 100 < start.number % 100);
        months.saturating_sub(begun)
    }

    // The month, counted through the years.
    fn month_count(self) -> u32
        ensures { result ≡ month_count self.number }
    {
        12 * (self.number / 10_000) + self.number / 100 % 100
    }
}
