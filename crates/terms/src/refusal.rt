ghost use Rattle.std.specs.Prelude.{◌≡◌};
ghost use Rattle.terms.specs.Refusals.{number_of};

/// Why a request is refused.
#[derive(Clone, Copy, PartialEq, Eq, Debug)]
pub enum Refusal {
    /// A value of a ladder, a limit or a founding sheet lies outside its range.
    Parameter = 2,
    /// A number is no date.
    InvalidDate = 3,
    /// The order lines are not sound.
    UnsoundLines = 4,
    /// There are fewer fill records than used lines.
    TooFewRecords = 7,
    /// The date of an opening is not later than that of the one before.
    NotLater = 11,
    /// Every line is in use.
    NoFreeLine = 14,
}

// Written for each kind that has numbers: no derive makes it.
impl From<Refusal> for u32 {
    ghost from_gives = { λ why n. n ≡ number_of why };

    /// The number that a caller receives.
    fn from(why: Refusal) -> u32 {
        why as u32
    }
}
