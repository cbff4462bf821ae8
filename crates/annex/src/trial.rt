ghost use Rattle.std.specs.Prelude.{◌≡◌, IsTrue, Some};
ghost use Rattle.ladder.specs.Bands.{start, step_of, row_of};
ghost use Rattle.terms.specs.Prices.{within};
ghost use Rattle.annex.specs.Trials.{table_row, tried, agreed, beside, besides, verdict, shown_trial};

use crate::row::{Row, read_row};
use ladder::{Table, TableRow};
use std::{array, fmt};

/// A row that is given beside the row that the table ladders have where it starts.
#[derive(Clone, Copy)]
pub struct Trial {
    pub given: Row,
    pub held: Row,
}

impl Trial {
    /// Tries a line of text. None where it is not a row.
    pub fn of(line: &[u8]) -> Option<Trial>
        ensures { result ≡ tried line.now }
    {
        let given = read_row(line)?;
        let start = u32::try_from(given.start).unwrap_or(u32::MAX);
        let held = table_row(start);
        Some(Trial { given, held })
    }

    /// How many of the six steps agree.
    pub fn agreed(&self) -> u64
        ensures { result ≡ agreed self.now }
    {
        self.given
            .steps
            .iter()
            .zip(&self.held.steps)
            .filter(|(given, held)| given == held)
            .count() as u64
    }

    // What a line of text ends with. It goes by the count that the totals take too, and no derived `==` of rows.
    fn verdict(&self) -> &'static str
        ensures { result.now ≡ verdict self.now }
    {
        if self.given.start == self.held.start && self.agreed() == 6 {
            " agree"
        } else {
            ""
        }
    }
}

/// The start and the six steps as a line of text, each with what the table has where that is another, or `agree`.
impl fmt::Display for Trial {
    ghost output = { λ t. Some (shown_trial t) };

    fn fmt<W: fmt::Write>(&self, f: &mut fmt::Formatter<W>) -> fmt::Result {
        let start = Beside(self.given.start, self.held.start);
        let steps = Besides(&self.given.steps, &self.held.steps);
        let verdict = self.verdict();
        write!(f, "from{start}:{steps}{verdict}")
    }
}

// An amount that is given, and the table's where that is another.
#[derive(Clone, Copy)]
struct Beside(u64, u64);

impl fmt::Display for Beside {
    ghost output = { λ b. Some (beside b.0 b.1) };

    fn fmt<W: fmt::Write>(&self, f: &mut fmt::Formatter<W>) -> fmt::Result {
        let Beside(given, held) = *self;
        if given == held {
            write!(f, " {given}")
        } else {
            write!(f, " {given} (the table has {held})")
        }
    }
}

// The same of six amounts.
#[derive(Clone, Copy)]
struct Besides<'a>(&'a [u64; 6], &'a [u64; 6]);

impl fmt::Display for Besides<'_> {
    ghost output = { λ b. Some (besides b.0.now b.1.now) };

    fn fmt<W: fmt::Write>(&self, f: &mut fmt::Formatter<W>) -> fmt::Result {
        let Besides(given, held) = *self;
        for (given, held) in given.iter().zip(held) {
            write!(f, "{}", Beside(*given, *held))?;
        }
        Ok(())
    }
}

// The row of the tick table that `p` is in, as the table ladders have it.
fn table_row(p: u32) -> Row
    ensures { result ≡ table_row p }
{
    Row {
        start: u64::from(band_row(1, p).start),
        steps: array::from_fn(|i| u64::from(band_row(i as u64 + 1, p).step)),
    }
}

// The same row as one band has it.
fn band_row(band: u64, p: u32) -> TableRow
    requires { IsTrue (within 1 6 band) }
    ensures start { result.start ≡ start (row_of p) }
    ensures step { result.step ≡ step_of (row_of p) band }
{
    Table::new(band).unwrap().row_at(p)
}
