ghost use Rattle.std.specs.Prelude.{◌≡◌, Some};
ghost use Rattle.annex.specs.Totals.{counted, outcome, shown_outcome, shown_line, shown_totals};
ghost use Rattle.annex.specs.Trials.{tried};

use crate::trial::Trial;
use std::fmt;

/// How many lines there were, how many steps were tried, and how many of these agree.
#[derive(Clone, Copy, Default)]
pub struct Totals {
    pub lines: u64,
    pub tried: u64,
    pub agreed: u64,
}

/// What is found of a line: a row that was tried, or the number of a line that is not a row.
// No `Result`: a line that is not a row is an answer like the other, and both are shown.
#[derive(Clone, Copy)]
pub enum Outcome {
    Row(Trial),
    NotARow(u64),
}

impl Totals {
    /// Tries one line more and says what was found.
    pub fn add(&mut self, line: &[u8]) -> Outcome
        ensures totals { self.new ≡ counted (tried line.now) self.old }
        ensures found { result ≡ outcome self.new.lines (tried line.now) }
        ensures text { ⟦<Outcome as fmt::Display>⟧.output result ≡ Some (shown_line self.new.lines (tried line.now)) }
    {
        self.lines = self.lines.saturating_add(1);
        let Some(trial) = Trial::of(line) else {
            return Outcome::NotARow(self.lines);
        };
        self.tried = self.tried.saturating_add(6);
        self.agreed = self.agreed.saturating_add(trial.agreed());
        Outcome::Row(trial)
    }
}

/// How many steps were tried and agree, as a line of text.
impl fmt::Display for Totals {
    ghost output = { λ t. Some (shown_totals t) };

    fn fmt<W: fmt::Write>(&self, f: &mut fmt::Formatter<W>) -> fmt::Result {
        let tried = self.tried;
        let agreed = self.agreed;
        write!(f, "{tried} steps tried, {agreed} agree")
    }
}

impl fmt::Display for Outcome {
    ghost output = { λ o. Some (shown_outcome o) };

    fn fmt<W: fmt::Write>(&self, f: &mut fmt::Formatter<W>) -> fmt::Result {
        match self {
            Outcome::Row(trial) => write!(f, "{trial}"),
            Outcome::NotARow(number) => write!(f, "line {number} is not a row"),
        }
    }
}

#[cfg(test)]
mod tests {
    use super::Totals;
    use std::process::Abort;
    use std::test::Fail;

    fn says(
        rt: &(impl Abort + AllocGlobal),
        totals: &mut Totals,
        line: &[u8],
        text: &str,
    ) -> Result<(), Fail> {
        let found = totals.add(line).to_string(rt.alloc())?;
        assert_eq!(rt; found.as_str(), text);
        Ok(())
    }

    #[test]
    fn what_differs_is_named(rt: HostRuntime) -> Result<(), Fail> {
        let mut totals = Totals::default();
        let text = "from 1000: 10 5 2 1 1 1 agree";
        says(
            &rt,
            &mut totals,
            b"0.1;0.001;0.0005;0.0002;0.0001;0.0001;0.0001",
            text,
        )?;
        let text = "from 1000: 10 5 3 (the table has 2) 1 1 1";
        says(
            &rt,
            &mut totals,
            b"0.1;0.001;0.0005;0.0003;0.0001;0.0001;0.0001",
            text,
        )?;
        let text = "from 1500 (the table has 1000): 10 5 2 1 1 1";
        says(
            &rt,
            &mut totals,
            b"0.15;0.001;0.0005;0.0002;0.0001;0.0001;0.0001",
            text,
        )?;
        says(&rt, &mut totals, b"0.2;0.002", "line 4 is not a row")?;
        let total = totals.to_string(rt.alloc())?;
        assert_eq!(rt; total.as_str(), "18 steps tried, 17 agree");
        Ok(())
    }

    #[test]
    fn other_text_is_not_a_row(rt: HostRuntime) -> Result<(), Fail> {
        let mut totals = Totals::default();
        says(&rt, &mut totals, b"", "line 1 is not a row")?;
        says(&rt, &mut totals, b"0,1;1;1;1;1;1;1", "line 2 is not a row")?;
        says(&rt, &mut totals, b"0.1;1;1;1;1;1;1;", "line 3 is not a row")?;
        says(
            &rt,
            &mut totals,
            b"0.1;1;1;1;1;1;0.00001",
            "line 4 is not a row",
        )?;
        says(
            &rt,
            &mut totals,
            b"0.1;1;1;1;1;1;1\r",
            "line 5 is not a row",
        )
    }
}
