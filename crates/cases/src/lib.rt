//! Worked cases: what the definitions say of examples whose answers are known.
#![tactic(auto)]

ghost use Rattle.cases.specs.Cases.{WorkedCases};

/// Does nothing. Its contract says what the definitions give in the worked cases.
pub fn worked_cases()
    ensures { WorkedCases }
{}

#[cfg(test)]
mod book_tests;
#[cfg(test)]
mod ladder_tests;
#[cfg(test)]
mod sheet_tests;
