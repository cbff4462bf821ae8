ghost use Rattle.std.specs.Prelude.{◌≡◌, ◌<◌, ◌≤◌};
ghost use Rattle.terms.specs.Prices.{within};
ghost use Rattle.terms.specs.Refusals.{Admitted};
ghost use Rattle.ladder.specs.Bands.{start, step_of, row_of, banded, banded_priced};

use super::multiples::Multiples;
use super::rows::row_at;
use super::rungs::Ladder;
use terms::{MAX_PRICE, Refusal, admit};

// The last band.
const MAX_BAND: u32 = 6;

/// The ladder of one liquidity band of the tick table: the prices that are a multiple of their row's step.
#[derive(Clone, Copy)]
pub struct Table {
    // A number and no enum: the rule of the steps counts with it.
    band: u8,
    ghost low: { 0 < band },
    ghost high: { band ≤ 6 },
}

/// A row of the tick table, as one band has it.
#[derive(Clone, Copy)]
pub struct TableRow {
    pub start: u32,
    pub step: u32,
}

impl Table {
    /// The ladder of a band from 1 to 6.
    pub fn new(band: u64) -> Result<Table, Refusal>
        ensures { Admitted (within 1 6 band) result (λ t. t.band ≡ band) }
    {
        Ok(Table {
            band: admit(1, MAX_BAND, band)? as u8,
        })
    }

    /// The row that `p` is in.
    pub fn row_at(&self, p: u32) -> TableRow
        ensures start { result.start ≡ start (row_of p) }
        ensures step { result.step ≡ step_of (row_of p) self.now.band }
    {
        let row = row_at(p);
        TableRow {
            start: row.start,
            step: row.steps[usize::from(self.band) - 1],
        }
    }

    // The multiples of the step that holds at `p`.
    #[tactic(auto, using(crate::proofs::Starts::step_fits))]
    fn multiples_at(&self, p: u32) -> Multiples<MAX_PRICE>
        ensures { result.step ≡ step_of (row_of p) self.now.band }
    {
        Multiples {
            step: self.row_at(p).step,
        }
    }
}

// Each question is passed on by itself: Rust has no shorter form.
impl Ladder for Table {
    ghost rungs = { λ s. banded s.band };

    ghost priced = { λ s. banded_priced s.band };

    fn is_rung(&self, p: u32) -> bool {
        self.multiples_at(p).is_rung(p)
    }

    // The row's step divides where the next row starts, and so does the next row's.
    #[tactic(auto, using(crate::proofs::Bandings::lowest_moves))]
    fn at_or_above(&self, p: u32) -> Option<u32> {
        self.multiples_at(p).at_or_above(p)
    }

    // The row's step divides where the row starts.
    #[tactic(auto, using(crate::proofs::Bandings::highest_moves))]
    fn at_or_below(&self, p: u32) -> Option<u32> {
        self.multiples_at(p).at_or_below(p)
    }
}
