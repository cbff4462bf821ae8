ghost use Rattle.std.specs.Prelude.{ℕ, ◌≡◌, ◌-◌, ◌<◌, ◌≤◌, slice_index, nat_le};
ghost use Rattle.ladder.specs.Bands.{start, step_of, row_of};
ghost use Rattle.ladder.specs.TickRows.{rule, ticks};

/// A row of the tick table in ten-thousandths of a euro: where it starts, and its steps in bands 1 to 6.
#[derive(Clone, Copy)]
pub(crate) struct TickRow {
    pub(crate) start: u32,
    pub(crate) steps: [u32; 6],
}

impl TickRow {
    // Whether the row starts at or below `p`.
    fn starts_by(&self, p: u32) -> bool
        ensures { result ≡ nat_le self.now.start p }
    {
        self.start <= p
    }
}

const ROWS: [TickRow; 19] = [
    TickRow {
        start: 0,
        steps: [5, 2, 1, 1, 1, 1],
    },
    TickRow {
        start: 1_000,
        steps: [10, 5, 2, 1, 1, 1],
    },
    TickRow {
        start: 2_000,
        steps: [20, 10, 5, 2, 1, 1],
    },
    TickRow {
        start: 5_000,
        steps: [50, 20, 10, 5, 2, 1],
    },
    TickRow {
        start: 10_000,
        steps: [100, 50, 20, 10, 5, 2],
    },
    TickRow {
        start: 20_000,
        steps: [200, 100, 50, 20, 10, 5],
    },
    TickRow {
        start: 50_000,
        steps: [500, 200, 100, 50, 20, 10],
    },
    TickRow {
        start: 100_000,
        steps: [1_000, 500, 200, 100, 50, 20],
    },
    TickRow {
        start: 200_000,
        steps: [2_000, 1_000, 500, 200, 100, 50],
    },
    TickRow {
        start: 500_000,
        steps: [5_000, 2_000, 1_000, 500, 200, 100],
    },
    TickRow {
        start: 1_000_000,
        steps: [10_000, 5_000, 2_000, 1_000, 500, 200],
    },
    TickRow {
        start: 2_000_000,
        steps: [20_000, 10_000, 5_000, 2_000, 1_000, 500],
    },
    TickRow {
        start: 5_000_000,
        steps: [50_000, 20_000, 10_000, 5_000, 2_000, 1_000],
    },
    TickRow {
        start: 10_000_000,
        steps: [100_000, 50_000, 20_000, 10_000, 5_000, 2_000],
    },
    TickRow {
        start: 20_000_000,
        steps: [200_000, 100_000, 50_000, 20_000, 10_000, 5_000],
    },
    TickRow {
        start: 50_000_000,
        steps: [500_000, 200_000, 100_000, 50_000, 20_000, 10_000],
    },
    TickRow {
        start: 100_000_000,
        steps: [1_000_000, 500_000, 200_000, 100_000, 50_000, 20_000],
    },
    TickRow {
        start: 200_000_000,
        steps: [2_000_000, 1_000_000, 500_000, 200_000, 100_000, 50_000],
    },
    TickRow {
        start: 500_000_000,
        steps: [5_000_000, 2_000_000, 1_000_000, 500_000, 200_000, 100_000],
    },
];

// The row that a number is in, of rows that are the rule's.
fn row_among(rows: &[TickRow; 19], p: u32) -> &TickRow
    requires { rows.now ≡ ticks }
    ensures { result.now ≡ rule (row_of p) }
{
    // One by one, from the last: the prices of a call lie in few rows, so that the processor foresees each test.
    // Row 0 starts at 0, so there is such a row.
    &rows[rows.iter().rposition(|row| row.starts_by(p)).unwrap_or(0)]
}

/// The row that a number is in.
// The rule is opened here, so that the check computes it at each row of the table.
#[tactic(auto, using(crate::proofs::TickRows::step_by_rule), unfolding(crate::specs::Bands::start, crate::specs::Bands::step_of, crate::specs::Bands::series))]
pub(crate) fn row_at(p: u32) -> &'static TickRow
    ensures start { result.now.start ≡ start (row_of p) }
    ensures steps { (band : ℕ) → 0 < band → band ≤ 6 → slice_index result.now.steps (band - 1) ≡ step_of (row_of p) band }
{
    row_among(&ROWS, p)
}
