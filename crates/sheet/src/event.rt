use terms::{Date, Trade};

/// What can happen to a period sheet.
#[derive(Clone, Copy)]
pub enum Event {
    /// A call opens and no period runs: one starts on the date.
    Opening(Date),
    /// A call opens and the period has lasted its time: it ends, and the next starts on the date.
    TimeEnd(Date),
    /// A call opens after the end of the current intermediate period.
    IntermediateClose,
    /// The outcome of a call is entered: what was traded, if anything was.
    Posting(Option<Trade>),
}
