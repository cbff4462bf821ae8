//! The period sheet: what decides a share's gate, price limits and Reference Price.
#![tactic(auto)]

mod event;
mod float;
mod founding;
mod gate;
mod laws;
mod listing;
mod sheet;
mod standing;
mod tally;
mod thresholds;

pub use float::Float;
pub use founding::FoundingSheet;
pub use gate::Gate;
pub use laws::sheet_laws;
pub use listing::Listing;
pub use sheet::Sheet;
pub use thresholds::Terms;
