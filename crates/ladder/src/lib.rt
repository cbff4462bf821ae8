//! Ladders: sets of prices that say whether a number is one of them and which is the nearest.
#![tactic(auto)]

mod either;
mod laws;
mod limit;
mod multiples;
mod rows;
mod rungs;
mod table;

pub use either::Either;
pub use laws::ladder_laws;
pub use limit::Limit;
pub use multiples::{Flat, Multiples};
pub use rungs::Ladder;
pub use table::{Table, TableRow};
