//! The order book of an auction: order lines, depth, who comes first, fills, and edits of the lines in place.
#![tactic(auto)]

mod choose;
mod depth;
mod fill;
mod laws;
mod lines;
mod merit;
mod order;
mod sound;

pub use choose::{Distinct, Merit, Test, first_by_merit};
pub use fill::Fill;
pub use laws::book_laws;
pub use lines::Lines;
pub use merit::PriceTime;
pub use order::{Order, Side};
pub use sound::{Book, MAX_LINES};
