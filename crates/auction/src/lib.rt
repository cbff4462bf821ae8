//! The auction price: of the rungs of a ladder the one at which most shares trade, found among few candidates.
#![tactic(auto)]

mod laws;
mod mark;
mod merit;
mod price;
mod turn;

pub use laws::auction_laws;
pub use mark::RungMark;
pub use merit::{RungMerit, Trades};
pub use price::{auction_price, price_within};
