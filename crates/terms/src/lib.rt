//! The vocabulary that every layer shares: prices, dates, trades, and refusals with their numbers.
#![tactic(auto)]

mod date;
mod laws;
mod price;
mod range;
mod refusal;
mod trade;

pub use date::Date;
pub use laws::date_laws;
pub use price::{MAX_PRICE, is_price};
pub use range::admit;
pub use refusal::Refusal;
pub use trade::Trade;
