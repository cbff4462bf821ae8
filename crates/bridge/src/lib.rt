//! The engine as functions that a program in another language can call, through a static library.
#![tactic(auto)]

mod calls;
mod exports;
mod types;

pub use exports::{zubryqan_fill, zubryqan_price};
pub use types::{Auction, Found};
