//! Text as bytes, since any bytes may come: cutting it at a byte, and amounts of euros written in it.
#![tactic(auto)]

mod euros;
mod split;

pub use euros::read_euros;
pub use split::split_once;
