//! Prices and their text: a table is read from TOML, and its digest and greatest limit are told.
#![tactic(auto)]

pub mod fault;
pub mod read;
mod table;

pub use fault::PriceFault;
pub use price_table::{Prices, most_limit};
pub use read::read_prices;
