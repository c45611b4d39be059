//! What the text of prices is read as.
use phlo_meter::read_prices;
use price_table::{Prices, most_limit};
use std::alloc::Global;
use table_lines::{Answer, LineFault};

fn seven(prices: &Prices) -> [u64; 7] {
    [
        prices.comm(),
        prices.send(),
        prices.receive(),
        prices.name(),
        prices.cases(),
        prices.op(),
        prices.byte(),
    ]
}

/// The seven prices of a text, or its fault.
pub fn prices(alloc: Global, text: &[u8]) -> Result<String, LineFault> {
    let told = match read_prices(alloc, text) {
        Ok(prices) => format!(in alloc; "{:?}", seven(&prices)),
        Err(fault) => format!(in alloc; "{fault:?}"),
    };
    Ok(told?)
}

/// The standard prices, their digest, and the greatest limit under them.
pub fn standard_prices(alloc: Global) -> Result<String, LineFault> {
    let prices = Prices::standard();
    let most = most_limit(&prices);
    let mut answer = Answer::new(alloc);
    answer.put_made(format!(in alloc; "{:?} ", seven(&prices)));
    answer.put_hex(prices.digest().0.as_slice());
    answer.put_made(format!(in alloc; " {most}"));
    answer.text()
}
