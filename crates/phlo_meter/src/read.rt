ghost use Rattle.std.specs.Prelude.{◌≡◌};
ghost use Rattle.toml.specs.View.{table_view};
ghost use Rattle.phlo_meter.specs.PriceTable.{prices_in, prices_of, table_of, table_or_refusal};
ghost use Rattle.phlo_meter.specs.Answers.{Gives, GivesAs};

use crate::fault::PriceFault;
use crate::table::{known_keys, price};
use price_table::{PriceList, Prices};
use std::alloc::Global;
use std::str;
use toml::Table;

/// The prices that a text gives: a TOML table with the keys `comm`, from 1 to 1,000,000, and `send`,
/// `receive`, `name`, `case`, `op` and `byte`, from 0 to 1,000,000, and no others.
///
/// The first fault is answered: that the text is no TOML table; for each key in this order that it is
/// missing, no integer, or out of its range; then the unknown key that is least in bytes. Or memory ran
/// out.
#[tactic(auto, unfolding(crate::specs::PriceTable::prices_of))]
pub fn read_prices(alloc: Global, text: &[u8]) -> Result<Prices, PriceFault>
    ensures { Gives result (prices_of text.now) }
{
    let table = table_from(alloc, text)?;
    prices_from(alloc, &table)
}

// The table that a text is.
fn table_from(alloc: Global, bytes: &[u8]) -> Result<Table, PriceFault>
    ensures { GivesAs table_view result (table_or_refusal (table_of bytes.now)) }
{
    let Ok(text) = str::from_utf8(bytes) else {
        return Err(PriceFault::NotToml);
    };
    match toml::table_from_str(alloc, text) {
        Ok(table) => Ok(table),
        Err(error) => {
            if error.is_memory() {
                Err(PriceFault::NoMemory)
            } else {
                Err(PriceFault::NotToml)
            }
        }
    }
}

fn prices_from(alloc: Global, table: &Table) -> Result<Prices, PriceFault>
    ensures { Gives result (prices_in (table_view table.now)) }
{
    let comm = price(alloc, table, "comm", 1)?;
    let send = price(alloc, table, "send", 0)?;
    let receive = price(alloc, table, "receive", 0)?;
    let name = price(alloc, table, "name", 0)?;
    let cases = price(alloc, table, "case", 0)?;
    let op = price(alloc, table, "op", 0)?;
    let byte = price(alloc, table, "byte", 0)?;
    known_keys(table)?;
    Ok(Prices::new(PriceList {
        comm,
        send,
        receive,
        name,
        cases,
        op,
        byte,
    }))
}
