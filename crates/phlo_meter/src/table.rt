// One price of a table, and the keys that are none.
ghost use Rattle.std.specs.Prelude.{◌≡◌, ◌≤◌, IfOk, find, not, option_map, string_bytes};
ghost use Rattle.std.specs.BTreeMap.{keys};
ghost use Rattle.std.specs.List.Sorted.{IsStrictlySortedBy};
ghost use Rattle.std.specs.Option.{option_copied};
ghost use Rattle.std.specs.String.{string_cmp};
ghost use Rattle.toml.specs.Data.{as_integer, get_member};
ghost use Rattle.toml.specs.View.{table_view};
ghost use Rattle.phlo_meter.specs.PriceTable.{all_known, least_unknown, in_range, is_known, price_of};
ghost use Rattle.phlo_meter.specs.Answers.{Gives};

use crate::fault::PriceFault;
use std::alloc::Global;
use toml::Table;

// The greatest price.
const MOST: u64 = 1_000_000;

// The price at a key, which is `least` or more.
pub(crate) fn price(alloc: Global, table: &Table, key: &str, least: u64) -> Result<u64, PriceFault>
    ensures price { Gives result (price_of (table_view table.now) key.now least) }
    ensures range { IfOk result (λ n. (least ≤ n) × (n ≤ 1000000)) }
{
    let name = String::from_str(alloc, key)?;
    match integer_at(table, key) {
        None => Err(PriceFault::MissingKey { key: name }),
        Some(None) => Err(PriceFault::NotInteger { key: name }),
        Some(Some(number)) => price_in_range(name, number, least),
    }
}

// What stands at a key, if it is there: an integer or not.
fn integer_at(table: &Table, key: &str) -> Option<Option<i64>>
    ensures { result ≡ option_map as_integer (get_member key.now (table_view table.now)) }
{
    match table.get(key) {
        Some(value) => Some(value.as_integer()),
        None => None,
    }
}

fn price_in_range(name: String, number: i64, least: u64) -> Result<u64, PriceFault>
    ensures price { Gives result (in_range (string_bytes name) least number) }
    ensures range { IfOk result (λ n. (least ≤ n) × (n ≤ 1000000)) }
{
    match u64::try_from(number) {
        Ok(n) if least <= n && n <= MOST => Ok(n),
        _ => Err(PriceFault::OutOfRange {
            key: name,
            value: number,
        }),
    }
}

// Whether a key is that of a price.
fn is_known(key: &str) -> bool
    ensures { result ≡ is_known key.now }
{
    key == "comm"
        || key == "send"
        || key == "receive"
        || key == "name"
        || key == "case"
        || key == "op"
        || key == "byte"
}

// The first key that is not that of a price. The keys of a table ascend in bytes.
fn unknown_key(table: &Table) -> Option<&String>
    ensures found { option_copied result ≡ find (λ k. not (is_known (string_bytes k))) (keys table.now) }
    ensures ascending { IsStrictlySortedBy string_cmp (keys table.now) }
{
    table.keys().find(|key| !is_known(key.as_str()))
}

// The least key that is not that of a price is a fault.
pub(crate) fn known_keys(table: &Table) -> Result<(), PriceFault>
    ensures { Gives result (all_known (least_unknown (table_view table.now))) }
{
    match unknown_key(table) {
        None => Ok(()),
        Some(key) => match key.clone() {
            Ok(key) => Err(PriceFault::UnknownKey { key }),
            Err(_) => Err(PriceFault::NoMemory),
        },
    }
}
