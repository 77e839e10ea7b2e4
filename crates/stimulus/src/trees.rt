ghost use Rattle.std.specs.Prelude.{◌≡◌, ◌≤◌, IfSome, map, option_map};
ghost use Rattle.stimulus.specs.Toml.{has_key_beside, integer_within, is_among, number_at, number_within, tree_of};
ghost use Rattle.toml.specs.Data.{get_member};
ghost use Rattle.toml.specs.View.{table_view, view};

use toml::{Table, Value};

/// What a table has at a key.
pub fn value_at<'a>(table: &'a Table, key: &str) -> Option<&'a Value>
    ensures { option_map tree_of result ≡ get_member key.now (table_view table.now) }
{
    table.get(key)
}

/// An integer, if it lies from `low` up to and with `high`.
fn integer_within(integer: i64, low: u32, high: u32) -> Option<u32>
    ensures number { result ≡ integer_within low high integer }
    ensures at_least { IfSome result (λ number. low ≤ number) }
    ensures at_most { IfSome result (λ number. number ≤ high) }
{
    let number = u32::try_from(integer).ok()?;
    if low <= number && number <= high {
        Some(number)
    } else {
        None
    }
}

/// A value's integer, if it is one and lies from `low` up to and with `high`.
pub fn number_within(value: &Value, low: u32, high: u32) -> Option<u32>
    ensures number { result ≡ number_within low high (view value.now) }
    ensures at_least { IfSome result (λ number. low ≤ number) }
    ensures at_most { IfSome result (λ number. number ≤ high) }
{
    integer_within(value.as_integer()?, low, high)
}

/// The integer from `low` up to and with `high` that a table has at a key.
pub fn number_at(table: &Table, key: &str, low: u32, high: u32) -> Option<u32>
    ensures number { result ≡ number_at key.now low high (table_view table.now) }
    ensures at_least { IfSome result (λ number. low ≤ number) }
    ensures at_most { IfSome result (λ number. number ≤ high) }
{
    number_within(value_at(table, key)?, low, high)
}

/// Says whether a text is one of some names.
fn is_among(text: &str, names: &[&str]) -> bool
    ensures { result ≡ is_among (map (λ name. name.now) names.now) text.now }
{
    names.contains(&text)
}

/// Says whether a table has a key that is none of these.
pub fn has_key_beside(table: &Table, names: &[&str]) -> bool
    ensures { result ≡ has_key_beside (map (λ name. name.now) names.now) (table_view table.now) }
{
    table.keys().any(|key| !is_among(key.as_str(), names))
}
