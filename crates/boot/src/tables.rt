//! Reads the values of a table: the value of a key, and arrays whose items are all of one kind.
//! `integers`, `texts` and `tables` allocate memory. No call waits.

ghost use Rattle.std.specs.Prelude.{◌≡◌, map, option_map, option_and_then, IfOk};
ghost use Rattle.{event_log.specs.Reading.all_as, toml.specs.{Data.{as_array, as_integer, as_str, as_table, get_member}, View.{view, array_view, table_view}}};
ghost use Rattle.boot.specs.Plan.{data_in};

use std::alloc::{AllocError, Global};
use toml::{Table, Value};

/// Returns the value of a key of a table.
pub fn value_at<'a>(table: &'a Table, name: &str) -> Option<&'a Value>
    ensures { option_map (λ value. view value.now) result
        ≡ get_member name.now (table_view table.now) }
{
    table.get(name)
}

/// Returns the array at a key of a table.
pub fn array_at<'a>(table: &'a Table, name: &str) -> Option<&'a Vec<Value>>
    ensures { option_map (λ array. array_view array.now) result
        ≡ option_and_then as_array (get_member name.now (table_view table.now)) }
{
    match value_at(table, name) {
        Some(value) => value.as_array(),
        None => None,
    }
}

/// Returns the integers of an array, or `None` if an item is not an integer.
///
/// Errors: `AllocError` if an allocation failed. Then nothing was made.
pub fn integers(alloc: Global, values: &Vec<Value>) -> Result<Option<Vec<i64>>, AllocError>
    ensures { IfOk result (λ seen. option_map (λ found. found.items) seen
        ≡ all_as as_integer (data_in (array_view values.now))) }
{
    let mut found = Vec::new(alloc);
    for value in values {
        let Some(integer) = value.as_integer() else {
            return Ok(None);
        };
        found.push(integer)?;
    }
    Ok(Some(found))
}

/// Returns the texts of an array, or `None` if an item is not a string.
///
/// Errors: `AllocError` if an allocation failed. Then nothing was made.
pub fn texts<'a>(alloc: Global, values: &'a Vec<Value>) -> Result<Option<Vec<&'a str>>, AllocError>
    ensures { IfOk result (λ seen. option_map (λ found. map (λ text. text.now) found.items) seen
        ≡ all_as as_str (data_in (array_view values.now))) }
{
    let mut found = Vec::new(alloc);
    for value in values {
        let Some(text) = value.as_str() else {
            return Ok(None);
        };
        found.push(text)?;
    }
    Ok(Some(found))
}

/// Returns the tables of an array, or `None` if an item is not a table.
///
/// Errors: `AllocError` if an allocation failed. Then nothing was made.
pub fn tables<'a>(
    alloc: Global,
    values: &'a Vec<Value>,
) -> Result<Option<Vec<&'a Table>>, AllocError>
    ensures { IfOk result (λ seen. option_map
        (λ found. map (λ table. table_view table.now) found.items) seen
        ≡ all_as as_table (data_in (array_view values.now))) }
{
    let mut found = Vec::new(alloc);
    for value in values {
        let Some(table) = value.as_table() else {
            return Ok(None);
        };
        found.push(table)?;
    }
    Ok(Some(found))
}
