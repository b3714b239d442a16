//! Reads the numbers of a plan. Only `caps_at` allocates memory. No call waits.

ghost use Rattle.std.specs.Prelude.{◌≡◌, ◌<◌, ◌≤◌, length, codes, option_map, All, IfOk, IfSome};
ghost use Rattle.{event_log.specs.{declared.ids.TheConstants.{BUFFERS, CAPACITY}, Buffers.IsCapacity, Reading.all_as}, toml.specs.Data.get_member};
ghost use Rattle.{toml.specs.View.table_view, boot.specs.Plan.{number_within, number_at, caps_at, AreCaps, Gives}};

use crate::refusals::{BootError, PlanKey};
use crate::tables::{array_at, integers, value_at};
use arrayvec::ArrayVec;
use event_log::{BUFFERS, CAPACITY};
use std::alloc::Global;
use toml::Table;

/// Returns the integer, if it is from `least` to `most`.
fn number_within(integer: i64, least: u64, most: u64) -> Option<u64>
    ensures number { result ≡ number_within least most integer }
    ensures within { IfSome result (λ number. (least ≤ number) × (number ≤ most)) }
{
    let number = u64::try_from(integer).ok()?;
    if number < least || most < number {
        return None;
    }
    Some(number)
}

/// Returns the integer of a key, from `least` to `most`.
///
/// Errors: `MissingKey` if the key is absent or its value is not an integer. `OutOfRange` if the
/// integer is less than `least` or more than `most`. The table is unchanged.
#[tactic(auto, unfolding(crate::specs::Plan::number_at))]
pub fn number_at(
    table: &Table,
    name: &str,
    key: PlanKey,
    least: u64,
    most: u64,
) -> Result<u64, BootError>
    ensures number { result
        ≡ number_at key least most (get_member name.now (table_view table.now)) }
    ensures within { IfOk result (λ number. (least ≤ number) × (number ≤ most)) }
{
    let Some(value) = value_at(table, name) else {
        return Err(BootError::MissingKey(key));
    };
    let Some(integer) = value.as_integer() else {
        return Err(BootError::MissingKey(key));
    };
    match number_within(integer, least, most) {
        Some(number) => Ok(number),
        None => Err(BootError::OutOfRange(key)),
    }
}

/// Returns the capacities that some integers are, or `None` if an integer is out of range.
fn caps_of(integers: &[i64]) -> Option<ArrayVec<u8, BUFFERS>>
    requires { length integers.now ≤ BUFFERS }
    ensures caps { option_map (λ caps. caps.items) result
        ≡ all_as (number_within 1 CAPACITY) integers.now }
    ensures len { IfSome result (λ caps. length caps.items ≡ length integers.now) }
    ensures within { IfSome result (λ caps. All IsCapacity caps.items) }
{
    let mut caps = ArrayVec::new();
    for integer in integers {
        let capacity = number_within(*integer, 1, CAPACITY as u64)?;
        caps.push(capacity as u8);
    }
    Some(caps)
}

/// Returns the capacities of a plan's buffers.
///
/// Errors: `MissingKey` if the key `buffers` is absent, its value is not an array, or an item is
/// not an integer. `OutOfRange` if there is no buffer, there are more than [`BUFFERS`], or a
/// capacity is not from 1 to [`CAPACITY`]. `NoMemory` if an allocation failed. Then nothing was
/// made.
#[tactic(auto, unfolding(crate::specs::Plan::caps_at))]
pub fn caps_at(alloc: Global, table: &Table) -> Result<ArrayVec<u8, BUFFERS>, BootError>
    ensures caps { Gives (λ caps. caps.items) result
        (caps_at (get_member (codes "buffers") (table_view table.now))) }
    ensures within { IfOk result (λ caps. AreCaps caps.items) }
{
    let Some(array) = array_at(table, "buffers") else {
        return Err(BootError::MissingKey(PlanKey::Buffers));
    };
    let Some(integers) = integers(alloc, array)? else {
        return Err(BootError::MissingKey(PlanKey::Buffers));
    };
    if integers.is_empty() {
        return Err(BootError::OutOfRange(PlanKey::Buffers));
    }
    if integers.len() > BUFFERS {
        return Err(BootError::OutOfRange(PlanKey::Buffers));
    }
    match caps_of(&integers) {
        Some(caps) => Ok(caps),
        None => Err(BootError::OutOfRange(PlanKey::Buffers)),
    }
}
