//! Schedules: which CPU takes each step of a run, read from a text such as `0*10,1,0*3`.
//! `read_steps` takes memory. No call waits.
ghost use Rattle.std.specs.Prelude.{◌≡◌, ◌+◌, ◌-◌, ◌<◌, ◌≤◌, ◌∷◌, ◌++◌, [], true, length, replicate, slice_index, take, option_map, IfSome, OnOk, vec_len};
ghost use Rattle.std.specs.{Char.is_ascii_digit, List.slice_split, Str.all_ascii_digits};
ghost use Rattle.mctower.specs.Schedule.{cpu_of, item_of, is_comma, schedule_pieces, ReadsSteps, steps_of, steps_in};
ghost use Rattle.{mctower.specs.{declared.line.schedules.StepsError.TheVariants.NoMemory, Refusals.from_steps}, event_log.specs.Refusals.no_memory};

use crate::refusals::Refusal;
use event_log::{CpuId, NoMemory, number_to};
use std::alloc::{AllocError, AllocFailed, Global};
use thiserror::Error;

/// The most steps of a schedule.
pub const MOST_STEPS: usize = 1_048_576;

/// The largest number of a CPU.
const LAST_CPU: u64 = 255;

/// Why a text gives no schedule.
#[derive(Debug, Clone, Copy, PartialEq, Eq, Error)]
pub enum StepsError {
    /// Out of memory.
    #[error("{0}")]
    NoMemory(NoMemory),
    /// The text is not in the grammar of schedules, or its steps are too many.
    #[error("BadSchedule(9)")]
    BadSchedule,
}

impl From<AllocError> for StepsError {
    ghost from_gives = { λ _ e. e ≡ NoMemory no_memory };

    fn from(error: AllocError) -> StepsError {
        StepsError::NoMemory(NoMemory::from(error))
    }
}

/// Returns the error of a text that is no schedule.
pub(crate) fn steps_refused(error: StepsError) -> Refusal
    ensures { result ≡ from_steps error }
{
    match error {
        StepsError::NoMemory(refused) => Refusal::NoMemory(refused),
        StepsError::BadSchedule => Refusal::BadSchedule,
    }
}

/// An item of a schedule: so many steps of one CPU, one after another.
#[derive(Debug, Clone, Copy)]
pub struct Item {
    cpu: CpuId,
    steps: usize,
}

/// Reads a schedule: one or more items, with one comma between two of them.
///
/// An item is `c`, one step of CPU c, or `c*n`, n steps of it, with c from 0 to 255 and n from 1 to
/// 1,048,576. Numbers are decimal digits without a leading zero, except `0`. All items together
/// have at most 1,048,576 steps. Whether a plan has the CPUs is not checked here.
///
/// Errors: `BadSchedule` for any other text; `NoMemory` only if memory ran out.
pub fn read_steps(alloc: Global, text: &str) -> Result<Vec<CpuId>, StepsError>
    ensures { ReadsSteps (steps_of text.now) result }
{
    let mut steps = Vec::new(alloc);
    let mut rest = Some(text);
    while let Some(from) = rest {
        if let Some((cpu, behind)) = single_step(from) {
            if steps.len() >= MOST_STEPS {
                return Err(StepsError::BadSchedule);
            }
            push_step(&mut steps, cpu)?;
            rest = Some(behind);
            continue;
        }
        let (first, after) = cut_item(from);
        let Some(item) = read_item(first) else {
            return Err(StepsError::BadSchedule);
        };
        if item.steps > MOST_STEPS - steps.len() {
            return Err(StepsError::BadSchedule);
        }
        push_steps(&mut steps, item)?;
        rest = after;
    }
    Ok(steps)
}

// Reads the first item if it is only a CPU's number, followed by a comma: returns its CPU, and the
// text after the comma. Returns `None` if the first item is any other, which `read_item` then reads
// or rejects.
#[inline(always)]
fn single_step(text: &str) -> Option<(CpuId, &str)>
    ensures step { IfSome result
        (λ r. steps_in (slice_split is_comma text.now)
        ≡ option_map (λ more. r.0 ∷ more) (steps_in (slice_split is_comma r.1.now))) }
    ensures shorter { IfSome result (λ r. length r.1.now < length text.now) }
{
    let (count, cpu) = cpu_digits(text.as_bytes())?;
    Some((cpu, &text[count + 1..]))
}

// Returns the CPU whose number the text begins with, and how many digits that number has, if a
// comma follows them. Most items of a long schedule have this form, and a loop would cost more than
// their one to three digits.
#[inline(always)]
fn cpu_digits(text: &[u8]) -> Option<(usize, CpuId)>
    ensures digits { IfSome result (λ r. all_ascii_digits (take r.0 text.now) ≡ true) }
    ensures item { IfSome result
        (λ r. item_of (take r.0 text.now) ≡ Some (record { cpu = r.1; steps = 1 })) }
    ensures comma { IfSome result (λ r. slice_index text.now r.0 ≡ 44) }
    ensures inside { IfSome result (λ r. r.0 < length text.now) }
{
    if !is_digit_at(text, 0) {
        return None;
    }
    let first = u64::from(text[0] - b'0');
    if is_comma_at(text, 1) {
        return Some((1, CpuId(first as u8)));
    }
    if first == 0 || !is_digit_at(text, 1) {
        return None;
    }
    let two = first * 10 + u64::from(text[1] - b'0');
    if is_comma_at(text, 2) {
        return Some((2, CpuId(two as u8)));
    }
    if !is_digit_at(text, 2) {
        return None;
    }
    let three = two * 10 + u64::from(text[2] - b'0');
    if three > LAST_CPU || !is_comma_at(text, 3) {
        return None;
    }
    Some((3, CpuId(three as u8)))
}

// Returns whether a digit is at a place.
#[inline(always)]
fn is_digit_at(text: &[u8], at: usize) -> bool
    ensures { result ≡ true
        → (at < length text.now) × (is_ascii_digit (slice_index text.now at) ≡ true) }
{
    at < text.len() && text[at].is_ascii_digit()
}

// Returns whether a comma is at a place.
#[inline(always)]
fn is_comma_at(text: &[u8], at: usize) -> bool
    ensures { result ≡ true → (at < length text.now) × (slice_index text.now at ≡ 44) }
{
    at < text.len() && text[at] == b','
}

// Returns the text before the first comma, and the text after it.
fn cut_item(text: &str) -> (&str, Option<&str>)
    ensures pieces { slice_split is_comma text.now
        ≡ result.0.now ∷ schedule_pieces (option_map (λ t. t.now) result.1) }
    ensures shorter { IfSome result.1 (λ t. length t.now < length text.now) }
{
    match text.split_once(',') {
        Some((first, after)) => (first, Some(after)),
        None => (text, None),
    }
}

fn read_item(text: &str) -> Option<Item>
    ensures { result ≡ item_of text.now }
{
    match text.split_once('*') {
        Some((cpu, steps)) => {
            let cpu = read_cpu(cpu)?;
            let steps = number_to(steps.as_bytes(), MOST_STEPS as u64)?;
            if steps == 0 {
                return None;
            }
            Some(Item {
                cpu,
                steps: steps as usize,
            })
        }
        None => Some(Item {
            cpu: read_cpu(text)?,
            steps: 1,
        }),
    }
}

fn read_cpu(text: &str) -> Option<CpuId>
    ensures { result ≡ cpu_of text.now }
{
    let number = number_to(text.as_bytes(), 255)?;
    Some(CpuId(number as u8))
}

// Appends one more step: most items are one step, and a push is shorter than a fill.
#[inline(always)]
fn push_step(steps: &mut Vec<CpuId>, cpu: CpuId) -> Result<(), AllocError>
    ensures { OnOk result (steps.new.items ≡ steps.old.items ++ cpu ∷ []) }
{
    steps.push(cpu)?;
    Ok(())
}

fn push_steps(steps: &mut Vec<CpuId>, item: Item) -> Result<(), AllocError>
    requires { length steps.old.items + item.steps ≤ MOST_STEPS }
    ensures { OnOk result (steps.new.items ≡ steps.old.items ++ replicate item.steps item.cpu) }
{
    steps.resize(steps.len() + item.steps, item.cpu)
}
