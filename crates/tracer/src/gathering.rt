//! One order of the traces of several CPUs. Only `gather` takes memory. No call waits.

ghost use Rattle.std.specs.Prelude.{◌≡◌, ◌<◌, ◌≤◌, ◌+◌, ℕ, List, length, map, sum_by, slice_get, slice_index, IfOk, IsErrOf, IsTrue, ◌↔◌, IfSome, [], IfNone};
ghost use Rattle.{std.specs.Prelude.{option_map, vec_capacity}, event_log.specs.{declared.entries.Entry.Entry as AnEntry, Runs.count_of, Refusals.no_memory}};
ghost use Rattle.tracer.specs.declared.gathering.GatherError.TheVariants as error;
ghost use Rattle.tracer.specs.Gather.{IsOrder, TakesFirstReady, HasNoOrder, RunsHaveOrder, OrdersRunAlike, OrdersAgreeByBuffer, traces_in, entries_in};
ghost use Rattle.tracer.specs.Gather.{next_entry, IsNextOp, NoneDueBelow};

use event_log::{BufId, Entry, NoMemory};
use std::alloc::{AllocError, AllocFailed, Global};
use thiserror::Error;

/// Why traces could not be put in one order.
#[derive(Clone, Copy, Debug, PartialEq, Eq, Error)]
pub enum GatherError {
    /// An allocation failed, before any entry was taken.
    #[error("NoMemory(1)")]
    NoMemory(NoMemory),
    /// No order keeps each trace and counts the effects of each buffer from 0.
    #[error("NoOrder(6)")]
    NoOrder,
}

impl From<AllocError> for GatherError {
    ghost from_gives = { λ _ e. e ≡ error.NoMemory no_memory };

    fn from(error: AllocError) -> GatherError {
        GatherError::NoMemory(NoMemory::from(error))
    }
}

impl<T: Drop> From<AllocFailed<T>> for GatherError {
    ghost from_gives = { λ _ e. e ≡ error.NoMemory no_memory };

    fn from(error: AllocFailed<T>) -> GatherError {
        GatherError::NoMemory(NoMemory::from(error))
    }
}

/// How many buffers an entry can name.
const NAMES: usize = 256;

/// Puts the traces of several CPUs in one order that keeps each trace. In this order the op numbers
/// of each buffer are 0, 1, 2 and so on. If several such orders exist, it takes at each point the
/// first trace whose next entry has the op number that its buffer expects.
///
/// Errors: `NoOrder` exactly if no such order exists; `NoMemory` if an allocation failed. All
/// memory is taken before the first entry is.
pub fn gather<'t>(alloc: Global, traces: &[&'t [Entry]]) -> Result<Vec<&'t Entry>, GatherError>
    ensures order { IfOk result (λ out. IsOrder (traces_in traces.now) (entries_in out.items)) }
    ensures greedy { IfOk result
        (λ out. TakesFirstReady (traces_in traces.now) (entries_in out.items)) }
    ensures none { IsErrOf result GatherError.NoOrder → HasNoOrder (traces_in traces.now) }
{
    let (mut order, total) = room_for(alloc, traces)?;
    let mut taken = vec![in alloc; 0usize; traces.len()]?;
    let mut counts = [0u64; NAMES];
    while let Some((trace, entry)) = first_ready(traces, &taken, &counts) {
        taken[trace] += 1;
        counts[slot_of(entry.buffer)] += 1;
        order.push(entry).unwrap();
    }
    if order.len() == total {
        Ok(order)
    } else {
        Err(GatherError::NoOrder)
    }
}

/// Returns an empty list with room for the entries of all traces, and how many these are. For a sum
/// past the largest `usize` it requests the largest `usize`, so that the allocator fails.
///
/// Errors: `AllocError` if an allocation failed.
fn room_for<'t>(
    alloc: Global,
    traces: &[&'t [Entry]],
) -> Result<(Vec<&'t Entry>, usize), AllocError>
    ensures empty { IfOk result (λ r. r.0.items ≡ []) }
    ensures count { IfOk result (λ r. r.1 ≡ sum_by (λ trace. length trace.now) traces.now) }
    ensures room { IfOk result (λ r. r.1 ≤ vec_capacity r.0) }
{
    let mut count = 0usize;
    for trace in traces {
        count = count.saturating_add(trace.len());
    }
    let order = Vec::with_capacity(alloc, count)?;
    Ok((order, count))
}

/// Returns the index of a buffer's count.
fn slot_of(buffer: BufId) -> usize
    ensures is { result ≡ buffer.0 }
    ensures within { result < 256 }
{
    usize::from(buffer.0)
}

/// Returns whether an entry has the op number that its buffer expects. `counts` says how many
/// entries of each buffer are in the order.
fn is_due(counts: &[u64; NAMES], entry: &Entry) -> bool
    ensures { IsTrue result ↔ IsNextOp counts.now entry.now }
{
    entry.op == counts[slot_of(entry.buffer)]
}

/// Returns the first trace whose next entry has the op number that its buffer expects, and that
/// entry. `taken` says how many entries of each trace are in the order, `counts` how many of each
/// buffer.
fn first_ready<'t>(
    traces: &[&'t [Entry]],
    taken: &[usize],
    counts: &[u64; NAMES],
) -> Option<(usize, &'t Entry)>
    requires { length taken.now ≡ length traces.now }
    ensures found { IfSome result
        (λ f. next_entry (traces_in traces.now) taken.now f.0 ≡ Some f.1.now) }
    ensures due { IfSome result (λ f. IsNextOp counts.now f.1.now) }
    ensures first { IfSome result
        (λ f. NoneDueBelow (traces_in traces.now) taken.now counts.now f.0) }
    ensures none { IfNone result
        (NoneDueBelow (traces_in traces.now) taken.now counts.now (length traces.now)) }
{
    for (i, &trace) in traces.iter().enumerate() {
        if let Some(entry) = trace.get(taken[i]) {
            if is_due(counts, entry) {
                return Some((i, entry));
            }
        }
    }
    None
}

/// A law: traces of which some order is a legal history have an order for [`gather`] to find. Each
/// order of them is a legal history that ends in the same contents. Therefore the gathered order of
/// a system's traces is a legal history that ends in the system's contents.
#[tactic(auto, using(crate::proofs::OrderLemmas::orders_agree, crate::proofs::OrderLemmas::runs_have_order, crate::proofs::OrderLemmas::run_alike))]
pub fn gathered_is_a_run()
    ensures found { (traces : List (List AnEntry)) → RunsHaveOrder traces }
    ensures alike { (traces : List (List AnEntry)) → OrdersRunAlike traces }
    ensures by_buffer { (traces : List (List AnEntry)) → OrdersAgreeByBuffer traces }
{}
