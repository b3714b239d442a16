//! The words and the block of each lock, in a table that is indexed by the lock. Only `empty_table`
//! allocates. No function blocks.

ghost use Rattle.std.specs.Prelude.{◌≡◌, ℕ, Bool, ◌+◌, ◌%◌, ◌^◌, ◌<◌, ◌≤◌, ◌==◌, IsSome, IfSome, IfOk, All, Some, None, option_map, if◌then◌else◌, length};
ghost use Rattle.{event_log.specs.{Locks.lock_number, declared.ids.TheConstants.CPUS}, layer_traits.specs.Protocols.OneLock.AreDistinct};
ghost use Rattle.plain_machine.specs.Table.{cell_at, with_cell, worded_cell, looked_cell, given_cell, AreFresh};

use crate::lock_queue_words::LockQueueWords;
use event_log::{LockId, NoMemory};
use std::alloc::Global;

/// The words of one lock, and its block while that is in the table.
#[derive(Drop)]
pub struct Cell<K, B> {
    /// The lock's words.
    pub words: K,
    /// The block; `None` while a CPU has it.
    pub home: Option<B>,
}

/// Takes a ticket index at `lock`, and returns its ticket.
///
/// Requires: the lock is in the table.
#[inline(always)]
pub fn take<K: LockQueueWords, B>(cells: &mut Vec<Option<Cell<K, B>>>, lock: LockId) -> u64
    requires { IsSome (cell_at cells.old.items lock) }
    ensures { IfSome (cell_at cells.old.items lock) (λ cell. (words : _)
        × ((taken given : ℕ) → K.Coupling taken given cell.words
        → (result ≡ taken % 2 ^ 64) × K.Coupling (taken + 1) given words)
        × (cells.new.items ≡ with_cell cells.old.items lock (worded_cell cell words))) }
{
    match &mut cells[lock.number()] {
        Some(cell) => cell.words.take(),
        None => unreachable!(),
    }
}

/// Polls `lock` with `ticket`, and returns the block if the ticket is served and the block is in
/// the table.
///
/// Requires: the lock is in the table.
#[inline(always)]
pub fn look<K: LockQueueWords, B>(
    cells: &mut Vec<Option<Cell<K, B>>>,
    lock: LockId,
    ticket: u64,
) -> Option<B>
    requires { IsSome (cell_at cells.old.items lock) }
    ensures { IfSome (cell_at cells.old.items lock) (λ cell. (hit : Bool)
        × ((taken given ticket_index : ℕ) → K.Coupling taken given cell.words → given ≤ ticket_index
        → ticket_index < given + CPUS → ticket ≡ ticket_index % 2 ^ 64
        → hit ≡ (given == ticket_index))
        × (result ≡ (if hit then cell.home else None))
        × (cells.new.items ≡ with_cell cells.old.items lock (looked_cell cell hit))) }
{
    match &mut cells[lock.number()] {
        Some(cell) => {
            if cell.words.serves(ticket) {
                cell.home.take()
            } else {
                None
            }
        }
        None => unreachable!(),
    }
}

/// Returns whether a poll of `lock` with `ticket` would succeed.
///
/// Requires: the lock is in the table.
#[inline(always)]
pub fn serves<K: LockQueueWords, B>(
    cells: &Vec<Option<Cell<K, B>>>,
    lock: LockId,
    ticket: u64,
) -> bool
    requires { IsSome (cell_at cells.now.items lock) }
    ensures { IfSome (cell_at cells.now.items lock)
        (λ cell. (taken given ticket_index : ℕ) → K.Coupling taken given cell.words
        → given ≤ ticket_index
        → ticket_index < given + CPUS
        → ticket ≡ ticket_index % 2 ^ 64 → result ≡ (given == ticket_index)) }
{
    match &cells[lock.number()] {
        Some(cell) => cell.words.serves(ticket),
        None => unreachable!(),
    }
}

/// Releases `lock`, and puts `block` back.
///
/// Requires: the lock is in the table.
#[inline(always)]
pub fn give<K: LockQueueWords, B: Drop>(cells: &mut Vec<Option<Cell<K, B>>>, lock: LockId, block: B)
    requires { IsSome (cell_at cells.old.items lock) }
    ensures { IfSome (cell_at cells.old.items lock) (λ cell. (words : _)
        × ((taken given : ℕ) → K.Coupling taken given cell.words
        → K.Coupling taken (given + 1) words)
        × (cells.new.items ≡ with_cell cells.old.items lock (given_cell words block))) }
{
    match &mut cells[lock.number()] {
        Some(cell) => {
            cell.words.give();
            cell.home = Some(block);
        }
        None => unreachable!(),
    }
}

/// Returns the block of `lock`, while no CPU has it.
///
/// Requires: the lock is in the table.
pub fn home<K, B>(cells: &Vec<Option<Cell<K, B>>>, lock: LockId) -> Option<&B>
    requires { IsSome (cell_at cells.now.items lock) }
    ensures { IfSome (cell_at cells.now.items lock)
        (λ cell. option_map (λ block. block.now) result ≡ cell.home) }
{
    match &cells[lock.number()] {
        Some(cell) => cell.home.as_ref(),
        None => unreachable!(),
    }
}

/// Returns the words of `lock`.
///
/// Requires: the lock is in the table.
pub fn words<K: Copy, B>(cells: &Vec<Option<Cell<K, B>>>, lock: LockId) -> K
    requires { IsSome (cell_at cells.now.items lock) }
    ensures { IfSome (cell_at cells.now.items lock) (λ cell. result ≡ cell.words) }
{
    match &cells[lock.number()] {
        Some(cell) => cell.words,
        None => unreachable!(),
    }
}

/// Returns the length of a table that has a slot for each of these locks.
pub fn table_len<B>(blocks: &Vec<(LockId, B)>) -> usize
    ensures { All (λ entry. lock_number entry.0 < result) blocks.now.items }
{
    let mut len = 0;
    for entry in blocks {
        let end = entry.0.number() + 1;
        if len < end {
            len = end;
        }
    }
    len
}

/// Returns a table of `len` slots, all empty.
///
/// Errors: `NoMemory` if the allocation failed.
pub fn empty_table<K: Drop, B: Drop>(
    alloc: Global,
    len: usize,
) -> Result<Vec<Option<Cell<K, B>>>, NoMemory>
    ensures { IfOk result (λ cells. length cells.items ≡ len) }
{
    let mut cells = Vec::with_capacity(alloc, len)?;
    for _ in 0..len {
        cells.push(None).unwrap();
    }
    Ok(cells)
}

/// Puts a cell with fresh words and this block in the slot of `lock`.
///
/// Requires: the table has a slot for the lock.
pub fn put<K: LockQueueWords, B: Drop>(cells: &mut Vec<Option<Cell<K, B>>>, lock: LockId, block: B)
    requires { lock_number lock < length cells.old.items }
    ensures { (words : _) × K.Coupling 0 0 words
        × (cells.new.items ≡ with_cell cells.old.items lock (given_cell words block)) }
{
    cells[lock.number()] = Some(Cell {
        words: K::fresh(),
        home: Some(block),
    });
}

/// Puts a cell with fresh words and its block in the slot of each lock.
///
/// Requires: no lock occurs twice, and the table has a slot for each.
pub fn fill<K: LockQueueWords, B: Drop>(
    cells: &mut Vec<Option<Cell<K, B>>>,
    blocks: Vec<(LockId, B)>,
)
    requires distinct { AreDistinct blocks.items }
    requires within { All (λ entry. lock_number entry.0 < length cells.old.items) blocks.items }
    ensures { AreFresh (K.Coupling 0 0) blocks.items cells.new.items }
{
    for (lock, block) in blocks {
        put(cells, lock, block);
    }
}
