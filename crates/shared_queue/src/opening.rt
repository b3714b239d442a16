//! The blocks of shared queues at boot.
//!
//! `queue_blocks` allocates all memory that the blocks need, and does not wait.

ghost use Rattle.std.specs.Prelude.{◌≡◌, ◌+◌, ◌≤◌, ◌<◌, ◌++◌, IsSome, IfOk, length, slice_get, vec_len, vec_capacity};
ghost use Rattle.event_log.specs.declared.ids.{LockId.TheVariants.{Pending, Buffer}, TheConstants.{BUFFERS, CPUS, THREADS}};
ghost use Rattle.layer_traits.specs.{Protocols.OneLock.{AreDistinct, opened}, Blocks.QueueBlocks.{StartsWell, homes_in, inner}};
ghost use Rattle.shared_queue.specs.Opening.{AreEmptyQueues, AreQueues, buffers_from};

use event_log::{BufId, CpuId, LockId, NoMemory};
use layer_traits::{BlockBox, QueueBlock, kept_homes};
use std::alloc::Global;
use std::snapshot::Snapshot;
use thread_blocks::ThreadQueue;

/// Returns the lock of each CPU's pending queue, which is empty, with room for so many locks more.
fn empty_queues<B: Drop>(
    alloc: Global,
    cpus: u8,
    homes: &[CpuId],
    more: usize,
) -> Result<Vec<(LockId, QueueBlock<B>)>, NoMemory>
    requires threads { length homes.now ≤ THREADS }
    requires few { more ≤ BUFFERS }
    ensures queues { IfOk result (λ locks. AreEmptyQueues homes.now 0 locks.items) }
    ensures count { IfOk result (λ locks. vec_len locks ≡ cpus) }
    ensures room { IfOk result (λ locks. cpus + more ≤ vec_capacity locks) }
{
    let kept = kept_homes(homes);
    let mut locks = Vec::with_capacity(alloc, usize::from(cpus) + more)?;
    for cpu in 0..cpus {
        let queue = BlockBox::new(alloc, ThreadQueue::new())?;
        let block = QueueBlock::Queue(queue, Snapshot::of(&kept));
        locks.push((LockId::Pending(CpuId(cpu)), block)).unwrap();
    }
    Ok(locks)
}

/// Returns the locks of shared queues at boot, each with its block: an empty pending queue for each
/// of so many CPUs, and `blocks` for the buffers. The index of a block is its buffer's number.
/// `homes` holds the home of each thread. All memory that the blocks need is allocated here.
///
/// Requires: there are at least one CPU and at most `CPUS`, at most `BUFFERS` blocks and at most
/// `THREADS` homes. Each home is one of the CPUs.
///
/// Errors: `NoMemory` if an allocation failed; then the blocks are gone.
pub fn queue_blocks<B: Drop>(
    alloc: Global,
    blocks: Vec<B>,
    cpus: u8,
    homes: &[CpuId],
) -> Result<Vec<(LockId, QueueBlock<B>)>, NoMemory>
    requires { AreQueues cpus homes.now (length blocks.items) }
    ensures distinct { IfOk result (λ locks. AreDistinct locks.items) }
    ensures starts { IfOk result (λ locks. StartsWell (opened locks.items)) }
    ensures homes { IfOk result (λ locks. homes_in (opened locks.items) ≡ homes.now) }
    ensures queues { IfOk result
        (λ locks. (c : _) → c.0 < cpus → IsSome (opened locks.items (Pending c))) }
    ensures blocks { IfOk result
        (λ locks. (b : _) → inner (opened locks.items) (Buffer b) ≡ slice_get blocks.items b.0) }
{
    let mut locks = empty_queues(alloc, cpus, homes, blocks.len())?;
    let mut number = 0u8;
    for above in blocks {
        let block = BlockBox::new(alloc, above)?;
        locks
            .push((LockId::Buffer(BufId(number)), QueueBlock::Above(block)))
            .unwrap();
        number += 1;
    }
    Ok(locks)
}
