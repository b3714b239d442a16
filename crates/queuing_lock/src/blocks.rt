//! The blocks at boot. `lock_blocks` allocates memory. It does not wait.

ghost use Rattle.std.specs.Prelude.{◌≡◌, IfOk, map};
ghost use Rattle.queuing_lock.specs.Nested.{unowned};

use crate::edits::QLockBlock;
use event_log::NoMemory;
use std::alloc::Global;

/// Returns the blocks of the layer above, each under a lock without an owner, in their order.
///
/// Errors: `NoMemory` if an allocation failed; then the blocks are gone.
pub fn lock_blocks<B: Drop>(alloc: Global, blocks: Vec<B>) -> Result<Vec<QLockBlock<B>>, NoMemory>
    ensures { IfOk result (λ made. made.items ≡ map unowned blocks.items) }
{
    let mut made = Vec::with_capacity(alloc, blocks.len())?;
    for above in blocks {
        made.push(QLockBlock { busy: None, above }).unwrap();
    }
    Ok(made)
}
