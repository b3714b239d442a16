//! The blocks at boot. `sleep_blocks` allocates memory. It does not wait.

ghost use Rattle.std.specs.Prelude.{◌≡◌, IfOk, map};
ghost use Rattle.sleep_wakeup.specs.Nested.{resting};

use crate::edits::SleepBlock;
use event_log::NoMemory;
use std::alloc::Global;
use thread_blocks::ThreadQueue;

/// Returns the blocks of the layer above, each with empty waiting lists, in their order.
///
/// Errors: `NoMemory` if an allocation failed; then the blocks are gone.
pub fn sleep_blocks<B: Drop>(alloc: Global, blocks: Vec<B>) -> Result<Vec<SleepBlock<B>>, NoMemory>
    ensures { IfOk result (λ made. made.items ≡ map resting blocks.items) }
{
    let mut made = Vec::with_capacity(alloc, blocks.len())?;
    for above in blocks {
        made.push(SleepBlock {
            sleepers: ThreadQueue::new(),
            receivers: ThreadQueue::new(),
            senders: ThreadQueue::new(),
            above,
        })
        .unwrap();
    }
    Ok(made)
}
