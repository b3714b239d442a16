//! The blocks of buffers at boot. `empty_blocks` allocates. It does not block.

ghost use Rattle.std.specs.Prelude.{◌≡◌, All, IfOk, map};
ghost use Rattle.{event_log.specs.Buffers.IsCapacity, layer_traits.specs.Blocks.BufferBlocks.empty_block};

use event_log::NoMemory;
use layer_traits::BufferBlock;
use std::alloc::Global;

/// Returns the blocks of empty buffers with these capacities, in their order. All memory that they
/// need is allocated here.
///
/// Requires: each capacity is from 1 to `CAPACITY`.
///
/// Errors: `NoMemory` if an allocation failed.
pub fn empty_blocks(alloc: Global, caps: &[u8]) -> Result<Vec<BufferBlock>, NoMemory>
    requires { All IsCapacity caps.now }
    ensures { IfOk result (λ blocks. blocks.items ≡ map empty_block caps.now) }
{
    let mut blocks = Vec::with_capacity(alloc, caps.len())?;
    for capacity in caps {
        blocks
            .push(BufferBlock::new(usize::from(*capacity)))
            .unwrap();
    }
    Ok(blocks)
}
