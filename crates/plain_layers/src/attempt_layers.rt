//! Layers of attempts whose machine is opened with empty buffers. The functions here allocate. None
//! blocks.

ghost use Rattle.std.specs.Prelude.{◌≡◌, ◌<◌, ◌≤◌, [], All, IfOk, IsSome, map};
ghost use Rattle.{event_log.specs.Buffers.IsCapacity, plain_layers.specs.Attempts.plain_empty_buffer};

use crate::attempts::{Attempt, PlainBuffer};
use crate::kernel::PlainKernel;
use crate::scheds::PlainSched;
use event_log::{CpuId, NoMemory};
use layer_traits::{OwnedThreadLayer, SleepLaw};
use sleep_wakeup::{SleepEdit, Sleeper, sleep_blocks};
use std::alloc::Global;

/// A layer of sleep and wakeup for attempts, whose machine is opened with empty buffers. Each poll
/// does a whole section if the section may be done.
pub trait OpensAttempts: OwnedThreadLayer<SleepLaw<Attempt>> {
    ghost use Rattle.{event_log.specs.declared.ids.{CpuId.CpuId, LockId.TheVariants.Pending, TheConstants.CPUS}, layer_traits.specs.Views.Openings.AreOpenable};
    ghost use Rattle.{layer_traits.specs.Blocks.QueueBlocks.{homes_in, inner}, plain_layers.specs.{Fifos.fresh_buffers, Wholes.IsCoarse}};

    /// Returns a machine of so many CPUs, with an empty buffer of each of these capacities and a
    /// thread of each of these home CPUs. It has room for `room` events. All memory is allocated
    /// here.
    ///
    /// Requires: there are 1 to `CPUS` CPUs, and at most `BUFFERS` capacities, each from 1 to
    /// `CAPACITY`. There are at most `THREADS` homes, each one of the CPUs.
    ///
    /// Errors: `NoMemory` if an allocation failed.
    fn open(
        alloc: Global,
        cpus: u8,
        caps: &[u8],
        homes: &[CpuId],
        room: usize,
    ) -> Result<Self::Machine, NoMemory>
        requires { AreOpenable cpus caps.now homes.now }
        ensures history { IfOk result (λ m. Self.history m ≡ []) }
        ensures room { IfOk result (λ m. room ≤ Self.room m) }
        ensures homes { IfOk result (λ m. homes_in (Self.opening m) ≡ homes.now) }
        ensures queues { IfOk result
            (λ m. (c : CpuId) → c.0 < cpus → IsSome (Self.opening m (Pending c))) }
        ensures buffers { IfOk result (λ m. inner (Self.opening m) ≡ fresh_buffers caps.now) }
        ensures acts { IfOk result (λ m. (c : CpuId) → c.0 < CPUS → Self.ActsFor m c) }
        ensures outside { IfOk result (λ m. (c : CpuId) → Self.IsOutside m c) }
        ensures none { IfOk result (λ m. Self.acts m ≡ []) }
        ensures holders { IfOk result (λ m. (c : CpuId) → Self.MayHold m c → ⊥) };

    /// Law: one poll is one call, and not one action.
    ghost whole: { IsCoarse Self.IsWhole Self.IsStepwise };
}

/// Returns empty buffers of these capacities, in their order. All memory that they need is
/// allocated here.
///
/// Requires: each capacity is from 1 to `CAPACITY`.
///
/// Errors: `NoMemory` if an allocation failed.
pub fn plain_buffers(alloc: Global, caps: &[u8]) -> Result<Vec<PlainBuffer>, NoMemory>
    requires { All IsCapacity caps.now }
    ensures { IfOk result (λ buffers. buffers.items ≡ map plain_empty_buffer caps.now) }
{
    let mut buffers = Vec::with_capacity(alloc, caps.len())?;
    for capacity in caps {
        buffers
            .push(PlainBuffer::new(usize::from(*capacity)))
            .unwrap();
    }
    Ok(buffers)
}

impl OpensAttempts for Sleeper<Attempt, PlainSched<SleepEdit<Attempt>>> {
    fn open(
        alloc: Global,
        cpus: u8,
        caps: &[u8],
        homes: &[CpuId],
        room: usize,
    ) -> Result<PlainKernel<SleepEdit<Attempt>>, NoMemory> {
        let blocks = sleep_blocks(alloc, plain_buffers(alloc, caps)?)?;
        PlainKernel::open(alloc, blocks, cpus, homes, room)
    }

    ghost whole = { (tt, λ step. step) };
}
