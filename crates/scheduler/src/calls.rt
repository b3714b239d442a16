//! Which call a scheduler's call is at the shared queues.
//!
//! No call is given an allocator, and none waits.

ghost use Rattle.std.specs.Prelude.{◌≡◌, Some, None, IfOk, IfErr};
ghost use Rattle.layer_traits.specs.{declared.payloads.Payload.Payload, Threads.Passes.queue_for, Blocks.Payloads.{abstract_queue_call, abstract_sched_call}};
ghost use Rattle.layer_traits.specs.Layers.Scheds.{queue_call};
ghost use Rattle.layer_traits.specs.declared.scheds.SchedCall.TheVariants as calls;

use event_log::{CpuId, Tid};
use layer_traits::{Moves, Pass, QueueCall, SchedCall};

/// Returns the call of `cpu` at the shared queues, into which `call` is moved. With any payload
/// beside it, the returned call means the call there of what `call` means. `homes` holds the home
/// of each thread.
///
/// Errors: the pass that `call` is, if it touches nothing shared: it is no call of the lower layer.
/// Nothing else is changed.
#[inline(always)]
pub fn call_beneath<E: Moves>(
    homes: &[CpuId],
    cpu: CpuId,
    call: SchedCall<E::Request>,
) -> Result<QueueCall<E::Request>, Pass>
    ensures step { IfOk result (λ step. queue_call homes.now cpu call ≡ Some step) }
    ensures pass { IfErr result
        (λ pass. (call ≡ calls.Pass pass) × (queue_call homes.now cpu call ≡ None)) }
    ensures shared { IfOk result (λ step. (payload : Payload)
        → queue_call homes.now cpu (abstract_sched_call E.abstract_call call payload)
        ≡ Some (abstract_queue_call E.abstract_call step payload)) }
    ensures local_is { IfErr result (λ pass. (payload : Payload)
        → (abstract_sched_call E.abstract_call call payload ≡ calls.Pass pass)
        × (queue_call homes.now cpu (abstract_sched_call E.abstract_call call payload) ≡ None)) }
{
    match call {
        SchedCall::Pass(Pass::YieldNow) => Ok(QueueCall::TakeAll(cpu)),
        SchedCall::Pass(Pass::Drain) => Ok(QueueCall::TakeAll(cpu)),
        SchedCall::Pass(Pass::MakeReady(t)) => Ok(QueueCall::Push(queue_for(homes, cpu, t), t)),
        SchedCall::Pass(pass) => Err(pass),
        SchedCall::OnBuffer(b, edit) => Ok(QueueCall::OnBuffer(b, edit)),
    }
}

/// Returns the CPU whose pending queue is for `t`: the thread's home, or `cpu` if it has none.
#[inline(always)]
fn queue_for(homes: &[CpuId], cpu: CpuId, t: Tid) -> CpuId
    ensures { result ≡ queue_for homes.now cpu t }
{
    match homes.get(usize::from(t.0)) {
        None => cpu,
        Some(home) => *home,
    }
}
