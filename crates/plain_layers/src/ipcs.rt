//! Message calls in one step: the top of the layers, over one-step buffers. Only `open` allocates.
//! No function blocks.

ghost use Rattle.std.specs.Prelude.{◌≤◌, ◌^◌};
ghost use Rattle.plain_layers.specs.Wholes.{IsCoarse};

use crate::attempt_layers::OpensAttempts;
use crate::attempts::Attempt;
use crate::fifos::PlainFifo;
use crate::sleepers::PlainSleep;
use event_log::{CpuId, NoMemory};
use ipc_calls::{Ipc, OpensBuffers, WholeBuffers};
use layer_traits::{CallLayer, IpcLaw};
use std::alloc::Global;

/// One CPU's part of message calls in one step: a call takes effect at the first poll at which its
/// buffer allows it. Until then its thread sleeps.
pub type PlainIpc = Ipc<PlainFifo<PlainSleep<Attempt>>>;

impl<S: OpensAttempts> OpensBuffers for PlainFifo<S> {
    // A poll is at most two events below: the section, and the forwarding of the thread that it
    // woke.
    fn open(
        alloc: Global,
        cpus: u8,
        caps: &[u8],
        homes: &[CpuId],
        room: usize,
    ) -> Result<S::Machine, NoMemory> {
        if usize::MAX / 2 < room {
            return Err(refusal_of(alloc, room));
        }
        S::open(alloc, cpus, caps, homes, room * 2)
    }
}

/// Returns the error for more bytes than a list can have.
fn refusal_of(alloc: Global, bytes: usize) -> NoMemory
    requires { 2 ^ 63 ≤ bytes }
{
    match vec![in alloc; 0u8; bytes] {
        Ok(list) => {
            prove!(list.as_slice().len() < bytes);
            unreachable!()
        }
        Err(error) => NoMemory::from(error),
    }
}

impl<S: OpensAttempts> WholeBuffers for PlainFifo<S> {
    ghost whole = { tt };
}

/// Law: each poll of one-step message calls is one call, and not one action.
pub fn ipc_is_whole()
    ensures { IsCoarse ⟦<PlainIpc as CallLayer<IpcLaw>>⟧.IsWhole
        ⟦<PlainIpc as CallLayer<IpcLaw>>⟧.IsStepwise }
{}
