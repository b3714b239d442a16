//! The tower is stepwise: each layer's polls are single actions if those of the layers below are.
//! Everything here is a law; nothing is executed.

use crate::ipc::Ipc;
use crate::opening::{LockEdit, OpensBuffers, OpensLocks, OpensQueues, OpensScheds};
use crate::tower::TowerEdit;
use condvar::Cond;
use fifo_buffer::Fifo;
use layer_traits::{OwnedLocks, Stepwise};
use queuing_lock::QLock;
use scheduler::Sched;
use shared_queue::SharedQueues;
use sleep_wakeup::Sleeper;
use spinlock::{OwnedFifoLock, SpinLock};

/// Critical sections of which each poll is one action.
pub trait StepwiseSections: OwnedLocks<TowerEdit> {
    /// Law: one poll is one action.
    ghost steps: { Self.IsStepwise };
}

impl<M: OwnedFifoLock<LockProtocol, Edit = TowerEdit>, LockProtocol> StepwiseSections
    for SpinLock<M, LockProtocol> {
    ghost steps = { tt };
}

/// Shared queues of which each poll is one action.
pub trait StepwiseQueues: OpensQueues<LockEdit> {
    /// Law: one poll is one action.
    ghost steps: { Self.IsStepwise };
}

impl<L: StepwiseSections> StepwiseQueues for SharedQueues<L> {
    ghost steps = { L.steps };
}

/// Schedulers of which each poll is one action.
pub trait StepwiseScheds: OpensScheds<LockEdit> {
    /// Law: one poll is one action.
    ghost steps: { Self.IsStepwise };
}

impl<Q: StepwiseQueues> StepwiseScheds for Sched<Q> {
    ghost steps = { Q.steps };
}

/// Sections that put threads to sleep, of which each poll is one action.
pub trait StepwiseLocks: OpensLocks<LockEdit> {
    /// Law: one poll is one action.
    ghost steps: { Self.IsStepwise };
}

impl<S: StepwiseScheds> StepwiseLocks for Sleeper<LockEdit, S> {
    ghost steps = { S.steps };
}

/// Buffers of which each poll is one action.
pub trait StepwiseBuffers: OpensBuffers {
    /// Law: one poll is one action.
    ghost steps: { Self.IsStepwise };
}

impl<S: StepwiseLocks> StepwiseBuffers for Fifo<Cond<QLock<S>>> {
    ghost steps = { S.steps };
}

impl<B: StepwiseBuffers> Stepwise for Ipc<B> {
    ghost steps = { B.steps };
}

/// Law: each poll of a stepwise layer is one action. The tower over the locks of an owned machine
/// is such a layer, with ticket locks or with grant words.
pub fn tower_is_stepwise<I: Stepwise>()
    ensures { I.IsStepwise }
{}
