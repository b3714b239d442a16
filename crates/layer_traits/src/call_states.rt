//! The stage of a thread's message call: its continuation. No call allocates memory or waits.

ghost use Rattle.std.specs.Prelude.{◌≡◌, replicate};
ghost use Rattle.{event_log.specs.declared.ids.TheConstants.THREADS, layer_traits.specs.Layers.BufferLaw.no_call};

use crate::calls::{Call, Effect};
use crate::payloads::Ghost;
use event_log::THREADS;

/// The stages of a message call, each named by the section that it performs.
#[derive(Clone, Copy)]
pub enum Stage {
    /// The thread is in no call.
    Idle,
    /// It asks for the buffer's lock.
    Acquires,
    /// It enters the queue of its side, or closes the buffer.
    Enters,
    /// It tries to put or to take.
    Tries,
    /// Its try failed, and it waits on its side.
    Waits,
    /// It was woken, and asks for the lock again.
    AcquiresAgain,
    /// Its message call took effect, and it signals to the other side.
    Signals,
    /// It signals to its own side.
    SignalsOwn,
    /// It releases the lock.
    Releases,
}

/// What a part stores of a thread's message call.
#[derive(Drop)]
pub struct CallState {
    /// The stage of the call.
    pub stage: Stage,
    /// The call; `None` between calls. It is for clauses only.
    pub call: Ghost<Option<Call>>,
    /// The position that the thread drew last.
    pub position: u64,
    /// The effect of the newest call, until the next one begins.
    pub effect: Option<Effect>,
}

impl Default for CallState {
    ghost is_default = { λ call_state. call_state ≡ no_call };

    /// Returns the call state of a thread that never called.
    fn default() -> CallState {
        CallState {
            stage: Stage::Idle,
            call: Ghost::of(&None),
            position: 0,
            effect: None,
        }
    }
}

/// Returns the call states, by thread, of threads that never called.
pub fn no_calls() -> [CallState; THREADS]
    ensures { result ≡ replicate THREADS no_call }
{
    Default::default()
}
