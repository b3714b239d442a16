//! A native in its own thread.

ghost use Rattle.std.specs.Prelude.{◌≡◌, []};

use crate::natives::Native;
use crate::own_threads::Task;
use crate::workers::{Caller, Hints};
use layer_traits::{CallLayer, IpcLaw};
use std::sync::Wait;

/// A native and the caller through which it calls. The caller is in memory of its own, so that a
/// task is passed on to its thread, and to each function there, as a pointer.
#[derive(Drop)]
pub(crate) struct NativeTask<I: CallLayer<IpcLaw> + Drop, N: Native + Drop>
where
    I::Machine: Drop + Hints,
{
    pub(crate) caller: Box<Caller<I>>,
    pub(crate) native: N,
}

impl<I: CallLayer<IpcLaw> + Drop, N: Native + Drop> Task for NativeTask<I, N>
where
    I::Machine: Drop + Hints,
{
    ghost use Rattle.std.specs.Prelude.{◌≡◌, []};
    ghost use Rattle.cpu_workers.specs.Natives.{HasKept};

    type Done = NativeTask<I, N>;

    ghost MayRun = { λ t. (t.caller.value.calls ≡ []) × N.Needs t.native t.caller.value.caps };

    ghost HasDone = { λ t done. HasKept N.Kept t.native t.caller.value done.native done.caller.value };

    fn run<R: Wait>(self, rt: &R) -> NativeTask<I, N> {
        let NativeTask {
            mut caller,
            mut native,
        } = self;
        native.run(rt, &mut caller);
        NativeTask { caller, native }
    }
}
