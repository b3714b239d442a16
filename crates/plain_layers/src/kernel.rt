//! The machine under one-step queues and schedulers: lists of threads and of blocks. Only
//! `PlainKernel::open` allocates. No function blocks.

ghost use Rattle.std.specs.Prelude.{◌≡◌, ◌+◌, ◌<◌, ◌∷◌, [], Some, IsSome, IfOk, length, option_map, replicate, slice_get};
ghost use Rattle.{event_log.specs.declared.ids.{LockId.TheVariants.{Buffer, Pending}, TheConstants.CPUS}, thread_blocks.specs.Queues.is_in};
ghost use Rattle.layer_traits.specs.{Blocks.{QueueBlocks.{homes_in, inner}, Payloads.{abstract_queue_call, abstract_queue_answer}}, Layers.Queues.CallAllowed};
ghost use Rattle.{layer_traits.specs.Layers.Queues.{answer_of, event, kernel, lock_of}, plain_layers.specs.Kernels.{CanDo, IsDone, IsKernel, calls_in}};
ghost use Rattle.{plain_layers.specs.Kernels.{call_room, opening_of}, shared_queue.specs.Opening.AreQueues};

use arrayvec::ArrayVec;
use event_log::{BufId, CpuId, EventLog, NoMemory, THREADS, Tid};
use layer_traits::{BareQueueAnswer, Moves, Payload, QueueCall, QueueEvent, kept_homes};
use std::alloc::Global;
use std::snapshot::Snapshot;
use thread_blocks::ThreadQueue;

/// What all CPUs share: the pending threads of each CPU, head first, and the block of each buffer.
#[derive(Drop)]
pub struct Lists<B> {
    pending: Vec<ThreadQueue>,
    buffers: Vec<B>,
}

/// What a machine opened with, only for clauses: its lists, and the home CPU of each thread.
#[derive(Drop)]
pub struct Opening<B> {
    lists: Snapshot<Lists<B>>,
    homes: Snapshot<ArrayVec<CpuId, THREADS>>,
}

/// The lists that all CPUs share, and the list of the calls that were done. The room for calls is
/// fixed when the machine is opened. No function after [`PlainKernel::open`] allocates.
#[derive(Drop)]
pub struct PlainKernel<E: Moves> {
    log: EventLog<QueueEvent<E>>,
    lists: Lists<E::Block>,
    opening: Opening<E::Block>,
}

impl<E: Moves> PlainKernel<E> {
    /// Returns a machine of so many CPUs, with no pending thread and with the block of each buffer
    /// in its place. `homes` holds the home CPU of each thread; there is room for `room` calls.
    ///
    /// Requires: there are 1 to `CPUS` CPUs, at most `BUFFERS` blocks and at most `THREADS` homes.
    /// Each home is one of the CPUs.
    ///
    /// Errors: `NoMemory` if an allocation failed; then the blocks are dropped.
    pub fn open(
        alloc: Global,
        buffers: Vec<E::Block>,
        cpus: u8,
        homes: &[CpuId],
        room: usize,
    ) -> Result<PlainKernel<E>, NoMemory>
        requires { AreQueues cpus homes.now (length buffers.items) }
        ensures sound { IfOk result
            (λ m. IsKernel E.protocol E.moves m.opening (calls_in m) m.lists) }
        ensures history { IfOk result (λ m. calls_in m ≡ []) }
        ensures room { IfOk result (λ m. call_room m ≡ room) }
        ensures homes { IfOk result (λ m. homes_in (opening_of m.opening) ≡ homes.now) }
        ensures queues { IfOk result
            (λ m. (c : _) → c.0 < cpus → IsSome (opening_of m.opening (Pending c))) }
        ensures blocks { IfOk result
            (λ m. (b : _) → inner (opening_of m.opening) (Buffer b) ≡ slice_get buffers.items b.0) }
    {
        let log = EventLog::with_room(alloc, room)?;
        let pending = empty_queues(alloc, cpus)?;
        let lists = Lists { pending, buffers };
        let abstract_answer = kept_homes(homes);
        let opened = Snapshot::of(&lists);
        let homes = Snapshot::of(&abstract_answer);
        Ok(PlainKernel {
            log,
            lists,
            opening: Opening {
                lists: opened,
                homes,
            },
        })
    }

    /// Does a whole call: records its meaning, applies it to the lists, and returns what brings its
    /// result.
    ///
    /// Requires: the machine's lists are what its calls make of them. It has room for one more
    /// call. The CPU's number is below `CPUS`. The call's lock exists, and the call is allowed.
    pub fn done(
        &mut self,
        cpu: CpuId,
        call: QueueCall<E::Request>,
        payload: &mut Payload,
    ) -> BareQueueAnswer<E::Response>
        requires sound { IsKernel E.protocol E.moves self.old.opening (calls_in self.old)
            self.old.lists }
        requires room { 0 < call_room self.old }
        requires cpu { cpu.0 < CPUS }
        requires lock { IsSome (opening_of self.old.opening (lock_of call)) }
        requires call { CallAllowed (kernel E.protocol E.moves (opening_of self.old.opening))
            (calls_in self.old) cpu (abstract_queue_call E.abstract_call call payload.old) }
        ensures sound { IsKernel E.protocol E.moves self.new.opening (calls_in self.new)
            self.new.lists }
        ensures opening { self.new.opening ≡ self.old.opening }
        ensures history { calls_in self.new
            ≡ event cpu (abstract_queue_call E.abstract_call call payload.old) ∷ calls_in self.old }
        ensures room { call_room self.old ≡ call_room self.new + 1 }
        ensures answer { answer_of (kernel E.protocol E.moves (opening_of self.old.opening))
            (calls_in self.old) (abstract_queue_call E.abstract_call call payload.old)
            ≡ Some (abstract_queue_answer E.abstract_answer result payload.new) }
    {
        // What the call leaves in the payload may overwrite its message slot.
        let abstract_call = whole_call::<E>(&call, payload);
        let answer = do_call::<E>(&mut self.lists, &call, payload);
        self.log
            .push(QueueEvent {
                cpu,
                call: abstract_call,
            })
            .unwrap();
        answer
    }

    /// Returns the block of the buffer `b`; `None` if there is no such buffer.
    pub fn block(&self, b: BufId) -> Option<&E::Block>
        ensures { option_map (λ block. block.now) result
            ≡ slice_get self.now.lists.buffers.items b.0 }
    {
        self.lists.buffers.get(usize::from(b.0))
    }

    /// Returns whether `t` is pending at the CPU `d`; `None` if there is no such CPU.
    pub fn pends(&self, d: CpuId, t: Tid) -> Option<bool>
        ensures { result ≡ option_map (λ queue. is_in t queue)
            (slice_get self.now.lists.pending.items d.0) }
    {
        match self.lists.pending.get(usize::from(d.0)) {
            Some(queue) => Some(queue.contains(t)),
            None => None,
        }
    }
}

/// Returns the call that its handed part and the payload mean.
fn whole_call<E: Moves>(call: &QueueCall<E::Request>, payload: &Payload) -> QueueCall<E>
    ensures { result ≡ abstract_queue_call E.abstract_call call.now payload.now }
{
    match call {
        QueueCall::Push(queue, t) => QueueCall::Push(*queue, *t),
        QueueCall::TakeAll(queue) => QueueCall::TakeAll(*queue),
        QueueCall::OnBuffer(buffer, edit) => {
            QueueCall::OnBuffer(*buffer, E::whole(edit, payload))
        }
    }
}

/// Applies such a call to the lists.
fn do_call<E: Moves>(
    lists: &mut Lists<E::Block>,
    call: &QueueCall<E::Request>,
    payload: &mut Payload,
) -> BareQueueAnswer<E::Response>
    requires { CanDo call.now lists.old }
    ensures { IsDone E.protocol (abstract_queue_call E.abstract_call call.now payload.old) lists.old
        lists.new
        (abstract_queue_answer E.abstract_answer result payload.new) }
{
    match call {
        QueueCall::Push(queue, t) => {
            lists.pending[usize::from(queue.0)].push(*t);
            BareQueueAnswer::Done
        }
        QueueCall::TakeAll(queue) => {
            payload.taken = lists.pending[usize::from(queue.0)].take();
            BareQueueAnswer::Taken
        }
        QueueCall::OnBuffer(buffer, edit) => {
            let block = &mut lists.buffers[usize::from(buffer.0)];
            BareQueueAnswer::Answer(E::apply_request(edit, block, payload))
        }
    }
}

/// Returns an empty queue for each of so many CPUs.
fn empty_queues(alloc: Global, cpus: u8) -> Result<Vec<ThreadQueue>, NoMemory>
    ensures { IfOk result (λ queues. queues.items ≡ replicate cpus []) }
{
    let mut queues = Vec::with_capacity(alloc, usize::from(cpus))?;
    for _ in 0..cpus {
        queues.push(ThreadQueue::new()).unwrap();
    }
    Ok(queues)
}
