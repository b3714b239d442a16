//! Callers: native threads that send to buffers and receive from them, each on its own CPU. No
//! call takes memory. `send`, `recv` and `close` wait for other CPUs.

ghost use Rattle.std.specs.Prelude.{◌≡◌, ◌<◌, ◌≤◌, false, [], MatchOption, if◌then◌else◌, is_ok, length};
ghost use Rattle.{layer_traits.specs.{Blocks.Capacities.caps_in, Layers.BufferLaw.buffer_of}, event_log.specs.Messages.no_message};
ghost use Rattle.cpu_workers.specs.Callers.{HasCalled, HasMadeCall};
ghost use Rattle.event_log.specs.declared.entries.Kind.TheVariants as kind;

use crate::workers::calling;
use crate::workers::handoff_backoff::HandoffBackoff;
use crate::workers::hints::Hints;
use event_log::{BufId, CpuId, Msg, Tid};
use layer_traits::{Call, CallLayer, IpcLaw, Reply};
use std::marker::Model;
use std::sync::Wait;
use thiserror::Error;

/// How many calls a caller makes at most, 2^59: as many as a million per second in eighteen
/// thousand years. The op and the pos of an entry count the calls of all callers, and are numbers
/// of 64 bits.
pub const MOST_CALLS: u64 = 0x0800_0000_0000_0000;

/// Why a message was not sent: its buffer is closed.
#[derive(Clone, Copy, Debug, PartialEq, Eq, Error)]
#[error("Closed(16)")]
pub struct Closed;

/// One native thread that sends to buffers and receives from them, on its own CPU. It has that
/// CPU's part of the layer of message calls, and its own side of the machine. A contract sees it
/// as plain data: which CPU and thread it is, the buffers' capacities, which machine, and its
/// calls' entries, oldest first.
#[derive(Drop)]
pub struct Caller<I: CallLayer<IpcLaw> + Drop>
where
    I::Machine: Drop + Hints,
{
    part: I,
    machine: I::Machine,
    cpu: CpuId,
    thread: Tid,
    made: u64,
    handoff_backoff: HandoffBackoff,
}

impl<I: CallLayer<IpcLaw> + Drop> Model for Caller<I>
where
    I::Machine: Drop + Hints,
{
    ghost use Rattle.std.specs.Prelude.{◌≡◌, ◌<◌, None, reverse};
    ghost use Rattle.layer_traits.specs.{declared.call_states.Stage.TheVariants.Idle, Blocks.{BufferEffects.opening_locks, Capacities.caps_in}};
    ghost use Rattle.{layer_traits.specs.{Blocks.QueueBlocks.inner, Layers.BufferLaw.call_state_of}, cpu.specs.Cpus.of_cpu};
    ghost use Rattle.cpu_workers.specs.Callers.{CallerView, IsCaller};

    ghost Value = { CallerView };

    ghost view = { λ c. record {
      cpu = c.cpu;
      thread = c.thread;
      caps = caps_in (I.opening c.machine);
      machine_id = I.machine_id c.machine;
      calls = reverse (of_cpu c.cpu (I.history c.machine));
    } };

    ghost invariant = { λ c. IsCaller (I.Coupled c.part c.machine × (I.cpu_of c.part ≡ c.cpu)) ((m : I.Machine) → 0 < I.room m) (I.under_way c.part ≡ None)
        ((call_state_of (I.local c.part).call_states c.thread).stage ≡ Idle) (inner (I.opening c.machine) ≡ opening_locks (caps_in (I.opening c.machine)))
        c.cpu (I.history c.machine) c.made };
}

impl<I: CallLayer<IpcLaw> + Drop> Caller<I>
where
    I::Machine: Drop + Hints,
{
    ghost use Rattle.{event_log.specs.{declared.ids.TheConstants.THREADS, Actions.phase}, layer_traits.specs.Blocks.BufferEffects.opening_locks};
    ghost use Rattle.layer_traits.specs.{Blocks.QueueBlocks.inner, Polling.Plans.is_in_section};
    ghost use Rattle.cpu_workers.specs.{declared.workers.callers.TheConstants.MOST_CALLS, Orders.IsTraceOf};

    /// Makes the caller of a thread of this CPU before its first call. Nothing was done in the
    /// caller's own side of the machine, which has threads of these homes and so many buffers.
    ///
    /// Requires: the machine is fresh for the CPU, and has room at any time.
    pub fn new(
        machine: I::Machine,
        cpu: CpuId,
        thread: Tid,
        homes: &[CpuId],
        buffers: u8,
    ) -> Caller<I>
        requires threads { length homes.now ≤ THREADS }
        requires fresh { I.IsFresh machine homes.now cpu }
        requires buffers { length (caps_in (I.opening machine)) ≡ buffers }
        requires history { I.history machine ≡ [] }
        requires room { (m : I.Machine) → 0 < I.room m }
        requires opens { inner (I.opening machine) ≡ opening_locks (caps_in (I.opening machine)) }
        ensures cpu { result.cpu ≡ cpu }
        ensures thread { result.thread ≡ thread }
        ensures caps { result.caps ≡ caps_in (I.opening machine) }
        ensures machine_id { result.machine_id ≡ I.machine_id machine }
        ensures calls { result.calls ≡ [] }
    {
        Caller {
            part: I::part(cpu, homes, buffers),
            machine,
            cpu,
            thread,
            made: 0,
            handoff_backoff: HandoffBackoff::new(),
        }
    }

    // Makes one call. If no more calls may be made, it waits forever.
    fn make<R: Wait>(&mut self, rt: &R, call: &Call) -> Reply
        requires { (buffer_of call.now).0 < length self.old.caps }
        ensures { HasCalled self.old self.new call.now result }
    {
        if self.made < MOST_CALLS {
            let reply = calling::call(
                rt,
                &mut self.part,
                &mut self.machine,
                self.thread,
                call,
                &mut self.handoff_backoff,
            );
            self.made += 1;
            return reply;
        }
        for _ in rt.forever() {}
        unreachable!()
    }

    /// Sends a message, once the buffer has room and the thread is first in its queue. It is one
    /// call: one more entry, of kind `Send`, or `SendClosed` at `Err`, when nothing was put.
    ///
    /// It waits for other CPUs, so it need not return.
    ///
    /// Requires: there is such a buffer. Errors: `Closed` if the buffer is closed by then.
    pub fn send<R: Wait>(&mut self, rt: &R, to: BufId, message: &Msg) -> Result<(), Closed>
        requires { to.0 < length self.old.caps }
        ensures { HasMadeCall self.old self.new
            (if is_ok result then kind.Send else kind.SendClosed) to message.now }
    {
        match self.make(rt, &Call::Send(to, *message)) {
            Reply::Closed => Err(Closed),
            _ => Ok(()),
        }
    }

    /// Receives the first message of the buffer, once there is one and the thread is first in its
    /// queue. It returns `None` if the buffer is closed and empty by then. It is one call: one more
    /// entry, of kind `Recv`, or `RecvClosed` at `None`.
    ///
    /// It waits for other CPUs, so it need not return.
    ///
    /// Requires: there is such a buffer.
    pub fn recv<R: Wait>(&mut self, rt: &R, from: BufId) -> Option<Msg>
        requires { from.0 < length self.old.caps }
        ensures { MatchOption result (HasMadeCall self.old self.new kind.RecvClosed from no_message)
            (λ message. HasMadeCall self.old self.new kind.Recv from message) }
    {
        match self.make(rt, &Call::Recv(from)) {
            Reply::Got(message) => Some(message),
            _ => None,
        }
    }

    /// Closes the buffer, which may be closed already. It is one call: one more entry, of kind
    /// `Close`.
    ///
    /// It waits for other CPUs, so it need not return.
    ///
    /// Requires: there is such a buffer.
    pub fn close<R: Wait>(&mut self, rt: &R, buffer: BufId)
        requires { buffer.0 < length self.old.caps }
        ensures { HasMadeCall self.old self.new kind.Close buffer no_message }
    {
        let _ = self.make(rt, &Call::Close(buffer));
    }

    /// Returns the machine of a caller that makes no more calls. If one poll is one action, the
    /// caller's calls are, once each and in order, its CPU's effects in the machine's actions. No
    /// section of the CPU is then under way.
    pub fn into_machine(self) -> I::Machine
        ensures owns { I.ActsFor result self.cpu }
        ensures machine_id { I.machine_id result ≡ self.machine_id }
        ensures few { length self.calls ≤ MOST_CALLS }
        ensures trace { I.IsStepwise → IsTraceOf self.cpu self.caps (I.acts result) self.calls }
        ensures rests { I.IsStepwise → is_in_section (phase self.cpu (I.acts result)) ≡ false }
    {
        let Caller { machine, .. } = self;
        machine
    }
}
