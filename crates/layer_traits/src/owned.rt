//! A layer of message calls that opens a machine and reports its blocks and threads.
//!
//! Only `open` allocates memory, and no call waits.

ghost use Rattle.std.specs.Prelude.{◌≡◌, ◌⊎◌, ◌<◌, Bool, true, [], List, Option, Some, None, IfOk, length, option_map, slice_index};
ghost use Rattle.layer_traits.specs.{Views.OwnParts.threads_in, Blocks.{Capacities.caps_in, QueueBlocks.homes_in}};

use crate::call_layers::CallLayer;
use crate::calls::Place;
use crate::ipc_layers::IpcLaw;
use arrayvec::ArrayVec;
use event_log::{BufId, CAPACITY, CpuId, Msg, NoMemory, Tid};
use std::alloc::Global;

/// The top of a tower whose machine is opened with its blocks and reports those that it has. Its
/// parts report the blocks that their CPU holds, and the places of threads.
pub trait Owned: CallLayer<IpcLaw> {
    ghost use Rattle.{std.specs.List.AllByRecursion, event_log.specs.{declared.ids.{BufId.BufId, CpuId.CpuId, Tid.Tid, TheConstants.CPUS}, Actions.phase}};
    ghost use Rattle.{event_log.specs.{Buffers.items_of, Messages.Message, Runs.is_closed}, layer_traits.specs.declared.calls.Place.Place};
    ghost use Rattle.layer_traits.specs.Views.{Acted.{ItemsAre, owner_after}, Openings.{AreOpenable, Opened}, Observed.{IsOwnPlace, IsObservedAs, ReadsPlace}};
    ghost use Rattle.layer_traits.specs.{Views.Observed.queue_place, Blocks.BufferEffects.contents_of, Threads.Places.{home_of, where_is}};
    ghost use Rattle.layer_traits.specs.Polling.Plans.{is_in_section};

    /// The owner of the lock of a buffer, as its last section left it.
    ghost owner: { Self.Machine → BufId → Option Tid };

    /// The items of a buffer, front first, if its block is in the machine.
    ghost items_in: { Self.Machine → BufId → Option (List Message) };

    /// The items of a buffer, front first, if the part's CPU holds its block.
    ghost items_here: { Self → BufId → Option (List Message) };

    /// Whether a buffer is closed, if its block is in the machine.
    ghost closed_in: { Self.Machine → BufId → Option Bool };

    /// Whether a buffer is closed, if the part's CPU holds its block.
    ghost closed_here: { Self → BufId → Option Bool };

    /// The owner of the lock of a buffer, if its block is in the machine.
    ghost owner_in: { Self.Machine → BufId → Option (Option Tid) };

    /// The owner of the lock of a buffer, if the part's CPU holds its block.
    ghost owner_here: { Self → BufId → Option (Option Tid) };

    /// The part can report nothing of the place of a thread.
    ghost IsSilent: { Self → Self.Machine → Tid → Type 0 };

    /// Opens a machine of so many CPUs, with a buffer of each of these capacities and a thread of
    /// each of these homes. It has room for `room` polls. All memory is allocated here.
    ///
    /// Requires: there are at least one CPU and at most `CPUS`, at most `BUFFERS` buffers and at
    /// most `THREADS` threads. Each capacity is one that a buffer may have, and each home is one of
    /// the CPUs.
    ///
    /// Errors: `NoMemory` if an allocation failed; then nothing was made.
    fn open(
        alloc: Global,
        cpus: u8,
        caps: &[u8],
        homes: &[CpuId],
        room: usize,
    ) -> Result<Self::Machine, NoMemory>
        requires { AreOpenable cpus caps.now homes.now }
        ensures opened { IfOk result (λ m.
            Opened (caps_in (Self.opening m)) (homes_in (Self.opening m)) (Self.history m)
            (Self.moves m) (Self.room m) caps.now homes.now room) }
        ensures fresh { IfOk result (λ m. (c : CpuId) → c.0 < cpus → Self.IsFresh m homes.now c) }
        ensures acts { IfOk result (λ m. (c : CpuId) → c.0 < CPUS → Self.ActsFor m c) }
        ensures none { IfOk result (λ m. Self.acts m ≡ []) }
        ensures holders { IfOk result (λ m. (c : CpuId) → Self.MayHold m c → ⊥) };

    /// Returns the items of the buffer `b`, front first; `None` if a CPU holds its block.
    ///
    /// Requires: the machine's holder acts for some CPU, and the buffer exists.
    fn buffer_in(m: &Self::Machine, b: BufId) -> Option<ArrayVec<Msg, CAPACITY>>
        requires acts { (c : CpuId) × Self.ActsFor m.now c }
        requires buffer { b.0 < length (caps_in (Self.opening m.now)) }
        ensures { option_map (λ items. items.items) result ≡ items_in m.now b };

    /// Returns the same of a block that this CPU holds; `None` if it does not hold the block.
    fn buffer_here(&self, b: BufId) -> Option<ArrayVec<Msg, CAPACITY>>
        ensures { option_map (λ items. items.items) result ≡ items_here self.now b };

    /// Returns whether the buffer `b` is closed; `None` if a CPU holds its block.
    ///
    /// Requires: the machine's holder acts for some CPU, and the buffer exists.
    fn closed_at_home(m: &Self::Machine, b: BufId) -> Option<bool>
        requires acts { (c : CpuId) × Self.ActsFor m.now c }
        requires buffer { b.0 < length (caps_in (Self.opening m.now)) }
        ensures { result ≡ closed_in m.now b };

    /// Returns the same of a block that this CPU holds; `None` if it does not hold the block.
    fn closed_in_hands(&self, b: BufId) -> Option<bool>
        ensures { result ≡ closed_here self.now b };

    /// Returns the owner of the lock of the buffer `b`; `None` if a CPU holds its block.
    ///
    /// Requires: the machine's holder acts for some CPU, and the buffer exists.
    fn busy_in(m: &Self::Machine, b: BufId) -> Option<Option<Tid>>
        requires acts { (c : CpuId) × Self.ActsFor m.now c }
        requires buffer { b.0 < length (caps_in (Self.opening m.now)) }
        ensures { result ≡ owner_in m.now b };

    /// Returns the same of a block that this CPU holds; `None` if it does not hold the block.
    fn busy_here(&self, b: BufId) -> Option<Option<Tid>>
        ensures { result ≡ owner_here self.now b };

    /// Returns the place of `t`, as far as this CPU can report it. It can if `t` is among its own
    /// threads, or in a queue that is in the machine or that this CPU holds. `None` otherwise.
    ///
    /// Requires: part and machine agree, and `t` is a thread of the machine.
    fn place_at(&self, m: &Self::Machine, t: Tid) -> Option<Place>
        requires coupled { Self.Coupled self.now m.now }
        requires thread { t.0 < length (homes_in (Self.opening m.now)) }
        ensures observed { (x : Place) → result ≡ Some x
            → IsOwnPlace (Self.cpu_of self.now) (threads_in (Self.local self.now)) t x
            ⊎ (queue_place (where_is (homes_in (Self.opening m.now)) (Self.moves m.now) t)
            ≡ Some x) }
        ensures silent { result ≡ None → IsSilent self.now m.now t };

    /// Law: each effect in the history is of a CPU that a machine may have.
    ghost known: { (m : Self.Machine) (c : CpuId) → Self.ActsFor m c → AllByRecursion (λ e. e.cpu.0 < CPUS) (Self.history m) };

    /// Law: the items of a buffer that the machine or a part reports are those that the effects
    /// leave in it.
    ghost items: { (m : Self.Machine) (c : CpuId) (b : BufId) → Self.ActsFor m c → b.0 < length (caps_in (Self.opening m))
        → IsObservedAs (λ (p : Self). Self.Coupled p m) (λ p. Self.cpu_of p) (Self.MayHold m)
        (λ p. items_here p b) (items_in m b)
        (items_of (contents_of (caps_in (Self.opening m)) (Self.history m)) b.0) };

    /// Law: a buffer is closed, as the machine or a part reports it, exactly if the effects say so.
    ghost closed: { (m : Self.Machine) (c : CpuId) (b : BufId) → Self.ActsFor m c → b.0 < length (caps_in (Self.opening m))
        → IsObservedAs (λ (p : Self). Self.Coupled p m) (λ p. Self.cpu_of p) (Self.MayHold m)
        (λ p. closed_here p b) (closed_in m b)
        (is_closed (Self.history m) b.0) };

    /// Law: the owner of a buffer's lock that the machine or a part reports is the one that its
    /// last section left.
    ghost owners: { (m : Self.Machine) (c : CpuId) (b : BufId) → Self.ActsFor m c → b.0 < length (caps_in (Self.opening m))
        → IsObservedAs (λ (p : Self). Self.Coupled p m) (λ p. Self.cpu_of p) (Self.MayHold m)
        (λ p. owner_here p b) (owner_in m b)
        (owner m b) };

    /// Law: if a poll is one action, the owner of a buffer's lock is the one that the sections of
    /// the actions leave.
    ghost owner_is: { Self.IsStepwise → (m : Self.Machine) (c : CpuId) (b : BufId) → Self.ActsFor m c
        → owner m b ≡ owner_after (Self.opening m) (Self.acts m) b };

    /// Law: if a poll is one action, the sections of the actions determine a buffer's items, its
    /// capacity, and whether it is closed.
    ghost items_are: { Self.IsStepwise → (m : Self.Machine) (c : CpuId) (b : BufId) → Self.ActsFor m c → b.0 < length (caps_in (Self.opening m))
        → ItemsAre (Self.opening m) (Self.acts m) b (items_of (contents_of (caps_in (Self.opening m)) (Self.history m)) b.0)
        (slice_index (caps_in (Self.opening m)) b.0) (is_closed (Self.history m) b.0) };

    /// Law: some CPU can report the place of each thread. That CPU is the thread's home, has the
    /// thread in its hand, or may hold a lock.
    ghost place: { (p : Self) (m : Self.Machine) (t : Tid) → Self.Coupled p m → t.0 < length (homes_in (Self.opening m))
        → ReadsPlace (λ (q : Self). Self.Coupled q m) (λ q. Self.cpu_of q) (Self.MayHold m) (λ q. IsSilent q m t)
        (home_of (homes_in (Self.opening m)) t) (where_is (homes_in (Self.opening m)) (Self.moves m) t) };

    /// Law: if a poll is one action, a CPU that may hold a lock waits at a lock or holds one.
    ghost holding: { Self.IsStepwise → (m : Self.Machine) (c : CpuId) → Self.MayHold m c → is_in_section (phase c (Self.acts m)) ≡ true };
}
