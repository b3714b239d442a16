//! Message calls over buffers: one CPU's part of the top layer.

ghost use Rattle.std.specs.Prelude.{◌≡◌, ◌<◌, None, Some, IsSome, length, option_and_then, option_map, refl};
ghost use Rattle.layer_traits.specs.{Blocks.{Capacities.caps_in, QueueBlocks.homes_in}, declared.calls.Place.Place, Threads.Places.{home_of, is_thread}};
ghost use Rattle.{layer_traits.specs.Views.{Observed.IsOwnPlace, OwnParts.threads_in}, event_log.specs.declared.ids.{CpuId.CpuId, LockId.TheVariants.Pending}};
ghost use Rattle.{event_log.specs.declared.ids.{Tid.Tid, TheConstants.THREADS}, ipc_calls.specs.Parts.{IsAway, asleep_at, waits_read, pends_read, said}};
ghost use Rattle.layer_traits.specs.Views.Owned.{lists_shown, shows, wait_list_among};

use crate::opening::OpensBuffers;
use arrayvec::ArrayVec;
use event_log::{BufId, CAPACITY, CpuId, Msg, NoMemory, THREADS, Tid};
use layer_traits::{
    BufferLaw, BufferView, Call, CallLayer, Effect, IpcLaw, OwnThreads, Owned, OwnedBuffers, Pass,
    Place, PollRun, ReplyKind, WaitList, kept_homes,
};
use std::alloc::Global;

/// Returns whether it is this thread.
fn is_it(t: Tid, other: Option<Tid>) -> bool
    ensures { result ≡ is_thread t other }
{
    match other {
        None => false,
        Some(other) => other.0 == t.0,
    }
}

/// Returns whether a report says yes.
fn says(observed: Option<bool>) -> bool
    ensures { result ≡ said observed }
{
    match observed {
        None => false,
        Some(observed) => observed,
    }
}

/// Returns the place of a thread that sleeps in this wait list of a buffer.
fn waiters_of(buffer: BufId, wait_list: WaitList) -> Place
    ensures { result ≡ asleep_at buffer wait_list }
{
    match wait_list {
        WaitList::Sleepers => Place::LockSleeper(buffer),
        WaitList::Receivers => Place::WaitRecv(buffer),
        WaitList::Senders => Place::WaitSend(buffer),
    }
}

/// Returns the waiting list of a buffer that has `t`; `None` if none has it, or nothing is
/// reported of the buffer.
fn wait_list_of(view: Option<BufferView<'_>>, t: Tid) -> Option<WaitList>
    ensures { result ≡ option_and_then (wait_list_among t) (option_map lists_shown view.entry) }
{
    view?.wait_list(t)
}

/// One CPU's part of the layer of message calls, over a part `B` of buffers. It keeps the number of
/// buffers, to reject a number that is no buffer's. It keeps the home CPU of each thread, whose
/// pending queue is the only one that can contain the thread.
#[derive(Drop)]
pub struct Ipc<B> {
    lower: B,
    cpu: CpuId,
    homes: ArrayVec<CpuId, THREADS>,
    buffers: u8,
}

impl<B: CallLayer<BufferLaw>> CallLayer<IpcLaw> for Ipc<B> {
    ghost use Rattle.ipc_calls.specs.Parts.{KeepsPlan};

    type Machine = B::Machine;

    ghost history = { λ m. B.history m };

    ghost moves = { λ m. B.moves m };

    ghost wait_lists = { λ m. B.wait_lists m };

    ghost ActsFor = { λ m c. B.ActsFor m c };

    ghost room = { λ m. B.room m };

    ghost machine_id = { λ m. B.machine_id m };

    ghost IsFresh = { λ m homes c. B.IsFresh m homes c × (homes_in (B.opening m) ≡ homes) };

    ghost MayHold = { λ m c. B.MayHold m c };

    ghost cpu_of = { λ p. B.cpu_of p.lower };

    ghost is_inside = { λ p. B.is_inside p.lower };

    ghost under_way = { λ p. B.under_way p.lower };

    ghost Coupled = { λ p m. B.Coupled p.lower m
        × KeepsPlan (homes_in (B.opening m)) (length (caps_in (B.opening m))) (B.cpu_of p.lower) p.cpu p.homes.items p.buffers };

    ghost IsWhole = { B.IsWhole };

    ghost IsStepwise = { B.IsStepwise };

    ghost opening = { λ m. B.opening m };

    ghost acts = { λ m. B.acts m };

    ghost local = { λ p. B.local p.lower };

    fn part(cpu: CpuId, homes: &[CpuId], buffers: u8) -> Self {
        Ipc {
            lower: B::part(cpu, homes, buffers),
            cpu,
            homes: kept_homes(homes),
            buffers,
        }
    }

    #[inline(always)]
    fn is_busy(&self) -> bool {
        self.lower.is_busy()
    }

    #[inline(always)]
    fn own_threads(&self) -> &OwnThreads {
        self.lower.own_threads()
    }

    #[inline(always)]
    fn effect(&self, t: Tid) -> Option<Effect> {
        self.lower.effect(t)
    }

    #[inline(always)]
    fn effect_here(&self, t: Tid) -> &Option<Effect> {
        self.lower.effect_here(t)
    }

    #[inline(always)]
    fn look(&mut self, m: &mut B::Machine) -> bool {
        self.lower.look(m)
    }

    #[inline(always)]
    fn looks(&mut self, m: &mut B::Machine, taken: &mut usize, most: usize) -> bool {
        self.lower.looks(m, taken, most)
    }

    #[inline(always)]
    fn spin(&self, m: &mut B::Machine, steps: &[CpuId]) -> usize {
        self.lower.spin(m, steps)
    }

    fn poll_kind(&mut self, m: &mut B::Machine, t: Tid, call: &Call) -> Option<ReplyKind> {
        let buffer = call.buffer();
        if buffer.0 >= self.buffers {
            return Some(ReplyKind::NoBuffer);
        }
        self.lower.poll_kind(m, t, call)
    }

    #[inline(always)]
    fn poll_on(&mut self, m: &mut B::Machine, t: Tid, call: &Call, most: usize) -> PollRun {
        if call.buffer().0 >= self.buffers {
            return PollRun {
                actions: 1,
                reply: Some(ReplyKind::NoBuffer),
            };
        }
        self.lower.poll_on(m, t, call, most)
    }

    #[inline(always)]
    fn pass(&mut self, m: &mut B::Machine, call: Pass) -> Option<()> {
        self.lower.pass(m, call)
    }

    ghost own_cpu = { λ p m coupled. B.own_cpu p.lower m coupled.0 };

    ghost lawful = { B.lawful };

    ghost stands = { λ p m coupled. B.stands p.lower m coupled.0 };

    ghost moves_legal = { B.moves_legal };

    ghost lists = { λ p m coupled. B.lists p.lower m coupled.0 };

    ghost idle = { λ p m coupled. B.idle p.lower m coupled.0 };

    ghost starts = { B.starts };

    ghost legal = { B.legal };

    ghost seen_is = { B.seen_is };

    ghost moves_are = { B.moves_are };

    ghost busy = { λ p m coupled. B.busy p.lower m coupled.0 };

    ghost opens = { λ step m homes c fresh. B.opens step m homes c fresh.0 };
}

impl<B: OwnedBuffers> Ipc<B> {
    ghost use Rattle.event_log.specs.declared.ids.BufId.{BufId};

    /// Returns the place of `t` in this CPU's scheduling state; `None` if it is not there.
    fn own_place(&self, t: Tid) -> Option<Place>
        requires { B.cpu_of self.now.lower ≡ self.now.cpu }
        ensures observed { (x : Place) → result ≡ Some x
            → IsOwnPlace (B.cpu_of self.now.lower) (threads_in (B.local self.now.lower)) t x }
        ensures away { result ≡ None → IsAway t (threads_in (B.local self.now.lower)) }
    {
        let local = self.lower.own_threads();
        if is_it(t, local.current()) {
            return Some(Place::Running(self.cpu));
        }
        if is_it(t, local.hand()) {
            return Some(Place::Hand(self.cpu));
        }
        if local.is_ready(t) {
            return Some(Place::Ready(self.cpu));
        }
        if local.has_ended(t) {
            return Some(Place::Ended);
        }
        None
    }

    /// Returns the home CPU of `t`, which must exist.
    fn home(&self, t: Tid) -> CpuId
        requires { t.0 < length self.now.homes.items }
        ensures { home_of self.now.homes.items t ≡ Some result }
    {
        self.homes[usize::from(t.0)]
    }

    /// Returns whether the machine or the part reports that `t` is in the pending queue of `d`.
    fn pends(&self, m: &B::Machine, d: CpuId, t: Tid) -> bool
        requires acts { (c : CpuId) × B.ActsFor m.now c }
        requires queue { IsSome (B.opening m.now (Pending d)) }
        ensures { result ≡ pends_read t (B.queue_at m.now d) (B.queue_with self.now.lower d) }
    {
        says(B::pends_in(m, d, t)) || says(self.lower.pends_here(d, t))
    }

    /// Returns the wait list of a buffer that contains `t`, as the machine or the part reports it.
    fn wait_list(&self, m: &B::Machine, buffer: BufId, t: Tid) -> Option<WaitList>
        requires acts { (c : CpuId) × B.ActsFor m.now c }
        requires buffer { buffer.0 < length (caps_in (B.opening m.now)) }
        ensures { result ≡ waits_read t (B.buffer_at m.now buffer)
            (B.buffer_with self.now.lower buffer) }
    {
        match wait_list_of(B::buffer_in(m, buffer), t) {
            Some(wait_list) => Some(wait_list),
            None => wait_list_of(self.lower.buffer_here(buffer), t),
        }
    }

    /// Returns the first buffer, and its wait list, that the machine or the part reports to contain
    /// `t`.
    fn asleep(&self, m: &B::Machine, t: Tid) -> Option<(BufId, WaitList)>
        requires acts { (c : CpuId) × B.ActsFor m.now c }
        requires count { length (caps_in (B.opening m.now)) ≡ self.now.buffers }
        ensures within { (x : _) → result ≡ Some x → x.0.0 < length (caps_in (B.opening m.now)) }
        ensures found { (x : _) → result ≡ Some x
            → waits_read t (B.buffer_at m.now x.0) (B.buffer_with self.now.lower x.0)
            ≡ Some x.1 }
        ensures none { result ≡ None → (b : BufId) → b.0 < length (caps_in (B.opening m.now))
            → waits_read t (B.buffer_at m.now b) (B.buffer_with self.now.lower b)
            ≡ None }
    {
        for number in 0..self.buffers {
            let buffer = BufId(number);
            if let Some(wait_list) = self.wait_list(m, buffer, t) {
                return Some((buffer, wait_list));
            }
        }
        None
    }
}

impl<B: OpensBuffers> Owned for Ipc<B> {
    ghost use Rattle.{std.proofs.Common.{subst, sym}, event_log.specs.{Buffers.items_of, Runs.is_closed}, layer_traits.proofs.OwnedLemmas.{lists_as, parts_on}};
    ghost use Rattle.layer_traits.{proofs.OwnedLemmas.{read_under, seen_on}, specs.{Blocks.BufferEffects.contents_of, Threads.Places.pending_by}};
    ghost use Rattle.ipc_calls.specs.{Laws.PlaceLaws.{home_there, place_reads}, Parts.IsSilentOf};

    ghost owner = { λ m b. B.owner m b };

    ghost items_in = { λ m b. option_map (λ s. s.items) (B.buffer_at m b) };

    ghost items_here = { λ p b. option_map (λ s. s.items) (B.buffer_with p.lower b) };

    ghost closed_in = { λ m b. option_map (λ s. s.closed) (B.buffer_at m b) };

    ghost closed_here = { λ p b. option_map (λ s. s.closed) (B.buffer_with p.lower b) };

    ghost owner_in = { λ m b. option_map (λ s. s.owner) (B.buffer_at m b) };

    ghost owner_here = { λ p b. option_map (λ s. s.owner) (B.buffer_with p.lower b) };

    ghost IsSilent = { λ p m t. IsSilentOf t (threads_in (B.local p.lower)) (home_of (homes_in (B.opening m)) t) (length (caps_in (B.opening m)))
        (B.queue_at m) (B.queue_with p.lower) (λ b. option_map lists_shown (B.buffer_at m b)) (λ b. option_map lists_shown (B.buffer_with p.lower b)) };

    fn open(
        alloc: Global,
        cpus: u8,
        caps: &[u8],
        homes: &[CpuId],
        room: usize,
    ) -> Result<B::Machine, NoMemory> {
        B::open(alloc, cpus, caps, homes, room)
    }

    fn buffer_in(m: &B::Machine, b: BufId) -> Option<ArrayVec<Msg, CAPACITY>> {
        Some(B::buffer_in(m, b)?.items.items())
    }

    fn buffer_here(&self, b: BufId) -> Option<ArrayVec<Msg, CAPACITY>> {
        Some(self.lower.buffer_here(b)?.items.items())
    }

    fn closed_at_home(m: &B::Machine, b: BufId) -> Option<bool> {
        Some(B::buffer_in(m, b)?.closed)
    }

    fn closed_in_hands(&self, b: BufId) -> Option<bool> {
        Some(self.lower.buffer_here(b)?.closed)
    }

    fn busy_in(m: &B::Machine, b: BufId) -> Option<Option<Tid>> {
        Some(B::buffer_in(m, b)?.owner)
    }

    fn busy_here(&self, b: BufId) -> Option<Option<Tid>> {
        Some(self.lower.buffer_here(b)?.owner)
    }

    fn place_at(&self, m: &B::Machine, t: Tid) -> Option<Place> {
        if let Some(place) = self.own_place(t) {
            return Some(place);
        }
        let home = self.home(t);
        if self.pends(m, home, t) {
            return Some(Place::Pending(home));
        }
        let (buffer, wait_list) = self.asleep(m, t)?;
        Some(waiters_of(buffer, wait_list))
    }

    ghost known = { B.known };

    ghost items = { λ m c b acts within. seen_on
        (parts_on (λ (p : Self). p.lower) (λ p. B.Coupled p m) (λ (p : Self). Self.Coupled p m) (λ p. B.cpu_of p) (B.MayHold m) (λ p coupled. coupled.0))
        (λ s. s.items) (λ p. B.buffer_with p b) (B.buffer_at m b)
        (shows (items_of (contents_of (caps_in (B.opening m)) (B.history m)) b.0) (is_closed (B.history m) b.0) (B.owner m b) (B.wait_lists m b))
        (B.shown m c b acts within) };

    ghost closed = { λ m c b acts within. seen_on
        (parts_on (λ (p : Self). p.lower) (λ p. B.Coupled p m) (λ (p : Self). Self.Coupled p m) (λ p. B.cpu_of p) (B.MayHold m) (λ p coupled. coupled.0))
        (λ s. s.closed) (λ p. B.buffer_with p b) (B.buffer_at m b)
        (shows (items_of (contents_of (caps_in (B.opening m)) (B.history m)) b.0) (is_closed (B.history m) b.0) (B.owner m b) (B.wait_lists m b))
        (B.shown m c b acts within) };

    ghost owners = { λ m c b acts within. seen_on
        (parts_on (λ (p : Self). p.lower) (λ p. B.Coupled p m) (λ (p : Self). Self.Coupled p m) (λ p. B.cpu_of p) (B.MayHold m) (λ p coupled. coupled.0))
        (λ s. s.owner) (λ p. B.buffer_with p b) (B.buffer_at m b)
        (shows (items_of (contents_of (caps_in (B.opening m)) (B.history m)) b.0) (is_closed (B.history m) b.0) (B.owner m b) (B.wait_lists m b))
        (B.shown m c b acts within) };

    ghost owner_is = { B.owner_is };

    ghost items_are = { B.items_are };

    ghost place = { λ p m t coupled there.
        let home = home_there (homes_in (B.opening m)) t there in
        let acts = B.own_cpu p.lower m coupled.0 in
        let cpu = B.cpu_of p.lower in
        place_reads (record {
          Coupled = λ (q : Self). Self.Coupled q m;
          cpu_of = λ (q : Self). B.cpu_of q.lower;
          IsInside = B.MayHold m;
          homes = homes_in (B.opening m);
          moves = B.moves m;
          n = length (caps_in (B.opening m));
          wait_lists = B.wait_lists m;
          local = λ (q : Self). threads_in (B.local q.lower);
          queue_at = B.queue_at m;
          queue_with = λ (q : Self). B.queue_with q.lower;
          wait_lists_at = λ b. option_map lists_shown (B.buffer_at m b);
          wait_lists_with = λ (q : Self) b. option_map lists_shown (B.buffer_with q.lower b);
          lawful = B.moves_legal m cpu acts;
          agree = B.lists p.lower m coupled.0;
          stands = λ q fit. B.stands q.lower m fit.0;
          queues = λ u d at. read_under (λ (q : Self). q.lower) (λ q. B.Coupled q m) (λ (q : Self). Self.Coupled q m) (λ q. B.cpu_of q)
              (λ (q : Self). B.cpu_of q.lower) (B.MayHold m)
              (B.MayHold m) (λ q. B.queue_with q d) (B.queue_at m d)
              (pending_by (B.moves m) d) (λ q fit. fit.0) (λ q fit. refl) (λ d inside. inside)
              (B.queues m cpu d acts ((B.starts m cpu acts).queues u d at));
          waiters_law = λ b within. lists_as (λ (q : Self). Self.Coupled q m) (λ (q : Self). B.cpu_of q.lower) (B.MayHold m)
              (λ (q : Self). B.buffer_with q.lower b) (B.buffer_at m b) (items_of (contents_of (caps_in (B.opening m)) (B.history m)) b.0)
              (is_closed (B.history m) b.0) (B.owner m b) (B.wait_lists m b)
              (read_under (λ (q : Self). q.lower) (λ q. B.Coupled q m) (λ (q : Self). Self.Coupled q m) (λ q. B.cpu_of q)
              (λ (q : Self). B.cpu_of q.lower) (B.MayHold m)
              (B.MayHold m) (λ q. B.buffer_with q b) (B.buffer_at m b)
              (shows (items_of (contents_of (caps_in (B.opening m)) (B.history m)) b.0) (is_closed (B.history m) b.0) (B.owner m b) (B.wait_lists m b))
              (λ q fit. fit.0) (λ q fit. refl) (λ d inside. inside) (B.shown m cpu b acts within));
        }) t home.0 home.1 };

    ghost holding = { B.holding };
}
