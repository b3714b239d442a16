//! Queuing locks in one step, over the lists that all CPUs share. No function allocates or blocks.

ghost use Rattle.std.specs.Prelude.{◌≡◌, ◌<◌, Some, None, is_some, slice_set};
ghost use Rattle.{event_log.specs.declared.ids.TheConstants.THREADS, layer_traits.specs.declared.payloads.MessageSlot.MessageSlot};
ghost use Rattle.layer_traits.specs.{Blocks.Payloads.abstract_lock_call, Layers.{QLocking.lock_caller, QLockLaw.slept_for, SleepLaw.due}};
ghost use Rattle.plain_layers.specs.{Wholes.IsCoarse, QLocks.{answered_after, handed_on, kept_after, noted_after, parcel_after}};

use crate::kernel::PlainKernel;
use crate::qlock_edits::PlainQLockCall;
use crate::scheds::PlainSched;
use event_log::{BufId, CpuId, THREADS, Tid};
use layer_traits::{
    BufferCall, Ghost, Layer, LockView, Locked, MessageSlot, Moves, Outcome, OwnThreads,
    OwnedThreadLayer, Pass, Payload, QLockCall, QLockLaw, QLockReply, SchedAnswer, SchedCall,
    SchedLaw, SplitEdit, ThreadLayer,
};

/// A call that is done and has not returned: which it was, its outcome, and the message slot that
/// the outcome brings.
#[derive(Drop)]
pub struct Unanswered<E, B> {
    buffer: BufId,
    edit: Ghost<E>,
    outcome: Outcome<B>,
    message_slot: MessageSlot,
}

/// One CPU's part of queuing locks as they are specified. A call is one edit of a lock that is
/// plain data, done in one step. A call whose caller continues after it woke a thread of another
/// CPU returns at the next poll. That poll forwards the thread to its home CPU.
#[derive(Drop)]
pub struct PlainQLock<F: Locked> {
    sched: PlainSched<PlainQLockCall<F, F::Release>>,
    // The buffer for whose lock each thread slept, until its call returns.
    slept: [Option<BufId>; THREADS],
    kept: Option<Unanswered<PlainQLockCall<F, F::Release>, QLockReply<F::Response>>>,
}

/// Returns the thread that calls.
fn caller<F: Locked>(call: &QLockCall<F::Request, F::Release>) -> Tid
    ensures { (message_slot : MessageSlot)
        → result ≡ lock_caller F.protocol
        (abstract_lock_call F.abstract_call call.now message_slot) }
{
    match call {
        QLockCall::Acquire(t) => *t,
        QLockCall::Inside(edit) => F::caller(edit),
        QLockCall::Release(last) => F::last_caller(*last),
    }
}

/// Returns whether `t` slept for a lock.
fn has_slept(slept: &[Option<BufId>; THREADS], t: Tid) -> bool
    ensures { result ≡ is_some (slept_for slept.now t) }
{
    let at = usize::from(t.0);
    if at < THREADS {
        slept[at].is_some()
    } else {
        false
    }
}

/// Returns the thread in the hand of a scheduler's part.
fn hand_of<E: Moves>(sched: &PlainSched<E>) -> Option<Tid>
    ensures { result ≡ sched.now.local.hand }
{
    sched.local_here().hand()
}

/// Records that the sleep of `t` is over.
fn wake_up(slept: &mut [Option<BufId>; THREADS], t: Tid)
    requires { t.0 < THREADS }
    ensures { slept.new ≡ slice_set slept.old t.0 None }
{
    slept[usize::from(t.0)] = None;
}

/// Returns the scheduler's next call: a thread in the hand is first forwarded to its home CPU.
fn due<H: Drop>(hand: Option<Tid>, buffer: BufId, call: H) -> SchedCall<H>
    ensures { result ≡ due hand buffer call }
{
    match hand {
        None => SchedCall::OnBuffer(buffer, call),
        Some(t) => SchedCall::Pass(Pass::MakeReady(t)),
    }
}

/// Takes the scheduler's result, after which the hand is this. Returns the outcome of the call if
/// it has one, with its message slot in the payload; otherwise the outcome is kept.
fn take_up<E, B: Drop>(
    kept: &mut Option<Unanswered<E, B>>,
    hand: Option<Tid>,
    buffer: BufId,
    edit: Ghost<E>,
    answer: SchedAnswer<Outcome<B>>,
    payload: &mut Payload,
) -> Option<Outcome<B>>
    ensures kept { kept.new ≡ kept_after hand buffer edit answer payload.old.message_slot }
    ensures answer { result ≡ answered_after kept.old hand answer }
    ensures message_slot { payload.new.message_slot
        ≡ parcel_after kept.old answer payload.old.message_slot }
{
    match answer {
        SchedAnswer::Done => {
            let k = kept.take()?;
            payload.message_slot = k.message_slot;
            Some(k.outcome)
        }
        SchedAnswer::Answer(outcome) => {
            if !outcome.slept && hand.is_some() {
                let message_slot = payload.message_slot;
                *kept = Some(Unanswered {
                    buffer,
                    edit,
                    outcome,
                    message_slot,
                });
                return None;
            }
            *kept = None;
            Some(outcome)
        }
    }
}

/// Returns an outcome to the layer above. A caller that is queued sleeps for the lock of `buffer`,
/// and its call returns once it owns the lock.
///
/// Requires: the thread is below `THREADS`.
fn hand_on<B: Drop>(
    slept: &mut [Option<BufId>; THREADS],
    t: Tid,
    buffer: BufId,
    outcome: Option<Outcome<QLockReply<B>>>,
) -> Option<Outcome<QLockReply<B>>>
    requires { t.0 < THREADS }
    ensures slept { slept.new ≡ noted_after t buffer slept.old outcome }
    ensures answer { result ≡ handed_on outcome }
{
    let outcome = outcome?;
    match outcome.out {
        QLockReply::Queued => {
            slept[usize::from(t.0)] = Some(buffer);
            None
        }
        out => Some(Outcome {
            out,
            slept: outcome.slept,
            woke: outcome.woke,
        }),
    }
}

impl<F: Locked> ThreadLayer<QLockLaw<F>> for PlainQLock<F> {
    ghost use Rattle.{std.proofs.Common.{[], false, refl}, layer_traits.specs.{Blocks.QueueBlocks.inner, Layers.Sleeping.NoSleepers}};
    ghost use Rattle.layer_traits.{specs.Views.Renaming.{renamed_events, viewed}, proofs.KernelRenaming.{known_renamed, starts_viewed}};
    ghost use Rattle.queuing_lock.specs.{Laws.NestedLaws.{locks_lawful, locks_lists, locks_moves_legal, locks_stand}, Nested.{busy_rules, lock_call}};
    ghost use Rattle.{queuing_lock.specs.{Nested.nested_lock_of, Parts.SleptFits}, sleep_wakeup.specs.Laws.NestedLaws.{nested_lawful, nested_lists}};
    ghost use Rattle.sleep_wakeup.specs.{Laws.NestedLaws.{nested_moves_legal, nested_stands}, Nested.{slept_edit, state_of, states}, Parts.own_of};
    ghost use Rattle.plain_layers.specs.{KernelParts.HasThreads, Kernels.{call_room, calls_in, no_site, opening_of}, QLocks.{HasLocks, KeptFits, calls_of}};
    ghost use Rattle.plain_layers.specs.QLocks.{abstract_kept, locks_of, plain_lock_moves, plain_lock_rules, under_kept};

    type Machine = PlainKernel<PlainQLockCall<F, F::Release>>;

    ghost opening = { λ m. locks_of (opening_of m.opening) };

    ghost history = { λ m. calls_of (calls_in m) };

    ghost ActsFor = { λ m c. HasLocks F.protocol m c };

    ghost room = { λ m. call_room m };

    ghost machine_id = { λ m. no_site };

    ghost IsOutside = { λ m c. Unit {0} };

    ghost MayHold = { λ m c. ⊥ };

    ghost cpu_of = { λ p. p.sched.cpu };

    ghost local = { λ p. record { sleep = own_of (abstract_kept F.abstract_answer p.kept) p.sched.local; slept = p.slept } };

    ghost under_way = { λ p. under_kept (abstract_kept F.abstract_answer p.kept) };

    ghost is_inside = { λ p. false };

    ghost Coupled = { λ p m. HasThreads (plain_lock_rules F.protocol) (plain_lock_moves F.protocol) m p.sched.cpu p.sched.homes.items p.sched.local
        × NoSleepers (states (inner (opening_of m.opening)))
        × SleptFits F.protocol (locks_of (opening_of m.opening)) p.sched.cpu (calls_of (calls_in m)) p.slept
        × KeptFits (abstract_kept F.abstract_answer p.kept) p.sched.local.hand };

    ghost IsStepwise = { ⊥ };

    ghost IsWhole = { Unit {0} };

    ghost acts = { λ m. [] };

    fn part(cpu: CpuId, homes: &[CpuId], buffers: u8) -> Self {
        PlainQLock {
            sched: PlainSched::part(cpu, homes, buffers),
            slept: [None; THREADS],
            kept: None,
        }
    }

    fn is_busy(&self) -> bool {
        false
    }

    fn own_threads(&self) -> &OwnThreads {
        self.sched.local_here()
    }

    fn at_once(&self) -> bool {
        match self.sched.local_here().current() {
            Some(t) => has_slept(&self.slept, t),
            None => false,
        }
    }

    fn look(&mut self, _m: &mut PlainKernel<PlainQLockCall<F, F::Release>>) -> bool {
        false
    }

    fn poll(
        &mut self,
        m: &mut PlainKernel<PlainQLockCall<F, F::Release>>,
        call: BufferCall<QLockCall<F::Request, F::Release>>,
        payload: &mut Payload,
    ) -> Option<Outcome<QLockReply<F::Response>>> {
        let BufferCall { buffer, edit } = call;
        let t = caller::<F>(&edit);
        if has_slept(&self.slept, t) {
            // The previous owner has handed the lock to this thread.
            wake_up(&mut self.slept, t);
            return Some(Outcome {
                out: QLockReply::Acquired,
                slept: false,
                woke: None,
            });
        }
        let whole = PlainQLockCall::<F, F::Release>::whole(&edit, payload);
        let abstract_call = Ghost::of(&whole);
        let waiting = hand_of(&self.sched);
        let step = due(waiting, buffer, edit);
        let answer = self.sched.poll(m, step, payload).unwrap();
        let hand = hand_of(&self.sched);
        let outcome = take_up(&mut self.kept, hand, buffer, abstract_call, answer, payload);
        hand_on(&mut self.slept, t, buffer, outcome)
    }

    fn pass(
        &mut self,
        m: &mut PlainKernel<PlainQLockCall<F, F::Release>>,
        call: Pass,
        payload: &mut Payload,
    ) -> Option<()> {
        self.sched.poll(m, SchedCall::Pass(call), payload).unwrap();
        Some(())
    }

    ghost own_cpu = { λ p m coupled. (coupled.0.0, coupled.0.1) };

    ghost stands = { λ p m coupled. record {
      stands = locks_stand F.protocol (viewed state_of (opening_of m.opening)) p.sched.cpu (renamed_events slept_edit (calls_in m)) p.sched.local
          (nested_stands (busy_rules F.protocol) (opening_of m.opening) p.sched.cpu (calls_in m) p.sched.local coupled.0.2.stands);
      lists = locks_lists F.protocol (viewed state_of (opening_of m.opening)) (renamed_events slept_edit (calls_in m))
          (nested_lists (busy_rules F.protocol) (opening_of m.opening) (calls_in m) coupled.0.1.lawful coupled.1);
      awaits = λ t b slept. (coupled.2 t b slept).awaits;
    } };

    ghost inside = { λ p. tt };

    ghost opens = { λ m c acts. starts_viewed nested_lock_of (viewed state_of (opening_of m.opening))
        (starts_viewed state_of (opening_of m.opening) acts.1.starts) };

    ghost lawful = { λ m c acts. locks_lawful F.protocol (viewed state_of (opening_of m.opening)) (renamed_events slept_edit (calls_in m))
        (nested_lawful (busy_rules F.protocol) (opening_of m.opening) (calls_in m) acts.1.lawful) };

    ghost moves_legal = { λ m c acts. locks_moves_legal F.protocol (viewed state_of (opening_of m.opening)) (renamed_events slept_edit (calls_in m))
        (nested_moves_legal (busy_rules F.protocol) (opening_of m.opening) (calls_in m) acts.1.lawful) };

    ghost known = { λ m c acts. known_renamed lock_call (renamed_events slept_edit (calls_in m)) (known_renamed slept_edit (calls_in m) acts.1.known) };

    ghost legal = { λ m c acts. tt };

    ghost seen_is = { λ step m. absurd step };

    ghost proper = { λ step m c acts. absurd step };

    ghost busy = { λ p m coupled step. absurd step };

    ghost idle = { λ p m coupled none. refl };
}

impl<F: Locked> OwnedThreadLayer<QLockLaw<F>> for PlainQLock<F> {
    ghost use Rattle.{std.specs.Prelude.{option_map, slice_get}, event_log.specs.declared.ids.LockId.TheVariants.{Buffer, Pending}};
    ghost use Rattle.layer_traits.{specs.Views.Renaming.{renamed_events, viewed}, proofs.{KernelRenaming.there_viewed, OwnedLemmas.parts_on}};
    ghost use Rattle.queuing_lock.specs.{Laws.OwnedLaws.{locks_queues, locks_shown}, Nested.{busy_rules, nested_lock_of}};
    ghost use Rattle.{sleep_wakeup.specs.{Laws.OwnedLaws.{nested_queues, nested_shown}, Nested.{slept_edit, state_of}}, plain_layers.specs.Kernels.calls_in};
    ghost use Rattle.plain_layers.specs.{Kernels.opening_of, Laws.ShownLaws.{block_shown, queue_shown}, QLocks.{plain_lock_moves, plain_lock_rules}};

    ghost block_at = { λ m b. option_map nested_lock_of (option_map state_of (slice_get m.lists.buffers.items b.0)) };

    ghost block_with = { λ p b. None };

    ghost queue_at = { λ m d. slice_get m.lists.pending.items d.0 };

    ghost queue_with = { λ p d. None };

    fn block_in(
        m: &PlainKernel<PlainQLockCall<F, F::Release>>,
        b: BufId,
    ) -> Option<LockView<'_, F::Block>> {
        Some(m.block(b)?.shown())
    }

    fn block_here(&self, _b: BufId) -> Option<LockView<'_, F::Block>> {
        None
    }

    fn pends_in(m: &PlainKernel<PlainQLockCall<F, F::Release>>, d: CpuId, t: Tid) -> Option<bool> {
        m.pends(d, t)
    }

    fn pends_here(&self, _d: CpuId, _t: Tid) -> Option<bool> {
        None
    }

    ghost shown = { λ m c b acts there. locks_shown F.protocol (viewed state_of (opening_of m.opening)) (renamed_events slept_edit (calls_in m))
        (parts_on (λ (p : Self). p) (λ p. Self.Coupled p m) (λ (p : Self). Self.Coupled p m) (λ p. p.sched.cpu) (Self.MayHold m) (λ p coupled. coupled))
        b (λ p. None) (option_map state_of (slice_get m.lists.buffers.items b.0))
        (nested_shown (busy_rules F.protocol) (opening_of m.opening) (calls_in m)
        (parts_on (λ (p : Self). p) (λ p. Self.Coupled p m) (λ (p : Self). Self.Coupled p m) (λ p. p.sched.cpu) (Self.MayHold m) (λ p coupled. coupled))
        b (λ p. None) (slice_get m.lists.buffers.items b.0)
        (block_shown (plain_lock_rules F.protocol) (plain_lock_moves F.protocol) m.opening (calls_in m) m.lists acts.1 (λ (p : Self). Self.Coupled p m)
        (λ p. p.sched.cpu) (Self.MayHold m) b (there_viewed state_of (opening_of m.opening) (Buffer b)
        (there_viewed nested_lock_of (viewed state_of (opening_of m.opening)) (Buffer b) there)))) };

    ghost queues = { λ m c d acts there. locks_queues F.protocol (viewed state_of (opening_of m.opening)) (renamed_events slept_edit (calls_in m))
        (parts_on (λ (p : Self). p) (λ p. Self.Coupled p m) (λ (p : Self). Self.Coupled p m) (λ p. p.sched.cpu) (Self.MayHold m) (λ p coupled. coupled))
        d (λ p. None) (slice_get m.lists.pending.items d.0)
        (nested_queues (busy_rules F.protocol) (opening_of m.opening) (calls_in m)
        (parts_on (λ (p : Self). p) (λ p. Self.Coupled p m) (λ (p : Self). Self.Coupled p m) (λ p. p.sched.cpu) (Self.MayHold m) (λ p coupled. coupled))
        d (λ p. None) (slice_get m.lists.pending.items d.0)
        (queue_shown (plain_lock_rules F.protocol) (plain_lock_moves F.protocol) m.opening (calls_in m) m.lists acts.1 (λ (p : Self). Self.Coupled p m)
        (λ p. p.sched.cpu) (Self.MayHold m) d (there_viewed state_of (opening_of m.opening) (Pending d)
        (there_viewed nested_lock_of (viewed state_of (opening_of m.opening)) (Pending d) there)))) };

    ghost holding = { λ step m c held. absurd held };
}

/// Law: each poll of one-step queuing locks is one call, and not one action.
pub fn lock_is_whole<F: Locked>()
    ensures { IsCoarse ⟦<PlainQLock<F> as ThreadLayer<QLockLaw<F>>>⟧.IsWhole
        ⟦<PlainQLock<F> as ThreadLayer<QLockLaw<F>>>⟧.IsStepwise }
{}
