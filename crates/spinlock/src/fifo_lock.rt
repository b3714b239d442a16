//! The FIFO queue at a lock, whatever the lock's words are.
//!
//! No call is given an allocator, and none waits.

ghost use Rattle.std.specs.Prelude.{◌≡◌, ℕ, ◌+◌, ◌%◌, ◌^◌, ◌<◌, ◌≤◌, Bool, List, Option, IsSome, MatchOption, length, option_map, ◌↔◌};

use event_log::{CpuId, LockId};
use layer_traits::{GrantWords, SplitEdit, Words};

/// The protocol of [`Words`]: a place in the queue is a ticket, which is served once `serving`
/// shows it.
pub struct UsesTickets;

/// The protocol of [`GrantWords`]: a place in the queue is a ticket, which is served once its own
/// grant word shows the ticket plus 1.
pub struct UsesGrants;

/// A machine with FIFO spin locks: a CPU takes a place in the queue of a lock, tries to enter, and
/// releases the lock. `LockProtocol` says how the machine's words represent this; no word is named
/// here. A ticket is the CPU's ticket index (how often the lock was requested before) modulo 2^64.
pub trait FifoLock<LockProtocol> {
    ghost use Rattle.event_log.specs.{declared.ids.{CpuId.CpuId, LockId.LockId}, Actions.{Action, Take, Try, Give, Rests, Waits, Holds, AreLegal}};
    ghost use Rattle.event_log.specs.{Actions.{cpu_of_action, phase, ticket_index_of}, History.{Adds, IsLawful}, Sections.{block_after, sections_in}};
    ghost use Rattle.layer_traits.specs.{Protocols.Protocol.{section, StaysAllowed}, Polling.Spins.{BeginWith, Misses}};

    /// The edits of the sections.
    type Edit: SplitEdit;

    /// What a Give leaves in the machine: it determines the section's edit.
    type Mark;

    /// The edit that a mark denotes.
    ghost edit_in: { Self.Mark → Self.Edit };

    /// The opening block of each lock; None if there is no such lock.
    ghost opening: { Self → LockId → Option Self.Edit.Block };

    /// The actions that this holder has seen, newest first, each Give with its section's edit.
    ghost acts: { Self → List (Action Self.Edit) };

    /// The CPUs for which the holder acts; this implies that the machine is sound.
    ghost ActsFor: { Self → CpuId → Type 0 };

    /// For how many more actions there is room.
    ghost room: { Self → ℕ };

    /// Which machine it is, as numbers. No call changes it.
    ghost machine_id: { Self → List ℕ };

    /// No section of this CPU is under way.
    ghost IsOutside: { Self → CpuId → Type 0 };

    /// Returns the mark of a section with this edit, of which `handed` is passed down.
    fn mark(handed: <Self::Edit as SplitEdit>::Request, edit: Self::Edit) -> Self::Mark
        ensures { edit_in result ≡ edit };

    /// Takes a place in the queue of `lock` for `cpu`, and returns its ticket.
    ///
    /// Requires: the holder acts for `cpu`, the lock exists, there is room for an event, and `cpu`
    /// neither waits at a lock nor holds one.
    fn join(&mut self, cpu: CpuId, lock: LockId) -> u64
        requires cpu { ActsFor self.old cpu }
        requires lock { IsSome (opening self.old lock) }
        requires room { 0 < room self.old }
        requires rests { phase cpu (acts self.old) ≡ Rests }
        ensures adds { Adds (ActsFor self.old) cpu_of_action (Take cpu lock) (acts self.old)
            (acts self.new) }
        ensures ticket { result ≡ ticket_index_of cpu (acts self.new) % 2 ^ 64 }
        ensures opening { opening self.new ≡ opening self.old }
        ensures machine_id { machine_id self.new ≡ machine_id self.old }
        ensures room { room self.old ≤ room self.new + 1 }
        ensures acts { (c : CpuId) → ActsFor self.old c → ActsFor self.new c };

    /// Tries once to enter `lock` for `cpu`. Returns the lock's block if it enters.
    ///
    /// Requires: the holder acts for `cpu`, the lock exists, there is room for an event, and `cpu`
    /// waits there with `ticket`.
    fn enter(
        &mut self,
        cpu: CpuId,
        lock: LockId,
        ticket: u64,
    ) -> Option<<Self::Edit as SplitEdit>::Block>
        requires cpu { ActsFor self.old cpu }
        requires lock { IsSome (opening self.old lock) }
        requires room { 0 < room self.old }
        requires waits { phase cpu (acts self.old) ≡ Waits lock }
        requires ticket { ticket ≡ ticket_index_of cpu (acts self.old) % 2 ^ 64 }
        ensures adds { (hit : Bool)
            × Adds (ActsFor self.old) cpu_of_action (Try cpu lock hit) (acts self.old)
            (acts self.new) }
        ensures hits { MatchOption result
            (phase cpu (acts self.new) ≡ Waits lock)
            (λ block. (phase cpu (acts self.new) ≡ Holds lock)
            × (block_after Self.Edit.protocol.edited (opening self.new) lock
            (sections_in (acts self.new)) ≡ Some block)) }
        ensures opening { opening self.new ≡ opening self.old }
        ensures machine_id { machine_id self.new ≡ machine_id self.old }
        ensures room { room self.old ≤ room self.new + 1 }
        ensures acts { (c : CpuId) → ActsFor self.old c → ActsFor self.new c };

    /// Tries to enter `lock` for `cpu`, as long as the tries fail. It tries at most once for each
    /// of the steps at the front of `steps` that are this CPU's. Returns how often it tried: each
    /// try failed, and nothing else is changed. A machine may always return 0.
    ///
    /// Requires: the holder acts for `cpu`, which waits at `lock` with `ticket`. The lock exists,
    /// and there is room for as many events as there are steps.
    #[inline(always)]
    fn spin(&mut self, cpu: CpuId, lock: LockId, ticket: u64, steps: &[CpuId]) -> usize
        requires cpu { ActsFor self.old cpu }
        requires lock { IsSome (opening self.old lock) }
        requires room { length steps.now ≤ room self.old }
        requires waits { phase cpu (acts self.old) ≡ Waits lock }
        requires ticket { ticket ≡ ticket_index_of cpu (acts self.old) % 2 ^ 64 }
        ensures few { BeginWith cpu result steps.now }
        ensures still { result ≡ 0 → self.new ≡ self.old }
        ensures misses { Misses cpu result (acts self.old) (acts self.new) }
        ensures opening { opening self.new ≡ opening self.old }
        ensures machine_id { machine_id self.new ≡ machine_id self.old }
        ensures room { room self.old ≤ room self.new + result }
        ensures acts { (c : CpuId) → ActsFor self.old c → ActsFor self.new c }
    {
        0
    }

    /// Releases `lock` for `cpu`, and stores `block` in the machine.
    ///
    /// Requires: the holder acts for `cpu`, the lock exists, there is room for an event, and `cpu`
    /// holds it. `block` is the one with which it entered, edited as `mark` says. The protocol
    /// allows that edit, and still does after whatever other CPUs do first.
    fn leave(
        &mut self,
        cpu: CpuId,
        lock: LockId,
        block: <Self::Edit as SplitEdit>::Block,
        mark: Self::Mark,
    )
        requires cpu { ActsFor self.old cpu }
        requires lock { IsSome (opening self.old lock) }
        requires room { 0 < room self.old }
        requires holds { phase cpu (acts self.old) ≡ Holds lock }
        requires edited { option_map (Self.Edit.protocol.edited (edit_in mark))
            (block_after Self.Edit.protocol.edited (opening self.old) lock
            (sections_in (acts self.old))) ≡ Some block }
        requires allowed { StaysAllowed (Self.Edit.protocol.allowed (opening self.old))
            (sections_in (acts self.old)) (section cpu lock (edit_in mark)) }
        ensures adds { Adds (ActsFor self.old) cpu_of_action (Give cpu lock (edit_in mark))
            (acts self.old) (acts self.new) }
        ensures opening { opening self.new ≡ opening self.old }
        ensures machine_id { machine_id self.new ≡ machine_id self.old }
        ensures room { room self.old ≤ room self.new + 1 }
        ensures acts { (c : CpuId) → ActsFor self.old c → ActsFor self.new c };

    /// Law: the actions are legal.
    ghost legal: { (m : Self) (c : CpuId) → ActsFor m c → AreLegal (acts m) };

    /// Law: each section keeps the protocol.
    ghost lawful: { (m : Self) (c : CpuId) → ActsFor m c → IsLawful (Self.Edit.protocol.allowed (opening m)) (sections_in (acts m)) };

    /// Law: a CPU rests exactly if no section of it is under way.
    ghost rests: { (m : Self) (c : CpuId) → IsOutside m c ↔ (phase c (acts m) ≡ Rests) };
}

impl<W: Words> FifoLock<UsesTickets> for W {
    ghost use Rattle.event_log.{specs.{Actions.acts_of, WordsLog.{lock_phase, Idle}}, proofs.Tickets.legal_acts};
    ghost use Rattle.{layer_traits.{specs.Protocols.WordsProtocol.edit_of, proofs.Seen.words_legal}, spinlock.specs.Laws.LineLaws.{acts_lawful, rests_outside}};

    type Edit = W::Edit;

    type Mark = W::Mark;

    ghost edit_in = { λ mark. W.edit_in mark };

    ghost opening = { λ m. W.opening m };

    ghost acts = { λ m. acts_of edit_of (W.history m) };

    ghost ActsFor = { λ m c. W.ActsFor m c };

    ghost room = { λ m. W.room m };

    ghost machine_id = { λ m. W.machine_id m };

    ghost IsOutside = { λ m c. lock_phase c (W.history m) ≡ Idle };

    #[inline(always)]
    fn mark(handed: <W::Edit as SplitEdit>::Request, edit: W::Edit) -> W::Mark {
        <W as Words>::mark(handed, edit)
    }

    #[inline(always)]
    fn join(&mut self, cpu: CpuId, lock: LockId) -> u64 {
        self.draw(cpu, lock)
    }

    #[inline(always)]
    fn enter(
        &mut self,
        cpu: CpuId,
        lock: LockId,
        ticket: u64,
    ) -> Option<<W::Edit as SplitEdit>::Block> {
        self.look(cpu, lock, ticket)
    }

    #[inline(always)]
    fn spin(&mut self, cpu: CpuId, lock: LockId, ticket: u64, steps: &[CpuId]) -> usize {
        <W as Words>::spin(self, cpu, lock, ticket, steps)
    }

    #[inline(always)]
    fn leave(
        &mut self,
        cpu: CpuId,
        lock: LockId,
        block: <W::Edit as SplitEdit>::Block,
        mark: W::Mark,
    ) {
        self.free(cpu, lock, block, mark);
    }

    ghost legal = { λ m c acts. legal_acts edit_of (W.history m) (words_legal (W.Edit.protocol.allowed (W.opening m)) (W.history m) (W.legal m c acts)) };

    ghost lawful = { λ m c acts. acts_lawful (W.Edit.protocol.allowed (W.opening m)) (W.history m) (W.legal m c acts) };

    ghost rests = { λ m c. rests_outside (W.history m) c };
}

impl<W: GrantWords> FifoLock<UsesGrants> for W {
    ghost use Rattle.event_log.{specs.{Grants.{acts_of_grants, grant_lock_phase}, WordsLog.Idle}, proofs.GrantWords.legal_grants};
    ghost use Rattle.{layer_traits.specs.Protocols.WordsProtocol.edit_of, spinlock.specs.Laws.LineLaws.{grants_legal, grants_lawful, rests_outside_grants}};

    type Edit = W::Edit;

    type Mark = W::Mark;

    ghost edit_in = { λ mark. W.edit_in mark };

    ghost opening = { λ m. W.opening m };

    ghost acts = { λ m. acts_of_grants edit_of (W.history m) };

    ghost ActsFor = { λ m c. W.ActsFor m c };

    ghost room = { λ m. W.room m };

    ghost machine_id = { λ m. W.machine_id m };

    ghost IsOutside = { λ m c. grant_lock_phase c (W.history m) ≡ Idle };

    #[inline(always)]
    fn mark(handed: <W::Edit as SplitEdit>::Request, edit: W::Edit) -> W::Mark {
        <W as GrantWords>::mark(handed, edit)
    }

    #[inline(always)]
    fn join(&mut self, cpu: CpuId, lock: LockId) -> u64 {
        self.take(cpu, lock)
    }

    #[inline(always)]
    fn enter(
        &mut self,
        cpu: CpuId,
        lock: LockId,
        ticket: u64,
    ) -> Option<<W::Edit as SplitEdit>::Block> {
        self.peek(cpu, lock, ticket)
    }

    #[inline(always)]
    fn spin(&mut self, cpu: CpuId, lock: LockId, ticket: u64, steps: &[CpuId]) -> usize {
        <W as GrantWords>::spin(self, cpu, lock, ticket, steps)
    }

    #[inline(always)]
    fn leave(
        &mut self,
        cpu: CpuId,
        lock: LockId,
        block: <W::Edit as SplitEdit>::Block,
        mark: W::Mark,
    ) {
        self.give(cpu, lock, block, mark);
    }

    ghost legal = { λ m c acts. legal_grants edit_of (W.history m) (grants_legal (W.Edit.protocol.allowed (W.opening m)) (W.history m) (W.legal m c acts)) };

    ghost lawful = { λ m c acts. grants_lawful (W.Edit.protocol.allowed (W.opening m)) (W.history m) (W.legal m c acts) };

    ghost rests = { λ m c. rests_outside_grants (W.history m) c };
}
