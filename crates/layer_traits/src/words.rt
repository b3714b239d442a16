//! The machine under the layers: the words and the blocks of ticket locks.
//!
//! No call is given an allocator, and none waits.

ghost use Rattle.std.specs.Prelude.{◌≡◌, ℕ, ◌+◌, ◌<◌, ◌≤◌, ◌++◌, length, replicate, List, [], Option, IsSome, MatchOption, option_map};

use crate::edits::{Mark, SplitEdit};
use event_log::{CpuId, Event, LockId};

/// A holder of ticket locks: each lock has the words `next` and `serving`, and guards a block. An
/// owned machine acts for all CPUs. A seat (a per-CPU handle of shared words) acts for its own CPU,
/// and events of other CPUs may be added at any call.
///
/// A machine with other words meets this trait too, if it stores its log as ticket locks would. A
/// poll then reads in that log how often the lock was freed, whatever word the machine loads.
///
/// No call allocates memory, and each succeeds.
pub trait Words {
    ghost use Rattle.event_log.specs.{declared.{ids.{CpuId.CpuId, LockId.LockId}, events.Event.{Event, TheVariants.{Draw, Look, Free}}}, History.Adds};
    ghost use Rattle.event_log.specs.{History.IsLawful, WordsLog.{cpu_of_event, lock_phase, Idle, Waiting, Holding}, Sections.{Section, block_after}};
    ghost use Rattle.layer_traits.specs.{declared.edits.Mark.Mark, Protocols.{Protocol.{section, StaysAllowed}, WordsProtocol.{mark_of, sections, MayCome}}};
    ghost use Rattle.layer_traits.specs.Polling.Spins.{BeginWith};

    /// The edits of the sections.
    type Edit: SplitEdit;

    /// What a Free leaves in the log: it determines the section's edit.
    type Mark;

    /// The edit that a mark denotes.
    ghost edit_in: { Self.Mark → Self.Edit };

    /// The opening block of each lock; None if there is no such lock.
    ghost opening: { Self → LockId → Option Self.Edit.Block };

    /// The events that this holder has observed, newest first.
    ghost history: { Self → List (Event (Mark Self.Edit)) };

    /// The CPUs for which the holder acts; this implies that the machine is sound.
    ghost ActsFor: { Self → CpuId → Type 0 };

    /// How many more events there is room for.
    ghost room: { Self → ℕ };

    /// Which machine it is, as numbers; a machine that no caller must recognize needs none. No call
    /// changes it.
    ghost machine_id: { Self → List ℕ } = { λ _. [] };

    /// Returns the mark of a section with this edit, of which `handed` is the passed-down form. A
    /// machine may store the passed-down form, and the edit for clauses only.
    fn mark(handed: <Self::Edit as SplitEdit>::Request, edit: Self::Edit) -> Self::Mark
        ensures { edit_in result ≡ edit };

    /// Draws a ticket of `lock` for `cpu`: a fetch-and-add of 1 on `next`, whose old value is the
    /// ticket.
    ///
    /// Requires: the holder acts for `cpu`, the lock exists, there is room for an event, and `cpu`
    /// has no ticket outstanding.
    fn draw(&mut self, cpu: CpuId, lock: LockId) -> u64
        requires cpu { ActsFor self.old cpu }
        requires lock { IsSome (opening self.old lock) }
        requires room { 0 < room self.old }
        requires outside { lock_phase cpu (history self.old) ≡ Idle }
        ensures adds { Adds (ActsFor self.old) cpu_of_event (Draw cpu lock result)
            (history self.old)
            (history self.new) }
        ensures opening { opening self.new ≡ opening self.old }
        ensures machine_id { machine_id self.new ≡ machine_id self.old }
        ensures room { room self.old ≤ room self.new + 1 }
        ensures acts { (c : CpuId) → ActsFor self.old c → ActsFor self.new c };

    /// Loads `serving` of `lock` for `cpu`: one poll. If it reads the ticket the poll succeeds: the
    /// lock's block passes to the CPU.
    ///
    /// Requires: the holder acts for `cpu`, the lock exists, there is room for an event, and `cpu`
    /// waits there with `ticket`.
    fn look(
        &mut self,
        cpu: CpuId,
        lock: LockId,
        ticket: u64,
    ) -> Option<<Self::Edit as SplitEdit>::Block>
        requires cpu { ActsFor self.old cpu }
        requires lock { IsSome (opening self.old lock) }
        requires room { 0 < room self.old }
        requires waiting { lock_phase cpu (history self.old) ≡ Waiting lock ticket }
        ensures adds { (read : ℕ)
            × Adds (ActsFor self.old) cpu_of_event (Look cpu lock ticket read) (history self.old)
            (history self.new) }
        ensures hits { MatchOption result
            (lock_phase cpu (history self.new) ≡ Waiting lock ticket)
            (λ block. (lock_phase cpu (history self.new) ≡ Holding lock ticket)
            × (block_after Self.Edit.protocol.edited (opening self.new) lock
            (sections (history self.new))
            ≡ Some block)) }
        ensures opening { opening self.new ≡ opening self.old }
        ensures machine_id { machine_id self.new ≡ machine_id self.old }
        ensures room { room self.old ≤ room self.new + 1 }
        ensures acts { (c : CpuId) → ActsFor self.old c → ActsFor self.new c };

    /// Records failed polls of `cpu`, which waits at `lock` with `ticket`, as long as a poll would
    /// fail. It records at most one for each of the steps at the front of `steps` that are this
    /// CPU's. Returns how many it recorded: each failed, and nothing else is changed. A machine may
    /// always return 0.
    ///
    /// Requires: the holder acts for `cpu`, which waits at `lock` with `ticket`. The lock exists,
    /// and there is room for as many events as there are steps.
    #[inline(always)]
    fn spin(&mut self, cpu: CpuId, lock: LockId, ticket: u64, steps: &[CpuId]) -> usize
        requires cpu { ActsFor self.old cpu }
        requires lock { IsSome (opening self.old lock) }
        requires room { length steps.now ≤ room self.old }
        requires waiting { lock_phase cpu (history self.old) ≡ Waiting lock ticket }
        ensures few { BeginWith cpu result steps.now }
        ensures still { result ≡ 0 → self.new ≡ self.old }
        ensures adds { (read : ℕ)
            × (history self.new
            ≡ replicate result (Look cpu lock ticket read) ++ history self.old) }
        ensures waits { lock_phase cpu (history self.new) ≡ Waiting lock ticket }
        ensures opening { opening self.new ≡ opening self.old }
        ensures machine_id { machine_id self.new ≡ machine_id self.old }
        ensures room { room self.old ≤ room self.new + result }
        ensures acts { (c : CpuId) → ActsFor self.old c → ActsFor self.new c }
    {
        0
    }

    /// Releases `lock` for `cpu`: a fetch-and-add of 1 on `serving`. `block` is stored in the
    /// machine.
    ///
    /// Requires: the holder acts for `cpu`, the lock exists, there is room for an event, and `cpu`
    /// is inside it. `block` is the one that the CPU's poll returned, edited as `mark` says. The
    /// protocol allows that edit, and still does after whatever other CPUs do first.
    fn free(
        &mut self,
        cpu: CpuId,
        lock: LockId,
        block: <Self::Edit as SplitEdit>::Block,
        mark: Self::Mark,
    )
        requires cpu { ActsFor self.old cpu }
        requires lock { IsSome (opening self.old lock) }
        requires room { 0 < room self.old }
        requires inside { (ticket : ℕ) × (lock_phase cpu (history self.old) ≡ Holding lock ticket) }
        requires edited { option_map (Self.Edit.protocol.edited (edit_in mark))
            (block_after Self.Edit.protocol.edited (opening self.old) lock
            (sections (history self.old)))
            ≡ Some block }
        requires allowed { StaysAllowed (Self.Edit.protocol.allowed (opening self.old))
            (sections (history self.old))
            (section cpu lock (edit_in mark)) }
        ensures adds { Adds (ActsFor self.old) cpu_of_event (Free cpu lock (mark_of (edit_in mark)))
            (history self.old) (history self.new) }
        ensures opening { opening self.new ≡ opening self.old }
        ensures machine_id { machine_id self.new ≡ machine_id self.old }
        ensures room { room self.old ≤ room self.new + 1 }
        ensures acts { (c : CpuId) → ActsFor self.old c → ActsFor self.new c };

    /// Law: what a holder has observed is a legal words log in which each section keeps the
    /// protocol.
    ghost legal: { (w : Self) (c : CpuId) → ActsFor w c → IsLawful (MayCome (Self.Edit.protocol.allowed (opening w))) (history w) };
}
