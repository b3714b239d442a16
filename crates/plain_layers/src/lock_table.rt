//! The machine under one-step critical sections: a list of blocks. Only `LockTable::open`
//! allocates. No function blocks.

ghost use Rattle.std.specs.Prelude.{◌≡◌, ◌+◌, ◌<◌, ◌∷◌, [], IsSome, IfOk, option_map, if◌then◌else◌};
ghost use Rattle.{event_log.specs.{declared.ids.{TheConstants.CPUS, LockId.LockId}, History.same_lock}, layer_traits.specs.Protocols.OneLock.opened};
ghost use Rattle.{layer_traits.specs.{Protocols.Protocol.section, Polling.Polls.Answers}, plain_layers.specs.Tables.{IsSlot, IsTable, opening_in, room_in}};
ghost use Rattle.plain_layers.specs.Tables.{sections_noted};

use event_log::{CpuId, EventLog, LockId, NoMemory};
use layer_traits::{Payload, SplitEdit};
use std::alloc::Global;
use std::snapshot::Snapshot;

/// A section in the list of events: which CPU edited the block of which lock, and how.
#[derive(Drop)]
pub struct Noted<E> {
    /// The CPU whose section it was.
    pub cpu: CpuId,
    /// The lock.
    pub lock: LockId,
    /// The edit.
    pub edit: E,
}

/// The block of each lock as a list, and the list of the sections that were done. The room for
/// sections is fixed when the machine is opened. No function after [`LockTable::open`] allocates.
#[derive(Drop)]
pub struct LockTable<E: SplitEdit> {
    log: EventLog<Noted<E>>,
    blocks: Vec<(LockId, E::Block)>,
    // The blocks that the locks opened with, only for clauses.
    opening: Snapshot<Vec<(LockId, E::Block)>>,
}

impl<E: SplitEdit> LockTable<E> {
    /// Returns a machine with these locks, each with its block, and with room for `room` sections.
    ///
    /// Errors: `NoMemory` if an allocation failed; then the blocks are dropped.
    pub fn open(
        alloc: Global,
        blocks: Vec<(LockId, E::Block)>,
        room: usize,
    ) -> Result<LockTable<E>, NoMemory>
        ensures sound { IfOk result
            (λ m. IsTable E.protocol (opening_in m) (sections_noted m) m.blocks.items) }
        ensures opening { IfOk result (λ m. opening_in m ≡ opened blocks.items) }
        ensures history { IfOk result (λ m. sections_noted m ≡ []) }
        ensures room { IfOk result (λ m. room_in m ≡ room) }
    {
        let log = EventLog::with_room(alloc, room)?;
        let opening = Snapshot::of(&blocks);
        Ok(LockTable {
            log,
            blocks,
            opening,
        })
    }

    /// Does a whole section: applies the edit to the block of `lock`, records the section and
    /// returns what brings the edit's result.
    ///
    /// Requires: the blocks are what the sections make of them. There is room for one more section.
    /// The CPU's number is below `CPUS`. The lock exists, and the section is allowed.
    pub fn done(
        &mut self,
        cpu: CpuId,
        lock: LockId,
        handed: E::Request,
        payload: &mut Payload,
    ) -> E::Response
        requires sound { IsTable E.protocol (opening_in self.old) (sections_noted self.old)
            self.old.blocks.items }
        requires room { 0 < room_in self.old }
        requires cpu { cpu.0 < CPUS }
        requires lock { IsSome (opening_in self.old lock) }
        requires allowed { E.protocol.allowed (opening_in self.old) (sections_noted self.old)
            (section cpu lock (E.abstract_call handed payload.old)) }
        ensures sound { IsTable E.protocol (opening_in self.new) (sections_noted self.new)
            self.new.blocks.items }
        ensures opening { opening_in self.new ≡ opening_in self.old }
        ensures history { sections_noted self.new
            ≡ section cpu lock (E.abstract_call handed payload.old) ∷ sections_noted self.old }
        ensures room { room_in self.old ≡ room_in self.new + 1 }
        ensures answer { Answers E.protocol (opening_in self.old) (sections_noted self.old)
            (section cpu lock (E.abstract_call handed payload.old))
            (E.abstract_answer result payload.new) }
    {
        // The section may overwrite the edit's message slot with that of its result.
        let edit = E::whole(&handed, payload);
        let answer = edit_at::<E>(&mut self.blocks, lock, &handed, payload);
        self.log.push(Noted { cpu, lock, edit }).unwrap();
        answer
    }

    /// Returns the block of `lock`, which exists.
    ///
    /// Requires: the blocks are what the sections make of them, and the lock exists.
    pub fn block(&self, lock: LockId) -> Option<&E::Block>
        requires sound { IsTable E.protocol (opening_in self.now) (sections_noted self.now)
            self.now.blocks.items }
        requires lock { IsSome (opening_in self.now lock) }
        ensures { option_map (λ block. block.now) result ≡ opened self.now.blocks.items lock }
    {
        let slot = slot_of(&self.blocks, lock);
        Some(&self.blocks[slot].1)
    }
}

/// Applies the edit to the block of `lock` in the list, and returns what brings the edit's result.
fn edit_at<E: SplitEdit>(
    blocks: &mut Vec<(LockId, E::Block)>,
    lock: LockId,
    handed: &E::Request,
    payload: &mut Payload,
) -> E::Response
    requires { IsSome (opened blocks.old.items lock) }
    ensures block { (l : LockId) → opened blocks.new.items l
        ≡ (if same_lock l lock
        then option_map (E.protocol.edited (E.abstract_call handed.now payload.old))
        (opened blocks.old.items l) else opened blocks.old.items l) }
    ensures answer { option_map (E.protocol.answer (E.abstract_call handed.now payload.old))
        (opened blocks.old.items lock)
        ≡ Some (E.abstract_answer result payload.new) }
{
    let slot = slot_of(blocks, lock);
    E::apply_request(handed, &mut blocks[slot].1, payload)
}

/// Returns the slot of `lock` in the list: the first entry that names it.
fn slot_of<B>(blocks: &[(LockId, B)], lock: LockId) -> usize
    requires { IsSome (opened blocks.now lock) }
    ensures { IsSlot lock result blocks.now }
{
    for (i, entry) in blocks.iter().enumerate() {
        if entry.0 == lock {
            return i;
        }
    }
    unreachable!()
}
