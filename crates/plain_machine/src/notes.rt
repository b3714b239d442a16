//! The stored log: which CPU did what at which lock. Only `Notes::with_room` allocates. No function
//! blocks.

ghost use Rattle.std.specs.Prelude.{◌≡◌, ◌+◌, ◌%◌, ◌^◌, ◌≤◌, ◌<◌, ◌++◌, ◌∷◌, [], length, replicate, sum_by, IfOk};
ghost use Rattle.{event_log.specs.Log.{events_in, room_of}, plain_machine.specs.Stored.weight};

use event_log::{CpuId, EventLog, LockId, NoMemory};
use std::alloc::Global;

/// What the log stores of an event. The numbers that `draw` or `look` returned are not stored,
/// because a replay of the earlier events yields them; a note therefore takes four bytes.
#[derive(Clone, Copy)]
pub enum Note {
    /// The CPU drew a ticket at the lock.
    Draw(CpuId, LockId),
    /// The CPU polled the lock with its ticket.
    Look(CpuId, LockId),
    /// The CPU freed the lock.
    Free(CpuId, LockId),
    /// The previous event occurred so many times more.
    Again(u16),
}

/// The most repetitions in one note: the largest `u16`.
const MOST_TIMES: usize = 65_535;

/// A log of the events on the words of all locks: notes of the events, and the mark of each free,
/// both oldest first. The room for events is fixed when the log is made. Consecutive polls are one
/// note and its repetitions. No function after `with_room` allocates.
#[derive(Drop)]
pub struct Notes<M> {
    notes: EventLog<Note>,
    marks: EventLog<M>,
    ghost rooms: { room_of marks ≡ room_of notes },
    ghost fewer: { length (events_in marks) ≤ length (events_in notes) },
    ghost fits: { length (events_in notes) ≤ sum_by weight (events_in notes) },
}

impl<M> Notes<M> {
    ghost use Rattle.event_log.specs.{Grants.ticket_in, WordsLog.draws, WordsLog.frees, WordsLog.lock_phase};
    ghost use Rattle.event_log.specs.declared.events.Event.TheVariants as event;
    ghost use Rattle.plain_machine.specs.{Machine.{event_list, room_left}, Stored.repeated};

    /// Returns an empty log with room for `n` events.
    ///
    /// Errors: `NoMemory` if an allocation failed; nothing was made.
    pub fn with_room(alloc: Global, n: usize) -> Result<Notes<M>, NoMemory>
    where
        M: Drop,
        ensures event_list { IfOk result (λ log. event_list log ≡ []) }
        ensures room { IfOk result (λ log. room_left log ≡ n) }
    {
        let notes = EventLog::with_room(alloc, n)?;
        let marks = EventLog::with_room(alloc, n)?;
        Ok(Notes { notes, marks })
    }

    /// Records a draw.
    ///
    /// Requires: there is room for an event.
    #[inline(always)]
    pub fn draw(&mut self, cpu: CpuId, lock: LockId)
        requires { 0 < room_left self.old }
        ensures event_list { event_list self.new
            ≡ event.Draw cpu lock (draws lock (event_list self.old) % 2 ^ 64)
            ∷ event_list self.old }
        ensures room { room_left self.old ≡ room_left self.new + 1 }
    {
        self.put(Note::Draw(cpu, lock));
    }

    /// Records a poll by a CPU that waits, with its ticket.
    ///
    /// Requires: there is room for an event.
    #[inline(always)]
    pub fn look(&mut self, cpu: CpuId, lock: LockId)
        requires { 0 < room_left self.old }
        ensures event_list { event_list self.new
            ≡ event.Look cpu lock (ticket_in (lock_phase cpu (event_list self.old)))
            (frees lock (event_list self.old) % 2 ^ 64) ∷ event_list self.old }
        ensures room { room_left self.old ≡ room_left self.new + 1 }
    {
        self.put(Note::Look(cpu, lock));
    }

    /// Records so many polls by a CPU that waits, with its ticket.
    ///
    /// Requires: there is room for as many events.
    #[inline(never)]
    pub fn looks(&mut self, cpu: CpuId, lock: LockId, looks: usize)
        requires { looks ≤ room_left self.old }
        ensures event_list { event_list self.new
            ≡ replicate looks
            (event.Look cpu lock (ticket_in (lock_phase cpu (event_list self.old)))
            (frees lock (event_list self.old) % 2 ^ 64))
            ++ event_list self.old }
        ensures room { room_left self.old ≡ room_left self.new + looks }
        ensures still { looks ≡ 0 → self.new ≡ self.old }
    {
        if looks == 0 {
            return;
        }
        self.look(cpu, lock);
        if looks > 1 {
            self.again(looks - 1);
        }
    }

    /// Records a free with its mark.
    ///
    /// Requires: there is room for an event.
    #[inline(always)]
    pub fn free(&mut self, cpu: CpuId, lock: LockId, mark: M)
    where
        M: Drop,
        requires { 0 < room_left self.old }
        ensures event_list { event_list self.new ≡ event.Free cpu lock mark ∷ event_list self.old }
        ensures room { room_left self.old ≡ room_left self.new + 1 }
    {
        self.put(Note::Free(cpu, lock));
        self.marks.push_reserved(mark);
    }

    /// Records that the last event occurred so many times more. It is not inlined, because most
    /// polls are single.
    #[inline(never)]
    fn again(&mut self, times: usize)
        requires { times ≤ room_left self.old }
        ensures event_list { event_list self.new ≡ repeated times (event_list self.old) }
        ensures room { room_left self.old ≡ room_left self.new + times }
    {
        let full = times / MOST_TIMES;
        self.notes.push_copies(Note::Again(u16::MAX), full);
        let rest = times % MOST_TIMES;
        if rest != 0 {
            self.put(Note::Again(rest as u16));
        }
    }

    /// Appends `note` to the notes.
    #[inline(always)]
    fn put(&mut self, note: Note)
        requires some { 0 < weight note }
        requires room { weight note ≤ room_left self.old }
        ensures notes { events_in self.new.notes ≡ events_in self.old.notes ++ note ∷ [] }
        ensures room { room_of self.new.notes ≡ room_of self.old.notes }
        ensures marks { self.new.marks ≡ self.old.marks }
    {
        self.notes.push_reserved(note);
    }
}
