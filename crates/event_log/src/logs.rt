//! A log of events with a fixed capacity. Only `with_room` allocates memory. No call waits.

ghost use Rattle.std.specs.Prelude.{◌≡◌, ◌≤◌, ◌<◌, ◌++◌, ◌∷◌, ◌+◌, ◌↔◌, [], List};
ghost use Rattle.std.specs.Prelude.{length, replicate, slice_get, vec_capacity, IfOk, IsOk, IsErr, OnOk, OnErr, option_map};

use crate::refusals::{LogFull, NoMemory};
use std::alloc::Global;

/// A log of events, oldest first, with room for a number of events that is fixed when it is made.
/// No call after `with_room` allocates memory.
#[derive(Drop)]
pub struct EventLog<E> {
    events: Vec<E>,
    room: usize,
    ghost reserved: { room ≤ vec_capacity events },
    ghost within: { length events.items ≤ room },
}

impl<E> EventLog<E> {
    ghost use Rattle.event_log.specs.Log.{events_in, room_of};

    /// Returns an empty log with room for `n` events.
    ///
    /// Errors: `NoMemory` if the allocation failed; nothing was made.
    pub fn with_room(alloc: Global, n: usize) -> Result<EventLog<E>, NoMemory>
        ensures empty { IfOk result (λ log. events_in log ≡ []) }
        ensures room { IfOk result (λ log. room_of log ≡ n) }
        ensures nothing { n ≡ 0 → IsOk result }
    {
        let events = Vec::with_capacity(alloc, n)?;
        Ok(EventLog { events, room: n })
    }

    /// Appends `event` to the log. Allocates no memory.
    ///
    /// Errors: `LogFull` exactly if the log has as many events as it has room for; then nothing
    /// changed.
    pub fn push(&mut self, event: E) -> Result<(), LogFull>
    where
        E: Drop,
        ensures pushed { OnOk result (events_in self.new ≡ events_in self.old ++ event ∷ []) }
        ensures full { IsErr result ↔ (room_of self.old ≤ length (events_in self.old)) }
        ensures unchanged { OnErr result (self.new ≡ self.old) }
        ensures room { room_of self.new ≡ room_of self.old }
    {
        if self.events.len() == self.room {
            return Err(LogFull);
        }
        self.push_reserved(event);
        Ok(())
    }

    /// Appends `event` to a log that is known to have room: there is no test at run time. Allocates
    /// no memory.
    ///
    /// Requires: the log has fewer events than it has room for.
    #[inline(always)]
    pub fn push_reserved(&mut self, event: E)
    where
        E: Drop,
        requires { length (events_in self.old) < room_of self.old }
        ensures pushed { events_in self.new ≡ events_in self.old ++ event ∷ [] }
        ensures room { room_of self.new ≡ room_of self.old }
    {
        self.events.push_reserved(event);
    }

    /// Appends so many copies of `event` to a log that is known to have room. There is no test for
    /// each of them at run time. Allocates no memory.
    ///
    /// Requires: the log has room for as many more events.
    #[inline(always)]
    pub fn push_copies(&mut self, event: E, copies: usize)
    where
        E: Copy,
        requires { length (events_in self.old) + copies ≤ room_of self.old }
        ensures pushed { events_in self.new ≡ events_in self.old ++ replicate copies event }
        ensures room { room_of self.new ≡ room_of self.old }
    {
        let len = self.events.len() + copies;
        let _filled = self.events.resize(len, event);
    }

    /// Returns how many events the log has.
    pub fn len(&self) -> usize
        ensures { result ≡ length (events_in self.now) }
    {
        self.events.len()
    }

    /// Returns the event at `i`, counted from 0 at the oldest; `None` past the last.
    pub fn get(&self, i: usize) -> Option<&E>
        ensures { option_map (λ event. event.now) result ≡ slice_get (events_in self.now) i }
    {
        self.events.get(i)
    }
}
