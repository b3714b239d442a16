//! What is known of a buffer while the entries are judged. No call takes memory or waits.

ghost use Rattle.std.specs.Prelude.{◌≡◌, ◌+◌, ◌≤◌, ◌<◌};
ghost use Rattle.{event_log.specs.{declared.ids.TheConstants.{CAPACITY, ENTRIES}, Runs.group_of}, tracer.specs.Judging.{fresh, was_closed, next_pos}};
ghost use Rattle.tracer.specs.{Judging.{seen_behind, entry_on, are_values}, Lines.left_of};

use crate::effects::act;
use crate::pieces::Pieces;
use crate::verdicts::Reason;
use crate::words::are_values;
use event_log::{CAPACITY, Entry, Kind, Msg, Ring};

/// One buffer: its capacity, its items, front first, and how many effects it had.
#[derive(Drop)]
pub struct Tally {
    capacity: usize,
    items: Ring<Msg>,
    ops: u64,
    sends: u64,
    recvs: u64,
    closes: u64,
    ghost small: { capacity ≤ CAPACITY },
}

impl Tally {
    ghost use Rattle.tracer.specs.Tallies.{seen_in, StepsTo};

    /// Makes a buffer that had no effect.
    ///
    /// Requires: the capacity is at most [`CAPACITY`].
    pub fn new(capacity: usize) -> Tally
        requires { capacity ≤ CAPACITY }
        ensures { seen_in result ≡ fresh capacity }
    {
        Tally {
            capacity,
            items: Ring::new(Msg::none()),
            ops: 0,
            sends: 0,
            recvs: 0,
            closes: 0,
        }
    }

    /// Returns whether it was closed.
    fn is_closed(&self) -> bool
        ensures { result ≡ was_closed (seen_in self.now) }
    {
        self.closes > 0
    }

    /// Returns how many effects it had that are counted with this kind.
    fn pos(&self, kind: Kind) -> u64
        ensures { result ≡ next_pos (group_of kind) (seen_in self.now) }
    {
        match kind {
            Kind::Send | Kind::SendClosed => self.sends,
            Kind::Recv | Kind::RecvClosed => self.recvs,
            Kind::Close => self.closes,
        }
    }

    /// Counts an effect of this kind.
    fn count(&mut self, kind: Kind)
        requires { (self.old.ops < ENTRIES)
            × (next_pos (group_of kind) (seen_in self.old) < ENTRIES) }
        ensures { seen_in self.new
            ≡ seen_behind (group_of kind) (seen_in self.old).items (seen_in self.old) }
    {
        self.ops += 1;
        match kind {
            Kind::Send | Kind::SendClosed => self.sends += 1,
            Kind::Recv | Kind::RecvClosed => self.recvs += 1,
            Kind::Close => self.closes += 1,
        }
    }

    /// Does the effect of an entry.
    ///
    /// Requires: the entry's op and its pos are less than [`ENTRIES`](event_log::ENTRIES).
    ///
    /// Errors: `Op` if the op is not the number of entries so far. `Pos` if the pos is not the
    /// number of those that are counted with its kind. Else the first reason against the effect.
    /// Nothing is judged after an error, so the buffer need not be as before.
    #[tactic(auto, unfolding(crate::specs::Judging::entry_on))]
    pub fn enter(&mut self, entry: &Entry) -> Result<(), Reason>
        requires { (entry.now.op < ENTRIES) × (entry.now.pos < ENTRIES) }
        ensures { StepsTo (entry_on entry.now (seen_in self.old)) result (seen_in self.new) }
    {
        if entry.op != self.ops {
            return Err(Reason::Op);
        }
        if entry.pos != self.pos(entry.kind) {
            return Err(Reason::Pos);
        }
        let closed = self.is_closed();
        act(
            &mut self.items,
            self.capacity,
            closed,
            entry.kind,
            &entry.value,
        )?;
        self.count(entry.kind);
        Ok(())
    }

    /// Returns whether the pieces spell the items.
    pub fn holds(&self, values: Pieces<'_>) -> bool
        ensures { result ≡ are_values (left_of values.entry) (seen_in self.now).items }
    {
        are_values(values, self.items.items().as_slice())
    }
}

impl Default for Tally {
    ghost use Rattle.tracer.specs.Tallies.{seen_in};

    ghost is_default = { λ t. seen_in t ≡ fresh 0 };

    /// A buffer without room.
    fn default() -> Tally {
        Tally::new(0)
    }
}
