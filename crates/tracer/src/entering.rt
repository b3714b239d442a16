//! An entry among the buffers. No call takes memory or waits.

ghost use Rattle.std.specs.Prelude.{◌≡◌, ◌<◌, map};
ghost use Rattle.{event_log.specs.declared.ids.TheConstants.ENTRIES, tracer.specs.{Judging.entry_among, Tallies.{seen_in, StepsTo}}};

use crate::tally::Tally;
use crate::verdicts::Reason;
use event_log::Entry;

/// Does the effect of an entry on its buffer.
///
/// Requires: the entry's op and its pos are less than [`ENTRIES`](event_log::ENTRIES).
///
/// Errors: `Range` if there is no such buffer, else the first reason against the entry. Nothing is
/// judged after an error, so the buffer need not be as before.
pub fn enter_among(buffers: &mut [Tally], entry: &Entry) -> Result<(), Reason>
    requires { (entry.now.op < ENTRIES) × (entry.now.pos < ENTRIES) }
    ensures { StepsTo (entry_among entry.now (map seen_in buffers.old)) result
        (map seen_in buffers.new) }
{
    let b = usize::from(entry.buffer.0);
    if b >= buffers.len() {
        return Err(Reason::Range);
    }
    let buffer = &mut buffers[b];
    buffer.enter(entry)
}
