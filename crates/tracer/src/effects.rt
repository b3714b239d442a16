//! What an effect does to the items of a buffer. No call takes memory or waits.

ghost use Rattle.std.specs.Prelude.{◌≡◌, ◌≤◌};
ghost use Rattle.{event_log.specs.declared.ids.TheConstants.CAPACITY, tracer.specs.{Judging.{put_if_room, take_first, item_effect}, Tallies.StepsTo}};

use crate::verdicts::Reason;
use event_log::{CAPACITY, Kind, Msg, Ring};

/// Appends `value` to the items.
///
/// Errors: `Full` if there are as many items as the capacity; then nothing changed.
fn put(items: &mut Ring<Msg>, capacity: usize, value: &Msg) -> Result<(), Reason>
    requires { capacity ≤ CAPACITY }
    ensures { StepsTo (put_if_room value.now capacity items.old) result items.new }
{
    if items.len() >= capacity {
        return Err(Reason::Full);
    }
    items.put(*value);
    Ok(())
}

/// Takes the first item, which must be `value`.
///
/// Errors: `EmptyTake` if there is none, and `WrongValue` if it is another, which is then removed.
fn take(items: &mut Ring<Msg>, value: &Msg) -> Result<(), Reason>
    ensures { StepsTo (take_first value.now items.old) result items.new }
{
    let Some(first) = items.take() else {
        return Err(Reason::EmptyTake);
    };
    if first != *value {
        return Err(Reason::WrongValue);
    }
    Ok(())
}

/// Does an effect of this kind on the items of a buffer of this capacity that is closed or not.
///
/// Requires: the capacity is at most [`CAPACITY`].
///
/// Errors: nothing is judged after an error, so the items need not be as before.
///
/// - `CloseState` if a send finds the buffer closed, or a call that found it closed finds it open.
/// - `Full` if a send finds as many items as the capacity.
/// - `EmptyTake` if a receive finds no item, and `WrongValue` if it finds another first item.
/// - `NotEmpty` if a receive that found the buffer closed finds items.
pub fn act(
    items: &mut Ring<Msg>,
    capacity: usize,
    closed: bool,
    kind: Kind,
    value: &Msg,
) -> Result<(), Reason>
    requires { capacity ≤ CAPACITY }
    ensures { StepsTo (item_effect kind value.now closed capacity items.old) result items.new }
{
    match kind {
        Kind::Send if closed => Err(Reason::CloseState),
        Kind::Send => put(items, capacity, value),
        Kind::Recv => take(items, value),
        Kind::Close => Ok(()),
        Kind::SendClosed | Kind::RecvClosed if !closed => Err(Reason::CloseState),
        Kind::RecvClosed if items.len() > 0 => Err(Reason::NotEmpty),
        Kind::SendClosed | Kind::RecvClosed => Ok(()),
    }
}
