//! A whole section at once, where no CPU has a ticket. It is given no allocator and does not wait.

ghost use Rattle.std.specs.Prelude.{◌≡◌, ◌≢◌, ◌+◌, ◌<◌, ◌≤◌, ◌∷◌, true, IsSome, OnSome, is_some, if◌then◌else◌};
ghost use Rattle.event_log.specs.{declared.ids.CpuId.CpuId, Actions.{Take, Try, Give, Rests, phase, next_action}};
ghost use Rattle.layer_traits.specs.{Blocks.Payloads.abstract_result, Polling.{Plans.{table_of, reply}, Polls.{MayPoll, Answers}}, Protocols.Protocol.section};
ghost use Rattle.layer_traits.specs.Protocols.Protocol.{StaysAllowed};

use event_log::{CPUS, LockId};
use layer_traits::{Edit, LockCall, LockLayer, Payload};

/// Returns the result with its message, if there is a result.
fn answer_in<E: Edit>(response: Option<E::Response>, payload: &mut Payload) -> Option<E::Out>
    ensures { result ≡ abstract_result E.abstract_answer response payload.old }
{
    Some(E::bring_back(response?, payload))
}

/// Polls once on a machine whose holder acts for every CPU: exactly the action that is due.
fn alone<E: Edit, L: LockLayer<E>>(
    part: &mut L,
    m: &mut L::Machine,
    lock: LockId,
    edit: E,
    payload: &mut Payload,
) -> Option<E::Out>
    requires stepwise { L.IsStepwise }
    requires all { (c : CpuId) → c.0 < CPUS → L.ActsFor m.old c }
    requires coupled { L.Coupled part.old m.old }
    requires lock { IsSome (L.opening m.old lock) }
    requires room { 0 < L.room m.old }
    requires call { MayPoll (E.protocol.allowed (L.opening m.old)) (L.history m.old)
        (L.under_way part.old) (section (L.cpu_of part.old) lock edit) }
    ensures acts { L.acts m.new
        ≡ next_action (L.cpu_of part.old) lock edit (L.acts m.old) ∷ L.acts m.old }
    ensures answer { result
        ≡ reply (table_of E.protocol) (L.opening m.old) (L.cpu_of part.old) lock edit
        (L.acts m.old) }
    ensures all { (c : CpuId) → c.0 < CPUS → L.ActsFor m.new c }
    ensures coupled { L.Coupled part.new m.new }
    ensures cpu { L.cpu_of part.new ≡ L.cpu_of part.old }
    ensures call { L.under_way part.new
        ≡ (if is_some result then None else Some (section (L.cpu_of part.old) lock edit)) }
    ensures opening { L.opening m.new ≡ L.opening m.old }
    ensures room { L.room m.old ≤ L.room m.new + 1 }
    ensures outside { OnSome result (L.IsOutside m.new (L.cpu_of part.old)) }
    ensures others { (p : L) → L.cpu_of p ≢ L.cpu_of part.old → L.Coupled p m.old
        → L.Coupled p m.new }
{
    let handed = edit.hand_on(payload);
    let response = part.poll(m, LockCall { lock, edit: handed }, payload);
    answer_in::<E>(response, payload)
}

/// Performs the whole section of `edit` at `lock`, where no CPU has a ticket and the holder of the
/// machine acts for every CPU. It takes three polls: the first draws a ticket, the second enters,
/// the third releases and returns the result. What the edit puts and what its result brings are
/// passed in `payload`.
///
/// Requires: part and machine agree, a poll is one action, the holder acts for every CPU, and no
/// CPU has a ticket. The lock exists, there is room for three events, and the part has no pending
/// call. The edit is allowed and stays so.
pub fn whole<E: Edit, L: LockLayer<E>>(
    part: &mut L,
    m: &mut L::Machine,
    lock: LockId,
    edit: E,
    payload: &mut Payload,
) -> E::Out
    requires stepwise { L.IsStepwise }
    requires all { (c : CpuId) → c.0 < CPUS → L.ActsFor m.old c }
    requires rests { (c : CpuId) → phase c (L.acts m.old) ≡ Rests }
    requires coupled { L.Coupled part.old m.old }
    requires lock { IsSome (L.opening m.old lock) }
    requires room { 2 < L.room m.old }
    requires call { L.under_way part.old ≡ None }
    requires allowed { StaysAllowed (E.protocol.allowed (L.opening m.old)) (L.history m.old)
        (section (L.cpu_of part.old) lock edit) }
    ensures history { L.history m.new ≡ section (L.cpu_of part.old) lock edit ∷ L.history m.old }
    ensures answer { Answers E.protocol (L.opening m.old) (L.history m.old)
        (section (L.cpu_of part.old) lock edit) result }
    ensures acts { L.acts m.new
        ≡ Give (L.cpu_of part.old) lock edit ∷ Try (L.cpu_of part.old) lock true
        ∷ Take (L.cpu_of part.old) lock ∷ L.acts m.old }
    ensures rests { (c : CpuId) → phase c (L.acts m.new) ≡ Rests }
    ensures all { (c : CpuId) → c.0 < CPUS → L.ActsFor m.new c }
    ensures coupled { L.Coupled part.new m.new }
    ensures cpu { L.cpu_of part.new ≡ L.cpu_of part.old }
    ensures call { L.under_way part.new ≡ None }
    ensures opening { L.opening m.new ≡ L.opening m.old }
    ensures room { L.room m.old ≤ L.room m.new + 3 }
    ensures outside { L.IsOutside m.new (L.cpu_of part.old) }
    ensures others { (p : L) → L.cpu_of p ≢ L.cpu_of part.old → L.Coupled p m.old
        → L.Coupled p m.new }
{
    let _drawn = alone(part, m, lock, edit, payload);
    let _looked = alone(part, m, lock, edit, payload);
    alone(part, m, lock, edit, payload).unwrap()
}
