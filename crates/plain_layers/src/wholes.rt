//! A whole section of sleep and wakeup at once, over a machine that does whole calls. The function
//! neither allocates nor blocks.

ghost use Rattle.std.specs.Prelude.{◌≡◌, ◌≢◌, ◌+◌, ◌<◌, ◌≤◌, None, IsSome};
ghost use Rattle.event_log.specs.declared.ids.{CpuId.CpuId, LockId.TheVariants.Buffer, TheConstants.CPUS};
ghost use Rattle.{layer_traits.specs.{Blocks.Payloads.abstract_outcome, Layers.SleepLaw.{MaySleep, sleep_kernel}}, plain_layers.specs.Wholes.IsDoneWhole};
ghost use Rattle.plain_layers.specs.Wholes.{asked_edit};

use event_log::BufId;
use layer_traits::{BufferCall, Outcome, Payload, SleepLaw, Sleeps, ThreadLayer};

/// Does the whole section of an edit at the lock of `buffer`. This is one poll, or two if the
/// section wakes a thread of another CPU and its caller continues.
///
/// Requires: each poll is a whole section. The holder of the machine acts for every CPU. The part
/// and the machine agree, nothing is under way and nothing is deferred. There is a lock at
/// `buffer`. The machine has room for two more events. The edit's caller runs here, and the edit is
/// allowed.
pub fn whole<E: Sleeps, S: ThreadLayer<SleepLaw<E>>>(
    part: &mut S,
    m: &mut S::Machine,
    buffer: BufId,
    edit: E::Request,
    payload: &mut Payload,
) -> Outcome<E::Response>
where
    E::Request: Copy,
    requires whole { S.IsWhole }
    requires all { (c : CpuId) → c.0 < CPUS → S.ActsFor m.old c }
    requires coupled { S.Coupled part.old m.old }
    requires none { S.under_way part.old ≡ None }
    requires deferred { (S.local part.old).deferred ≡ None }
    requires buffer { IsSome (S.opening m.old (Buffer buffer)) }
    requires room { 1 < S.room m.old }
    requires call { MaySleep (sleep_kernel E.protocol (S.opening m.old)) (S.cpu_of part.old)
        (S.history m.old) (S.local part.old).threads buffer
        (E.abstract_call edit payload.old.message_slot) }
    ensures done { IsDoneWhole
        (asked_edit (sleep_kernel E.protocol (S.opening m.old)) (S.cpu_of part.old) buffer
        (E.abstract_call edit payload.old.message_slot))
        (S.history m.old) (S.history m.new) (S.local part.old).threads (S.local part.new)
        (abstract_outcome E.abstract_answer result payload.new.message_slot) }
    ensures coupled { S.Coupled part.new m.new }
    ensures cpu { S.cpu_of part.new ≡ S.cpu_of part.old }
    ensures none { S.under_way part.new ≡ None }
    ensures opening { S.opening m.new ≡ S.opening m.old }
    ensures machine_id { S.machine_id m.new ≡ S.machine_id m.old }
    ensures room { S.room m.old ≤ S.room m.new + 2 }
    ensures acts { (c : CpuId) → S.ActsFor m.old c → S.ActsFor m.new c }
    ensures others { (p : S) → S.cpu_of p ≢ S.cpu_of part.old → S.Coupled p m.old
        → S.Coupled p m.new }
    ensures holders { (c : CpuId) → c ≢ S.cpu_of part.old → S.ActsFor m.old c → S.MayHold m.new c
        → S.MayHold m.old c }
{
    let message_slot = payload.message_slot;
    match part.poll(m, BufferCall { buffer, edit }, payload) {
        Some(outcome) => outcome,
        None => {
            // The section may have overwritten the edit's message slot with that of its result.
            payload.message_slot = message_slot;
            part.poll(m, BufferCall { buffer, edit }, payload).unwrap()
        }
    }
}
