//! The sections of one worker that counts.

ghost use Rattle.std.specs.Prelude.{◌≡◌, ◌+◌, ◌<◌, None, IsSome};
ghost use Rattle.{event_log.specs.{declared.ids.CpuId.CpuId, WordsLog.{lock_phase, Idle}}, cpu_workers.specs.Counts.{HasMade, made}};
ghost use Rattle.{layer_traits.specs.Protocols.OneLock.opened, table_machine.specs.SeatViews.IsOf};

use crate::counting::{AddOne, CountLaws, NUMBER};
use crate::pauses::{SPINS, pause};
use event_log::{CpuId, LockId};
use layer_traits::{LockCall, LockLayer, Payload};
use spinlock::Ticket;
use std::marker::PhantomData;
use std::sync::Wait;
use table_machine::{Key, Seat, Shared, TableWords};

// Does one section that adds 1: polls until it returns. The payload holds nothing that counts.
fn add_one<L: LockLayer<AddOne>, R: Wait>(
    rt: &R,
    part: &mut L,
    machine: &mut L::Machine,
    lock: LockId,
    payload: &mut Payload,
)
    requires coupled { L.Coupled part.old machine.old }
    requires rests { L.under_way part.old ≡ None }
    requires lock { IsSome (L.opening machine.old lock) }
    requires room { (m : _) → 0 < L.room m }
    ensures coupled { L.Coupled part.new machine.new }
    ensures rests { L.under_way part.new ≡ None }
    ensures cpu { L.cpu_of part.new ≡ L.cpu_of part.old }
    ensures opening { L.opening machine.new ≡ L.opening machine.old }
    ensures machine_id { L.machine_id machine.new ≡ L.machine_id machine.old }
    ensures acts { (c : CpuId) → L.ActsFor machine.old c → L.ActsFor machine.new c }
    ensures outside { L.IsOutside machine.new (L.cpu_of part.old) }
    ensures made { made (L.cpu_of part.old) lock (L.history machine.new)
        ≡ made (L.cpu_of part.old) lock (L.history machine.old) + 1 }
{
    let mut spins = SPINS;
    for _ in rt.forever() {
        let edit = AddOne;
        if part
            .poll(machine, LockCall { lock, edit }, payload)
            .is_some()
        {
            return;
        }
        // A poll that does not return is inside its section: after a poll that acquired the lock,
        // the next one releases it.
        spins = pause(true, false, spins);
    }
    unreachable!()
}

// Does so many sections of this CPU at its seat, which add 1 each.
fn work_at<L: LockLayer<AddOne> + Drop, R: Wait>(
    rt: &R,
    cpu: CpuId,
    seat: &mut L::Machine,
    times: u64,
)
    requires acts { L.ActsFor seat.old cpu }
    requires outside { L.IsOutside seat.old cpu }
    requires lock { IsSome (L.opening seat.old NUMBER) }
    requires room { (m : _) → 0 < L.room m }
    ensures acts { L.ActsFor seat.new cpu }
    ensures outside { L.IsOutside seat.new cpu }
    ensures machine_id { L.machine_id seat.new ≡ L.machine_id seat.old }
    ensures made { made cpu NUMBER (L.history seat.new)
        ≡ made cpu NUMBER (L.history seat.old) + times }
{
    let mut part = L::part(cpu, &[], 1);
    let mut payload = Payload::new();
    for _ in 0..times {
        add_one(rt, &mut part, seat, NUMBER, &mut payload);
    }
}

/// Does so many sections of the key's CPU, which add 1 each, whatever the words of the table's
/// locks are.
///
/// Requires: the key is one of this table, its CPU neither waits at a lock nor holds one, and the
/// lock of the number is there.
pub(crate) fn work<K: TableWords, R: Wait>(
    rt: &R,
    shared: &Shared<AddOne, K>,
    key: Key<AddOne>,
    times: u64,
) -> Key<AddOne>
    requires of { IsOf shared.now key }
    requires lock { IsSome (opened key.start NUMBER) }
    requires outside { lock_phase key.cpu key.history ≡ Idle }
    ensures { HasMade NUMBER key result times }
{
    let cpu = key.cpu();
    let _laws: CountLaws = PhantomData;
    let mut seat = shared.seat(key);
    work_at::<Ticket<Seat<'_, AddOne, K>>, R>(rt, cpu, &mut seat, times);
    seat.back()
}
