//! Natives at one table of shared words. `run_native` takes memory, starts threads and waits for
//! them.

ghost use Rattle.std.specs.Prelude.{◌≡◌, ◌<◌, ◌≤◌, [], All, IfOk, length, map, vec_capacity};
ghost use Rattle.{event_log.specs.{declared.ids.TheConstants.{BUFFERS, CPUS, THREADS}, Buffers.IsCapacity}, layer_traits.specs.Protocols.OneLock.opened};
ghost use Rattle.{layer_traits.specs.Views.Openings.AreOpenable, table_machine.specs.SeatViews.{ClosesTable, Covers, IsOver, new_seat_views}};
ghost use Rattle.cpu_workers.specs.{Closing.tower_rules, Natives.{HaveLeftKeys, HaveRun, OpensWith, left_among, own_homes}};

use crate::bells::Bells;
use crate::natives::Native;
use crate::natives::seating::{LeftNative, call_over};
use crate::refusals::WorkerError;
use crate::workers::report::items_at;
use crate::workers::run::seats_at;
use crate::workers::seats::TowerSeat;
use arrayvec::ArrayVec;
use event_log::{BufId, CAPACITY, CPUS, CpuId, LockId, Msg, NoMemory};
use ipc_calls::{TowerBlock, TowerEdit, TowerLockLaws, tower_blocks};
use layer_traits::SplitEdit;
use spinlock::Ticket;
use std::alloc::{AllocError, Global};
use std::marker::PhantomData;
use std::sync::Wait;
use std::thread::Threads;
use table_machine::{Key, Shared, TableWords, TicketWords};

/// What natives leave.
#[derive(Drop)]
pub struct NativeReport<N: Drop> {
    /// The natives after they ran, in their order.
    pub natives: Vec<N>,
    /// Each lock of the tower, with the block that it guards.
    pub blocks: Vec<(LockId, TowerBlock)>,
}

impl<N: Drop> NativeReport<N> {
    ghost use Rattle.cpu_workers.specs.Seating.{items_of_block};

    /// Returns what is left in `buffer`, front first. If there is no such buffer, it returns
    /// nothing.
    pub fn items(&self, buffer: BufId) -> ArrayVec<Msg, CAPACITY>
        ensures { result.items ≡ items_of_block self.now.blocks.items buffer }
    {
        items_at(&self.blocks, LockId::Buffer(buffer))
    }
}

// What natives leave at a table, by CPU: their keys and themselves.
#[derive(Drop)]
struct NativeBack<E: SplitEdit, N: Drop> {
    keys: Vec<Key<E>>,
    natives: Vec<N>,
}

impl<E: SplitEdit, N: Drop> NativeBack<E, N> {
    // Makes room for what so many natives leave.
    fn with_capacity(alloc: Global, count: usize) -> Result<NativeBack<E, N>, AllocError>
        ensures keys { IfOk result (λ b. (b.keys.items ≡ []) × (count ≤ vec_capacity b.keys)) }
        ensures natives { IfOk result
            (λ b. (b.natives.items ≡ []) × (count ≤ vec_capacity b.natives)) }
    {
        Ok(NativeBack {
            keys: Vec::with_capacity(alloc, count)?,
            natives: Vec::with_capacity(alloc, count)?,
        })
    }
}

// Leaves the seats, and puts what the natives left into the lists, which have room.
fn parted<K: TableWords, N: Drop>(
    left: Vec<LeftNative<TowerSeat<'_, K>, N>>,
    back: NativeBack<TowerEdit, N>,
) -> NativeBack<TowerEdit, N>
    requires keys { (back.keys.items ≡ []) × (length left.items ≤ vec_capacity back.keys) }
    requires natives { (back.natives.items ≡ []) × (length left.items ≤ vec_capacity back.natives) }
    ensures keys { result.keys.items ≡ map (λ x. x.machine) left.entry.items }
    ensures natives { result.natives.items ≡ map (λ x. x.native) left.entry.items }
{
    let NativeBack {
        mut keys,
        mut natives,
    } = back;
    for one in left {
        let LeftNative { machine, native } = one;
        let key = machine.back();
        keys.push_reserved(key);
        natives.push_reserved(native);
    }
    NativeBack { keys, natives }
}

// Runs each native at its seat of ticket locks.
fn call_tickets<N: Native + Drop + Send, R: Threads + Wait + Sync>(
    rt: &R,
    alloc: Global,
    caps: &[u8],
    homes: &[CpuId],
    shared: &Shared<TowerEdit, TicketWords>,
    keys: Vec<Key<TowerEdit>>,
    natives: Vec<N>,
) -> Result<NativeBack<TowerEdit, N>, WorkerError>
    requires few { length natives.items ≤ CPUS }
    requires buffers { length caps.now ≤ BUFFERS }
    requires threads { length homes.now ≤ THREADS }
    requires needs { All (λ n. N.Needs n caps.now) natives.items }
    requires keys { keys.items ≡ new_seat_views shared.now (length natives.items) }
    requires opens { OpensWith (length natives.items) caps.now homes.now (opened shared.now.start) }
    ensures { IfOk result (λ b. HaveLeftKeys N.Kept caps.now shared.now natives.items
        b.natives.items b.keys.items) }
{
    let back = NativeBack::with_capacity(alloc, natives.len())?;
    let bells = Bells::new(alloc, natives.len())?;
    let seats = seats_at(alloc, shared, &bells, keys)?;
    let _laws: TowerLockLaws = PhantomData;
    let left = call_over::<Ticket<TowerSeat<'_, TicketWords>>, N, R>(
        rt, alloc, caps, homes, seats, natives,
    )?;
    Ok(parted(left, back))
}

// Returns the homes of so many natives' threads: each home is the CPU of the thread's number.
fn native_homes(count: usize) -> ArrayVec<CpuId, CPUS>
    requires { count ≤ CPUS }
    ensures { result.items ≡ own_homes count }
{
    let mut homes = ArrayVec::new();
    for number in 0..count {
        homes.push(CpuId(number as u8));
    }
    homes
}

// Opens a table of the tower's locks, with the key of each CPU.
fn table_for<K: TableWords>(
    alloc: Global,
    cpus: u8,
    caps: &[u8],
    homes: &[CpuId],
) -> Result<(Shared<TowerEdit, K>, Vec<Key<TowerEdit>>), NoMemory>
    requires { AreOpenable cpus caps.now homes.now }
    ensures cpus { IfOk result (λ r. r.0.cpus ≡ cpus) }
    ensures opens { IfOk result (λ r. OpensWith cpus caps.now homes.now (opened r.0.start)) }
    ensures keys { IfOk result (λ r. r.1.items ≡ new_seat_views r.0 cpus) }
{
    let blocks = tower_blocks(alloc, cpus, caps, homes)?;
    Shared::open(alloc, blocks, cpus)
}

// Closes the table of natives whose threads were joined, and returns what they left.
fn closed<K: TableWords, N: Drop>(
    shared: Shared<TowerEdit, K>,
    back: NativeBack<TowerEdit, N>,
) -> NativeReport<N>
    requires covers { Covers shared.cpus back.keys.items }
    requires keys { All (IsOver shared) back.keys.items }
    ensures natives { result.natives ≡ back.natives }
    ensures closes { ClosesTable tower_rules shared back.keys.items result.blocks.items }
{
    let NativeBack { keys, natives } = back;
    NativeReport {
        natives,
        blocks: shared.close(keys),
    }
}

/// Runs natives, each in its own thread and on its own CPU. They share one table of shared words
/// with a buffer of each of these capacities. Returns the natives, in their order, with what is
/// left in the buffers. The locks of the table are ticket locks.
///
/// Each native calls as the thread of its CPU's number, and keeps what it promises of itself and of
/// its calls. The calls of all have one order. It keeps each native's order, is a legal history of
/// FIFO buffers and ends in what is left. Therefore the values put into a buffer are, in that
/// order, the values taken from it, followed by what is left in it.
///
/// It waits for its natives, so it need not return. All memory is taken and all threads are known
/// to have started before any call is made.
///
/// Requires: from 1 to `CPUS` natives, at most `BUFFERS` buffers, each for 1 to `CAPACITY`
/// messages, and the buffers are as each native requires.
///
/// Errors: `NoMemory` if an allocation failed, and `NoThread` if a thread could not be started.
/// Then no call was made, and the threads that were started are joined.
pub fn run_native<N: Native + Drop + Send, R: Threads + Wait + Sync>(
    rt: &R,
    alloc: Global,
    caps: &[u8],
    natives: Vec<N>,
) -> Result<NativeReport<N>, WorkerError>
    requires some { 0 < length natives.items }
    requires few { length natives.items ≤ CPUS }
    requires buffers { length caps.now ≤ BUFFERS }
    requires capacities { All IsCapacity caps.now }
    requires needs { All (λ n. N.Needs n caps.now) natives.items }
    ensures { IfOk result (λ r. HaveRun N.Kept caps.now natives.items r.natives.items
        (left_among (length caps.now) r.blocks.items)) }
{
    let count = natives.len();
    let homes = native_homes(count);
    let open = table_for::<TicketWords>(alloc, count as u8, caps, homes.as_slice())?;
    let (shared, keys) = open;
    let back = call_tickets(rt, alloc, caps, homes.as_slice(), &shared, keys, natives)?;
    Ok(closed(shared, back))
}
