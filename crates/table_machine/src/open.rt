//! How a table is made, and its keys are dealt. `open` allocates. It does not block.

ghost use Rattle.std.specs.Prelude.{◌≡◌, ◌+◌, ◌-◌, ◌<◌, ◌≤◌, ◌^◌, [], length, map, replicate, vec_len, vec_capacity, IfOk};
ghost use Rattle.{event_log.specs.declared.ids.{LockId.LockId, TheConstants.{CPUS, LOCKS}}, layer_traits.specs.Protocols.OneLock.AreDistinct};
ghost use Rattle.table_machine.specs.{Layout.{AreFirst, word_count, AreRanks, IsLaidOut}, Rule.fresh_home, Views.{caught_up, cpus_from}};
ghost use Rattle.table_machine.specs.SeatViews.{new_seat_view, new_seat_views};

use crate::keys::Key;
use crate::plays::Deals;
use crate::rule::{Opening, Token, Whole};
use crate::shared::Shared;
use crate::table_words::TableWords;
use crate::views::Slot;
use event_log::{CPUS, CpuId, LOCKS, LockId, NoMemory};
use layer_traits::SplitEdit;
use std::alloc::{AllocError, Global};
use std::snapshot::Snapshot;

// What is laid out before the table is made.
struct Layout<E: SplitEdit> {
    words: Vec<u64>,
    ranks: Vec<usize>,
    locks: Vec<LockId>,
    homes: Vec<Slot<E, E::Block>>,
    returned: Vec<(LockId, E::Block)>,
}

impl<E: SplitEdit, K: TableWords> Shared<E, K> {
    /// Returns a table with these locks and blocks, of which there may be none, and one key for
    /// each CPU, from CPU 0 upwards. No event has occurred yet: the log of each key is empty.
    ///
    /// Requires: no lock occurs twice, and there are at most `CPUS` CPUs.
    ///
    /// Errors: `NoMemory` if an allocation failed; the blocks are dropped and nothing was made.
    pub fn open(
        alloc: Global,
        blocks: Vec<(LockId, E::Block)>,
        cpus: u8,
    ) -> Result<(Shared<E, K>, Vec<Key<E>>), NoMemory>
        requires distinct { AreDistinct blocks.items }
        requires cpus { cpus ≤ CPUS }
        ensures start { IfOk result (λ r. r.0.start ≡ blocks.items) }
        ensures cpus { IfOk result (λ r. r.0.cpus ≡ cpus) }
        ensures keys { IfOk result (λ r. r.1.items ≡ new_seat_views r.0 cpus) }
    {
        let (shared, dealer) = opened_table(alloc, blocks, cpus)?;
        let keys = shared.deal_all(alloc, dealer, cpus)?;
        Ok((shared, keys))
    }

    // Deals the keys of all CPUs.
    fn deal_all(
        &self,
        alloc: Global,
        mut dealer: Token<E>,
        cpus: u8,
    ) -> Result<Vec<Key<E>>, AllocError>
        requires cpus { cpus ≡ self.now.cpus }
        requires table { dealer.table_id ≡ self.now.table }
        requires dealer { dealer.me ≡ (caught_up self.now.start (cpus_from 0 cpus) [], []) }
        ensures { IfOk result (λ keys. keys.items ≡ new_seat_views self.now cpus) }
    {
        let mut keys = Vec::with_capacity(alloc, usize::from(cpus))?;
        for cpu in 0..cpus {
            keys.push(self.deal(&mut dealer, cpu))?;
        }
        Ok(keys)
    }

    // Deals the key of the dealer's first CPU.
    fn deal(&self, dealer: &mut Token<E>, cpu: u8) -> Key<E>
        requires cpu { cpu < self.now.cpus }
        requires table { dealer.old.table_id ≡ self.now.table }
        requires dealer { dealer.old.me
            ≡ (caught_up self.now.start (cpus_from cpu (self.now.cpus - cpu)) [], []) }
        ensures key { result ≡ new_seat_view self.now cpu }
        ensures table { dealer.new.table_id ≡ self.now.table }
        ensures dealer { dealer.new.me
            ≡ (caught_up self.now.start (cpus_from (cpu + 1) (self.now.cpus - (cpu + 1))) [], []) }
    {
        let token = self.table.shared.split_seat::<Deals>(dealer);
        Key {
            token,
            cpu: CpuId(cpu),
            ticket: 0,
        }
    }
}

// Returns the table, with the seat that acts for all its CPUs.
fn opened_table<E: SplitEdit, K: TableWords>(
    alloc: Global,
    blocks: Vec<(LockId, E::Block)>,
    cpus: u8,
) -> Result<(Shared<E, K>, Token<E>), AllocError>
    requires distinct { AreDistinct blocks.items }
    requires cpus { cpus ≤ CPUS }
    ensures start { IfOk result (λ r. r.0.start ≡ blocks.items) }
    ensures cpus { IfOk result (λ r. r.0.cpus ≡ cpus) }
    ensures table { IfOk result (λ r. r.1.table_id ≡ r.0.table) }
    ensures dealer { IfOk result
        (λ r. r.1.me ≡ (caught_up blocks.items (cpus_from 0 cpus) [], [])) }
{
    let about = Opening {
        cpus,
        blocks: Snapshot::of(&blocks),
    };
    let Layout {
        words,
        ranks,
        locks,
        homes,
        returned,
    } = laid_out::<E, K>(alloc, blocks)?;
    match Whole::<E, K>::new(alloc, words.as_slice(), homes, &about) {
        Ok(made) => Ok(furnished(made, ranks, locks, returned)),
        Err(_) => Err(AllocError),
    }
}

// Returns the table with the row of ranks beside it, and the room for the blocks that `close`
// returns.
fn furnished<E: SplitEdit, K: TableWords>(
    made: (Whole<E, K>, Token<E>),
    ranks: Vec<usize>,
    locks: Vec<LockId>,
    blocks: Vec<(LockId, E::Block)>,
) -> (Shared<E, K>, Token<E>)
    requires laid { IsLaidOut made.0.shared.key.blocks.value.items made.0.shared.table_id.words
        made.0.shared.table_id.slots ranks.items locks.items }
    requires empty { blocks.items ≡ [] }
    requires room { length made.0.shared.key.blocks.value.items ≤ vec_capacity blocks }
    requires distinct { AreDistinct made.0.shared.key.blocks.value.items }
    ensures start { result.0.start ≡ made.0.shared.key.blocks.value.items }
    ensures cpus { result.0.cpus ≡ made.0.shared.key.cpus }
    ensures table { result.0.table ≡ made.0.shared.table_id }
    ensures dealer { result.1 ≡ made.1 }
{
    let (table, dealer) = made;
    let shared = Shared {
        table,
        ranks,
        locks,
        blocks,
    };
    (shared, dealer)
}

fn laid_out<E: SplitEdit, K: TableWords>(
    alloc: Global,
    blocks: Vec<(LockId, E::Block)>,
) -> Result<Layout<E>, AllocError>
    ensures words { IfOk result
        (λ r. AreFirst K.kind.opens (length blocks.items) (length blocks.items) r.words.items) }
    ensures small { IfOk result (λ r. word_count (length blocks.items) < 2 ^ 64) }
    ensures row { IfOk result (λ r. length r.ranks.items ≡ LOCKS) }
    ensures ranks { IfOk result (λ r. AreRanks r.ranks.items blocks.items) }
    ensures locks { IfOk result (λ r. r.locks.items ≡ map (λ (o : LockId × _). o.0) blocks.items) }
    ensures homes { IfOk result
        (λ r. r.homes.items ≡ map (λ (o : LockId × _). fresh_home o.1) blocks.items) }
    ensures none { IfOk result (λ r. r.returned.items ≡ []) }
    ensures room { IfOk result (λ r. length blocks.items ≤ vec_capacity r.returned) }
{
    let words = first_words::<K>(alloc, blocks.len())?;
    let ranks = ranks_of(alloc, blocks.as_slice())?;
    let returned = Vec::with_capacity(alloc, blocks.len())?;
    let (locks, homes) = parted(alloc, blocks)?;
    Ok(Layout {
        words,
        ranks,
        locks,
        homes,
        returned,
    })
}

// Returns the words of so many locks at the start.
fn first_words<K: TableWords>(alloc: Global, locks: usize) -> Result<Vec<u64>, AllocError>
    ensures words { IfOk result (λ v. AreFirst K.kind.opens locks locks v.items) }
    ensures small { IfOk result (λ v. word_count locks < 2 ^ 64) }
{
    let mut words = zero_words(alloc, locks)?;
    for rank in 0..locks {
        words[8 * ((CPUS + 1) * rank + 1) + 8] = K::opens();
    }
    Ok(words)
}

// Returns the words of so many locks, all 0.
fn zero_words(alloc: Global, locks: usize) -> Result<Vec<u64>, AllocError>
    ensures words { IfOk result (λ v. v.items ≡ replicate (word_count locks) 0) }
    ensures small { IfOk result (λ v. word_count locks < 2 ^ 64) }
{
    let mut words = vec![in alloc; 0; 1]?;
    for _ in 0..locks {
        words.extend_from_slice(&[0; 8 * (CPUS + 1)])?;
    }
    Ok(words)
}

// Returns a row that gives the rank of each lock.
fn ranks_of<B>(alloc: Global, blocks: &[(LockId, B)]) -> Result<Vec<usize>, AllocError>
    ensures row { IfOk result (λ v. length v.items ≡ LOCKS) }
    ensures ranks { IfOk result (λ v. AreRanks v.items blocks.now) }
{
    let mut ranks = vec![in alloc; 0; LOCKS]?;
    let mut rank = blocks.len();
    while rank > 0 {
        rank -= 1;
        ranks[blocks[rank].0.number()] = rank;
    }
    Ok(ranks)
}

// Returns the locks, and their slots with the opening blocks.
fn parted<E: SplitEdit>(
    alloc: Global,
    blocks: Vec<(LockId, E::Block)>,
) -> Result<(Vec<LockId>, Vec<Slot<E, E::Block>>), AllocError>
    ensures locks { IfOk result (λ r. r.0.items ≡ map (λ (o : LockId × _). o.0) blocks.items) }
    ensures homes { IfOk result
        (λ r. r.1.items ≡ map (λ (o : LockId × _). fresh_home o.1) blocks.items) }
{
    let mut locks = Vec::with_capacity(alloc, blocks.len())?;
    let mut homes = Vec::with_capacity(alloc, blocks.len())?;
    for (lock, block) in blocks {
        locks.push(lock)?;
        homes.push(Slot::new(block))?;
    }
    Ok((locks, homes))
}
