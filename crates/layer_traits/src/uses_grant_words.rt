//! Words whose log is translated into one of grant words.
//!
//! Only `open` allocates memory, and no call waits.

ghost use Rattle.std.specs.Prelude.{◌≡◌, ◌<◌, [], IfOk};

use crate::edits::SplitEdit;
use crate::grant_words::GrantWords;
use crate::owned_grant_words::OwnedGrantWords;
use crate::owned_words::OwnedWords;
use crate::words::Words;
use event_log::{CpuId, LockId, NoMemory};
use std::alloc::Global;

/// A machine whose locks have grant words. It stores its log in the events of a ticket lock, as it
/// would with two words to a lock. That log, translated into events of grant words, is legal for
/// them. The machine therefore meets [`GrantWords`] by what it does as [`Words`].
pub trait UsesGrantWords: Words {}

impl<W: UsesGrantWords> GrantWords for W {
    ghost use Rattle.layer_traits.specs.{Protocols.AsGrants.as_grants, Laws.AsGrants.as_grants_come};

    type Edit = W::Edit;

    type Mark = W::Mark;

    ghost edit_in = { λ mark. W.edit_in mark };

    ghost opening = { λ w. W.opening w };

    ghost history = { λ w. as_grants (W.history w) };

    ghost ActsFor = { λ w c. W.ActsFor w c };

    ghost room = { λ w. W.room w };

    ghost machine_id = { λ w. W.machine_id w };

    #[inline(always)]
    fn mark(handed: <W::Edit as SplitEdit>::Request, edit: W::Edit) -> W::Mark {
        <W as Words>::mark(handed, edit)
    }

    #[inline(always)]
    fn take(&mut self, cpu: CpuId, lock: LockId) -> u64 {
        self.draw(cpu, lock)
    }

    #[inline(always)]
    fn peek(
        &mut self,
        cpu: CpuId,
        lock: LockId,
        ticket: u64,
    ) -> Option<<W::Edit as SplitEdit>::Block> {
        self.look(cpu, lock, ticket)
    }

    #[inline(always)]
    fn spin(&mut self, cpu: CpuId, lock: LockId, ticket: u64, steps: &[CpuId]) -> usize {
        <W as Words>::spin(self, cpu, lock, ticket, steps)
    }

    #[inline(always)]
    fn give(
        &mut self,
        cpu: CpuId,
        lock: LockId,
        block: <W::Edit as SplitEdit>::Block,
        mark: W::Mark,
    ) {
        self.free(cpu, lock, block, mark);
    }

    ghost legal = { λ w c acts. as_grants_come (W.Edit.protocol.allowed (W.opening w)) (W.history w) (W.legal w c acts) };
}

impl<W: OwnedWords + UsesGrantWords> OwnedGrantWords for W {
    ghost use Rattle.{event_log.specs.declared.ids.TheConstants.CPUS, layer_traits.specs.{Laws.AsGrants.home_as_grants, Protocols.OneLock.AreDistinct}};
    ghost use Rattle.layer_traits.specs.Protocols.{OneLock.opened, WordsProtocol.words_legal};

    ghost block_at = { λ w lock. W.block_at w lock };

    fn open(
        alloc: Global,
        blocks: Vec<(LockId, <W::Edit as SplitEdit>::Block)>,
        room: usize,
    ) -> Result<Self, NoMemory>
        requires distinct { AreDistinct blocks.items }
        ensures history { IfOk result (λ w. ⟦<W as GrantWords>⟧.history w ≡ []) }
        ensures opening { IfOk result (λ w. ⟦<W as GrantWords>⟧.opening w ≡ opened blocks.items) }
        ensures room { IfOk result (λ w. ⟦<W as GrantWords>⟧.room w ≡ room) }
        ensures acts { IfOk result (λ w. (c : _) → c.0 < CPUS → ⟦<W as GrantWords>⟧.ActsFor w c) }
    {
        <W as OwnedWords>::open(alloc, blocks, room)
    }

    fn block(&self, lock: LockId) -> Option<&<W::Edit as SplitEdit>::Block> {
        <W as OwnedWords>::block(self, lock)
    }

    ghost blocks = { λ w c lock acts there. home_as_grants W.Edit.protocol.edited (W.opening w) (W.history w)
        (words_legal (W.Edit.protocol.allowed (W.opening w)) (W.history w) (W.legal w c acts)) lock (W.block_at w lock) (W.blocks w c lock acts there) };
}
