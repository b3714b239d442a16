//! The homes of all threads, as parts of layers store them.
//!
//! No call is given an allocator, and none waits.

ghost use Rattle.std.specs.Prelude.{◌≡◌, ◌≤◌, length};
ghost use Rattle.event_log.specs.declared.ids.TheConstants.{THREADS};

use arrayvec::ArrayVec;
use event_log::{CpuId, THREADS};

/// Returns the homes in the form that parts store, by thread. It is given no allocator.
///
/// Requires: there are at most `THREADS` homes.
pub fn kept_homes(homes: &[CpuId]) -> ArrayVec<CpuId, THREADS>
    requires { length homes.now ≤ THREADS }
    ensures { result.items ≡ homes.now }
{
    let mut kept = ArrayVec::new();
    let _coupled = kept.try_extend_from_slice(homes);
    kept
}
