//! Sleep and wakeup over one-step schedulers, and conditions over one-step queuing locks.
//!
//! From the shared queues upwards all laws are about one list of events, and a layer wraps the edit
//! below and adds one field. Therefore, over lists, each of these layers is its own one-step
//! machine: a second implementation would repeat the layer.
//!
//! No function allocates or blocks.

ghost use Rattle.std.specs.Prelude.{◌≡◌};
ghost use Rattle.plain_layers.specs.Wholes.{IsCoarse};

use crate::qlocks::PlainQLock;
use crate::scheds::PlainSched;
use condvar::Cond;
use layer_traits::{CvEdit, CvLaw, Guarded, SleepLaw, Sleeps, ThreadLayer};
use sleep_wakeup::{SleepEdit, Sleeper};

/// One CPU's part of sleep and wakeup in one step. A section is done in one poll if it wakes no
/// thread of another CPU or its caller falls asleep. Otherwise the next poll forwards the woken
/// thread to its home CPU and returns the result.
pub type PlainSleep<E> = Sleeper<E, PlainSched<SleepEdit<E>>>;

/// One CPU's part of conditions in one step.
pub type PlainCond<G> = Cond<PlainQLock<CvEdit<G>>>;

/// Law: each poll of one-step sleep and wakeup is one call, and not one action.
pub fn sleep_is_whole<E: Sleeps>()
    ensures { IsCoarse ⟦<PlainSleep<E> as ThreadLayer<SleepLaw<E>>>⟧.IsWhole
        ⟦<PlainSleep<E> as ThreadLayer<SleepLaw<E>>>⟧.IsStepwise }
{}

/// Law: the same of one-step conditions.
pub fn cond_is_whole<G: Guarded>()
    ensures { IsCoarse ⟦<PlainCond<G> as ThreadLayer<CvLaw<G>>>⟧.IsWhole
        ⟦<PlainCond<G> as ThreadLayer<CvLaw<G>>>⟧.IsStepwise }
{}
