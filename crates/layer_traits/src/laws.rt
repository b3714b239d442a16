//! What holds of places and of effects. Each law is the contract of a function that does nothing,
//! so that it is proved with the crate.

ghost use Rattle.layer_traits.specs.{Blocks.EffectRuns.EffectsAreRun, Threads.OnePlace.OnePlace};

/// Each existing thread has exactly one place in the whole machine. It runs or is ready on its home
/// CPU, is in one CPU's hand, in one pending queue, asleep in one waiting list, or has ended. A
/// thread that has no home has no place.
pub fn one_place()
    ensures { OnePlace }
{}

/// Effects, fewer than 2^64, that each may follow those before them are a legal sequential history
/// of FIFO buffers, from empty ones on. It leaves what the buffers hold after them.
pub fn effects_are_run()
    ensures { EffectsAreRun }
{}
