//! Counting in threads: each of several CPUs adds 1 to one number, in critical sections at one
//! table of shared words. `count_table` and `count_or_leave` take memory, start threads and wait
//! for them. `number_in` and `number_left` do none of this.

ghost use Rattle.std.specs.Prelude.{◌≡◌};
ghost use Rattle.cpu_workers.specs.Counts.{counting};

mod counted;
mod sections;
mod tables;
mod tasks;

pub use crate::refusals::WorkerError as CountFault;
pub use counted::{Counted, CountedAt, LockOfKind, number_in, number_left};
use event_log::{BufId, LockId};
use layer_traits::{Edit, LockLaw, Payload, SectionOf, SplitEdit};
use std::marker::PhantomData;
pub use tables::{NotCounted, count_or_leave, count_table};

/// The lock that guards the number.
pub const NUMBER: LockId = LockId::Buffer(BufId(0));

/// The law of the locks of a count, with the types that its clauses name. A function that names
/// such a lock names these types too, since the check looks for them there.
pub type CountLaws = PhantomData<(LockLaw<AddOne>, SectionOf<AddOne>)>;

/// Adds 1 to a number, modulo 2^64, and returns the number before.
#[derive(Clone, Copy, Debug, PartialEq, Eq)]
pub struct AddOne;

impl SplitEdit for AddOne {
    type Block = u64;

    type Out = u64;

    type Request = AddOne;

    type Response = u64;

    ghost protocol = { counting };

    ghost abstract_call = { λ handed payload. handed };

    ghost abstract_answer = { λ out payload. out };

    fn whole(_handed: &AddOne, _payload: &Payload) -> AddOne {
        AddOne
    }

    fn apply_request(_handed: &AddOne, block: &mut u64, _payload: &mut Payload) -> u64 {
        let before = *block;
        *block = before.wrapping_add(1);
        before
    }
}

impl Edit for AddOne {
    fn hand_on(self, _payload: &mut Payload) -> AddOne {
        self
    }

    fn bring_back(response: u64, _payload: &mut Payload) -> u64 {
        response
    }
}
