//! What is done of an order, and what each order reads and prints. `read_all` takes memory. No call
//! waits, unless the reader or the sink's writer does.

ghost use Rattle.std.specs.{Prelude.{◌≡◌, IfOk, false, true}, List.flat_map};
ghost use Rattle.{tracer.specs.Sinks.{has_failed, is_flushed}, mctower.specs.{Output.between, Serve.{Puts, ReadsAll}}};

use crate::refusals::Refusal;
use crate::refusals::no_memory::read_refused;
use crate::tell::pieces::print;
use crate::tell::state_lines::State;
use cpu_workers::Stop;
use cpu_workers::counting::Counted;
use std::alloc::Global;
use std::io::{Read, Write};
use tracer::{Sink, WriteFault};

/// What serving an order returned, if it is done.
#[derive(Drop)]
pub enum Done {
    /// This exit status, and no report.
    Exit(u8),
    /// A count over the owned machine and one over the shared table, and no report.
    BothCounted(Counted, Counted),
    /// A successful run, whose system is in this state, which will be reported.
    Ran(State),
    /// A successful run in threads, whose workers stopped so, by CPU, which will be reported.
    Worked(Vec<Stop>),
}

/// Writes the pieces and flushes; then this is done.
///
/// Requires: the sink has not failed.
///
/// Errors: `WriteFault` if a write or the flush failed.
pub(crate) fn write_output<O: Write>(
    out: &mut Sink<O>,
    pieces: &[&[u8]],
    done: Done,
) -> Result<Done, Refusal>
    requires { has_failed out.old ≡ false }
    ensures put { Puts done (flat_map (λ p. p.now) pieces.now) result
        (between O.contents out.old out.new) }
    ensures flushed { IfOk result (λ _. is_flushed out.new ≡ true) }
{
    match print(out, pieces) {
        Ok(()) => Ok(done),
        Err(WriteFault) => Err(Refusal::WriteFault),
    }
}

/// Reads all of the input.
///
/// Errors: `NoMemory` if an allocation failed. `ReadFault` if a read failed.
pub(crate) fn read_all<R: Read>(alloc: Global, input: &mut R) -> Result<Vec<u8>, Refusal>
    ensures { ReadsAll (R.remaining input.old) result }
{
    let mut bytes = Vec::new(alloc);
    match input.read_to_end(&mut bytes) {
        Ok(_) => Ok(bytes),
        Err(error) => Err(read_refused(error.kind())),
    }
}
