//! The verdict on a text, and on an input. `check` takes no memory and does not wait.

ghost use Rattle.std.specs.Prelude.{◌≡◌, ◌≢◌, ◌+◌, ◌++◌, ◌<◌, ◌≤◌, ◌^◌, ◌∷◌, ℕ, List, [], length, drop, IfErr, IfOk, OnOk};
ghost use Rattle.std.specs.{declared.io.ErrorKind.TheVariants.Interrupted, Io.KnownBytes.IsAtEnd};
ghost use Rattle.tracer.specs.{declared.verdicts.Verdict.TheVariants.Yes as SaysYes, Judging.lines_in, Judging.verdict_of};
ghost use Rattle.tracer.specs.{Verdicts.IsTraceOfRun, Verdicts.IsVerdictOn};
ghost use Rattle.tracer.specs.declared.checking.InputFault.TheVariants.{NoMemory as WantOfMemory, ReadFault as FaultOfRead};

use crate::common_lines::lines_end;
use crate::judge::Judge;
use crate::laws::check_is_sound;
use crate::parts::Part;
use crate::reads::ReadFailed;
use crate::verdicts::{Reason, Verdict};
use event_log::NoMemory;
use std::alloc::Global;
use std::io;
use std::io::Read;
use thiserror::Error;

/// The judge of a text that comes in parts: what it knows of the lines so far, the number of the
/// next line, counted from 1, and the reason against that line where it has a fault. Then no line
/// counts any more.
#[derive(Drop)]
pub struct TextJudge {
    judge: Judge,
    line: usize,
    fault: Option<Reason>,
}

impl TextJudge {
    ghost use Rattle.tracer.specs.Parts.{verdict_behind};

    /// The judge before any text.
    pub fn new() -> TextJudge
        ensures judged { (text : List ℕ) → verdict_behind result text ≡ verdict_of text }
        ensures line { result.line ≡ 1 }
    {
        TextJudge {
            judge: Judge::new(),
            line: 1,
            fault: None,
        }
    }

    /// Judges the lines that end in the part, up to the first with a fault. Gives how many bytes of
    /// the part are judged: what stands after them is the beginning of a line.
    ///
    /// Requires: the number of a line stays below 2^64.
    #[tactic(auto, using(crate::proofs::PartLemmas::none_taken, crate::proofs::PartLemmas::steps_shorter))]
    pub fn take_lines(&mut self, part: &[u8]) -> usize
        requires { self.old.line + length part.now < 2 ^ 64 }
        ensures inside { result ≤ length part.now }
        ensures judged { (more : List ℕ)
            → verdict_behind self.old (part.now ++ more)
            ≡ verdict_behind self.new (drop result part.now ++ more) }
        ensures rest { lines_in (drop result part.now) ≡ drop result part.now ∷ [] }
    {
        if self.fault.is_some() {
            return part.len();
        }
        let end = lines_end(part);
        let mut rest = &part[..end];
        while !rest.is_empty() {
            let (judged, behind) = self.judge.next_line(rest);
            if let Err(reason) = judged {
                self.fault = Some(reason);
                return part.len();
            }
            self.line += 1;
            rest = behind;
        }
        end
    }

    /// The verdict, where the text ends with this beginning of a line.
    pub fn verdict(&self, rest: &[u8]) -> Verdict
        requires { lines_in rest.now ≡ rest.now ∷ [] }
        ensures { result ≡ verdict_behind self.now rest.now }
    {
        if let Some(reason) = self.fault {
            return Verdict::No(self.line, reason);
        }
        if self.judge.is_done() && rest.is_empty() {
            return Verdict::Yes;
        }
        Verdict::No(self.line, Reason::Spelling)
    }
}

/// Judges a text: whether it is the trace text of a run of first-in first-out buffers that ends in
/// what the text says is left. If not, the answer is the first line with a fault, counted from 1,
/// and the first reason against it. It knows no plan: whether a thread stays on one CPU, or whether
/// the calls are a program's, it does not test. After a yes, what was put into each buffer is what
/// was taken out, in that order, and then what is left. It takes no memory.
pub fn check(text: &[u8]) -> Verdict
    ensures verdict { result ≡ verdict_of text.now }
    ensures run { result ≡ SaysYes → IsTraceOfRun text.now }
{
    check_is_sound();
    judged(text)
}

// The verdict, line by line.
fn judged(text: &[u8]) -> Verdict
    ensures { result ≡ verdict_of text.now }
{
    let mut judge = TextJudge::new();
    let taken = judge.take_lines(text);
    judge.verdict(&text[taken..])
}

/// Why an input was not judged.
#[derive(Clone, Copy, Debug, PartialEq, Eq, Error)]
pub enum InputFault {
    /// An allocation was refused.
    #[error("NoMemory(1)")]
    NoMemory(NoMemory),
    /// A read failed, of this kind; or the input does not end.
    #[error("ReadFault(7)")]
    ReadFault(io::ErrorKind),
}

impl From<NoMemory> for InputFault {
    ghost from_gives = { λ refused fault. fault ≡ WantOfMemory refused };

    fn from(refused: NoMemory) -> InputFault {
        InputFault::NoMemory(refused)
    }
}

impl From<ReadFailed> for InputFault {
    ghost from_gives = { λ failed fault. fault ≡ FaultOfRead failed.kind };

    fn from(failed: ReadFailed) -> InputFault {
        InputFault::ReadFault(failed.kind())
    }
}

/// Judges all that is left of an input, as [`check`] judges a text. It is read and judged in parts,
/// and of what is judged none is kept: its memory is twice the longest line, and 64 KB where no
/// line is longer. Behind a line with a fault the rest is read all the same, so a verdict is given
/// only where the whole input could be read. It takes memory, and may wait for its input.
///
/// Errors: `NoMemory` if an allocation was refused. `ReadFault` if a read failed, for another
/// reason than that a signal interrupted it, or if the input has 2^64 lines. Then some of the input
/// is read.
pub fn check_input<R: Read>(alloc: Global, input: &mut R) -> Result<Verdict, InputFault>
    ensures verdict { IfOk result (λ verdict. IsVerdictOn (R.remaining input.old) verdict) }
    ensures end { OnOk result (IsAtEnd (R.remaining input.new)) }
    ensures retried { IfErr result (λ fault. fault ≢ FaultOfRead Interrupted) }
{
    check_is_sound();
    let mut part = Part::new(alloc)?;
    let mut judge = TextJudge::new();
    for _ in 0..u64::MAX {
        let ended = part.fill(input)?;
        if judge.line > usize::MAX - part.held().len() {
            return Err(InputFault::ReadFault(io::ErrorKind::FileTooLarge));
        }
        let taken = judge.take_lines(part.held());
        part.drop_front(taken);
        if ended {
            return Ok(judge.verdict(part.held()));
        }
        part.make_room()?;
    }
    Err(InputFault::ReadFault(io::ErrorKind::TimedOut))
}
