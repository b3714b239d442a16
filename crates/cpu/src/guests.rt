//! A thread's guest as its CPU keeps it: the program, its registers, and where it is in a call.

ghost use Rattle.std.specs.Prelude.{◌≡◌, Option, Some, None, if◌then◌else◌};
ghost use Rattle.layer_traits.specs.{declared.calls.{Call.Call, Effect.Effect}, Layers.BufferLaw.{answer_with, reply_with}};
ghost use Rattle.cpu.specs.declared.guests.NextAction.TheVariants.{Calls};

use event_log::BufId;
use guest::{Instruction, Program, Thread};
use layer_traits::{Call, Effect, Ghost, Pass, ReplyKind, message_of};

/// Where a guest is in its program: between instructions, in a message call, or ended.
#[derive(Clone, Copy, Debug, PartialEq, Eq)]
pub enum GuestStage {
    /// It is at an instruction that it has not begun.
    Idle,
    /// It has begun a message call, and the call has not taken effect.
    Begun,
    /// Its message call has taken effect, and has not returned.
    Done,
    /// It has ended.
    Ended,
}

impl GuestStage {
    ghost use Rattle.std.specs.Prelude.{◌≡◌, not};
    ghost use Rattle.cpu.specs.Guests.{is_begun, is_ended};

    /// Returns whether it is inside a call that has not taken effect.
    #[inline(always)]
    pub(crate) fn is_begun(self) -> bool
        ensures { result ≡ is_begun self }
    {
        match self {
            GuestStage::Begun => true,
            GuestStage::Idle | GuestStage::Done | GuestStage::Ended => false,
        }
    }

    /// Returns whether it is not `Ended`.
    #[inline(always)]
    pub(crate) fn is_live(self) -> bool
        ensures { result ≡ not (is_ended self) }
    {
        match self {
            GuestStage::Ended => false,
            GuestStage::Idle | GuestStage::Begun | GuestStage::Done => true,
        }
    }
}

/// What a guest does next.
#[derive(Drop)]
pub enum NextAction {
    /// It ends.
    Finish,
    /// It yields to the other threads of its CPU.
    PassOn,
    /// It executes an instruction that touches only its own line and registers.
    Compute,
    /// It polls this message call.
    Calls(Ghost<Call>),
}

/// A thread's guest: its program, its line and registers, and its stage.
#[derive(Drop)]
pub struct Guest {
    /// Its program.
    pub program: Program,
    /// Its line and registers.
    pub thread: Thread,
    /// Where it is in its program.
    pub stage: GuestStage,
}

impl Guest {
    ghost use Rattle.cpu.specs.Guests.{todo_of, new_guest, computed, passed, guest_ended, after_pass, fresh_effect, polled, is_calling};

    /// Returns a guest before its first instruction.
    pub(crate) fn new(program: Program) -> Guest
        ensures { result ≡ new_guest program }
    {
        Guest {
            program,
            thread: Thread::new(),
            stage: GuestStage::Idle,
        }
    }

    /// Returns what the guest does next.
    #[inline(always)]
    pub(crate) fn todo(&self) -> NextAction
        ensures { result ≡ todo_of self.now }
    {
        match self.thread.next(&self.program) {
            Instruction::Exit => NextAction::Finish,
            Instruction::Yield => NextAction::PassOn,
            Instruction::Send(..) | Instruction::Recv(..) | Instruction::Close(_) => {
                NextAction::Calls(Ghost::of(&self.call()))
            }
            Instruction::Set(..)
            | Instruction::Add(..)
            | Instruction::Sub(..)
            | Instruction::Jnz(..) => NextAction::Compute,
        }
    }

    /// Returns the message call at which the guest is.
    #[inline(always)]
    fn call(&self) -> Call
        ensures { (call : Call) → todo_of self.now ≡ Calls call → result ≡ call }
    {
        let mut call = Call::Recv(BufId(0));
        self.make_call(&mut call);
        call
    }

    /// Makes the message call at which the guest is, if it is at one. Each kind of call is written
    /// in its place, so that none is copied.
    #[inline(always)]
    pub(crate) fn make_call(&self, kept: &mut Call)
        ensures { (call : Call) → todo_of self.now ≡ Calls call → kept.new ≡ call }
    {
        match self.thread.next(&self.program) {
            Instruction::Send(buffer, from, _) => {
                *kept = Call::Send(buffer, self.thread.message(from));
            }
            Instruction::Close(buffer) => *kept = Call::Close(buffer),
            Instruction::Recv(buffer, ..) => *kept = Call::Recv(buffer),
            // It is at no message call.
            Instruction::Exit
            | Instruction::Yield
            | Instruction::Set(..)
            | Instruction::Add(..)
            | Instruction::Sub(..)
            | Instruction::Jnz(..) => {}
        }
    }

    /// Returns whether the guest is inside a message call.
    #[inline(always)]
    pub(crate) fn is_calling(&self) -> bool
        ensures { result ≡ is_calling self.now.stage }
    {
        match self.stage {
            GuestStage::Idle | GuestStage::Ended => false,
            GuestStage::Begun | GuestStage::Done => true,
        }
    }

    /// Executes the guest's instruction, which shares nothing.
    #[inline(always)]
    pub(crate) fn compute(&mut self)
        ensures { self.new ≡ computed self.old }
    {
        self.thread.step_local(&self.program);
    }

    /// Moves the guest past its `yield`.
    #[inline(always)]
    fn pass_on(&mut self)
        ensures { self.new ≡ passed self.old }
    {
        self.thread.after_yield(&self.program);
    }

    /// Ends the guest.
    #[inline(always)]
    fn end(&mut self)
        ensures { self.new ≡ guest_ended self.old }
    {
        self.stage = GuestStage::Ended;
    }

    /// Records that a pass is done which began while this guest's thread ran.
    #[inline(always)]
    pub(crate) fn pass(&mut self, pass: Pass)
        ensures { self.new ≡ after_pass pass self.old }
    {
        match pass {
            Pass::YieldNow => self.pass_on(),
            Pass::End => self.end(),
            Pass::Switch | Pass::Drain | Pass::MakeReady(_) => {}
        }
    }

    /// Returns whether an effect that the guest's call has after a poll was made by that poll.
    #[inline(always)]
    pub(crate) fn awaits(&self) -> bool
        ensures { (effect : Option Effect)
            → (if result then effect else None) ≡ fresh_effect self.now.stage effect }
    {
        match self.stage {
            GuestStage::Done => false,
            GuestStage::Idle | GuestStage::Begun | GuestStage::Ended => true,
        }
    }

    /// Records the result of a poll of the guest's call, where `effect` is the call's effect after
    /// the poll. A received message is in the effect.
    #[inline(always)]
    pub(crate) fn note(&mut self, effect: &Option<Effect>, answer: Option<ReplyKind>)
        ensures { self.new ≡ polled self.old effect.now (answer_with effect.now answer) }
    {
        match (answer, effect) {
            (Some(kind), _) => self.take_reply(kind, effect),
            (None, Some(_)) => self.stage = GuestStage::Done,
            (None, None) => self.stage = GuestStage::Begun,
        }
    }

    /// Continues after a reply of this kind, where `effect` is the call's effect. It is not
    /// inlined, because few polls reply.
    #[inline(never)]
    fn take_reply(&mut self, kind: ReplyKind, effect: &Option<Effect>)
        ensures { self.new ≡ polled self.old effect.now (Some (reply_with kind effect.now)) }
    {
        self.stage = GuestStage::Idle;
        match kind {
            ReplyKind::NoBuffer => {}
            ReplyKind::Sent => self.thread.after_send(&self.program),
            ReplyKind::Got => self.thread.after_recv(&self.program, message_of(effect)),
            ReplyKind::Shut => self.thread.after_close(&self.program),
            ReplyKind::Closed => self.thread.after_closed(&self.program),
        }
    }
}
