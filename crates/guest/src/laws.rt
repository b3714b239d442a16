//! What holds of every program, as functions without work: each promise is a law.

ghost use Rattle.std.specs.Prelude.{ℕ, ◌<◌, ◌≤◌, ◌^◌};
ghost use Rattle.guest.specs.{declared.instructions.Instruction.Instruction, Laws.StepsKeepCalls, Spelling.HasOneLine};

/// The law of steps: after each step of a thread, the entries of its calls, newest first, are still
/// its program's calls at the new state.
pub fn steps_keep_calls()
    ensures { StepsKeepCalls }
{}

/// The law of the spelling: each instruction has one line that reads as it.
pub fn instruction_has_one_line()
    ensures { (count : ℕ) (i : Instruction) → 0 < count → count ≤ 2 ^ 64 → HasOneLine count i }
{}
