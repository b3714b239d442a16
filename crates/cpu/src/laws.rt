//! The theorems on the step table. Each law is the contract of a function that does nothing, so
//! that the law is proved with the crate.

ghost use Rattle.cpu.specs.{Linear.LinearRunsKeepRealTime, Table.{Worked.{AloneRuns, RunsOfTwo, RunsOfThree}, Closing.ClosingRuns, Words.RunsOfWords}};
ghost use Rattle.cpu.specs.{TableOrder.{TableHasOneOrder, TableKeepsRealTime}, Tower.{Views.TablesAgree, Composed.{HaltsExactly, PlansAreLines}}};
ghost use Rattle.cpu.specs.Wakeups.Lost.{OrderLosesNoWakeUp, SystemsKeepOrder, SystemsLoseNoWakeUp, FreeLocksHaveNoSleepers, CpusLoseNoWakeUp};
ghost use Rattle.cpu.specs.Wakeups.{OneSignal.{OneSignalLosesAWakeUp, SilentAnswerLosesAWakeUp}, Served.SystemsServeInOrder, Merged.WorkIsARun};
ghost use Rattle.cpu.specs.Wakeups.{Quiet.QuietIsStuck, Alone.CallsReturnAlone, OnePlace.StandInOnePlace, Met.PremisesAreMet};

/// Worked runs of one thread on one CPU, by computation: what each leaves after its schedule.
pub fn runs_alone()
    ensures { AloneRuns }
{}

/// Worked runs of a receiver and a sender, by computation. They show a wait, the signal that ends
/// it, and the failed polls of a CPU that waits for another one.
pub fn runs_of_two()
    ensures { RunsOfTwo }
{}

/// Worked runs of three threads, by computation. They show the second signal of a call, a lock that
/// passes to its first sleeper, and a first-in first-out wait queue.
pub fn runs_of_three()
    ensures { RunsOfThree }
{}

/// Worked runs of systems whose buffer is closed, by computation. They show which threads a close
/// wakes, what each call then finds, and where it continues.
pub fn runs_of_closing()
    ensures { ClosingRuns }
{}

/// A worked run of messages of several words, by computation. It shows what a message sent from the
/// first registers leaves in all of them after it is received again.
pub fn runs_of_words()
    ensures { RunsOfWords }
{}

/// No lost wake-up, for one buffer whose sections occur in the order that their calls prescribe.
/// While no thread owns the lock, the first thread of neither wait queue sleeps in a call that the
/// buffer allows.
pub fn order_loses_no_wake_up()
    ensures { OrderLosesNoWakeUp }
{}

/// The classic bug: if a receiver signals only the senders, a second receiver sleeps on beside a
/// message that no other thread will take.
pub fn one_signal_loses_a_wake_up()
    ensures { OneSignalLosesAWakeUp }
{}

/// If a receiver that finds its buffer closed signals no thread, a second receiver sleeps on beside
/// the closed buffer.
pub fn silent_answer_loses_a_wake_up()
    ensures { SilentAnswerLosesAWakeUp }
{}

/// Under every schedule of a system, the sections of each buffer occur in the order that their
/// calls prescribe.
pub fn systems_keep_order()
    ensures { SystemsKeepOrder }
{}

/// No lost wake-up, in every state that a system reaches. While no thread owns the lock of a
/// buffer, the first thread of neither wait queue sleeps in a call that the buffer allows.
pub fn systems_lose_no_wake_up()
    ensures { SystemsLoseNoWakeUp }
{}

/// In every state that a system reaches, no thread sleeps at a lock that no thread owns.
pub fn free_locks_have_no_sleepers()
    ensures { FreeLocksHaveNoSleepers }
{}

/// CPUs that each work according to the table on one list of actions lose no wake-up, however their
/// actions interleave.
pub fn cpus_lose_no_wake_up()
    ensures { CpusLoseNoWakeUp }
{}

/// Simulation. CPUs each work according to the table along one list of actions, in which their
/// actions interleave arbitrarily. Under some schedule one system of the table leaves the same
/// list, and each CPU in the same state. Therefore what threads do is what a run does.
pub fn work_is_a_run()
    ensures { WorkIsARun }
{}

/// In a quiescent state that a system reaches, no thread can make progress. No thread owns a lock
/// or sleeps at one. Each live thread is inside a call that its buffer does not allow, and no
/// schedule continues it. No thread is at a close, or waits at a closed buffer.
pub fn quiet_is_stuck()
    ensures { QuietIsStuck }
{}

/// The number of steps of a call without contention. No spin lock is held or requested. No thread
/// owns the call's buffer, which allows the call, and the call's wait queue is empty. If no other
/// CPU steps, the call takes effect and returns after exactly so many steps of its CPU. One step
/// earlier it is still under way.
///
/// - A send or a receive takes 18 steps, or 21 if it wakes a thread of another CPU. It wakes the
///   first of the other side's wait queue, if that thread waits. One that finds its buffer closed
///   takes 18.
/// - A close takes 15 steps, or 18 if it wakes a thread of another CPU. It takes 21 only if it
///   wakes two, for which the buffer must have capacity 0.
pub fn calls_return_alone()
    ensures { CallsReturnAlone }
{}

/// In every state that a system reaches, each live thread has exactly one place. It runs, is ready,
/// in a hand, pending, asleep at a lock or waiting at a buffer.
pub fn stand_in_one_place()
    ensures { StandInOnePlace }
{}

/// First come, first served. In every state that a system reaches, the threads that entered a line
/// (wait queue) of a buffer, oldest first, are those whose calls of its side took effect, in the
/// order of these effects, followed by those in the line.
pub fn systems_serve_in_order()
    ensures { SystemsServeInOrder }
{}

/// Linearization. Under every schedule the calls of the step table's system have one order, that of
/// the steps in which they take effect. It keeps each CPU's trace, is a legal history of FIFO
/// buffers, and ends in what the buffers hold.
pub fn table_has_one_order()
    ensures { TableHasOneOrder }
{}

/// Real-time order (Herlihy and Wing) in the step table's system: at each moment of a run, a call
/// that has returned precedes each call that has not begun.
pub fn table_keeps_real_time()
    ensures { TableKeepsRealTime }
{}

/// States that systems reach meet the premises of the laws on quiescent systems and on uncontended
/// calls, and the numbers of steps are exact.
pub fn premises_are_met()
    ensures { PremisesAreMet }
{}

/// Real-time order: a call that has returned when another one begins precedes it in the
/// linearization. Time is counted in steps of the schedule.
pub fn linear_runs_keep_real_time()
    ensures { LinearRunsKeepRealTime }
{}

/// The layers' sections are the table's, and each has one name there. For every section on every
/// block, the view of the block that it leaves and of its result is the table's.
pub fn tables_agree()
    ensures { TablesAgree }
{}

/// The plan of every poll of a begun call is a row of the table. It requests the table's section,
/// and makes of each result what the table makes of it.
pub fn plans_are_lines()
    ensures { PlansAreLines }
{}

/// A step of the table reports that its CPU is halted exactly if the CPU's private state says so
/// and no section is under way.
pub fn halts_exactly()
    ensures { HaltsExactly }
{}
