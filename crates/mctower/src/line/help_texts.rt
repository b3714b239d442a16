//! The texts that teach the command line. There is one for each command: its input, its output, the
//! limits and an example. Two lines of usage are for a misspelt command. Help is written to
//! standard output if the words ask for it. The usage is written to standard error, after what is
//! wrong with the words.

ghost use Rattle.std.specs.Prelude.{◌≡◌, map};
ghost use Rattle.mctower.specs.Help.{topic_of, help_of, usage_of};

/// The version of the program.
pub(crate) const VERSION: &str = "0.5.0";

const PROGRAM_USAGE: &str = "\
usage: mctower count | run | threads | check, and its options
       mctower --help says more, and mctower COMMAND --help of a command
";

const COUNT_USAGE: &str = "\
usage: mctower count --cpus N --times K [--lock L]
       N is 1 to 16, K is 1 to 1000, L is ticket or grant; mctower count --help says more
";

const RUN_USAGE: &str = "\
usage: mctower run [--schedule S] < PLAN
       S in quotes, as '0*21'; the plan is read from standard input; mctower run --help says more
";

const THREADS_USAGE: &str = "\
usage: mctower threads --turns N < PLAN
       N is 1 to 1000000000, the plan is read from standard input; mctower threads --help says more
";

const CHECK_USAGE: &str = "\
usage: mctower check < TEXT
       the trace text is read from standard input; mctower check --help says more
";

const PROGRAM: &str = "\
A verified thread tower, from spin locks to kernel threads.

usage: mctower COMMAND [OPTIONS]

  count --cpus N --times K [--lock L]
                             N CPUs (1 to 16) add 1 to a counter under a lock, K times each
                             (1 to 1000); prints the totals 'plain T' and 'table T'
  run [--schedule S]         runs a plan under a schedule and prints its trace
  threads --turns N          runs a plan with one OS thread per CPU, at most N steps each
                             (1 to 1000000000), and prints its trace
  check                      checks a trace; prints 'yes', or 'no L Name(N)' for the first bad line L

mctower COMMAND --help describes a command. mctower --version prints the version.

example: mctower run --schedule '0*21' < plan.toml | mctower check
prints:  yes

exit status: 0 success or yes, 1 an error (one line 'error: Name(N)'), 2 a bad command line,
or help, 3 a no of check. plans/explain.py locates the fault in a rejected plan, schedule or
trace, and says what is allowed there.
";

const COUNT: &str = "\
usage: mctower count --cpus N --times K [--lock L]

Each of N CPUs (1 to 16) does K critical sections (1 to 1000), each of which adds 1 to a counter. L
is the lock: 'ticket', or 'grant' (one word per waiter), the default. Input: none. Output: the final
count, twice: 'plain T' on the simulated machine, and 'table T' with N OS threads.

example: mctower count --cpus 2 --times 3
prints:  plain 6
         table 6
";

const RUN: &str = "\
usage: mctower run [--schedule S] < PLAN

Input: a plan, in TOML. Output: the trace of the run. On standard error: whether and why each CPU
has halted, where each thread is, and whether the system is quiet: no thread can make progress.

S says which CPU takes each step: items 'c' or 'c*n' (n steps of CPU c), separated by commas, without
spaces; c is a CPU of the plan, and there are at most 1048576 steps. Without --schedule no step is
taken: a schedule in the comments of a plan is not read. Quote S, because the shell expands *.

The keys of a plan; others are ignored:
  cpus      1 to 16
  trace     how many calls each CPU can record, 1 to 65536
  buffers   the capacities of 1 to 16 buffers, each 1 to 32
  lock      \"ticket\" or \"grant\" (one word per waiter); default \"grant\"
  [[thread]]  1 to 256 threads, each with these keys:
    cpu      its home CPU, on which it always runs, 0 to cpus - 1
    program  1 to 256 instructions, each a string

The instructions; operands are separated by one space. D and S are registers, r0 to r7; b is a
buffer, from 0; k is the number of an instruction of the program, from 0; numbers are decimal:
  set D n       D becomes n, 0 to 18446744073709551615
  add D S       D becomes D + S, modulo 2^64
  sub D S       D becomes D - S, modulo 2^64
  jnz S k       goes to k if S is not 0
  send b S      sends S, a message of one word, to buffer b
  sendm b n     sends r0 to r(n-1), a message of n words, 1 to 8
  recv b D      receives from buffer b; D becomes the first word
  recvm b       receives from buffer b into r0 and the following registers
  close b       closes buffer b
  yield         lets the other threads of the CPU run
  exit          ends the thread, as does the end of the program
send, sendm, recv and recvm take an optional last operand k: jump to k if the buffer is closed.

A refusal is one line 'error: Name(N)'. plans/explain.py locates the fault in the plan or schedule,
and says what is allowed there.

example: mctower run --schedule '0*21' < plan.toml
where plan.toml is:
  cpus = 1
  trace = 4
  buffers = [1]
  [[thread]]
  cpu = 0
  program = [\"set r0 7\", \"send 0 r0\", \"exit\"]
prints:
  mctower-trace 1
  buffers 1
  cap 0 1
  e 0 0 send 0 7 0 0
  left 0 7
  end
";

const THREADS: &str = "\
usage: mctower threads --turns N < PLAN

Input: a plan, in TOML (mctower run --help tells its keys and instructions). Output: the trace text
of its run with one worker thread for each CPU, each of which stops after N turns (1 to 1000000000)
at the latest, or a few more if a critical section is under way then. On standard error: why each
worker stopped, 'cpu C AllEnded', 'cpu C TurnsUsed' or 'cpu C TraceFull'.

Begin with 100000 turns. If TurnsUsed comes with a short trace, threads may wait for each other:
mctower run tells who waits, under a schedule that gives each CPU its share.

example: mctower threads --turns 100000 < plan.toml
where plan.toml is:
  cpus = 1
  trace = 4
  buffers = [1]
  [[thread]]
  cpu = 0
  program = [\"set r0 7\", \"send 0 r0\", \"exit\"]
prints:
  mctower-trace 1
  buffers 1
  cap 0 1
  e 0 0 send 0 7 0 0
  left 0 7
  end
";

const CHECK: &str = "\
usage: mctower check < TEXT

Input: a trace text, as run prints it. Output: 'yes', or 'no L Name(N)' with the first line L at
fault and its reason; then the exit status is 3. plans/explain.py says what is expected in that line.

example: mctower run --schedule '0*21' < plan.toml | mctower check
prints:  yes
";

/// Returns the command that the words name: the first word, or the one after `help`.
fn topic<'a>(words: &[&'a str]) -> &'a str
    ensures { result.now ≡ topic_of (map (λ w. w.now) words.now) }
{
    match words {
        [] => "",
        [name] => name,
        [word, name, ..] => if *word == "help" { name } else { word },
    }
}

/// Returns the help on the command that the words name, or on the whole program.
pub(crate) fn help_on(words: &[&str]) -> &'static str
    ensures { result.now ≡ help_of (topic_of (map (λ w. w.now) words.now)) }
{
    match topic(words) {
        "count" => COUNT,
        "run" => RUN,
        "threads" => THREADS,
        "check" => CHECK,
        _ => PROGRAM,
    }
}

/// Returns the two lines of usage of the command that the words name, or of the whole program.
pub(crate) fn usage_on(words: &[&str]) -> &'static str
    ensures { result.now ≡ usage_of (topic_of (map (λ w. w.now) words.now)) }
{
    match topic(words) {
        "count" => COUNT_USAGE,
        "run" => RUN_USAGE,
        "threads" => THREADS_USAGE,
        "check" => CHECK_USAGE,
        _ => PROGRAM_USAGE,
    }
}
