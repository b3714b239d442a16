//! What holds of every legal log. Each law is the contract of a function that does nothing, so that
//! the law is proved with the crate.

ghost use Rattle.event_log.specs.{Forms.{LogOrdersAgree, LegalLogsGrow}, Grants.{GrantsTellIndices, MutualExclusionGrants}, Laws.FreedOnceMeanwhile};
ghost use Rattle.event_log.specs.Laws.{FreeWhereAllRest, GivenOnceMeanwhile, OneHolds, MutualExclusion, ThreeAreOneSection, TicketsTellIndices, BoundedBypass};

/// A words log, oldest first, is legal if each event may follow the events before it, however the
/// log is split. The recursion on its history, newest first, says the same.
pub fn log_orders_agree<M>()
    ensures { LogOrdersAgree M }
{}

/// A words log grows, at its end, by exactly the events that may follow it, and every legal one has
/// grown in this way.
pub fn legal_logs_grow<M>()
    ensures { LegalLogsGrow M }
{}

/// Mutual exclusion: in a legal list of actions two CPUs never hold one lock.
#[tactic(auto, using(crate::proofs::Exclusion::one_holds))]
pub fn one_holds<N>()
    ensures { OneHolds N }
{}

/// Mutual exclusion: in a legal words log two CPUs are never inside one lock. This holds although
/// its tickets are numbers modulo 2^64, because at most [`CPUS`](crate::CPUS) of them wait at a
/// time.
#[tactic(auto, using(crate::proofs::Tickets::mutual_exclusion))]
pub fn mutual_exclusion<M>()
    ensures { MutualExclusion M }
{}

/// Simulation: a legal words log is a legal list of actions. A poll succeeds exactly if its lock
/// was freed as often as it had been drawn at before the CPU's draw.
pub fn tickets_tell_indices<M>()
    ensures { TicketsTellIndices M }
{}

/// Three consecutive actions of a CPU at a free lock are exactly one section. It requests the lock,
/// enters at its first poll and releases it.
#[tactic(auto, using(crate::proofs::Alone::three_are_one))]
pub fn three_are_one_section<N>()
    ensures { ThreeAreOneSection N }
{}

/// Every lock is free exactly if no CPU of the machine waits at a lock or holds one.
pub fn free_where_all_rest<N>()
    ensures { FreeWhereAllRest N }
{}

/// Bounded bypass, per CPU: from a CPU's request of a lock on, while it only polls, no other CPU
/// releases that lock twice. To enter again it would have to overtake the first CPU.
#[tactic(auto, using(crate::proofs::OneFree::given_once))]
pub fn given_once_meanwhile<N>()
    ensures { GivenOnceMeanwhile N }
{}

/// Bounded bypass: from a CPU's request of a lock on, while it only polls, the lock is released
/// fewer than [`CPUS`](crate::CPUS) times. Fewer sections than that overtake it. This does not say
/// that the CPU is ever served.
#[tactic(auto, using(crate::proofs::Bypass::few_pass))]
pub fn bounded_bypass<N>()
    ensures { BoundedBypass N }
{}

/// Bounded bypass of a ticket lock, per CPU: from a CPU's draw on, while it only polls, no other
/// CPU frees that lock twice. This holds between a draw and the poll that succeeds for it.
pub fn freed_once_meanwhile<M>()
    ensures { FreedOnceMeanwhile M }
{}

/// Simulation: a legal log of grant words is a legal list of actions. A poll succeeds exactly if
/// its lock was released as often as tickets had been taken before the CPU's own.
pub fn grants_tell_indices<M>()
    ensures { GrantsTellIndices M }
{}

/// Mutual exclusion: in a legal log of grant words two CPUs are never inside one lock.
#[tactic(auto, using(crate::proofs::GrantWords::mutual_exclusion_grants))]
pub fn mutual_exclusion_grants<M>()
    ensures { MutualExclusionGrants M }
{}
