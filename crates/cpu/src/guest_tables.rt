//! The guests of a CPU, by thread.

ghost use Rattle.std.specs.{Prelude.{◌≡◌, ◌+◌, ◌^◌, ◌<◌, ◌≤◌, not, length, if◌then◌else◌, Some, None, IfSome, is_some}, List.{count_by, list_all}};
ghost use Rattle.{layer_traits.specs.{Threads.Places.one_if, Layers.BufferLaw.answer_with, declared.calls.Call.Call}, cpu.specs.Guests.{computed, is_begun}};
ghost use Rattle.cpu.specs.{Guests.{is_ended, polled}, Cpus.{begun_count, fresh_at, guest_at, is_begun_guest, is_over, passed_by, stands_at_call, with_guest}};

use crate::guests::{Guest, GuestStage};
use event_log::{BufId, Tid};
use layer_traits::{Call, Effect, Ghost, Pass, ReplyKind};
use std::marker::Model;

/// The guest of each thread by its number, `None` at threads of other home CPUs. In clauses it is
/// their table.
///
/// It caches two counts over the table, so that no caller needs to scan it. It also caches the call
/// that was made last, so that a call is made once while its thread polls it.
#[derive(Drop)]
pub struct Guests {
    table: Vec<Option<Guest>>,
    /// How many are in a call that has not taken effect.
    begun: usize,
    /// How many have not ended.
    live: usize,
    /// The call that was made last.
    kept: Call,
    /// The thread whose guest is at the call `kept`, for as long as it is.
    kept_by: Option<Tid>,
}

impl Model for Guests {
    ghost use Rattle.std.specs.{Prelude.{◌≡◌, not, Option, Vec}, Global.Global, List.count_by};
    ghost use Rattle.cpu.specs.{declared.guests.Guest.Guest, Cpus.{IsKept, begun_count, is_over}};

    ghost Value = { Vec (Option Guest) Global };

    ghost view = { λ g. g.table };

    ghost invariant = { λ g. (g.begun ≡ begun_count g.table.items) × ((g.live ≡ count_by (λ x. not (is_over x)) g.table.items)
        × IsKept g.kept_by g.kept g.table.items) };
}

impl Guests {
    ghost use Rattle.{std.specs.{Borrow.sem, Io.BufRead.Rests}, cpu.specs.contracts.guest_tables.Guests.the_row};

    /// Returns the guests of this table.
    pub(crate) fn new(table: Vec<Option<Guest>>) -> Guests
        ensures { result ≡ table }
    {
        let begun = count_begun(&table);
        let live = count_live(&table);
        Guests {
            table,
            begun,
            live,
            kept: Call::Recv(BufId(0)),
            kept_by: None,
        }
    }

    /// Returns what the table holds at this thread's number.
    ///
    /// Requires: the thread's number is one of the table.
    #[inline(always)]
    pub(crate) fn at(&self, thread: Tid) -> &Option<Guest>
        requires { thread.0 < length self.now.items }
        ensures { result.now ≡ guest_at self.now.items thread.0 }
    {
        &self.table[usize::from(thread.0)]
    }

    /// Returns whether this CPU is the thread's home CPU: the table has a guest at its number.
    #[inline(always)]
    pub(crate) fn has(&self, thread: Tid) -> bool
        ensures { result ≡ is_some (guest_at self.now.items thread.0) }
    {
        matches!(self.table.get(usize::from(thread.0)), Some(Some(_)))
    }

    /// Returns how many of the guests are in a call that has not taken effect.
    #[inline(always)]
    pub(crate) fn begun(&self) -> usize
        ensures { result ≡ begun_count self.now.items }
    {
        self.begun
    }

    /// Returns whether each of the guests has ended.
    #[inline(always)]
    pub(crate) fn are_over(&self) -> bool
        ensures { result ≡ list_all is_over self.now.items }
    {
        self.live == 0
    }

    /// Returns the message call at which this thread's guest is, which is the call asked for, by
    /// reference, so that nothing is copied. The call is made at the first poll, and kept until the
    /// guest continues or another thread calls.
    ///
    /// Requires: the thread's number is one of the table, and the call asked for is the one at
    /// which its guest is.
    #[inline(always)]
    pub(crate) fn call_of(&mut self, thread: Tid, asked: Ghost<Call>) -> &Call
        requires within { thread.0 < length self.old.items }
        requires asked { stands_at_call (guest_at self.old.items thread.0) asked }
        ensures call { result.now ≡ asked }
        ensures* same { sem 𝓛 (Rests the_row self.entry (λ left. left ≡ self.old)) }
    {
        let _ = asked;
        if self.kept_by != Some(thread) {
            keep_call(&self.table[usize::from(thread.0)], &mut self.kept);
            self.kept_by = Some(thread);
        }
        &self.kept
    }

    /// Returns the message call at which this thread's guest is, in clauses only, if it is the call
    /// that is kept. With it a poll does not read the guest's program.
    #[inline(always)]
    pub(crate) fn kept_for(&self, thread: Tid) -> Option<Ghost<Call>>
        ensures { IfSome result (λ call. stands_at_call (guest_at self.now.items thread.0) call) }
    {
        if self.kept_by == Some(thread) {
            Some(Ghost::of(&self.kept))
        } else {
            None
        }
    }

    /// Records the result of a poll of a thread's call. Returns whether an effect that the call has
    /// after the poll was made by that poll.
    ///
    /// Requires: the thread's number is one of the table.
    #[inline(always)]
    pub(crate) fn note_poll(
        &mut self,
        thread: Tid,
        effect: &Option<Effect>,
        answer: Option<ReplyKind>,
    ) -> bool
        requires { thread.0 < length self.old.items }
        ensures guests { self.new.items
            ≡ with_guest self.old.items thread.0
            (λ g. polled g effect.now (answer_with effect.now answer)) }
        ensures fresh { (if result then effect.now else None)
            ≡ fresh_at (guest_at self.old.items thread.0) effect.now }
    {
        let Some(guest) = &mut self.table[usize::from(thread.0)] else {
            return false;
        };
        let before = guest.stage;
        let fresh = guest.awaits();
        guest.note(effect, answer);
        let after = guest.stage;
        recount(&mut self.begun, &mut self.live, before, after);
        if answer.is_some() {
            self.kept_by = None;
        }
        // A poll that leaves the stage unchanged and returns no result had no effect.
        fresh && (answer.is_some() || before != after)
    }

    /// Records that a pass is done which began while this thread ran.
    ///
    /// Requires: the running thread, if there is one, has a number of the table.
    #[inline(always)]
    pub(crate) fn note_pass(&mut self, runs: Option<Tid>, pass: Pass)
        requires { (t : _) → runs ≡ Some t → t.0 < length self.old.items }
        ensures { self.new.items ≡ passed_by runs self.old.items pass }
    {
        if let Some(thread) = runs {
            self.record_pass(thread, pass);
        }
    }

    /// Records this pass with the guest of this thread, which ran.
    #[inline(always)]
    fn record_pass(&mut self, thread: Tid, pass: Pass)
        requires { thread.0 < length self.old.items }
        ensures { self.new.items ≡ passed_by (Some thread) self.old.items pass }
    {
        let Some(guest) = &mut self.table[usize::from(thread.0)] else {
            return;
        };
        let before = guest.stage;
        guest.pass(pass);
        let after = guest.stage;
        recount(&mut self.begun, &mut self.live, before, after);
        self.kept_by = None;
    }

    /// Records that a thread executed an instruction that shares nothing.
    ///
    /// Requires: the thread's number is one of the table.
    #[inline(always)]
    pub(crate) fn note_compute(&mut self, thread: Tid)
        requires { thread.0 < length self.old.items }
        ensures { self.new.items ≡ with_guest self.old.items thread.0 computed }
    {
        self.kept_by = None;
        match &mut self.table[usize::from(thread.0)] {
            Some(guest) => guest.compute(),
            None => {}
        }
    }
}

/// Makes the message call at which this guest is, if it is at one.
#[inline(always)]
fn keep_call(guest: &Option<Guest>, kept: &mut Call)
    ensures { (call : Call) → stands_at_call guest.now call → kept.new ≡ call }
{
    if let Some(guest) = guest {
        guest.make_call(kept);
    }
}

/// Counts a guest by its stage after a poll or a pass, and not by the stage before it.
#[inline(always)]
fn recount(begun: &mut usize, live: &mut usize, before: GuestStage, after: GuestStage)
    requires begun { one_if (is_begun before) ≤ begun.old }
    requires begun_room { begun.old + one_if (is_begun after) < 2 ^ 64 + one_if (is_begun before) }
    requires live { one_if (not (is_ended before)) ≤ live.old }
    requires live_room { live.old + one_if (not (is_ended after))
        < 2 ^ 64 + one_if (not (is_ended before)) }
    ensures begun { begun.new + one_if (is_begun before) ≡ begun.old + one_if (is_begun after) }
    ensures live { live.new + one_if (not (is_ended before))
        ≡ live.old + one_if (not (is_ended after)) }
{
    // Most polls leave the stage unchanged.
    if before != after {
        *begun = recounted(*begun, before.is_begun(), after.is_begun());
        *live = recounted(*live, before.is_live(), after.is_live());
    }
}

/// Returns a count of items after one of them changed: `before` and `after` say whether the count
/// includes that item.
#[inline(always)]
fn recounted(count: usize, before: bool, after: bool) -> usize
    requires counted { one_if before ≤ count }
    requires room { count + one_if after < 2 ^ 64 + one_if before }
    ensures { result + one_if before ≡ count + one_if after }
{
    if before == after {
        count
    } else if before {
        count - 1
    } else {
        count + 1
    }
}

/// Returns how many of the guests are in a call that has not taken effect.
fn count_begun(guests: &[Option<Guest>]) -> usize
    ensures { result ≡ begun_count guests.now }
{
    let mut count = 0;
    for guest in guests {
        if is_begun(guest) {
            count += 1;
        }
    }
    count
}

/// Returns how many of the guests have not ended.
fn count_live(guests: &[Option<Guest>]) -> usize
    ensures { result ≡ count_by (λ x. not (is_over x)) guests.now }
{
    let mut count = 0;
    for guest in guests {
        if is_live(guest) {
            count += 1;
        }
    }
    count
}

/// Returns whether there is a guest in a call that has not taken effect.
fn is_begun(guest: &Option<Guest>) -> bool
    ensures { result ≡ is_begun_guest guest.now }
{
    match guest {
        Some(guest) => guest.stage.is_begun(),
        None => false,
    }
}

/// Returns whether there is a guest that has not ended.
fn is_live(guest: &Option<Guest>) -> bool
    ensures { result ≡ not (is_over guest.now) }
{
    match guest {
        Some(guest) => guest.stage.is_live(),
        None => false,
    }
}
