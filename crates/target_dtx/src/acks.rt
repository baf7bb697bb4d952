// A leader hears what members answer.
ghost use Rattle.std.specs.Prelude.{◌≡◌, ◌==◌, [], if◌then◌else◌, IfOk, OnErr, OnOk, Some, true, false};
ghost use Rattle.world_ended.specs.Asking.{AreRefusals, Asked, EndsAsked};
ghost use Rattle.world_ended.specs.world_letters.kinds.Loads.{AnswersOnce};
ghost use Rattle.std.specs.Option.{ForSome};
ghost use Rattle.base_types.specs.declared.entry.Settle.TheVariants as step;
ghost use Rattle.daos_model.specs.declared.durable.Durable.{Durable};
ghost use Rattle.dtx_base.specs.Leading.{ack_heard, entry_led, may_confirm};
ghost use Rattle.dtx_table.specs.Seats.{came, leader_of};
ghost use Rattle.vos_store.specs.Conditions.{CanSettle};
ghost use Rattle.vos_store.specs.Refusals.{always_stop};
ghost use Rattle.world_base.specs.declared.target.TargetMemory.{TargetMemory};
ghost use Rattle.world_base.specs.Acks as ack;
ghost use Rattle.world_base.specs.Changes.{Settles};
ghost use Rattle.world_base.specs.Roles.{leader_at};
ghost use Rattle.world_base.specs.Turns.{Whole};
ghost use Rattle.target_parts.specs.world_contents.posts.Forms.{PostsInForm};
ghost use Rattle.target_parts.specs.Keeping.{MadeIf};
ghost use Rattle.target_parts.specs.Knowing.{IsApart, LeadsWell, memory_of};
ghost use Rattle.target_parts.specs.Parts.{kept};
ghost use Rattle.target_parts.specs.Stops.{Turn, never};
ghost use Rattle.target_dtx.specs.Dtx.{GoesThrough};
ghost use Rattle.target_parts.specs.Standing.{IsTarget, Keeps, TurnRuns};

use base_messages::message::Posts;
use base_types::entry::Settle;
use base_types::epoch::TargetId;
use base_types::id::AttemptId;
use base_types::items::{Items, Memory};
use base_types::outcome::Outcome;
use dtx_entries::table::EntryTable;
use dtx_table::bits::{has_number, is_other_number};
use dtx_table::seat::Seat;
use std::alloc::Global;
use target_parts::below::leader::decisions::Decisions;
use target_parts::halt::Halt;
use target_parts::kept::{entry_led, seat_of, settle};
use target_parts::knows::Knows;
use target_parts::stop::{TargetStop, stop_of};
use target_parts::telling::sends;
use vos_store::refusal::Stopped;
use vos_store::store::Store;
use world_base::did::Did;
use world_base::target::TargetPlan;

// Whether an Ack counts, and refuses: it is of this incarnation, of an attempt that is undecided here,
// and of another member of it.
#[tactic(auto, unfolding(world_base::specs::Acks::is_awaited))]
fn is_refusing(
    leader: &Decisions,
    seat: Seat,
    entries: &EntryTable,
    member: u16,
    attempt: AttemptId,
    inc: u64,
    refusal: &Option<Outcome>,
) -> bool
    ensures { result ≡ ack.is_refusing member attempt inc refusal.now (leader_of seat entries.now.items leader.now) }
{
    if inc != seat.incarnation {
        return false;
    }
    let Some(entry) = entry_led(entries, seat.me, attempt) else {
        return false;
    };
    if leader.undecided(attempt).is_none() {
        return false;
    }
    is_other_number(&entry, member) && refusal.is_some()
}

// The leader hears an Ack: of the entries it looks at none but that of the attempt.
fn count(
    leader: &mut Decisions,
    seat: Seat,
    entries: &EntryTable,
    member: u16,
    attempt: AttemptId,
    inc: u64,
    refusal: &Option<Outcome>,
) -> Result<Posts, Memory>
    ensures ok { IfOk result (λ posts. (leader.new, posts) ≡ came (ack_heard member attempt inc refusal.now (leader_of seat entries.now.items leader.old))) }
    ensures err { OnErr result (leader.new ≡ leader.old) }
{
    let own = entries.of_attempt(attempt);
    leader.hear_ack(seat, own, member, attempt, inc, refusal)
}

// An attempt is aborted in the store, where that is so.
fn abort_if<S: Store>(
    store: &mut S,
    plan: TargetPlan,
    knows: &mut Knows,
    attempt: AttemptId,
    refuses: bool,
) -> Result<(), Stopped>
    requires running { (S.state store.old).stopped ≡ false }
    requires can { ForSome (S.durable store.old) (λ d. refuses ≡ true → CanSettle attempt step.Abort d) }
    requires apart { ForSome (S.durable store.old) (λ _. refuses ≡ true → IsApart attempt knows.old.leader) }
    requires leads { ForSome (S.durable store.old) (LeadsWell plan (memory_of knows.old) knows.old.entries.items) }
    ensures made { (d : Durable) → S.durable store.old ≡ Some d
        → MadeIf refuses (Settles attempt step.Abort) d (S.state store.old) (S.durable store.new) (S.state store.new) (S.may store.new) result }
    ensures leader { knows.new.leader ≡ knows.old.leader }
    ensures keeps { Keeps plan always_stop result (S.state store.old) (S.state store.new) (S.durable store.old) (S.durable store.new) knows.old knows.new }
{
    let _plan = plan;
    if !refuses {
        return Ok(());
    }
    settle(store, &mut knows.entries, attempt, Settle::Abort)
}

/// It hears an Ack of the actor of this number: the attempt that it refuses is aborted. One of no other member
/// changes nothing.
///
/// # Errors
///
/// `Store` where the store stopped, and then the turn was cut short; else for want of memory.
pub fn hear_ack<S: Store>(
    alloc: Global,
    plan: TargetPlan,
    store: &mut S,
    knows: &mut Knows,
    member: u16,
    attempt: AttemptId,
    inc: u64,
    refusal: &Option<Outcome>,
) -> Result<Did, TargetStop>
    requires target { IsTarget plan (S.state store.old) (S.durable store.old) knows.old }
    requires running { (S.state store.old).stopped ≡ false }
    ensures turn { (d : Durable) → S.durable store.old ≡ Some d
        → Turn (ack.AckNext plan (memory_of knows.old) member attempt inc refusal.now) never ack.AckStage.Heard (kept d (S.state store.old))
        (λ did l. Whole (ack.AckNext plan (memory_of knows.old) member attempt inc refusal.now) (ack.AckEnds (memory_of knows.old)) ack.AckStage.Heard (kept d (S.state store.old)) l (memory_of knows.new, did))
        (S.durable store.new) (S.state store.new) (S.may store.new) result }
    ensures posts { IfOk result (λ did. PostsInForm plan.targets knows.old.leader knows.new.leader did.posts) }
    ensures reads { IfOk result (λ did. AnswersOnce [] knows.old.member.memory knows.new.member.memory did.posts) }
    ensures ends { (asked : Asked) → AreRefusals refusal.now → IfOk result (λ did. EndsAsked asked knows.old.leader knows.new.leader did.posts) }
    ensures target { IsTarget plan (S.state store.new) (S.durable store.new) knows.new }
    ensures stopped { TurnRuns result (S.state store.old) (S.state store.new) (S.durable store.old) (S.durable store.new) }
{
    let seat = seat_of(plan, store);
    let entries = &knows.entries;
    let refuses = is_refusing(&knows.leader, seat, entries, member, attempt, inc, refusal);
    let leader = &mut knows.leader;
    let posts = count(leader, seat, entries, member, attempt, inc, refusal)?;
    match abort_if(store, plan, knows, attempt, refuses) {
        Ok(()) => Ok(sends(alloc, posts, None)),
        Err(Stopped) => Err(stop_of(alloc, Halt::Stopped, None)),
    }
}

// A member confirms the commit of an attempt, where it is committed and the target a member.
fn confirm<S: Store>(
    store: &mut S,
    plan: TargetPlan,
    knows: &mut Knows,
    member: u16,
    attempt: AttemptId,
) -> Result<(), Stopped>
    requires running { (S.state store.old).stopped ≡ false }
    requires leads { ForSome (S.durable store.old) (LeadsWell plan (memory_of knows.old) knows.old.entries.items) }
    ensures made { (m : TargetMemory) → (d : Durable) → S.durable store.old ≡ Some d
        → MadeIf (may_confirm member (entry_led attempt (leader_at plan m d))) (Settles attempt (step.Confirm member)) d (S.state store.old) (S.durable store.new) (S.state store.new) (S.may store.new) result }
    ensures leader { knows.new.leader ≡ knows.old.leader }
    ensures keeps { Keeps plan always_stop result (S.state store.old) (S.state store.new) (S.durable store.old) (S.durable store.new) knows.old knows.new }
{
    let Some(entry) = entry_led(&knows.entries, plan.me, attempt) else {
        return Ok(());
    };
    if entry.committed && has_number(entry.members, member) {
        let step = Settle::Confirm(member as TargetId);
        return settle(store, &mut knows.entries, attempt, step);
    }
    Ok(())
}

// A member confirms the commits of these attempts.
fn confirm_all<S: Store>(
    store: &mut S,
    plan: TargetPlan,
    knows: &mut Knows,
    member: u16,
    attempts: &[AttemptId],
) -> Result<(), Stopped>
    requires running { (S.state store.old).stopped ≡ false }
    requires leads { ForSome (S.durable store.old) (LeadsWell plan (memory_of knows.old) knows.old.entries.items) }
    ensures confirmed { (m : TargetMemory) → (d : Durable) → S.durable store.old ≡ Some d
        → GoesThrough (ack.MarkedNext plan m member) attempts.now d (S.state store.old) (S.durable store.new) (S.state store.new) (S.may store.new) result }
    ensures leader { knows.new.leader ≡ knows.old.leader }
    ensures keeps { Keeps plan always_stop result (S.state store.old) (S.state store.new) (S.durable store.old) (S.durable store.new) knows.old knows.new }
{
    for attempt in attempts {
        confirm(store, plan, knows, member, *attempt)?;
    }
    Ok(())
}

// The attempts whose commit the sender may have to confirm: none where it answers an older incarnation.
fn to_confirm<'a>(incarnation: u64, inc: u64, attempts: &'a [AttemptId]) -> &'a [AttemptId]
    ensures { result.now ≡ if inc == incarnation then attempts.now else [] }
{
    if inc == incarnation { attempts } else { &[] }
}

/// It hears a Marked of the actor of this number: the Mark got its answer, and the sender confirms each
/// commit of which it is a member; none where it answers an older incarnation.
///
/// # Errors
///
/// `Store` where the store stopped, and then the turn was cut short; else for want of memory.
pub fn hear_marked<S: Store>(
    alloc: Global,
    plan: TargetPlan,
    store: &mut S,
    knows: &mut Knows,
    member: u16,
    inc: u64,
    attempts: &[AttemptId],
) -> Result<Did, TargetStop>
    requires target { IsTarget plan (S.state store.old) (S.durable store.old) knows.old }
    requires running { (S.state store.old).stopped ≡ false }
    ensures turn { (d : Durable) → S.durable store.old ≡ Some d
        → Turn (ack.MarkedNext plan (memory_of knows.old) member) never (ack.to_confirm inc attempts.now d) (kept d (S.state store.old))
        (λ did l. Whole (ack.MarkedNext plan (memory_of knows.old) member) (ack.MarkedEnds plan (memory_of knows.old) member inc attempts.now) (ack.to_confirm inc attempts.now d) (kept d (S.state store.old)) l (memory_of knows.new, did))
        (S.durable store.new) (S.state store.new) (S.may store.new) result }
    ensures posts { IfOk result (λ did. PostsInForm plan.targets knows.old.leader knows.new.leader did.posts) }
    ensures reads { IfOk result (λ did. AnswersOnce [] knows.old.member.memory knows.new.member.memory did.posts) }
    ensures ends { (asked : Asked) → IfOk result (λ did. EndsAsked asked knows.old.leader knows.new.leader did.posts) }
    ensures target { IsTarget plan (S.state store.new) (S.durable store.new) knows.new }
    ensures stopped { TurnRuns result (S.state store.old) (S.state store.new) (S.durable store.old) (S.durable store.new) }
{
    knows.leader.hear_marked(member, inc, attempts)?;
    let confirming = to_confirm(store.incarnation(), inc, attempts);
    match confirm_all(store, plan, knows, member, confirming) {
        Ok(()) => Ok(sends(alloc, Items::new(alloc), None)),
        Err(Stopped) => Err(stop_of(alloc, Halt::Stopped, None)),
    }
}
