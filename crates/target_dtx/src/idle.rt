// A target does its idle work.
ghost use Rattle.std.specs.Prelude.{◌≡◌, ℕ, [], IfOk, IfErr, OnOk, OnErr, Some, false};
ghost use Rattle.world_ended.specs.Asking.{Asked, EndsAsked, PostsGoWith};
ghost use Rattle.world_ended.specs.world_letters.kinds.Loads.{AnswersOnce};
ghost use Rattle.std.specs.Option.{ForSome};
ghost use Rattle.daos_model.specs.declared.durable.Durable.{Durable};
ghost use Rattle.dtx_base.specs.Joining.{member_step};
ghost use Rattle.dtx_base.specs.Leading.{batched, is_batch_due};
ghost use Rattle.dtx_table.specs.Seats.{came, leader_of};
ghost use Rattle.vos_store.specs.Refusals.{always_stop};
ghost use Rattle.world_base.specs.Idle.{IdleEnds, IdleNext, has_idle, idle_memory, idle_told};
ghost use Rattle.world_base.specs.Turns.{Whole};
ghost use Rattle.target_parts.specs.world_contents.posts.Forms.{PostsInForm, TargetPosts};
ghost use Rattle.target_parts.specs.Knowing.{LeadsWell, memory_of};
ghost use Rattle.target_parts.specs.Parts.{kept};
ghost use Rattle.target_parts.specs.Stops.{IsSilent, Turn, never, stop_memory};
ghost use Rattle.target_dtx.specs.Dtx.{GoesThrough, asks_if};
ghost use Rattle.target_parts.specs.Standing.{IsTarget, Keeps, TurnRuns};

use base_messages::message::Posts;
use base_types::entry::Entry;
use base_types::items::{Items, Memory};
use dtx_entries::table::EntryTable;
use dtx_table::seat::Seat;
use std::alloc::Global;
use target_parts::below::leader::decisions::Decisions;
use target_parts::below::member::member::Member;
use target_parts::halt::Halt;
use target_parts::kept::{seat_of, settle_decided};
use target_parts::knows::Knows;
use target_parts::stop::{TargetStop, stop_of};
use target_parts::telling::{push_all, sends};
use vos_store::refusal::Stopped;
use vos_store::store::Store;
use world_base::did::Did;
use world_base::target::TargetPlan;

// Settles the decided attempts, in their order.
fn settle_all<S: Store>(store: &mut S, plan: TargetPlan, knows: &mut Knows) -> Result<(), Stopped>
    requires running { (S.state store.old).stopped ≡ false }
    requires leads { ForSome (S.durable store.old) (LeadsWell plan (memory_of knows.old) knows.old.entries.items) }
    ensures settled { (d : Durable) → S.durable store.old ≡ Some d
        → GoesThrough IdleNext knows.old.leader.decided d (S.state store.old) (S.durable store.new) (S.state store.new) (S.may store.new) result }
    ensures leader { OnOk result (knows.new.leader ≡ record knows.old.leader { decided = [] }) }
    ensures keeps { Keeps plan always_stop result (S.state store.old) (S.state store.new) (S.durable store.old) (S.durable store.new) knows.old knows.new }
{
    while !knows.leader.decided().is_empty() {
        let attempt = knows.leader.decided()[0];
        settle_decided(store, plan, knows, attempt)?;
    }
    Ok(())
}

// The Queries of the settling phase.
fn inquiries(
    alloc: Global,
    member: &mut Member,
    entries: &[Entry],
    settling: bool,
) -> Result<Posts, TargetStop>
    ensures asked { IfOk result (λ posts. member_step member.new (record { posts = posts; again = [] }) ≡ asks_if settling entries.now member.old) }
    ensures wanting { IfErr result (λ stop. stop ≡ stop_memory) }
    ensures kept { OnErr result (member.new ≡ member.old) }
    ensures posts { (targets : ℕ) → IfOk result (λ posts. TargetPosts targets posts) }
    ensures ends { (asked : Asked) → IfOk result (λ posts. PostsGoWith asked posts) }
{
    if !settling {
        return Ok(Items::new(alloc));
    }
    Ok(member.inquire(entries)?)
}

// The leader tells of commits: of the entries it looks at the owing ones alone.
fn batch(leader: &mut Decisions, seat: Seat, entries: &EntryTable) -> Result<Posts, Memory>
    ensures ok { IfOk result (λ posts. (leader.new, posts) ≡ came (batched (leader_of seat entries.now.items leader.old))) }
    ensures err { OnErr result (leader.new ≡ leader.old) }
{
    leader.batch(seat, entries.owing(seat.me))
}

// Whether the leader has a commit to tell of.
fn has_batch(leader: &Decisions, seat: Seat, entries: &EntryTable) -> bool
    ensures { result ≡ is_batch_due (leader_of seat entries.now.items leader.now) }
{
    leader.has_batch(seat, entries.owing(seat.me))
}

// What it tells and asks, once all that it decided is settled.
fn tell<S: Store>(
    alloc: Global,
    plan: TargetPlan,
    store: &S,
    knows: &mut Knows,
    settling: bool,
) -> Result<Did, TargetStop>
    requires target { IsTarget plan (S.state store.now) (S.durable store.now) knows.old }
    requires running { (S.state store.now).stopped ≡ false }
    requires settled { knows.old.leader.decided ≡ [] }
    ensures memory { ForSome (S.durable store.now) (λ d. OnOk result (memory_of knows.new ≡ idle_memory settling plan (memory_of knows.old) d)) }
    ensures told { ForSome (S.durable store.now) (λ d. IfOk result (λ did. did ≡ idle_told settling plan (memory_of knows.old) d)) }
    ensures wanting { IfErr result (λ stop. stop ≡ stop_memory) }
    ensures silent { IsSilent result }
    ensures posts { IfOk result (λ did. PostsInForm plan.targets knows.old.leader knows.new.leader did.posts) }
    ensures reads { IfOk result (λ did. AnswersOnce [] knows.old.member.memory knows.new.member.memory did.posts) }
    ensures ends { (asked : Asked) → IfOk result (λ did. EndsAsked asked knows.old.leader knows.new.leader did.posts) }
    ensures target { IsTarget plan (S.state store.now) (S.durable store.now) knows.new }
{
    let seat = seat_of(plan, store);
    let mut posts = batch(&mut knows.leader, seat, &knows.entries)?;
    let asks = inquiries(alloc, &mut knows.member, knows.entries.rows(), settling)?;
    push_all(&mut posts, asks)?;
    Ok(sends(alloc, posts, None))
}

/// It settles the attempts that it decided, tells the other members of what is committed, and in the
/// settling phase asks other leaders what became of what is prepared here.
///
/// # Errors
///
/// `Store` where the store stopped, and then the turn was cut short; else for want of memory.
pub fn idle_work<S: Store>(
    alloc: Global,
    plan: TargetPlan,
    store: &mut S,
    knows: &mut Knows,
    settling: bool,
) -> Result<Did, TargetStop>
    requires target { IsTarget plan (S.state store.old) (S.durable store.old) knows.old }
    requires running { (S.state store.old).stopped ≡ false }
    ensures turn { (d : Durable) → S.durable store.old ≡ Some d
        → Turn IdleNext never knows.old.leader.decided (kept d (S.state store.old))
        (λ did l. Whole IdleNext (IdleEnds settling plan (memory_of knows.old)) knows.old.leader.decided (kept d (S.state store.old)) l (memory_of knows.new, did))
        (S.durable store.new) (S.state store.new) (S.may store.new) result }
    ensures posts { IfOk result (λ did. PostsInForm plan.targets knows.old.leader knows.new.leader did.posts) }
    ensures reads { IfOk result (λ did. AnswersOnce [] knows.old.member.memory knows.new.member.memory did.posts) }
    ensures ends { (asked : Asked) → IfOk result (λ did. EndsAsked asked knows.old.leader knows.new.leader did.posts) }
    ensures target { IsTarget plan (S.state store.new) (S.durable store.new) knows.new }
    ensures stopped { TurnRuns result (S.state store.old) (S.state store.new) (S.durable store.old) (S.durable store.new) }
{
    if let Err(Stopped) = settle_all(store, plan, knows) {
        return Err(stop_of(alloc, Halt::Stopped, None));
    }
    tell(alloc, plan, store, knows, settling)
}

/// Whether there is idle work: an attempt that it decided isn't settled, another member is to be told of
/// a commit, or, in the settling phase, a leader is to be asked. While the store is stopped this says
/// nothing.
pub fn has_idle_work<S: Store>(plan: TargetPlan, store: &S, knows: &Knows, settling: bool) -> bool
    requires target { IsTarget plan (S.state store.now) (S.durable store.now) knows.now }
    ensures { (S.state store.now).stopped ≡ false → (d : Durable) → S.durable store.now ≡ Some d → result ≡ has_idle settling plan (memory_of knows.now) d }
{
    if !knows.leader.decided().is_empty() {
        return true;
    }
    if has_batch(&knows.leader, seat_of(plan, store), &knows.entries) {
        return true;
    }
    settling && knows.member.has_inquiry(knows.entries.rows())
}
