// A target hears a Mark.
ghost use Rattle.std.specs.Prelude.{◌≡◌, IfOk, OnOk, Some, false, []};
ghost use Rattle.world_ended.specs.Asking.{Asked, EndsAsked};
ghost use Rattle.world_ended.specs.world_letters.kinds.Loads.{AnswersOnce};
ghost use Rattle.std.specs.Option.{ForSome};
ghost use Rattle.daos_model.specs.declared.durable.Durable.{Durable};
ghost use Rattle.dtx_base.specs.Leading.{attempts_of};
ghost use Rattle.vos_store.specs.Refusals.{always_stop, says};
ghost use Rattle.world_base.specs.Marks.{MarkEnds, MarkNext, marked_step};
ghost use Rattle.world_base.specs.Roles.{is_prepared, told_of_all};
ghost use Rattle.world_base.specs.Turns.{Whole};
ghost use Rattle.target_parts.specs.world_contents.posts.Forms.{PostsInForm};
ghost use Rattle.target_parts.specs.Keeping.{IsEnding};
ghost use Rattle.target_parts.specs.Knowing.{LeadsWell, memory_of};
ghost use Rattle.target_parts.specs.Parts.{kept};
ghost use Rattle.target_parts.specs.Stops.{Turn, never};
ghost use Rattle.target_dtx.specs.Dtx.{GoesThrough};
ghost use Rattle.target_parts.specs.Standing.{IsTarget, Keeps, TurnRuns};

use base_messages::actor::ActorId;
use base_messages::message::Message;
use base_types::entry::Settle;
use base_types::id::AttemptId;
use base_types::items::Items;
use dtx_table::marks::attempts_of;
use std::alloc::Global;
use target_parts::halt::Halt;
use target_parts::kept::settle_prepared;
use target_parts::knows::Knows;
use target_parts::stop::{TargetStop, stop_of};
use target_parts::telling::says;
use vos_store::refusal::Stopped;
use vos_store::store::Store;
use world_base::did::Did;
use world_base::target::TargetPlan;

// What a Mark says became of an attempt.
fn step_of(committed: bool) -> Settle
    ensures is { result ≡ marked_step committed }
    ensures ending { IsEnding result }
{
    if committed {
        Settle::Commit
    } else {
        Settle::Abort
    }
}

// Attempts are settled by a Mark, one after another.
fn settle_all<S: Store>(
    store: &mut S,
    plan: TargetPlan,
    knows: &mut Knows,
    marks: &[(AttemptId, bool)],
) -> Result<(), Stopped>
    requires running { (S.state store.old).stopped ≡ false }
    requires leads { ForSome (S.durable store.old) (LeadsWell plan (memory_of knows.old) knows.old.entries.items) }
    ensures settled { (d : Durable) → S.durable store.old ≡ Some d
        → GoesThrough (MarkNext is_prepared) marks.now d (S.state store.old) (S.durable store.new) (S.state store.new) (S.may store.new) result }
    ensures told { OnOk result (memory_of knows.new ≡ told_of_all (attempts_of marks.now) (memory_of knows.old)) }
    ensures keeps { Keeps plan always_stop result (S.state store.old) (S.state store.new) (S.durable store.old) (S.durable store.new) knows.old knows.new }
{
    for mark in marks {
        settle_prepared(store, plan, knows, mark.0, step_of(mark.1))?;
    }
    Ok(())
}

/// It hears a Mark: of the attempts that it names those are settled that are prepared here, whoever
/// leads them, and it tells so of all. As a leader it then neither waits for them nor has to settle them.
///
/// # Errors
///
/// `Store` where the store stopped, and then the turn was cut short; else for want of memory.
pub fn hear_mark<S: Store>(
    alloc: Global,
    plan: TargetPlan,
    store: &mut S,
    knows: &mut Knows,
    from: ActorId,
    inc: u64,
    marks: &[(AttemptId, bool)],
) -> Result<Did, TargetStop>
    requires target { IsTarget plan (S.state store.old) (S.durable store.old) knows.old }
    requires running { (S.state store.old).stopped ≡ false }
    ensures turn { (d : Durable) → S.durable store.old ≡ Some d
        → Turn (MarkNext is_prepared) never marks.now (kept d (S.state store.old))
        (λ did l. Whole (MarkNext is_prepared) (MarkEnds (told_of_all (attempts_of marks.now) (memory_of knows.old)) from inc marks.now) marks.now (kept d (S.state store.old)) l (memory_of knows.new, did))
        (S.durable store.new) (S.state store.new) (S.may store.new) result }
    ensures posts { from.client ≡ false → IfOk result (λ did. PostsInForm plan.targets knows.old.leader knows.new.leader did.posts) }
    ensures reads { IfOk result (λ did. AnswersOnce [] knows.old.member.memory knows.new.member.memory did.posts) }
    ensures ends { (asked : Asked) → IfOk result (λ did. EndsAsked asked knows.old.leader knows.new.leader did.posts) }
    ensures target { IsTarget plan (S.state store.new) (S.durable store.new) knows.new }
    ensures stopped { TurnRuns result (S.state store.old) (S.state store.new) (S.durable store.old) (S.durable store.new) }
{
    let attempts = Items::from_vec(attempts_of(alloc, marks)?);
    let did = says(alloc, from, Message::Marked { inc, attempts }, None)?;
    match settle_all(store, plan, knows, marks) {
        Ok(()) => Ok(did),
        Err(Stopped) => Err(stop_of(alloc, Halt::Stopped, None)),
    }
}
