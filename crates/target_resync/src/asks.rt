// A leader hears an Ask.
ghost use Rattle.std.specs.Prelude.{◌≡◌, IfOk, Some, true, false, []};
ghost use Rattle.target_dtx.specs.world_ended.Asking.{Asked, EndsAsked};
ghost use Rattle.target_dtx.specs.world_letters.kinds.Loads.{AnswersOnce};
ghost use Rattle.daos_model.specs.declared.durable.Durable.{Durable};
ghost use Rattle.vos_store.specs.Refusals.{says};
ghost use Rattle.world_base.specs.Statuses.{AtOnce, EndsAs, NoChange, ask_left};
ghost use Rattle.world_base.specs.Turns.{Whole};
ghost use Rattle.target_parts.specs.world_contents.posts.Forms.{PostsInForm};
ghost use Rattle.target_parts.specs.Knowing.{memory_of};
ghost use Rattle.target_parts.specs.Parts.{kept};
ghost use Rattle.target_parts.specs.Stops.{IsSilent, Turn, never, stop_foreign, stop_store};
ghost use Rattle.target_parts.specs.Standing.{IsTarget};

use base_messages::actor::ActorId;
use base_types::id::AttemptId;
use std::alloc::Global;
use target_parts::kept::seat_of;
use target_parts::knows::Knows;
use target_parts::stop::TargetStop;
use target_parts::telling::sends;
use vos_store::store::Store;
use world_base::did::Did;
use world_base::target::TargetPlan;

/// It hears an Ask: the client is told what became of the attempt, or waits for it.
///
/// # Errors
///
/// For want of memory alone.
pub fn hear_ask<S: Store>(
    alloc: Global,
    plan: TargetPlan,
    store: &S,
    knows: &mut Knows,
    from: ActorId,
    attempt: AttemptId,
) -> Result<Did, TargetStop>
    requires target { IsTarget plan (S.state store.now) (S.durable store.now) knows.old }
    requires running { (S.state store.now).stopped ≡ false }
    ensures turn { (d : Durable) → S.durable store.now ≡ Some d
        → Turn NoChange never AtOnce.Looking (kept d (S.state store.now))
        (λ did l. Whole NoChange (EndsAs (ask_left plan (memory_of knows.old) from attempt)) AtOnce.Looking (kept d (S.state store.now)) l (memory_of knows.new, did))
        (S.durable store.now) (S.state store.now) (S.may store.now) result }
    ensures whole { says stop_store result ≡ false }
    ensures native { says stop_foreign result ≡ false }
    ensures silent { IsSilent result }
    ensures posts { from.client ≡ true → IfOk result (λ did. PostsInForm plan.targets knows.old.leader knows.new.leader did.posts) }
    ensures reads { IfOk result (λ did. AnswersOnce [] knows.old.member.memory knows.new.member.memory did.posts) }
    ensures ends { (asked : Asked) → asked attempt ≡ true → IfOk result (λ did. EndsAsked asked knows.old.leader knows.new.leader did.posts) }
    ensures target { IsTarget plan (S.state store.now) (S.durable store.now) knows.new }
{
    let seat = seat_of(plan, store);
    let posts = knows
        .leader
        .hear_ask(seat, knows.entries.rows(), attempt, from)?;
    Ok(sends(alloc, posts, None))
}
