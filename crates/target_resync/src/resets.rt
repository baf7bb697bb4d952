// A target hears that a message of its got no answer.
ghost use Rattle.std.specs.Prelude.{◌≡◌, ◌<◌, IfOk, Some, false, []};
ghost use Rattle.target_dtx.specs.world_ended.Asking.{Asked, EndsAsked};
ghost use Rattle.target_dtx.specs.world_letters.kinds.Loads.{AnswersOnce};
ghost use Rattle.daos_model.specs.declared.durable.Durable.{Durable};
ghost use Rattle.vos_store.specs.Refusals.{says};
ghost use Rattle.world_base.specs.Statuses.{AtOnce, EndsAs, NoChange, reset_left};
ghost use Rattle.world_base.specs.Turns.{Whole};
ghost use Rattle.target_parts.specs.world_contents.posts.Forms.{PostsInForm};
ghost use Rattle.target_parts.specs.Knowing.{memory_of};
ghost use Rattle.target_parts.specs.Parts.{kept};
ghost use Rattle.target_parts.specs.Stops.{IsSilent, Turn, never, stop_foreign, stop_store};
ghost use Rattle.target_parts.specs.Standing.{IsTarget};

use base_messages::message::Message;
use base_types::epoch::TargetId;
use std::alloc::Global;
use target_parts::kept::seat_of;
use target_parts::knows::Knows;
use target_parts::stop::TargetStop;
use target_parts::telling::{push_all, sends};
use vos_store::store::Store;
use world_base::did::Did;
use world_base::target::TargetPlan;

/// It hears that a message of leaders and members to a target, which is below 64, got no answer, since that target stopped or, where
/// `down` is set, is given up. What follows is told by the message: see the leader's and the member's own calls.
///
/// # Errors
///
/// For want of memory alone.
pub fn hear_reset<S: Store>(
    alloc: Global,
    plan: TargetPlan,
    store: &S,
    knows: &mut Knows,
    target: TargetId,
    down: bool,
    message: &Message,
) -> Result<Did, TargetStop>
    requires target { IsTarget plan (S.state store.now) (S.durable store.now) knows.old }
    requires running { (S.state store.now).stopped ≡ false }
    requires one { target < 64 }
    ensures turn { (d : Durable) → S.durable store.now ≡ Some d
        → Turn NoChange never AtOnce.Looking (kept d (S.state store.now))
        (λ did l. Whole NoChange (EndsAs (reset_left plan (memory_of knows.old) target down message.now)) AtOnce.Looking (kept d (S.state store.now)) l (memory_of knows.new, did))
        (S.durable store.now) (S.state store.now) (S.may store.now) result }
    ensures whole { says stop_store result ≡ false }
    ensures native { says stop_foreign result ≡ false }
    ensures silent { IsSilent result }
    ensures posts { IfOk result (λ did. PostsInForm plan.targets knows.old.leader knows.new.leader did.posts) }
    ensures reads { IfOk result (λ did. AnswersOnce [] knows.old.member.memory knows.new.member.memory did.posts) }
    ensures ends { (asked : Asked) → IfOk result (λ did. EndsAsked asked knows.old.leader knows.new.leader did.posts) }
    ensures target { IsTarget plan (S.state store.now) (S.durable store.now) knows.new }
{
    let seat = seat_of(plan, store);
    let mut posts = knows
        .leader
        .hear_reset(seat, knows.entries.rows(), target, down, message)?;
    let freed = knows.member.hear_reset(down, message)?;
    push_all(&mut posts, freed.posts)?;
    Ok(sends(alloc, posts, None))
}
