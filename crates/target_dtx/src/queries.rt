// A leader hears a Query.
ghost use Rattle.std.specs.Prelude.{◌≡◌, IfOk, Some, false};
ghost use Rattle.world_ended.specs.Asking.{Asked, PostsGoWith};
ghost use Rattle.world_ended.specs.world_letters.kinds.PostLaws.{CarryNone};
ghost use Rattle.daos_model.specs.declared.durable.Durable.{Durable};
ghost use Rattle.vos_store.specs.Refusals.{says};
ghost use Rattle.world_base.specs.Turns.{Whole};
ghost use Rattle.world_base.specs.Verdicts.{QueryEnds, QueryNext, QueryStage};
ghost use Rattle.target_parts.specs.world_contents.posts.Forms.{TargetPosts};
ghost use Rattle.target_parts.specs.Knowing.{memory_of};
ghost use Rattle.target_parts.specs.Parts.{kept};
ghost use Rattle.target_parts.specs.Stops.{IsSilent, Turn, never, stop_foreign, stop_store};
ghost use Rattle.target_parts.specs.Standing.{IsTarget};

use base_messages::actor::ActorId;
use base_messages::message::Message;
use base_types::id::AttemptId;
use std::alloc::Global;
use target_parts::kept::seat_of;
use target_parts::knows::Knows;
use target_parts::stop::TargetStop;
use target_parts::telling::says;
use vos_store::store::Store;
use world_base::did::Did;
use world_base::target::TargetPlan;

/// It hears a Query, and answers what it knows of the attempt.
///
/// # Errors
///
/// For want of memory alone.
pub fn hear_query<S: Store>(
    alloc: Global,
    plan: TargetPlan,
    store: &S,
    knows: &Knows,
    from: ActorId,
    attempt: AttemptId,
    ask: Option<AttemptId>,
) -> Result<Did, TargetStop>
    requires target { IsTarget plan (S.state store.now) (S.durable store.now) knows.now }
    requires running { (S.state store.now).stopped ≡ false }
    ensures turn { (d : Durable) → S.durable store.now ≡ Some d
        → Turn QueryNext never QueryStage.IsAsked (kept d (S.state store.now))
        (λ did l. Whole QueryNext (QueryEnds plan (memory_of knows.now) from attempt ask) QueryStage.IsAsked (kept d (S.state store.now)) l (memory_of knows.now, did))
        (S.durable store.now) (S.state store.now) (S.may store.now) result }
    ensures whole { says stop_store result ≡ false }
    ensures native { says stop_foreign result ≡ false }
    ensures silent { IsSilent result }
    ensures posts { from.client ≡ false → IfOk result (λ did. TargetPosts plan.targets did.posts) }
    ensures reads { IfOk result (λ did. CarryNone did.posts) }
    ensures ends { (asked : Asked) → IfOk result (λ did. PostsGoWith asked did.posts) }
{
    let seat = seat_of(plan, store);
    let entries = knows.entries.of_attempt(attempt);
    let verdict = knows.leader.answer_query(seat, entries, attempt);
    let answer = Message::Verdict {
        attempt,
        ask,
        inc: seat.incarnation,
        verdict,
    };
    says(alloc, from, answer, None)
}
