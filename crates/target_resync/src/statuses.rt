// A target hears a Status, and a leader what members answer to it.
ghost use Rattle.std.specs.Prelude.{◌≡◌, IfOk, Some, false, []};
ghost use Rattle.target_dtx.specs.world_ended.Asking.{Asked, EndsAsked, PostsGoWith};
ghost use Rattle.target_dtx.specs.world_letters.kinds.PostLaws.{CarryNone};
ghost use Rattle.target_dtx.specs.world_letters.kinds.Loads.{AnswersOnce};
ghost use Rattle.daos_model.specs.declared.durable.Durable.{Durable};
ghost use Rattle.vos_store.specs.Refusals.{says};
ghost use Rattle.world_base.specs.Acks as ack;
ghost use Rattle.world_base.specs.Statuses.{AtOnce, EndsAs, NoChange, status_left, status_refusal};
ghost use Rattle.world_base.specs.Turns.{Whole};
ghost use Rattle.target_parts.specs.world_contents.posts.Forms.{PostsInForm, TargetPosts};
ghost use Rattle.target_parts.specs.Knowing.{memory_of};
ghost use Rattle.target_parts.specs.Parts.{kept};
ghost use Rattle.target_parts.specs.Stops.{IsSilent, Turn, never, stop_foreign, stop_store};
ghost use Rattle.target_parts.specs.Standing.{IsTarget, TurnRuns};

use base_messages::actor::ActorId;
use base_messages::message::Message;
use base_types::entry::EntryState;
use base_types::id::AttemptId;
use dtx_resync::statuses::{state_of, status_refusal};
use std::alloc::Global;
use target_dtx::acks::hear_ack;
use target_parts::knows::Knows;
use target_parts::stop::TargetStop;
use target_parts::telling::says;
use vos_store::store::Store;
use world_base::did::Did;
use world_base::target::TargetPlan;

/// It hears a Status, and tells what it holds of the attempt.
///
/// # Errors
///
/// For want of memory alone.
pub fn hear_status<S: Store>(
    alloc: Global,
    plan: TargetPlan,
    store: &S,
    knows: &Knows,
    from: ActorId,
    attempt: AttemptId,
    inc: u64,
) -> Result<Did, TargetStop>
    requires target { IsTarget plan (S.state store.now) (S.durable store.now) knows.now }
    requires running { (S.state store.now).stopped ≡ false }
    ensures turn { (d : Durable) → S.durable store.now ≡ Some d
        → Turn NoChange never AtOnce.Looking (kept d (S.state store.now))
        (λ did l. Whole NoChange (EndsAs (status_left (memory_of knows.now) from attempt inc)) AtOnce.Looking (kept d (S.state store.now)) l (memory_of knows.now, did))
        (S.durable store.now) (S.state store.now) (S.may store.now) result }
    ensures whole { says stop_store result ≡ false }
    ensures native { says stop_foreign result ≡ false }
    ensures silent { IsSilent result }
    ensures posts { from.client ≡ false → IfOk result (λ did. TargetPosts plan.targets did.posts) }
    ensures reads { IfOk result (λ did. CarryNone did.posts) }
    ensures ends { (asked : Asked) → IfOk result (λ did. PostsGoWith asked did.posts) }
{
    let _plan = plan;
    let _store = store;
    let answer = Message::StatusIs {
        attempt,
        inc,
        state: state_of(knows.entries.find(attempt)),
    };
    says(alloc, from, answer, None)
}

/// It hears what the actor of this number holds of an attempt that this target led before it opened again: an entry counts as an Ack, and
/// none refuses, since the attempt isn't resolved. One of another incarnation, and one of no other member, changes nothing.
///
/// # Errors
///
/// `Store` where the store stopped, and then the turn was cut short; else for want of memory.
pub fn hear_status_is<S: Store>(
    alloc: Global,
    plan: TargetPlan,
    store: &mut S,
    knows: &mut Knows,
    member: u16,
    attempt: AttemptId,
    inc: u64,
    state: EntryState,
) -> Result<Did, TargetStop>
    requires target { IsTarget plan (S.state store.old) (S.durable store.old) knows.old }
    requires running { (S.state store.old).stopped ≡ false }
    ensures turn { (d : Durable) → S.durable store.old ≡ Some d
        → Turn (ack.AckNext plan (memory_of knows.old) member attempt inc (status_refusal attempt state)) never ack.AckStage.Heard (kept d (S.state store.old))
        (λ did l. Whole (ack.AckNext plan (memory_of knows.old) member attempt inc (status_refusal attempt state)) (ack.AckEnds (memory_of knows.old)) ack.AckStage.Heard (kept d (S.state store.old)) l (memory_of knows.new, did))
        (S.durable store.new) (S.state store.new) (S.may store.new) result }
    ensures posts { IfOk result (λ did. PostsInForm plan.targets knows.old.leader knows.new.leader did.posts) }
    ensures reads { IfOk result (λ did. AnswersOnce [] knows.old.member.memory knows.new.member.memory did.posts) }
    ensures ends { (asked : Asked) → IfOk result (λ did. EndsAsked asked knows.old.leader knows.new.leader did.posts) }
    ensures target { IsTarget plan (S.state store.new) (S.durable store.new) knows.new }
    ensures stopped { TurnRuns result (S.state store.old) (S.state store.new) (S.durable store.old) (S.durable store.new) }
{
    let refusal = status_refusal(attempt, state);
    hear_ack(alloc, plan, store, knows, member, attempt, inc, &refusal)
}
