// A target hears what comes of stops.
ghost use Rattle.std.specs.Prelude.{◌≡◌, ℕ, IfOk, Some, false, []};
ghost use Rattle.target_reads.specs.world_ended.Asking.{Asked, EndsAsked, GoesWith};
ghost use Rattle.target_reads.specs.world_letters.kinds.Loads.{AnswersOnce};
ghost use Rattle.daos_model.specs.declared.durable.Durable.{Durable};
ghost use Rattle.target_parts.specs.world_contents.posts.Forms.{PostsInForm};
ghost use Rattle.snap_core.specs.Snaps.{SnapOf, remembered};
ghost use Rattle.target_parts.specs.Knowing.{memory_of};
ghost use Rattle.target_parts.specs.Standing.{IsTarget, TurnRuns};
ghost use Rattle.target_core.specs.Targets.{HasFormAfterStops, HearsOrStops, is_after_stops, is_of_client};

use base_messages::actor::ActorId;
use base_messages::message::Message;
use std::alloc::Global;
use target_parts::knows::Knows;
use target_parts::stop::TargetStop;
use target_resync::asks::hear_ask;
use target_resync::resets::hear_reset;
use target_resync::statuses::{hear_status, hear_status_is};
use vos_store::store::Store;
use world_base::did::Did;
use world_base::target::TargetPlan;

/// Whether a message comes of stops: an Ask, a Status, what answers it, or a Reset.
pub(crate) fn is_after_stops(message: &Message) -> bool
    ensures { result ≡ is_after_stops message.now }
{
    matches!(
        message,
        Message::Ask { .. }
            | Message::Status { .. }
            | Message::StatusIs { .. }
            | Message::Reset { .. }
    )
}

/// It hears such a message.
pub(crate) fn hear_after_stops<S: Store>(
    alloc: Global,
    plan: TargetPlan,
    store: &mut S,
    knows: &mut Knows,
    from: ActorId,
    message: Message,
) -> Result<Did, TargetStop>
    requires target { IsTarget plan (S.state store.old) (S.durable store.old) knows.old }
    requires running { (S.state store.old).stopped ≡ false }
    requires form { HasFormAfterStops message }
    ensures turn { (n : ℕ) (snaps : SnapOf) (d : Durable) → S.durable store.old ≡ Some d → (reading : ℕ)
        → HearsOrStops n plan (remembered (memory_of knows.old) snaps) reading from message d (S.state store.old)
        (S.durable store.new) (S.state store.new) (S.may store.new) (remembered (memory_of knows.new) snaps) result }
    ensures posts { is_of_client message ≡ from.client → IfOk result (λ did. PostsInForm plan.targets knows.old.leader knows.new.leader did.posts) }
    ensures reads { IfOk result (λ did. AnswersOnce [] knows.old.member.memory knows.new.member.memory did.posts) }
    ensures ends { (asked : Asked) → GoesWith asked message → IfOk result (λ did. EndsAsked asked knows.old.leader knows.new.leader did.posts) }
    ensures target { IsTarget plan (S.state store.new) (S.durable store.new) knows.new }
    ensures stopped { TurnRuns result (S.state store.old) (S.state store.new) (S.durable store.old) (S.durable store.new) }
{
    match message {
        Message::Ask { attempt } => hear_ask(alloc, plan, store, knows, from, attempt),
        Message::Status { attempt, inc } => {
            hear_status(alloc, plan, store, knows, from, attempt, inc)
        }
        Message::StatusIs {
            attempt,
            inc,
            state,
        } => hear_status_is(alloc, plan, store, knows, from.number, attempt, inc, state),
        Message::Reset {
            target,
            down,
            message,
        } => hear_reset(alloc, plan, store, knows, target, down, message.get()),
        _ => unreachable!(),
    }
}
