// A target hears a Commit with a member that is known to be down.
ghost use Rattle.std.specs.Prelude.{◌≡◌, ℕ, IfOk, IfSome, Some, is_some, true, false, []};
ghost use Rattle.world_ended.specs.Asking.{Asked, EndsAsked};
ghost use Rattle.world_ended.specs.world_letters.kinds.Loads.{AnswersOnce};
ghost use Rattle.base_types.specs.declared.epoch.Epoch.{Epoch as EpochOf};
ghost use Rattle.daos_model.specs.declared.durable.Durable.{Durable};
ghost use Rattle.world_base.specs.Commits as commit;
ghost use Rattle.world_base.specs.Statuses.{down_of};
ghost use Rattle.target_parts.specs.world_contents.posts.Forms.{PostsInForm};
ghost use Rattle.target_parts.specs.Knowing.{memory_of};
ghost use Rattle.target_parts.specs.Readings.{AreReadings, most_readings};
ghost use Rattle.target_parts.specs.Standing.{IsTarget, TurnRuns};
ghost use Rattle.target_writes.specs.Turns.{DownTurn};

use crate::commits::ended;
use base_messages::actor::ActorId;
use base_outside::clock::Clock;
use base_types::epoch::TargetId;
use base_types::outcome::Outcome;
use std::alloc::Global;
use target_parts::epochs::ready;
use target_parts::halt::Halt;
use target_parts::knows::Knows;
use target_parts::stop::{TargetStop, stop_of};
use target_parts::telling::{issued_for, says};
use vos_store::refusal::Stopped;
use vos_store::store::Store;
use world_base::did::Did;
use world_base::request::CommitRequest;
use world_base::target::TargetPlan;

/// It hears a Commit of which a member is known to be down, and this is the least of them: an epoch is
/// issued or heard, which the lease is to cover, and the client is told that it is unknown what becomes
/// of the attempt. Nothing is checked or stored. Its clock is read only where an epoch is issued.
///
/// # Errors
///
/// `Store` where the store stopped, and then the turn was cut short; else for want of memory.
pub fn hear_commit_down<S: Store, C: Clock>(
    alloc: Global,
    plan: TargetPlan,
    store: &mut S,
    clock: &mut C,
    knows: &mut Knows,
    from: ActorId,
    request: &CommitRequest,
    down: TargetId,
) -> Result<Did, TargetStop>
    requires target { IsTarget plan (S.state store.old) (S.durable store.old) knows.old }
    requires running { (S.state store.old).stopped ≡ false }
    requires down { (e : EpochOf) → down_of plan (memory_of knows.old) request.now e ≡ Some down }
    ensures turn { (reading : ℕ) × IfSome (C.next clock.old) (λ r. r ≡ reading) × ((d : Durable) → S.durable store.old ≡ Some d
        → DownTurn plan (S.state store.old).opening (memory_of knows.old) reading request.now from d (S.state store.old)
        (S.durable store.new) (S.state store.new) (S.may store.new) (memory_of knows.new) result) }
    ensures posts { from.client ≡ true → IfOk result (λ did. PostsInForm plan.targets knows.old.leader knows.new.leader did.posts) }
    ensures reads { IfOk result (λ did. AnswersOnce [] knows.old.member.memory knows.new.member.memory did.posts) }
    ensures ends { (asked : Asked) → IfOk result (λ did. EndsAsked asked knows.old.leader knows.new.leader did.posts) }
    ensures target { IsTarget plan (S.state store.new) (S.durable store.new) knows.new }
    ensures stopped { TurnRuns result (S.state store.old) (S.state store.new) (S.durable store.old) (S.durable store.new) }
    ensures clock { AreReadings C.is_read (most_readings (is_some request.now.ep)) clock.old clock.new }
{
    match ready(plan, store, clock, knows, request.tracker, request.ep) {
        Ok(Some(epoch)) => {
            let unknown = Outcome::Unknown { target: down };
            let message = ended(request.attempt, Some(epoch), unknown);
            says(
                alloc,
                from,
                message,
                issued_for(request.attempt, request.ep, epoch),
            )
        }
        Ok(None) => {
            let message = ended(request.attempt, None, Outcome::EpochsSpent);
            says(alloc, from, message, None)
        }
        Err(Stopped) => Err(stop_of(alloc, Halt::Stopped, None)),
    }
}
