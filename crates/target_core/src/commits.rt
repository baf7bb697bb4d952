// A target hears a Commit, whether or not a member is known to be down.
ghost use Rattle.std.specs.Prelude.{◌≡◌, ℕ, IfOk, IfSome, Some, is_some, true, false, []};
ghost use Rattle.target_reads.specs.world_ended.Asking.{Asked, EndsAsked};
ghost use Rattle.target_reads.specs.world_letters.kinds.Loads.{AnswersOnce};
ghost use Rattle.std.specs.Option.{ForSome};
ghost use Rattle.base_messages.specs.declared.message.Message.TheVariants as message;
ghost use Rattle.daos_model.specs.declared.durable.Durable.{Durable};
ghost use Rattle.target_parts.specs.world_contents.posts.Forms.{AreWrites, PostsInForm};
ghost use Rattle.snap_core.specs.Snaps.{SnapOf, remembered};
ghost use Rattle.target_parts.specs.Knowing.{memory_of};
ghost use Rattle.target_parts.specs.Readings.{IsReadBy};
ghost use Rattle.target_parts.specs.Standing.{IsTarget, TurnRuns};
ghost use Rattle.target_core.specs.Targets.{HearsOrStops};
ghost use Rattle.target_writes.specs.Checks.{CanCommit};

use base_messages::actor::ActorId;
use base_outside::clock::Clock;
use std::alloc::Global;
use target_parts::knows::Knows;
use target_parts::stop::TargetStop;
use target_writes::below::members::members::members_of;
use target_writes::commits::hear_commit;
use target_writes::downs::hear_commit_down;
use vos_store::store::Store;
use world_base::did::Did;
use world_base::request::CommitRequest;
use world_base::target::TargetPlan;

/// It hears a Commit: where a member of its writes is known to be down, the client is told of the least
/// one; else the writes are checked and stored.
pub(crate) fn hear_any_commit<S: Store, C: Clock>(
    alloc: Global,
    plan: TargetPlan,
    store: &mut S,
    clock: &mut C,
    knows: &mut Knows,
    from: ActorId,
    request: &CommitRequest,
) -> Result<Did, TargetStop>
    requires target { IsTarget plan (S.state store.old) (S.durable store.old) knows.old }
    requires running { (S.state store.old).stopped ≡ false }
    requires writes { AreWrites plan request.now.writes }
    requires here { ForSome (S.durable store.old) (CanCommit plan request.now.attempt request.now.ep request.now.writes) }
    ensures turn { (reading : ℕ) × IfSome (C.next clock.old) (λ r. r ≡ reading) × ((n : ℕ) (snaps : SnapOf) (d : Durable) → S.durable store.old ≡ Some d
        → HearsOrStops n plan (remembered (memory_of knows.old) snaps) reading from (message.Commit request.now.attempt request.now.ep request.now.first request.now.tracker request.now.writes) d (S.state store.old)
        (S.durable store.new) (S.state store.new) (S.may store.new) (remembered (memory_of knows.new) snaps) result) }
    ensures posts { from.client ≡ true → IfOk result (λ did. PostsInForm plan.targets knows.old.leader knows.new.leader did.posts) }
    ensures reads { IfOk result (λ did. AnswersOnce [] knows.old.member.memory knows.new.member.memory did.posts) }
    ensures ends { (asked : Asked) → asked request.now.attempt ≡ true → IfOk result (λ did. EndsAsked asked knows.old.leader knows.new.leader did.posts) }
    ensures target { IsTarget plan (S.state store.new) (S.durable store.new) knows.new }
    ensures stopped { TurnRuns result (S.state store.old) (S.state store.new) (S.durable store.old) (S.durable store.new) }
    ensures clock { IsReadBy C.is_read (is_some request.now.ep) result clock.old clock.new }
{
    let members = members_of(alloc, request.writes.as_slice(), plan.targets)?;
    match knows.leader.down_among(members) {
        Some(down) => hear_commit_down(alloc, plan, store, clock, knows, from, request, down),
        None => hear_commit(alloc, plan, store, clock, knows, from, request),
    }
}
