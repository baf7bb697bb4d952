// A target hears that a container is to be aggregated.
ghost use Rattle.std.specs.Prelude.{◌≡◌, ◌≤◌, ◌/◌, ℕ, List, [], ◌∷◌, IfOk, IfErr, OnOk, Option, Some, None, true, false};
ghost use Rattle.std.specs.Option.{ForSome};
ghost use Rattle.base_messages.specs.declared.message.Message.TheVariants as asked;
ghost use Rattle.base_types.specs.declared.report.Line.TheVariants as line;
ghost use Rattle.daos_model.specs.declared.durable.Durable.{Durable};
ghost use Rattle.daos_model.specs.Durables.{is_enlisted};
ghost use Rattle.snap_core.specs.Snaps.{SnapOf, remembered};
ghost use Rattle.vos_store.specs.Refusals.{says};
ghost use Rattle.world_base.specs.Snapshots.{follows, to_actor};
ghost use Rattle.target_parts.specs.Knowing.{memory_of};
ghost use Rattle.target_parts.specs.Parts.{Runs, kept};
ghost use Rattle.target_parts.specs.Standing.{IsTarget};
ghost use Rattle.target_parts.specs.Stops.{stop_foreign, stop_memory, stop_store};
ghost use Rattle.target_snaps.specs.Following.{TellsNoAttempt};
ghost use Rattle.target_snaps.specs.PruneTurns.{LinesNoAttempt, PruneTurn, PrunesOrCut};
ghost use Rattle.target_parts.specs.world_contents.posts.Forms.{TargetPosts};
ghost use Rattle.world_ended.specs.Asking.{Asked, PostsGoWith};
ghost use Rattle.world_ended.specs.world_letters.kinds.Loads.{AnswersOnce};

use crate::limits::{limit_of, prune_to};
use crate::request::ContRequest;
use crate::settling::settle_decisions;
use crate::tells::tells;
use base_messages::message::Message;
use base_types::epoch::{Epoch, TargetId};
use base_types::id::{AttemptId, ContId};
use base_types::items::{Items, Memory};
use base_types::report::{Line, Lines};
use std::alloc::Global;
use target_parts::epochs::hear;
use target_parts::halt::Halt;
use target_parts::knows::Knows;
use target_parts::stop::{TargetStop, stop_of};
use vos_store::refusal::Stopped;
use vos_store::store::Store;
use world_base::did::Did;
use world_base::target::TargetPlan;

// The line of an aggregation.
fn aggregate_line(
    alloc: Global,
    me: TargetId,
    cont: ContId,
    upto: Epoch,
    number: u32,
) -> Result<Lines, Memory>
    ensures { IfOk result (λ lines. lines ≡ line.Aggregate number me cont upto ∷ []) }
{
    let mut lines = Items::new(alloc);
    lines.push(Line::Aggregate {
        number,
        target: me,
        cont,
        upto,
    })?;
    Ok(lines)
}

/// A container is pruned up to its limit at an epoch that the lease covers, where that is due.
pub(crate) fn prune_at<S: Store>(
    alloc: Global,
    plan: TargetPlan,
    store: &mut S,
    knows: &Knows,
    cont: ContId,
    epoch: Epoch,
    number: u32,
    issued: Option<(AttemptId, Epoch)>,
) -> Result<Lines, TargetStop>
    requires target { IsTarget plan (S.state store.old) (S.durable store.old) knows.now }
    requires running { (S.state store.old).stopped ≡ false }
    requires enlisted { ForSome (S.durable store.old) (λ d. is_enlisted d cont ≡ true) }
    requires leased { ForSome (S.durable store.old) (λ d. epoch.0 / 256 ≤ d.lease) }
    ensures pruned { (d : Durable) → S.durable store.old ≡ Some d
        → PrunesOrCut plan cont epoch number issued d (S.state store.old) (S.durable store.new) (S.state store.new) (S.may store.new) result }
    ensures target { IsTarget plan (S.state store.new) (S.durable store.new) knows.now }
    ensures stopped { Runs stop_store result (S.state store.old) (S.state store.new) (S.durable store.old) (S.durable store.new) }
    ensures native { says stop_foreign result ≡ false }
    ensures told { LinesNoAttempt result }
{
    let _knows = knows;
    let limit = limit_of(store, cont, epoch);
    if limit.0 <= store.aggregated(cont).0 {
        return Ok(Items::new(alloc));
    }
    let lines = aggregate_line(alloc, plan.me, cont, limit, number)?;
    if let Err(Stopped) = prune_to(store, cont, limit, number) {
        return Err(TargetStop::Store { issued, lines });
    }
    Ok(lines)
}

/// Target 0 asks it to aggregate a container up to an epoch, by the aggregation of a number that was drawn for it: the
/// epoch is heard, which the lease is to cover, what it decided is settled, the container is pruned as far as nothing in
/// it is unsettled, and target 0 is told.
///
/// # Errors
///
/// `Store` where the store stopped, and then the turn was cut; else for want of memory.
pub fn hear_prune<S: Store>(
    alloc: Global,
    plan: TargetPlan,
    store: &mut S,
    knows: &mut Knows,
    request: ContRequest,
    epoch: Epoch,
    number: u32,
) -> Result<Did, TargetStop>
    requires target { IsTarget plan (S.state store.old) (S.durable store.old) knows.old }
    requires running { (S.state store.old).stopped ≡ false }
    requires enlisted { ForSome (S.durable store.old) (λ d. is_enlisted d request.cont ≡ true) }
    ensures turn { (snaps : SnapOf) (reading : ℕ) (d : Durable) → S.durable store.old ≡ Some d
        → PruneTurn plan (remembered (memory_of knows.old) snaps) reading request epoch number d (S.state store.old)
        (S.durable store.new) (S.state store.new) (S.may store.new) (remembered (memory_of knows.new) snaps) result }
    ensures target { IsTarget plan (S.state store.new) (S.durable store.new) knows.new }
    ensures stopped { Runs stop_store result (S.state store.old) (S.state store.new) (S.durable store.old) (S.durable store.new) }
    ensures native { says stop_foreign result ≡ false }
    ensures waiting { OnOk result (knows.new.leader.undecided ≡ knows.old.leader.undecided) }
    ensures reads { IfOk result (λ did. AnswersOnce [] knows.old.member.memory knows.new.member.memory did.posts) }
    ensures posts { request.from.client ≡ false → IfOk result (λ did. TargetPosts plan.targets did.posts) }
    ensures ends { (given : Asked) → IfOk result (λ did. PostsGoWith given did.posts) }
    ensures told { TellsNoAttempt result }
{
    if let Err(Stopped) = hear(plan, store, knows, epoch) {
        return Err(stop_of(alloc, Halt::Stopped, None));
    }
    if let Err(Stopped) = settle_decisions(store, plan, knows) {
        return Err(stop_of(alloc, Halt::Stopped, None));
    }
    let lines = prune_at(alloc, plan, store, knows, request.cont, epoch, number, None)?;
    let attempt = request.attempt;
    let refusal = None;
    let answer = Message::Held { attempt, refusal };
    tells(alloc, request.from, answer, lines, None)
}
