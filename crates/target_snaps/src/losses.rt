// Target 0 hears that what it asked of another target got no answer.
ghost use Rattle.std.specs.Prelude.{◌≡◌, ◌<◌, [], IfOk, OnOk, OnErr, Some, true, false};
ghost use Rattle.daos_model.specs.declared.durable.Durable.{Durable};
ghost use Rattle.snap_core.specs.Snaps.{remembered};
ghost use Rattle.vos_store.specs.Refusals.{says};
ghost use Rattle.target_parts.specs.world_contents.posts.Forms.{IsCollecting, is_collecting};
ghost use Rattle.world_ended.specs.Asking.{Asked, AsksSo};
ghost use Rattle.world_ended.specs.world_letters.kinds.Loads.{AnswersOnce};
ghost use Rattle.target_parts.specs.Knowing.{memory_of};
ghost use Rattle.target_parts.specs.Standing.{IsTarget};
ghost use Rattle.target_parts.specs.Stops.{stop_foreign, stop_store};
ghost use Rattle.target_snaps.specs.Following.{IsWithin, MakesAsked, MakesInForm, TellsNoAttempt};
ghost use Rattle.target_snaps.specs.HeldTurns.{IsSnapsOf};
ghost use Rattle.target_snaps.specs.LossTurns.{LossTurn};

use base_messages::message::Message;
use base_types::epoch::TargetId;
use snap_core::snaps::SnapCore;
use std::alloc::Global;
use target_parts::kept::seat_of;
use target_parts::knows::Knows;
use target_parts::stop::TargetStop;
use target_parts::telling::sends;
use vos_store::store::Store;
use world_base::did::Did;
use world_base::target::TargetPlan;

/// Target 0 hears that a Freeze or a Prune to a target, which is below 64, got no answer, since that target stopped: it is
/// asked again; or, where `down` is set, it is given up, which is remembered, and the client is told that what became of
/// its attempt is unknown.
///
/// # Errors
///
/// For want of memory alone.
pub fn hear_collection_reset<S: Store>(
    alloc: Global,
    plan: TargetPlan,
    store: &S,
    knows: &mut Knows,
    snaps: &mut SnapCore,
    target: TargetId,
    down: bool,
    message: &Message,
) -> Result<Did, TargetStop>
    requires target { IsTarget plan (S.state store.now) (S.durable store.now) knows.old }
    requires running { (S.state store.now).stopped ≡ false }
    requires one { target < 64 }
    requires collecting { is_collecting message.now ≡ true }
    requires own { IsSnapsOf plan snaps.old }
    ensures turn { (d : Durable) → S.durable store.now ≡ Some d
        → LossTurn plan (remembered (memory_of knows.old) snaps.old) target down message.now d (S.state store.now)
        (S.durable store.now) (S.state store.now) (S.may store.now) (remembered (memory_of knows.new) snaps.new) result }
    ensures whole { says stop_store result ≡ false }
    ensures native { says stop_foreign result ≡ false }
    ensures waiting { OnOk result (knows.new.leader.undecided ≡ knows.old.leader.undecided) }
    ensures reads { IfOk result (λ did. AnswersOnce [] knows.old.member.memory knows.new.member.memory did.posts) }
    ensures posts { IsCollecting message.now → IfOk result (λ did. MakesInForm plan.targets snaps.old.collecting snaps.new.collecting did.posts) }
    ensures ends { (given : Asked) → AsksSo given message.now → IfOk result (λ did. MakesAsked given snaps.old.collecting snaps.new.collecting did.posts) }
    ensures told { TellsNoAttempt result }
    ensures within { OnErr result (IsWithin snaps.new.collecting snaps.old.collecting) }
    ensures own { IsSnapsOf plan snaps.new }
    ensures target { IsTarget plan (S.state store.now) (S.durable store.now) knows.new }
{
    let posts = snaps.hear_reset(target, down, message)?;
    let seat = seat_of(plan, store);
    let _none = knows
        .leader
        .hear_reset(seat, knows.entries.rows(), target, down, message)?;
    Ok(sends(alloc, posts, None))
}
