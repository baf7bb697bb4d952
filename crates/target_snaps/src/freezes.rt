// A target hears target 0's Freeze.
ghost use Rattle.std.specs.Prelude.{◌≡◌, ◌/◌, ℕ, [], IfOk, IfErr, Some, None, true, false};
ghost use Rattle.std.specs.Option.{ForSome};
ghost use Rattle.base_messages.specs.declared.message.Message.TheVariants as message;
ghost use Rattle.daos_model.specs.declared.durable.Durable.{Durable};
ghost use Rattle.daos_model.specs.Durables.{is_enlisted};
ghost use Rattle.snap_core.specs.Snaps.{SnapOf, remembered};
ghost use Rattle.vos_store.specs.Refusals.{says};
ghost use Rattle.world_base.specs.Snapshots.{follows, to_actor};
ghost use Rattle.target_parts.specs.Knowing.{memory_of};
ghost use Rattle.target_parts.specs.Parts.{Runs};
ghost use Rattle.target_parts.specs.Standing.{IsTarget};
ghost use Rattle.target_parts.specs.Stops.{stop_foreign, stop_memory, stop_store};
ghost use Rattle.target_snaps.specs.Following.{TellsNoAttempt};
ghost use Rattle.target_snaps.specs.FreezeTurns.{FreezeTurn, freeze_lines, refusal_by};
ghost use Rattle.target_parts.specs.world_contents.posts.Forms.{TargetPosts};
ghost use Rattle.world_ended.specs.Asking.{Asked, PostsGoWith};
ghost use Rattle.world_ended.specs.world_letters.kinds.Loads.{AnswersOnce};

use crate::freezing::{Froze, freeze_at};
use crate::request::ContRequest;
use crate::tells::{freeze_lines, refusal_by, tells};
use base_messages::message::Message;
use base_types::epoch::Epoch;
use std::alloc::Global;
use target_parts::epochs::hear;
use target_parts::halt::Halt;
use target_parts::knows::Knows;
use target_parts::stop::{TargetStop, stop_of};
use vos_store::refusal::Stopped;
use vos_store::store::Store;
use world_base::did::Did;
use world_base::target::TargetPlan;

// Target 0 is told that the container is frozen, or why it isn't.
fn held(
    alloc: Global,
    plan: TargetPlan,
    request: ContRequest,
    epoch: Epoch,
    froze: Froze,
) -> Result<Did, TargetStop>
    ensures did { IfOk result (λ did. did ≡ follows (to_actor request.from (message.Held request.attempt (refusal_by plan froze))) (freeze_lines plan request.cont epoch froze) None) }
    ensures wanting { IfErr result (λ stop. stop ≡ stop_memory) }
{
    let lines = freeze_lines(alloc, plan, request.cont, epoch, froze)?;
    let answer = Message::Held {
        attempt: request.attempt,
        refusal: refusal_by(plan, froze),
    };
    tells(alloc, request.from, answer, lines, None)
}

/// Target 0 asks it to freeze a container at an epoch: the epoch is heard, which the lease is to cover, the container is
/// frozen, unless that is refused, and target 0 is told.
///
/// # Errors
///
/// `Store` where the store stopped, and then the turn was cut; else for want of memory.
pub fn hear_freeze<S: Store>(
    alloc: Global,
    plan: TargetPlan,
    store: &mut S,
    knows: &mut Knows,
    request: ContRequest,
    epoch: Epoch,
) -> Result<Did, TargetStop>
    requires target { IsTarget plan (S.state store.old) (S.durable store.old) knows.old }
    requires running { (S.state store.old).stopped ≡ false }
    requires enlisted { ForSome (S.durable store.old) (λ d. is_enlisted d request.cont ≡ true) }
    ensures turn { (snaps : SnapOf) (reading : ℕ) (d : Durable) → S.durable store.old ≡ Some d
        → FreezeTurn plan (remembered (memory_of knows.old) snaps) reading request epoch d (S.state store.old)
        (S.durable store.new) (S.state store.new) (S.may store.new) (remembered (memory_of knows.new) snaps) result }
    ensures leader { knows.new.leader ≡ knows.old.leader }
    ensures target { IsTarget plan (S.state store.new) (S.durable store.new) knows.new }
    ensures stopped { Runs stop_store result (S.state store.old) (S.state store.new) (S.durable store.old) (S.durable store.new) }
    ensures native { says stop_foreign result ≡ false }
    ensures reads { IfOk result (λ did. AnswersOnce [] knows.old.member.memory knows.new.member.memory did.posts) }
    ensures posts { request.from.client ≡ false → IfOk result (λ did. TargetPosts plan.targets did.posts) }
    ensures ends { (given : Asked) → IfOk result (λ did. PostsGoWith given did.posts) }
    ensures told { TellsNoAttempt result }
{
    if let Err(Stopped) = hear(plan, store, knows, epoch) {
        return Err(stop_of(alloc, Halt::Stopped, None));
    }
    match freeze_at(store, request.cont, epoch) {
        Ok(froze) => held(alloc, plan, request, epoch, froze),
        Err(halt) => Err(stop_of(alloc, halt, None)),
    }
}
