// A target opens again.
ghost use Rattle.std.specs.Prelude.{◌≡◌, ◌≤◌, ◌<◌, ◌+◌, ◌^◌, ◌⊎◌, IfOk, IfErr, IsSome, Some, false, []};
ghost use Rattle.target_dtx.specs.world_ended.Asking.{Asked, LeavesWith};
ghost use Rattle.target_dtx.specs.world_letters.kinds.PostLaws.{CarryNone};
ghost use Rattle.std.specs.Option.{ForSome};
ghost use Rattle.base_types.specs.Epochs.{restart_floor};
ghost use Rattle.base_types.specs.declared.outcome.FloorWhy.{FloorWhy};
ghost use Rattle.daos_model.specs.Changes.{reopened};
ghost use Rattle.daos_model.specs.declared.durable.Durable.{Durable};
ghost use Rattle.vos_store.specs.Refusals.{says};
ghost use Rattle.target_parts.specs.world_contents.posts.Forms.{Follows};
ghost use Rattle.target_parts.specs.Knowing.{IsHeard};
ghost use Rattle.target_parts.specs.Standing.{IsPlaced, IsTarget};
ghost use Rattle.target_parts.specs.Stops.{stop_foreign};
ghost use Rattle.target_resync.specs.Openings.{HasEntries, IsBare, Left, OpensWith, Reopens, TellsRestart, of_later, of_reopen};

use crate::opening::{first_knows, opening_did};
use base_types::entry::Entries;
use std::alloc::Global;
use target_parts::halt::Halt;
use target_parts::knows::Knows;
use target_parts::stop::{TargetStop, stop_of};
use vos_store::refusal::{LaterNo, ReopenNo};
use vos_store::store::Store;
use world_base::did::Did;
use world_base::target::TargetPlan;

/// What a target has that opened again: what it knows, and what follows.
#[derive(Drop)]
pub struct Opened {
    pub knows: Knows,
    pub did: Did,
}

// Why a target doesn't open whose store doesn't.
fn of_reopen(alloc: Global, no: ReopenNo) -> TargetStop
    ensures { result ≡ of_reopen no }
{
    match no {
        ReopenNo::Stopped => stop_of(alloc, Halt::Stopped, None),
        ReopenNo::Foreign { at, byte } => TargetStop::Foreign { at, byte },
        ReopenNo::Memory => TargetStop::Memory,
    }
}

// Why a target doesn't open whose store doesn't tell the entries.
fn of_later(alloc: Global, no: LaterNo) -> TargetStop
    ensures { result ≡ of_later no }
{
    match no {
        LaterNo::Stopped => stop_of(alloc, Halt::Stopped, None),
        LaterNo::Memory => TargetStop::Memory,
    }
}

// The store opens again, and tells its entries.
fn reopen<S: Store>(alloc: Global, store: &mut S, number: u32) -> Result<Entries, TargetStop>
    requires counted { ForSome (S.durable store.old) (λ _. (x : Durable) → S.may store.old x → x.incarnation + 1 < 2 ^ 64) }
    ensures opens { Reopens result (S.state store.old) (S.state store.new) (S.durable store.old) (S.durable store.new) }
    ensures found { IfOk result (HasEntries (S.may store.old) (S.durable store.new)) }
    ensures floor { IfOk result (λ _. ForSome (S.durable store.new) (λ d. (S.state store.new).opening.0.0 ≡ restart_floor d.lease)) }
    ensures why { IfOk result (λ _. (S.state store.new).opening.1 ≡ FloorWhy.Restart number) }
    ensures left { Left (S.may store.old) (S.may store.new) }
    ensures bare { IfErr result IsBare }
    ensures native { IsSome (S.durable store.old) → says stop_foreign result ≡ false }
{
    if let Err(no) = store.reopen(number) {
        return Err(of_reopen(alloc, no));
    }
    match store.entries() {
        Ok(entries) => Ok(entries),
        Err(no) => Err(of_later(alloc, no)),
    }
}

/// A target whose store may be stopped opens again, by the restart of this number: the store opens with one of what it may have kept, its
/// incarnation raised. What the target then knows is what one knows that has just opened; it adds its restart line, and asks the other
/// members of each attempt that it leads and that isn't committed.
///
/// # Errors
///
/// `Store` only where a count of the store rose, which is then stopped; `Foreign` where the store met a foreign byte, which never comes from
/// one that tells what it keeps; else for want of memory. No line is then added. The next opening finds what this one may have found,
/// with the incarnation raised or not.
pub fn restart<S: Store>(
    alloc: Global,
    plan: TargetPlan,
    store: &mut S,
    number: u32,
) -> Result<Opened, TargetStop>
    requires placed { IsPlaced plan (S.state store.old) }
    requires few { plan.targets ≤ 64 }
    requires counted { ForSome (S.durable store.old) (λ _. (x : Durable) → S.may store.old x → x.incarnation + 1 < 2 ^ 64) }
    requires covered { ForSome (S.durable store.old) (λ _. (x : Durable) → S.may store.old x → IsHeard x.lease x) }
    ensures opens { Reopens result (S.state store.old) (S.state store.new) (S.durable store.old) (S.durable store.new) }
    ensures opened { ForSome (S.durable store.old) (λ _. IfOk result (OpensWith plan number (S.may store.old) (S.durable store.new) (S.state store.new))) }
    ensures left { Left (S.may store.old) (S.may store.new) }
    ensures bare { IfErr result IsBare }
    ensures native { IsSome (S.durable store.old) → says stop_foreign result ≡ false }
    ensures posts { IfOk result (λ o. Follows plan.targets o.knows.leader o.did.posts) }
    ensures reads { IfOk result (λ o. CarryNone o.did.posts) }
    ensures ends { (asked : Asked) → IfOk result (λ o. LeavesWith asked o.knows.leader o.did.posts) }
    ensures fresh { IfOk result (λ o. o.knows.member.memory.parked ≡ []) }
    ensures line { IfOk result (λ o. TellsRestart number plan.me o.did) }
    ensures target { IfOk result (λ o. IsTarget plan (S.state store.new) (S.durable store.new) o.knows) }
{
    let entries = reopen(alloc, store, number)?;
    let incarnation = store.incarnation();
    let lease = store.lease();
    let did = opening_did(alloc, plan, number, incarnation, lease, entries.as_slice())?;
    let knows = first_knows(alloc, plan, lease, entries)?;
    Ok(Opened { knows, did })
}
