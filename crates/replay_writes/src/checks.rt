// Whether writes are refused, or allowed.
ghost use Rattle.std.specs.Prelude.{◌≡◌, Some, IfOk, Decides};
ghost use Rattle.base_types.specs.declared.outcome.Cause.TheVariants.{Floor};
ghost use Rattle.vos_store.specs.Answers.{floor_of};
ghost use Rattle.replay_writes.specs.Refused.{IsRefusedAbove};
ghost use Rattle.world_base.specs.Commits.{FirstRead, IsAllowed, IsRefusedBy, NoReads, first_floor, first_later};

use crate::reads::{is_first_read, no_reads};
use base_types::epoch::{Epoch, TargetId};
use base_types::id::{AttemptId, ContId};
use base_types::items::Memory;
use base_types::operation::MinorWrite;
use base_types::outcome::{Cause, FloorWhy};
use base_types::path::Path;
use base_types::shown::Shown;
use daos_model::durable::Durable;
use replay_fetch::later::{later_of, row};
use world_base::target::TargetPlan;
use world_same::same::Same;

// The floor of a container.
#[tactic(auto, unfolding(vos_store::specs::Answers::floor_of))]
fn floor_of(opening: (Epoch, FloorWhy), durable: &Durable, cont: ContId) -> (Epoch, FloorWhy)
    ensures { result ≡ floor_of opening durable.now cont }
{
    let row = row(durable, cont);
    if opening.0.0 < row.floor.0 {
        (row.floor, row.why)
    } else {
        opening
    }
}

// The cause of the first floor that a write isn't above.
fn first_floor(
    plan: TargetPlan,
    opening: (Epoch, FloorWhy),
    epoch: Epoch,
    durable: &Durable,
    writes: &[MinorWrite],
) -> Option<Cause>
    ensures { result ≡ first_floor plan opening epoch durable.now writes.now }
{
    for write in writes {
        let (at, why) = floor_of(opening, durable, write.write.path().cont);
        if epoch.0 <= at.0 {
            return Some(floor(plan.me, at, why));
        }
    }
    None
}

// A floor as a cause.
fn floor(target: TargetId, epoch: Epoch, why: FloorWhy) -> Cause
    ensures { result ≡ Floor target epoch why }
{
    Cause::Floor { target, epoch, why }
}

// A later write of the first write that one refuses.
fn first_later(
    plan: TargetPlan,
    first: Option<Epoch>,
    epoch: Epoch,
    durable: &Durable,
    writes: &[MinorWrite],
) -> Result<Option<Shown>, Memory>
    ensures { IfOk result (λ later. later ≡ first_later plan first epoch durable.now writes.now) }
{
    for write in writes {
        let later = later_of(plan, first, epoch, write.write.path(), durable)?;
        if later.is_some() {
            return Ok(later);
        }
    }
    Ok(None)
}

// Whether this later read refuses writes that are above their floors.
fn is_refused_by_read(
    epoch: Epoch,
    stamps: &[Shown],
    writes: &[MinorWrite],
    by: AttemptId,
    at: Epoch,
    path: &Path,
) -> Result<bool, Memory>
    ensures { IfOk result (λ yes. Decides yes (FirstRead epoch stamps.now writes.now (record { by = by; epoch = at; path = path.now }))) }
{
    let read = Shown {
        by,
        epoch: at,
        path: path.copy()?,
    };
    Ok(is_first_read(epoch, stamps, writes, &read))
}

// Whether this later write refuses writes that are above their floors, where no read stands against them.
fn is_refused_by_write(
    plan: TargetPlan,
    first: Option<Epoch>,
    epoch: Epoch,
    durable: &Durable,
    stamps: &[Shown],
    writes: &[MinorWrite],
    by: AttemptId,
    at: Epoch,
    path: &Path,
) -> Result<bool, Memory>
    ensures { IfOk result (λ yes. Decides yes (NoReads epoch stamps.now writes.now × (first_later plan first epoch durable.now writes.now ≡ Some (record { by = by; epoch = at; path = path.now })))) }
{
    let write = Some(Shown {
        by,
        epoch: at,
        path: path.copy()?,
    });
    let later = first_later(plan, first, epoch, durable, writes)?;
    Ok(no_reads(epoch, stamps, writes) && later.is_same(&write))
}

// Whether writes that are above their floors are refused for this cause.
fn is_refused_above(
    plan: TargetPlan,
    first: Option<Epoch>,
    epoch: Epoch,
    durable: &Durable,
    stamps: &[Shown],
    writes: &[MinorWrite],
    cause: &Cause,
) -> Result<bool, Memory>
    ensures { IfOk result (λ yes. Decides yes (IsRefusedAbove plan first epoch durable.now stamps.now writes.now cause.now)) }
{
    match cause {
        Cause::ReadLater {
            by,
            epoch: at,
            path,
        } => is_refused_by_read(epoch, stamps, writes, *by, *at, path),
        Cause::WriteLater {
            by,
            epoch: at,
            path,
        } => is_refused_by_write(plan, first, epoch, durable, stamps, writes, *by, *at, path),
        _ => Ok(false),
    }
}

/// Whether writes are refused for this cause: by a floor, else by a later read, else by a later write.
pub fn is_refused_by(
    plan: TargetPlan,
    opening: (Epoch, FloorWhy),
    first: Option<Epoch>,
    epoch: Epoch,
    durable: &Durable,
    stamps: &[Shown],
    writes: &[MinorWrite],
    cause: &Cause,
) -> Result<bool, Memory>
    ensures { IfOk result (λ yes. Decides yes (IsRefusedBy plan opening first epoch durable.now stamps.now writes.now cause.now)) }
{
    match first_floor(plan, opening, epoch, durable, writes) {
        Some(floor) => Ok(cause.is_same(&floor)),
        None => is_refused_above(plan, first, epoch, durable, stamps, writes, cause),
    }
}

/// Whether writes are allowed.
pub fn is_allowed(
    plan: TargetPlan,
    opening: (Epoch, FloorWhy),
    first: Option<Epoch>,
    epoch: Epoch,
    durable: &Durable,
    stamps: &[Shown],
    writes: &[MinorWrite],
) -> Result<bool, Memory>
    ensures { IfOk result (λ yes. Decides yes (IsAllowed plan opening first epoch durable.now stamps.now writes.now)) }
{
    let floor = first_floor(plan, opening, epoch, durable, writes);
    let later = first_later(plan, first, epoch, durable, writes)?;
    Ok(floor.is_none() && no_reads(epoch, stamps, writes) && later.is_none())
}
