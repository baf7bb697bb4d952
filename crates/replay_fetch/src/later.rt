// What stands against an access in what a target keeps: the aggregated-to epoch, and later writes.
ghost use Rattle.std.specs.Prelude.{◌≡◌, ◌+◌, ◌*◌, IfOk};
ghost use Rattle.std.specs.Option.{option_copied};
ghost use Rattle.daos_model.specs.Durables.{row_of, row_or_new};
ghost use Rattle.daos_model.specs.Versions.{first_between, is_between};
ghost use Rattle.vos_store.specs.Answers.{is_past, shown_or_none};
ghost use Rattle.world_base.specs.Reads.{aggregated_above, later_of, uncertain_to};

use base_types::epoch::Epoch;
use base_types::id::ContId;
use base_types::items::Memory;
use base_types::path::Path;
use base_types::shown::Shown;
use daos_model::durable::{ContRow, Durable, Version};
use vos_contents::tables::{has_snap, new_row, row_of};
use world_base::target::TargetPlan;

// The row of a container, or a new one.
fn row_or_new(cont: ContId, row: Option<&ContRow>) -> ContRow
    ensures { result ≡ row_or_new cont (option_copied row.entry) }
{
    match row {
        Some(row) => *row,
        None => new_row(cont),
    }
}

/// What is kept of a container.
#[tactic(auto, unfolding(daos_model::specs::Durables::row_of))]
pub fn row(durable: &Durable, cont: ContId) -> ContRow
    ensures { result ≡ row_of durable.now cont }
{
    row_or_new(cont, row_of(durable.conts.as_slice(), cont))
}

/// Whether the versions that a read below an epoch asks for were aggregated.
#[tactic(auto, unfolding(vos_store::specs::Answers::is_past, daos_model::specs::Durables::is_frozen))]
pub fn is_past(durable: &Durable, cont: ContId, epoch: Epoch) -> bool
    ensures { result ≡ is_past cont epoch durable.now }
{
    epoch.0 <= row(durable, cont).aggregated.0 && !has_snap(durable.snaps.as_slice(), cont, epoch)
}

/// The aggregated-to epoch and its number, where the versions were aggregated.
pub fn aggregated_above(durable: &Durable, path: &Path, epoch: Epoch) -> Option<(Epoch, u32)>
    ensures { result ≡ aggregated_above path.now epoch durable.now }
{
    if is_past(durable, path.cont, epoch) {
        let row = row(durable, path.cont);
        Some((row.aggregated, row.number))
    } else {
        None
    }
}

// The last epoch at which a write refuses an access, since the clocks leave open which was first.
fn uncertain_to(plan: TargetPlan, first: Option<Epoch>, epoch: Epoch) -> u128
    ensures { result ≡ (uncertain_to plan first epoch).0 }
{
    let from = first.unwrap_or(epoch);
    u128::from(from.0) + 256 * u128::from(plan.epsilon)
}

#[tactic(auto, unfolding(daos_model::specs::Versions::is_between))]
fn is_between(row: &Version, path: &Path, above: Epoch, upto: u128) -> bool
    ensures { result ≡ is_between path.now above.0 upto row.now }
{
    above.0 < row.epoch.0 && u128::from(row.epoch.0) <= upto && path.overlaps(row.write.path())
}

// The first version on a path, above an epoch and up to another.
#[tactic(auto, unfolding(daos_model::specs::Versions::first_between))]
fn first_between<'a>(
    rows: &'a [Version],
    path: &Path,
    above: Epoch,
    upto: u128,
) -> Option<&'a Version>
    ensures { option_copied result ≡ first_between path.now above.0 upto rows.now }
{
    rows.iter().find(|row| is_between(row, path, above, upto))
}

// A version as it is shown.
fn shown(version: Option<&Version>) -> Result<Option<Shown>, Memory>
    ensures { IfOk result (λ shown. shown ≡ shown_or_none (option_copied version.entry)) }
{
    match version {
        Some(version) => Ok(Some(Shown {
            by: version.by,
            epoch: version.epoch,
            path: version.write.path().copy()?,
        })),
        None => Ok(None),
    }
}

/// A later write that refuses an access on a path at an epoch, if there is one.
#[tactic(auto, unfolding(vos_store::specs::Answers::later_write))]
pub fn later_of(
    plan: TargetPlan,
    first: Option<Epoch>,
    epoch: Epoch,
    path: &Path,
    durable: &Durable,
) -> Result<Option<Shown>, Memory>
    ensures { IfOk result (λ shown. shown ≡ later_of plan first epoch path.now durable.now) }
{
    let upto = uncertain_to(plan, first, epoch);
    shown(first_between(durable.versions.as_slice(), path, epoch, upto))
}
