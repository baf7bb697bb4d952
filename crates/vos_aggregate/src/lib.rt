// Which versions of a container an aggregation removes.
#![tactic(auto)]

mod buckets;
mod chains;
mod later;
mod marking;
mod plannable;
pub mod planner;
mod sights;
mod sparing;

ghost use Rattle.std.specs.Prelude.{◌≡◌, ◌&&◌, ◌∷◌, ◌++◌, [], filter, if◌then◌else◌, map, IfErr, IfOk, OnOk};
ghost use Rattle.std.specs.Option.{option_copied};
ghost use Rattle.daos_model.specs.Prunes.{is_going};
ghost use Rattle.vos_aggregate.specs.declared.PruneNo.TheVariants.{Memory as NoMemory};
ghost use Rattle.vos_aggregate.specs.Opens.{AreSettled, LeastOpen, PlanWhy, is_earlier, is_open_below};

use crate::planner::Planner;
use base_types::epoch::Epoch;
use base_types::id::{AttemptId, ContId};
use base_types::items::{Items, TryCopy};
use daos_model::durable::{Durable, Version, Versions};
use daos_model::prunes::Plan;
use std::alloc::{AllocError, AllocFailed, Global};
use thiserror::Error;

/// Why there is no plan: a version at or below the epoch isn't settled, that of this attempt.
#[derive(Clone, Copy, Debug, Error)]
pub enum PruneNo {
    #[error("{0:?} isn't settled")]
    OpenBelow(AttemptId),
    #[error("out of memory")]
    Memory,
}

impl From<AllocError> for PruneNo {
    ghost from_gives = { λ _ e. e ≡ NoMemory };

    fn from(_error: AllocError) -> PruneNo {
        PruneNo::Memory
    }
}

impl<T: Drop> From<AllocFailed<T>> for PruneNo {
    ghost from_gives = { λ _ e. e ≡ NoMemory };

    fn from(_error: AllocFailed<T>) -> PruneNo {
        PruneNo::Memory
    }
}

#[tactic(auto, unfolding(crate::specs::Opens::is_open_below))]
fn is_open_below(version: &Version, cont: ContId, upto: Epoch) -> bool
    ensures { result ≡ is_open_below cont upto version.now }
{
    version.write.path().cont.0 == cont.0 && version.epoch.0 <= upto.0 && !version.done
}

// Whether a version has a lesser epoch than another, or there is no other.
fn is_earlier(version: &Version, than: Option<&Version>) -> bool
    ensures { result ≡ is_earlier version.now (option_copied than.entry) }
{
    match than {
        Some(than) => version.epoch.0 < than.epoch.0,
        None => true,
    }
}

// Whether a version isn't settled and has a lesser epoch than another, or there is no other.
fn is_less(version: &Version, than: Option<&Version>, cont: ContId, upto: Epoch) -> bool
    ensures { result ≡ (is_open_below cont upto version.now && is_earlier version.now (option_copied than.entry)) }
{
    is_open_below(version, cont, upto) && is_earlier(version, than)
}

// Of the versions of a container at or below an epoch that aren't settled, one of the least epoch.
fn least_open(versions: &[Version], cont: ContId, upto: Epoch) -> Option<&Version>
    ensures { LeastOpen cont upto versions.now (option_copied result) }
{
    let mut least = None;
    for version in versions {
        if is_less(version, least, cont, upto) {
            least = Some(version);
        }
    }
    least
}

// Adds a version that is marked.
fn add_marked(gone: &mut Vec<Version>, version: &Version, mark: bool) -> Result<(), PruneNo>
    ensures versions { OnOk result (gone.new.items ≡ (if mark then gone.old.items ++ version.now ∷ [] else gone.old.items)) }
    ensures memory { IfErr result (λ e. e ≡ PruneNo.Memory) }
{
    if mark {
        gone.push(version.copy()?)?;
    }
    Ok(())
}

// The versions that are marked, those that a plan removes.
fn removed(alloc: Global, plan: &Plan, marks: &[bool]) -> Result<Vec<Version>, PruneNo>
    requires { marks.now ≡ map (is_going plan.now.cont plan.now.upto plan.now.versions.now plan.now.snaps.now) plan.now.versions.now }
    ensures versions { IfOk result (λ gone. gone.items ≡ filter (is_going plan.now.cont plan.now.upto plan.now.versions.now plan.now.snaps.now) plan.now.versions.now) }
    ensures memory { IfErr result (λ e. e ≡ PruneNo.Memory) }
{
    let mut gone = Vec::new(alloc);
    for i in 0..plan.versions.len() {
        add_marked(&mut gone, &plan.versions[i], marks[i])?;
    }
    Ok(gone)
}

/// The versions that an aggregation of a container up to an epoch removes, in their order: those that
/// neither a snapshot of the container at or below the epoch nor a read above the epoch sees. An
/// update goes where none of them has bytes from it, a punch where no update that stays is under its
/// path and older than it.
///
/// # Errors
///
/// `OpenBelow` exactly where a version of the container at or below the epoch is unsettled, with the
/// attempt of one of the least epoch.
pub fn plan_prune(
    alloc: Global,
    durable: &Durable,
    cont: ContId,
    upto: Epoch,
) -> Result<Versions, PruneNo>
    ensures versions { IfOk result (λ gone. gone ≡ filter (is_going cont upto durable.now.versions durable.now.snaps) durable.now.versions) }
    ensures settled { IfOk result (λ _. AreSettled cont upto durable.now.versions) }
    ensures why { IfErr result (PlanWhy cont upto durable.now.versions) }
{
    let versions = durable.versions.as_slice();
    if let Some(version) = least_open(versions, cont, upto) {
        return Err(PruneNo::OpenBelow(version.by));
    }
    let plan = Plan {
        versions,
        snaps: durable.snaps.as_slice(),
        cont,
        upto,
    };
    let mut planner = Planner::new(alloc);
    planner.reserve(versions.len())?;
    planner.mark_going(&plan);
    Ok(Items::from_vec(removed(alloc, &plan, planner.marks())?))
}
