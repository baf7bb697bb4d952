// The checks of a target's reads and writes.
ghost use Rattle.std.specs.Prelude.{◌≡◌, true, IfOk};
ghost use Rattle.base_types.specs.declared.outcome.Cause.TheVariants.{Floor};
ghost use Rattle.daos_model.specs.Forms.{is_path_in_form};
ghost use Rattle.vos_stamp.specs.Stamps.{AnswersWrite, ReadThenWrite, check_of, first_cause, floor_cause, later_cause, read_cause, read_later};

use crate::stamps::Stamps;
use base_types::epoch::{Epoch, TargetId};
use base_types::items::Memory;
use base_types::outcome::{Cause, FloorWhy};
use base_types::path::Path;
use base_types::shown::Shown;

/// The cause of a floor that an epoch isn't above.
pub fn by_floor(floor: (Epoch, FloorWhy), me: TargetId) -> Cause
    ensures { result ≡ Floor me floor.0 floor.1 }
{
    let (at, why) = floor;
    Cause::Floor {
        target: me,
        epoch: at,
        why,
    }
}

// The cause of a floor, where the epoch isn't above it.
fn at_floor(epoch: Epoch, floor: (Epoch, FloorWhy), me: TargetId) -> Option<Cause>
    ensures { result ≡ floor_cause me epoch.0 floor }
{
    if epoch.0 <= floor.0.0 {
        Some(by_floor(floor, me))
    } else {
        None
    }
}

// The cause of a later read.
fn by_read(read: &Shown) -> Result<Cause, Memory>
    ensures { IfOk result (λ cause. cause ≡ read_later read.now) }
{
    Ok(Cause::ReadLater {
        by: read.by,
        epoch: read.epoch,
        path: read.path.copy()?,
    })
}

// The cause of a later write, if there is one.
fn by_write(later: Option<Shown>) -> Option<Cause>
    ensures { result ≡ later_cause later }
{
    match later {
        Some(write) => Some(Cause::WriteLater {
            by: write.by,
            epoch: write.epoch,
            path: write.path,
        }),
        None => None,
    }
}

// The cause of a later read, else that of a later write.
fn by_read_or_write(
    stamps: &Stamps,
    path: &Path,
    epoch: Epoch,
    later: Option<Shown>,
) -> Result<Option<Cause>, Memory>
    requires form { is_path_in_form path.now ≡ true }
    ensures { IfOk result (λ cause. ReadThenWrite path.now epoch.0 stamps.now.reads later cause) }
{
    match stamps.later_read(path, epoch) {
        Some(read) => Ok(Some(by_read(read)?)),
        None => Ok(by_write(later)),
    }
}

/// Why a write on a path at an epoch is refused, if it is: by the floor, which the epoch must be
/// above, whatever set it; else by a later read near the path; else by a later write that was found,
/// within what the clocks leave uncertain.
///
/// # Errors
///
/// For want of memory alone.
pub fn check_write(
    stamps: &Stamps,
    path: &Path,
    epoch: Epoch,
    floor: (Epoch, FloorWhy),
    me: TargetId,
    later: Option<Shown>,
) -> Result<Option<Cause>, Memory>
    requires form { is_path_in_form path.now ≡ true }
    ensures { IfOk result (λ cause. AnswersWrite me path.now epoch.0 floor stamps.now.reads later cause) }
{
    match at_floor(epoch, floor, me) {
        Some(cause) => Ok(Some(cause)),
        None => by_read_or_write(stamps, path, epoch, later),
    }
}

// The place of a cause's check among the checks of a write.
fn check_of(cause: &Cause) -> u8
    ensures { result ≡ check_of cause.now }
{
    match cause {
        Cause::Floor { .. } => 0,
        Cause::ReadLater { .. } => 1,
        Cause::WriteLater { .. } | Cause::Unresolved { .. } => 2,
    }
}

/// Why writes that are made together are refused, if they are, of why those before one are and why
/// that one is. Each check is made of all of them before the next check is: so the cause of the
/// earlier check is told, and of one check the cause of the earlier write.
pub fn first_cause(before: Option<Cause>, next: Option<Cause>) -> Option<Cause>
    ensures { result ≡ first_cause before next }
{
    match (before, next) {
        (None, next) => next,
        (Some(before), None) => Some(before),
        (Some(before), Some(next)) => {
            if check_of(&next) < check_of(&before) {
                Some(next)
            } else {
                Some(before)
            }
        }
    }
}

/// Why a read at an epoch is refused, if it is: by the aggregated-to epoch, where there is one, which
/// the epoch must be above; else by a later write that was found.
///
/// # Errors
///
/// For want of memory alone; this form takes none.
pub fn check_read(
    epoch: Epoch,
    aggregated: Option<(Epoch, u32)>,
    me: TargetId,
    later: Option<Shown>,
) -> Result<Option<Cause>, Memory>
    ensures { IfOk result (λ cause. cause ≡ read_cause me epoch.0 aggregated later) }
{
    if let Some((at, number)) = aggregated {
        if let Some(cause) = at_floor(epoch, (at, FloorWhy::Aggregate(number)), me) {
            return Ok(Some(cause));
        }
    }
    Ok(by_write(later))
}
