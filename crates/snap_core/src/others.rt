// The other targets of a run.
ghost use Rattle.std.specs.Prelude.{◌≡◌, IfOk};
ghost use Rattle.snap_core.specs.Snaps.{all_others, are_all_others, plan_with};
ghost use Rattle.world_base.specs.Snapshots.{is_another};

use base_types::epoch::TargetId;
use base_types::items::Memory;
use dtx_table::bits::has_target;
use std::alloc::Global;

// Whether a target is another one of so many.
fn is_another(me: TargetId, targets: u8, target: TargetId) -> bool
    ensures { result ≡ is_another (plan_with me targets) target }
{
    target < targets && target != me
}

/// The other targets, in the order of their numbers.
#[tactic(auto, unfolding(crate::specs::Snaps::all_others))]
pub(crate) fn all_others(alloc: Global, me: TargetId, targets: u8) -> Result<Vec<TargetId>, Memory>
    ensures { IfOk result (λ list. list.items ≡ all_others me targets) }
{
    let mut others = Vec::new(alloc);
    for target in 0..64 {
        if is_another(me, targets, target) {
            others.push(target)?;
        }
    }
    Ok(others)
}

/// Whether these targets are all of the others.
#[tactic(auto, unfolding(crate::specs::Snaps::are_all_others))]
pub(crate) fn are_all_others(me: TargetId, targets: u8, held: u64) -> bool
    ensures { result ≡ are_all_others me targets held }
{
    for target in 0..64 {
        if is_another(me, targets, target) && !has_target(held, target) {
            return false;
        }
    }
    true
}
