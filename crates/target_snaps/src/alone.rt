// Whether a target is the only one.
ghost use Rattle.std.specs.Prelude.{◌≡◌};
ghost use Rattle.world_base.specs.Snapshots.{is_another, is_held_by_all};

use base_types::epoch::TargetId;
use dtx_table::bits::has_target;
use world_base::target::TargetPlan;

// Whether a target is another one.
fn is_another(plan: TargetPlan, target: TargetId) -> bool
    ensures { result ≡ is_another plan target }
{
    target < plan.targets && target != plan.me
}

/// Whether there is no other target, so that all others hold what none does.
pub fn is_alone(plan: TargetPlan) -> bool
    ensures { result ≡ is_held_by_all plan 0 }
{
    for target in 0..64 {
        if is_another(plan, target) && !has_target(0, target) {
            return false;
        }
    }
    true
}
