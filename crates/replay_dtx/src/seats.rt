// Where a target is as a leader.
ghost use Rattle.std.specs.Prelude.{◌≡◌};
ghost use Rattle.replay_dtx.specs.Dtx.{seat_at};

use daos_model::durable::Durable;
use dtx_table::seat::Seat;
use world_base::target::TargetPlan;

/// Where a target that keeps this is as a leader.
pub fn seat_at(plan: TargetPlan, durable: &Durable) -> Seat
    ensures { result ≡ seat_at plan durable.now }
{
    Seat {
        me: plan.me,
        targets: plan.targets,
        incarnation: durable.incarnation,
    }
}
