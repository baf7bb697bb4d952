// What a target's entries say of attempts.
ghost use Rattle.std.specs.Prelude.{◌≡◌};
ghost use Rattle.std.specs.List.{list_all};
ghost use Rattle.replay_base.specs.Heard.{is_led_here};
ghost use Rattle.world_base.specs.Roles.{is_prepared, other_leader};

use base_types::epoch::TargetId;
use base_types::id::AttemptId;
use daos_model::durable::Durable;
use dtx_table::rows::find;
use world_base::target::TargetPlan;

/// The other target that leads an attempt which has an entry here.
#[tactic(auto, unfolding(world_base::specs::Roles::other_leader, daos_model::specs::Durables::entry_of))]
pub fn other_leader(plan: TargetPlan, durable: &Durable, attempt: AttemptId) -> Option<TargetId>
    ensures { result ≡ other_leader plan attempt durable.now }
{
    match find(durable.entries.as_slice(), attempt) {
        None => None,
        Some(entry) => {
            if entry.leader == plan.me {
                None
            } else {
                Some(entry.leader)
            }
        }
    }
}

#[tactic(auto, unfolding(crate::specs::Heard::is_led_here))]
fn is_led_here(plan: TargetPlan, durable: &Durable, attempt: AttemptId) -> bool
    ensures { result ≡ is_led_here plan durable.now attempt }
{
    other_leader(plan, durable, attempt).is_none()
}

/// Whether no other target leads one of these attempts.
pub fn are_led_here(plan: TargetPlan, durable: &Durable, attempts: &[AttemptId]) -> bool
    ensures { result ≡ list_all (is_led_here plan durable.now) attempts.now }
{
    attempts
        .iter()
        .all(|attempt| is_led_here(plan, durable, *attempt))
}

/// Whether an attempt is prepared here: it has an entry that isn't committed.
#[tactic(auto, unfolding(world_base::specs::Roles::is_prepared, daos_model::specs::Durables::entry_of))]
pub fn is_prepared(attempt: AttemptId, durable: &Durable) -> bool
    ensures { result ≡ is_prepared attempt durable.now }
{
    match find(durable.entries.as_slice(), attempt) {
        None => false,
        Some(entry) => !entry.committed,
    }
}
