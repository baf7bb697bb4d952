// The lease, where it is to cover an epoch.
ghost use Rattle.std.specs.Prelude.{◌≡◌, Some, None};
ghost use Rattle.daos_model.specs.Changes.{leased};
ghost use Rattle.replay_base.specs.Leases.{IsCovered};

use daos_hlc::lease::lease_for;
use daos_model::durable::Durable;

/// What a target keeps once its lease covers an epoch, and whether anything was changed by then.
#[derive(Drop)]
pub struct Covered {
    pub durable: Durable,
    pub changed: bool,
}

// With this lease.
#[tactic(auto, unfolding(daos_model::specs::Changes::leased))]
fn leased(durable: Durable, lease: u64) -> Durable
    ensures { result ≡ leased lease durable }
{
    Durable { lease, ..durable }
}

/// What a target keeps once its lease covers these ticks, where something was changed before or wasn't;
/// none where no lease covers them.
pub fn cover(durable: Durable, changed: bool, ticks: u64) -> Option<Covered>
    ensures { IsCovered ticks durable changed result }
{
    if ticks <= durable.lease {
        return Some(Covered { durable, changed });
    }
    match lease_for(ticks) {
        Some(lease) => Some(Covered {
            durable: leased(durable, lease),
            changed: true,
        }),
        None => None,
    }
}
