// The lease that is stored before a target uses ticks above the one so far.
ghost use Rattle.std.specs.Prelude.{ℕ, ◌≡◌, ◌≤◌, ◌%◌, IfSome};
ghost use Rattle.base_types.specs.Epochs.{last_ticks, lease_for};

use crate::clock::LAST_TICKS;

/// How many ticks a lease is extended by.
pub const LEASE_STEP: u64 = 65_536;

/// The least multiple of 65,536 that isn't below the ticks, or 2^56 - 1 where that is less; none
/// where the ticks are above 2^56 - 1.
pub fn lease_for(ticks: u64) -> Option<u64>
    ensures exact { result ≡ lease_for ticks }
    ensures covers { IfSome result (λ lease. (ticks ≤ lease) × (lease ≤ last_ticks)) }
    ensures least { IfSome result (λ lease. (m : ℕ) → ticks ≤ m → m % 65536 ≡ 0 → lease ≤ m) }
{
    if ticks > LAST_TICKS {
        return None;
    }
    Some((ticks.div_ceil(LEASE_STEP) * LEASE_STEP).min(LAST_TICKS))
}
