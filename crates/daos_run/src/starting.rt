// The targets of a run start over their stores, and hand these back.
ghost use Rattle.std.specs.Prelude.{◌≡◌, ◌≤◌, ◌<◌, ℕ, length, slice_get, IfErr, IfOk, None, Some};
ghost use Rattle.daos_run.specs.Opens.{CanStart};
ghost use Rattle.daos_run.specs.Slots.{AreAsBefore, AreBack, AreSet, AreTaken, ClocksStay, FromTo, HasNoFuse, HaveStores, IsAt, IsDisarmed};
ghost use Rattle.daos_run.specs.Starts.{AreStarted};

use crate::parts::Parts;
use crate::stop::RunStop;
use base_outside::clock::Clock;
use base_types::epoch::TargetId;
use base_types::job::Job;
use run_targets::run::{Target, TargetNew};
use std::alloc::Global;
use vos_store::store::{Fuse, Store};

// A store's fuse is taken away; the store and the clock are in their place again.
fn disarm_one<S: Fuse, C: Clock>(parts: &mut Parts<S, C>, t: TargetId)
    requires there { (x : S × C) × IsAt parts.old t x }
    ensures disarmed { (x : S × C) → IsAt parts.old t x → IsDisarmed S.durable S.state S.may t x parts.old parts.new }
{
    let Some((mut store, clock)) = parts.take(t) else {
        unreachable!()
    };
    store.fuse(0);
    parts.set(t, store, clock);
}

/// The fuses of all stores are taken away.
pub fn disarm<S: Fuse, C: Clock>(parts: &mut Parts<S, C>, targets: u8)
    requires set { AreSet targets parts.old }
    ensures fuses { FromTo parts.old parts.new (λ t old new. HasNoFuse S.durable S.state S.may old new) }
    ensures clocks { ClocksStay parts.old parts.new }
    ensures set { AreSet targets parts.new }
{
    for t in 0..targets {
        disarm_one(parts, t);
    }
}

/// The stores and the clocks of the first targets are set in their places again.
pub fn hand_back<S: Store, C: Clock>(parts: &mut Parts<S, C>, targets: Vec<Target<S, C>>)
    requires few { length targets.items ≤ 64 }
    requires places { length targets.items ≤ length parts.old }
    requires taken { (t : ℕ) → t < length targets.items → slice_get parts.old t ≡ Some None }
    ensures { AreBack targets.items parts.old parts.new }
{
    let mut targets = targets;
    for _ in 0..targets.len() {
        let Some(target) = targets.pop() else {
            unreachable!()
        };
        let (store, clock) = target.into_parts();
        parts.set(targets.len() as u8, store, clock);
    }
    targets.destroy_empty();
}

/// All targets start over their stores, in their order.
///
/// # Errors
///
/// For want of memory. All stores and clocks are in their places then, as they were.
pub fn start_all<S: Store, C: Clock>(
    alloc: Global,
    job: &Job,
    parts: &mut Parts<S, C>,
) -> Result<Vec<Target<S, C>>, RunStop>
    requires few_targets { job.now.targets ≤ 64 }
    requires stores { HaveStores (λ t store. CanStart S.durable S.state job.now.targets store) job.now.targets parts.old }
    ensures started { IfOk result (λ targets. AreStarted S.durable job.now job.now.targets parts.old targets.items) }
    ensures taken { IfOk result (λ targets. AreTaken job.now.targets parts.old parts.new) }
    ensures back { IfErr result (λ stop. AreAsBefore job.now.targets parts.old parts.new) }
    ensures wanting { IfErr result (λ stop. stop ≡ RunStop.Memory) }
{
    let mut targets = Vec::with_capacity(alloc, usize::from(job.targets))?;
    for t in 0..job.targets {
        let Some((store, clock)) = parts.take(t) else {
            unreachable!()
        };
        match Target::new(alloc, t, job.targets, job.epsilon, store, clock) {
            Ok(target) => targets.push(target).unwrap(),
            Err(TargetNew { store, clock }) => {
                parts.set(t, store, clock);
                hand_back(parts, targets);
                return Err(RunStop::Memory);
            }
        }
    }
    Ok(targets)
}
