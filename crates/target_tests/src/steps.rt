// A target of the tests, over any store and clock.
ghost use Rattle.std.specs.Prelude.{◌≡◌, ◌<◌, ◌≤◌, IfOk, false, true};
ghost use Rattle.std.specs.Option.{ForSome};
ghost use Rattle.target_tests.specs.Rows.{IsBlank, IsHere, IsNeverUsed};

use base_outside::clock::Clock;
use base_types::epoch::TargetId;
use base_types::id::ContId;
use base_types::key::KeyNo;
use std::alloc::{AllocError, AllocFailed, Global};
use target_core::target::Target;
use target_parts::stop::TargetStop;
use vos_store::refusal::EnlistNo;
use vos_store::store::Store;

/// A step isn't made.
#[derive(Clone, Copy)]
pub(crate) struct StepNo;

impl From<KeyNo> for StepNo {
    fn from(_no: KeyNo) -> StepNo {
        StepNo
    }
}

impl From<EnlistNo> for StepNo {
    fn from(_no: EnlistNo) -> StepNo {
        StepNo
    }
}

impl From<TargetStop> for StepNo {
    fn from(_no: TargetStop) -> StepNo {
        StepNo
    }
}

impl From<AllocError> for StepNo {
    fn from(_error: AllocError) -> StepNo {
        StepNo
    }
}

impl<T: Drop> From<AllocFailed<T>> for StepNo {
    fn from(_error: AllocFailed<T>) -> StepNo {
        StepNo
    }
}

/// A target of this number among so many, over a store that was never used, which enlists the container.
pub(crate) fn start_at<S: Store + Drop, C: Clock + Drop>(
    alloc: Global,
    me: TargetId,
    targets: u8,
    store: S,
    clock: C,
) -> Result<Target<S, C>, StepNo>
    requires one { me < targets }
    requires few { targets ≤ 64 }
    requires made { targets ≤ (S.state store).targets }
    requires new { IsNeverUsed (S.state store) (S.durable store) }
    ensures plan { IfOk result (λ t. t.plan ≡ record { me = me; targets = targets; epsilon = 0 }) }
    ensures opened { IfOk result (λ t. t.opened ≡ true) }
    ensures runs { IfOk result (λ t. (S.state t.store).stopped ≡ false) }
    ensures here { IfOk result (λ t. ForSome (S.durable t.store) IsHere) }
    ensures blank { IfOk result (λ t. ForSome (S.durable t.store) IsBlank) }
{
    let mut store = store;
    store.enlist(&[ContId(1)])?;
    match Target::new(alloc, me, targets, 0, store, clock) {
        Ok(target) => Ok(target),
        Err(_parts) => Err(StepNo),
    }
}
