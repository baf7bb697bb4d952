// The stores and the clocks of a run's targets.
ghost use Rattle.std.specs.Prelude.{◌≡◌, ◌<◌, length, slice_get, slice_set, replicate, IfOk, None, Some};

use base_outside::clock::Clock;
use base_types::epoch::TargetId;
use base_types::items::Memory;
use std::alloc::Global;
use std::marker::Model;
use vos_store::store::Store;

/// For each target of a run its store and its clock, or none.
#[derive(Drop)]
pub struct Parts<S, C> {
    slots: Vec<Option<(S, C)>>,
}

impl<S, C> Model for Parts<S, C> {
    ghost use Rattle.std.specs.Prelude.{List, Option};

    ghost Value = { List (Option (S × C)) };

    ghost view = { λ p. p.slots.items };
}

impl<S: Store, C: Clock> Parts<S, C> {
    /// Places for so many targets, with nothing set.
    pub fn new(alloc: Global, targets: u8) -> Result<Self, Memory>
        ensures { IfOk result (λ parts. parts ≡ replicate targets None) }
    {
        let mut slots = Vec::with_capacity(alloc, usize::from(targets))?;
        for _ in 0..targets {
            slots.push(None).unwrap();
        }
        Ok(Parts { slots })
    }

    /// Sets the store and the clock of a target that is there and has none.
    pub fn set(&mut self, t: TargetId, store: S, clock: C)
        requires { slice_get self.old t ≡ Some None }
        ensures { self.new ≡ slice_set self.old t (Some (store, clock)) }
    {
        match self.slots[usize::from(t)].replace((store, clock)) {
            None => {}
            Some(_) => unreachable!(),
        }
    }

    /// Takes the store and the clock of a target that is there; none exactly where none is set.
    pub fn take(&mut self, t: TargetId) -> Option<(S, C)>
        requires { t < length self.old }
        ensures taken { slice_get self.old t ≡ Some result }
        ensures left { self.new ≡ slice_set self.old t None }
    {
        self.slots[usize::from(t)].take()
    }
}
