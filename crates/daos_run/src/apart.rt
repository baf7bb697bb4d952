// The stores and the clocks of a run's targets, apart.
ghost use Rattle.std.specs.Prelude.{◌≡◌, ◌≤◌, ◌<◌, ℕ, length, slice_get, IfErr, IfOk, None, Some};
ghost use Rattle.daos_run.specs.Slots.{AreApart, AreSet, AreSetBack, AreTaken};

use crate::parts::Parts;
use base_outside::clock::Clock;
use base_types::items::Memory;
use std::alloc::Global;
use vos_store::store::Store;

/// All stores and clocks are taken from their places.
///
/// # Errors
///
/// For want of memory; nothing is taken then.
pub fn take_all<S: Store, C: Clock>(
    alloc: Global,
    parts: &mut Parts<S, C>,
    targets: u8,
) -> Result<(Vec<S>, Vec<C>), Memory>
    requires set { AreSet targets parts.old }
    ensures apart { IfOk result (λ lists. AreApart targets parts.old lists.0.items lists.1.items) }
    ensures taken { IfOk result (λ lists. AreTaken targets parts.old parts.new) }
    ensures kept { IfErr result (λ no. parts.new ≡ parts.old) }
{
    let mut stores = Vec::with_capacity(alloc, usize::from(targets))?;
    let mut clocks = match Vec::with_capacity(alloc, usize::from(targets)) {
        Ok(clocks) => clocks,
        Err(error) => {
            stores.destroy_empty();
            return Err(error);
        }
    };
    for t in 0..targets {
        let Some((store, clock)) = parts.take(t) else {
            unreachable!()
        };
        stores.push(store).unwrap();
        clocks.push(clock).unwrap();
    }
    Ok((stores, clocks))
}

/// Stores and clocks are set in their places again.
pub fn set_back<S: Store, C: Clock>(parts: &mut Parts<S, C>, stores: Vec<S>, clocks: Vec<C>)
    requires few { length stores.items ≤ 64 }
    requires as_many { length clocks.items ≡ length stores.items }
    requires places { length stores.items ≤ length parts.old }
    requires taken { (t : ℕ) → t < length stores.items → slice_get parts.old t ≡ Some None }
    ensures { AreSetBack stores.items clocks.items parts.old parts.new }
{
    let mut stores = stores;
    let mut clocks = clocks;
    for _ in 0..stores.len() {
        let Some(store) = stores.pop() else {
            unreachable!()
        };
        let Some(clock) = clocks.pop() else {
            unreachable!()
        };
        parts.set(stores.len() as u8, store, clock);
    }
    stores.destroy_empty();
    clocks.destroy_empty();
}
