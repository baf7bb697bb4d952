// Where a pool stands: open with what it keeps in memory, or closed.
use crate::closed::Closed;
use base_outside::region::Region;
use vos_pool_held::held::Held;

/// Where a pool stands: open, with what it keeps in memory; or closed, until it is opened again.
#[derive(Drop)]
pub enum Site<R: Region> {
    Open(Held<R>),
    Closed(Closed<R>),
}
