// The store of a target over a region.
use base_outside::region::Region;
use std::alloc::Global;
use vos_pool_site::site::Site;

/// What a target keeps in a region. What it was asked to keep stands in the region once a call answered Ok, and each
/// change whole or not at all where a call was cut.
#[derive(Drop)]
pub struct Pool<R: Region> {
    pub(crate) alloc: Global,
    pub(crate) site: Site<R>,
}
