// What an image says of itself and never changes.
use base_types::epoch::TargetId;
use vos_values::keys::Layout;

/// The layout of a region, the target that it is of, and how many targets there are.
#[derive(Clone, Copy)]
pub struct Identity {
    pub layout: Layout,
    pub target: TargetId,
    pub targets: u8,
}
