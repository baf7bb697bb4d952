// What is seen of an object.
use base_types::epoch::Epoch;

/// What is seen of an object with records of so many bytes: the versions below an epoch.
#[derive(Clone, Copy)]
pub struct View {
    pub unit: u8,
    pub below: Epoch,
}
