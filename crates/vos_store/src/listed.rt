// Lists that a store answers.
use base_types::id::{ContId, ObjId};
use base_types::items::Items;

/// Containers, in order.
pub type ContIds = Items<ContId>;

/// Objects of a container, in the order of class, number and record size.
pub type ObjIds = Items<ObjId>;
