// The trait of a target's store: what everything above the regions uses.
#![tactic(auto)]

pub mod listed;
pub mod refusal;
pub mod store;

pub use listed::{ContIds, ObjIds};
pub use refusal::{DiscardNo, EnlistNo, FetchNo, FreezeNo, LaterNo, PrepareNo, ReopenNo, Stopped};
pub use store::{Fuse, Store};
