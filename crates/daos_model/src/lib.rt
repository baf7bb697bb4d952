// What writes, reads and transactions mean, and slow functions that compute it.
#![tactic(auto)]

pub mod accounts;
pub mod answers;
pub mod cell;
pub mod durable;
pub mod effect;
pub mod laws;
pub mod map;
pub mod moments;
pub mod names;
mod pieces;
pub mod prunes;
pub mod records;
pub mod stand;

pub use accounts::blocks;
pub use answers::answer_of;
pub use cell::{Cell, CellValue};
pub use durable::{ContRow, Durable, Version};
pub use effect::apply_write;
pub use map::Map;
pub use moments::as_of;
pub use stand::{SnapMap, Stand, Taken};
