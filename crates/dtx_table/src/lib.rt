// What a target keeps of attempts with writes: entries in order, what is posted of them, and which marks are due.
#![tactic(auto)]

pub mod batch;
pub mod below;
pub mod bits;
pub mod led;
pub mod marks;
pub mod posts;
pub mod rows;
pub mod seat;
pub mod table;
pub mod written;
