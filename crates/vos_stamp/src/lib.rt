// Read timestamps of a target, as in multi-version timestamp ordering, and the checks of its reads and writes that
// stand on them.
#![tactic(auto)]

pub mod checks;
pub(crate) mod entity;
pub(crate) mod history;
pub(crate) mod marks;
pub mod stamps;
pub(crate) mod table;
