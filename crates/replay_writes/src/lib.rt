// Whether a target heard a Commit, or a Prepare, so: its turn made again from what is told of it, and compared.
#![tactic(auto)]

pub mod checks;
pub mod commit;
pub mod forms;
pub mod prepare;
pub mod reads;
pub mod stored;
pub mod ways;
