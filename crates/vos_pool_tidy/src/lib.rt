// An open pool is made tidy.
#![tactic(auto)]

pub mod refusal;
pub mod removing;
pub mod tidying;
