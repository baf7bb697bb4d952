// Two-phase commit between targets: what a target remembers of the attempts that it leads and of
// those that it is a member of, and each step of both, as definitions.
#![tactic(auto)]

pub mod laws;
pub mod leading;
pub mod member;
