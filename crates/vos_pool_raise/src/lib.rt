// A pool of the first layout is raised to the second one.
#![tactic(auto)]

pub mod raising;
