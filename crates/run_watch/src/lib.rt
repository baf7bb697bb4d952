// How the targets of a run stand: who runs, who is stopped, who was given up, and what stop lines are left.
#![tactic(auto)]

pub mod watch;
