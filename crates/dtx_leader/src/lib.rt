// The coordinator of two-phase commit: it counts what members answer, decides, and tells them. `Leader`
// keeps the entries that it leads; `Decisions` is the same without them, for a target whose store keeps
// them.
#![tactic(auto)]

mod answers;
mod asks;
pub mod below;
mod confirms;
pub mod decisions;
mod hearing;
pub mod leader;
pub mod opening;
mod resets;
mod telling;
