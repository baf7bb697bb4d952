// The world of a run: what its clients, its targets and the messages between them are at a moment; what each does
// in a turn, the changes that a target makes of what it keeps among it; and the events of a run, one actor's turn each.
#![tactic(auto)]

pub mod below;
pub mod client;
pub mod did;
pub mod letter;
pub mod request;
pub mod target;
pub mod world;
