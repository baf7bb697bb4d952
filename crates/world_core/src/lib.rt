// The world of a run under one name: its types, whether a list of events is a run, and the laws of all facts together, whatever crate holds them. Those of
// world_upheld, world_order and world_closing are of any run: each event, whatever it is, keeps all facts, a run begins with them, lines are in the order of
// real time where they keep the bound, and where it has ended its report is legal. `laws_of_safety` says what holds whatever targets' versions stood for when the
// run began. The lists of `check_list` are of runs without stops and snapshots.
#![tactic(auto)]

pub use world_base::did::{Did, Issues};
pub use world_base::letter::{Letter, Letters};
pub use world_base::world::{ClientStates, Numbers, TargetStates, World};
pub use world_check::below::list::events::{Event, EventKind, EventList, Events};
pub use world_check::check::check_list;
pub use world_closing::below::upheld::explained::laws_of_explanations;
pub use world_closing::below::upheld::hearing::{laws_of_all_hearing, laws_of_all_leases};
pub use world_closing::below::upheld::upheld::{
    laws_of_containers, laws_of_grounds, laws_of_requests, laws_of_upheld,
};
pub use world_closing::forming::laws_of_texts;
pub use world_closing::laws_of_ended_runs;
pub use world_closing::safety::laws_of_safety;
pub use world_closing::stands::laws_of_stands;
pub use world_order::laws_of_real_time;
