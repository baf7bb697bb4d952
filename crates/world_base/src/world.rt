// The world of a run at a moment.
use crate::client::ClientState;
use crate::did::Issues;
use crate::letter::Letters;
use crate::target::TargetState;
use base_types::items::Items;
use base_types::report::Lines;

/// The targets, in the order of their numbers.
pub type TargetStates = Items<TargetState>;

/// The clients, in the order of their numbers.
pub type ClientStates = Items<ClientState>;

/// The numbers of the restart and the aggregation that come next.
#[derive(Clone, Copy)]
pub struct Numbers {
    pub restarts: u32,
    pub aggregates: u32,
}

/// All that a run has at a moment: its targets, its clients, the messages in flight and those without
/// an answer, each in the order in which they were sent, the epochs issued, the numbers that come
/// next, and the lines so far.
#[derive(Drop)]
pub struct World {
    pub targets: TargetStates,
    pub clients: ClientStates,
    pub messages: Letters,
    /// The messages that have an answer by their kind, and got neither it nor a Reset yet.
    pub asked: Letters,
    pub issued: Issues,
    pub numbers: Numbers,
    pub lines: Lines,
}
