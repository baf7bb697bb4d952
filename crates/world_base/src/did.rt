// What follows from a turn.
use base_messages::message::Posts;
use base_types::epoch::Epoch;
use base_types::id::AttemptId;
use base_types::items::Items;
use base_types::report::Lines;

/// Attempts with the epochs that were issued to them, in the order of issuing.
pub type Issues = Items<(AttemptId, Epoch)>;

/// What follows from an actor's turn: the messages that it sends, the lines of the report that it
/// adds, and the epoch that it issued, with its attempt, if it issued one.
#[derive(Drop)]
pub struct Did {
    pub posts: Posts,
    pub lines: Lines,
    pub issued: Option<(AttemptId, Epoch)>,
}
