// What a client is at a moment: what it has to do, and how far it came.
use base_types::answer::Answer;
use base_types::epoch::Epoch;
use base_types::items::Items;
use base_types::key::Key;
use base_types::report::{Conds, Gots};
use base_types::script::Commands;

/// What a client has to do: its number, the number of targets, how many attempts a command has
/// (1 to 100), and its commands.
#[derive(Drop)]
pub struct ClientPlan {
    pub number: u16,
    pub targets: u8,
    pub attempts: u8,
    pub commands: Commands,
}

/// What comes next of an operation: the turns to skip before it, its condition, or itself. Behind
/// the last operation the same stages lead to the end of the transaction.
#[derive(Clone, Copy)]
pub enum Stage {
    Skip,
    Cond,
    Act,
}

/// An attempt that has begun and hasn't ended.
#[derive(Drop)]
pub struct Present {
    /// Its number among the attempts of its command.
    pub attempt: u8,
    /// The first epoch issued to the command that the client heard of.
    pub first: Option<Epoch>,
    /// Its own epoch, where the client heard of it; of a snapshot read the snapshot's.
    pub epoch: Option<Epoch>,
    /// How many of its operations are over.
    pub op: u8,
    pub stage: Stage,
    /// How many groups have answered what is asked at this stage.
    pub group: u8,
    /// What they answered, joined.
    pub found: Option<Answer>,
    /// The conditions that were answered.
    pub conds: Conds,
    /// The reads that were answered.
    pub gots: Gots,
    /// Whether the client waits for a message.
    pub waits: bool,
}

/// A snapshot that a client may read, by its name in the script.
#[derive(Drop)]
pub struct KnownSnap {
    pub name: Key,
    pub epoch: Epoch,
}

/// Snapshots that a client may read.
pub type KnownSnaps = Items<KnownSnap>;

/// How far a client came.
#[derive(Drop)]
pub struct ClientState {
    /// How many of its commands are over.
    pub place: u64,
    /// How many of these have numbers, which is the number of the next that has one.
    pub command: u32,
    /// The greatest epoch that it heard of.
    pub tracker: Epoch,
    /// How many turns it does nothing.
    pub skip: u64,
    /// The attempt that it is at, if it is at one.
    pub present: Option<Present>,
    /// The snapshots that it may read.
    pub known: KnownSnaps,
}
