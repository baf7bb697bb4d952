// What a target is at a moment.
use base_messages::actor::ActorId;
use base_types::epoch::{Epoch, TargetId};
use base_types::id::{AttemptId, ContId};
use base_types::items::{Items, Memory, TryCopy};
use base_types::key::Key;
use base_types::outcome::FloorWhy;
use base_types::shown::Shown;
use daos_model::durable::Durable;
use dtx_base::leading::LeaderMemory;
use dtx_base::member::MemberMemory;

/// What a target is made for: its number, the number of targets, and what the clocks leave
/// uncertain, in ticks.
#[derive(Clone, Copy)]
pub struct TargetPlan {
    pub me: TargetId,
    pub targets: u8,
    pub epsilon: u32,
}

/// Whether a target runs, is stopped, or is given up.
#[derive(Clone, Copy)]
pub enum Life {
    Running,
    Stopped,
    Down,
}

/// Reads that were served, each with its attempt, epoch and path.
pub type Reads = Items<Shown>;

/// A snapshot or an aggregation that target 0 is making: its attempt, the client that waits, the
/// container and the epoch, the snapshot's name, if it is one, and the targets that hold it, one bit
/// for each from the lowest on.
#[derive(Drop)]
pub struct Collection {
    pub attempt: AttemptId,
    pub client: ActorId,
    pub cont: ContId,
    pub epoch: Epoch,
    pub name: Option<Key>,
    pub held: u64,
}

impl TryCopy for Collection {
    fn copy(&self) -> Result<Collection, Memory> {
        Ok(Collection {
            attempt: self.attempt,
            client: self.client,
            cont: self.cont,
            epoch: self.epoch,
            name: self.name.copy()?,
            held: self.held,
        })
    }
}

/// What target 0 is making, in the order in which it began.
pub type Collections = Items<Collection>;

/// What a target knows until it stops: its clock's ticks, the reads that it served, what it
/// remembers of the attempts that it leads, and what of those that it is another's member of; and
/// the snapshots and aggregations that it is making.
#[derive(Drop)]
pub struct TargetMemory {
    pub ticks: u64,
    pub stamps: Reads,
    pub leader: LeaderMemory,
    pub member: MemberMemory,
    pub collecting: Collections,
}

/// A target: what it keeps, its free blocks, whether it runs, and what it knows while it does.
#[derive(Drop)]
pub struct TargetState {
    pub durable: Durable,
    pub free: u32,
    /// The floor that its last opening set, and what it was set for.
    pub opening: (Epoch, FloorWhy),
    pub life: Life,
    pub memory: TargetMemory,
}
