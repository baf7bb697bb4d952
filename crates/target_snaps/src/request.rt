// What is asked of a target for a container.
use base_messages::actor::ActorId;
use base_types::id::{AttemptId, ContId};

/// Who asks for an attempt's snapshot or aggregation, and of which container.
#[derive(Clone, Copy)]
pub struct ContRequest {
    pub from: ActorId,
    pub attempt: AttemptId,
    pub cont: ContId,
}
