// Messages on their way.

use base_messages::actor::ActorId;
use base_messages::message::Message;
use base_types::items::{Items, Memory, TryCopy};

/// A message on its way from one actor to another.
#[derive(Drop)]
pub struct Letter {
    pub from: ActorId,
    pub to: ActorId,
    pub message: Message,
}

impl TryCopy for Letter {
    fn copy(&self) -> Result<Letter, Memory> {
        Ok(Letter {
            from: self.from,
            to: self.to,
            message: self.message.copy()?,
        })
    }
}

/// Letters, in the order in which they were sent.
pub type Letters = Items<Letter>;
