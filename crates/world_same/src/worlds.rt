// Whether two worlds are the same.
ghost use Rattle.std.specs.Prelude.{◌≡◌, Decides};

use crate::same::Same;
use world_base::letter::Letter;
use world_base::target::{Collection, Life, TargetMemory, TargetState};
use world_base::world::{Numbers, World};

impl Same for Letter {
    fn is_same(&self, other: &Letter) -> bool {
        self.from.is_same(&other.from)
            && self.to.is_same(&other.to)
            && self.message.is_same(&other.message)
    }
}

impl Same for Life {
    fn is_same(&self, other: &Life) -> bool {
        match (self, other) {
            (Life::Running, Life::Running) => true,
            (Life::Stopped, Life::Stopped) => true,
            (Life::Down, Life::Down) => true,
            _ => false,
        }
    }
}

impl Same for Collection {
    fn is_same(&self, other: &Collection) -> bool {
        self.attempt.is_same(&other.attempt)
            && self.client.is_same(&other.client)
            && self.cont.is_same(&other.cont)
            && self.epoch.is_same(&other.epoch)
            && self.name.is_same(&other.name)
            && self.held.is_same(&other.held)
    }
}

impl Same for TargetMemory {
    fn is_same(&self, other: &TargetMemory) -> bool {
        self.ticks.is_same(&other.ticks)
            && self.stamps.is_same(&other.stamps)
            && self.leader.is_same(&other.leader)
            && self.member.is_same(&other.member)
            && self.collecting.is_same(&other.collecting)
    }
}

impl Same for TargetState {
    fn is_same(&self, other: &TargetState) -> bool {
        self.durable.is_same(&other.durable)
            && self.free.is_same(&other.free)
            && self.opening.is_same(&other.opening)
            && self.life.is_same(&other.life)
            && self.memory.is_same(&other.memory)
    }
}

impl Same for Numbers {
    fn is_same(&self, other: &Numbers) -> bool {
        self.restarts.is_same(&other.restarts) && self.aggregates.is_same(&other.aggregates)
    }
}

impl Same for World {
    fn is_same(&self, other: &World) -> bool {
        self.targets.is_same(&other.targets)
            && self.clients.is_same(&other.clients)
            && self.messages.is_same(&other.messages)
            && self.asked.is_same(&other.asked)
            && self.issued.is_same(&other.issued)
            && self.numbers.is_same(&other.numbers)
            && self.lines.is_same(&other.lines)
    }
}
