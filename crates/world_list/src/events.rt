// Events of a run as a list: who had a turn, what it heard, and the world after it.
use base_messages::actor::ActorId;
use base_types::items::Items;
use base_types::script::Script;
use world_base::letter::Letter;
use world_base::world::World;

/// What kind of turn an event is: an actor hears a message, a client goes on without one, a target
/// does its idle work, a target's turn is cut short, it opens again, or it is given up.
#[derive(Clone, Copy)]
pub enum EventKind {
    Hear,
    GoOn,
    Idle,
    Cut,
    Open,
    Down,
}

/// An event: its kind, the actor whose turn it is, the letter that it hears, if it hears one, and
/// the world after it.
#[derive(Drop)]
pub struct Event {
    pub kind: EventKind,
    pub actor: ActorId,
    pub heard: Option<Letter>,
    pub after: World,
}

/// Events, one after another.
pub type EventList = Items<Event>;

/// A list of events: the script that is run, how many attempts a command has (1 to 100), what the
/// clocks leave uncertain, in ticks, the world that the list starts from, and the events.
#[derive(Drop)]
pub struct Events {
    pub script: Script,
    pub attempts: u8,
    pub epsilon: u32,
    pub start: World,
    pub list: EventList,
}
