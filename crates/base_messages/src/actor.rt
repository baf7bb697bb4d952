// The actors of a run: clients and targets.

/// A client or a target, by its number. Each kind is numbered from 0.
#[derive(Clone, Copy, Debug, PartialEq, Eq)]
pub struct ActorId {
    pub client: bool,
    pub number: u16,
}
