// What is called in every turn of a worker.

/// Is called once in every turn of a worker, between the step that takes the turn's message and the
/// step that gives back what follows from it, while the worker holds nothing that is shared. It
/// promises nothing.
pub trait Gate {
    /// Lets a turn pass: whether its actor is a client, the actor's number, and the turn's number.
    fn pass(&self, client: bool, number: u16, turn: u64);
}

/// A gate that does nothing.
#[derive(Clone, Copy)]
pub struct FreeGate;

impl Gate for FreeGate {
    fn pass(&self, _client: bool, _number: u16, _turn: u64) {}
}
