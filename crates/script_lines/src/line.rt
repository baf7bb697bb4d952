// What a line says.
use base_types::id::ContId;
use base_types::key::Key;
use base_types::operation::Op;
use base_types::script::{ContDecl, ObjDecl, OldDecl, StopDecl};

/// A snapshot that is read: its name and its container.
#[derive(Drop)]
pub struct At {
    pub name: Key,
    pub cont: ContId,
}

/// What a line says.
#[derive(Drop)]
pub enum Line {
    /// A container is declared.
    Cont(ContDecl),
    /// An object is declared.
    Obj(ObjDecl),
    /// A snapshot of an earlier run is named.
    Old(OldDecl),
    /// A snapshot of an earlier run is dropped.
    Drop(Key),
    /// A write of a target is to fail.
    Stop(StopDecl),
    /// The next client's list begins.
    Client,
    /// An operation.
    Do(Op),
    /// A read of a snapshot.
    DoAt(At, Op),
    /// A transaction begins.
    Tx,
    /// A transaction that reads a snapshot begins.
    TxAt(At),
    /// The transaction ends.
    End,
    /// A snapshot of a container is made.
    Snap(Key, ContId),
    /// A container is aggregated.
    Aggregate(ContId),
    /// A client is told this client's tracker.
    Tell(u16),
    /// Nothing is done for so many turns.
    Skip(u32),
}
