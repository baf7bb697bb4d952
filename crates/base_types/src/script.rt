// A script: what it declares, and the commands of each client.
use crate::epoch::{Epoch, TargetId};
use crate::id::{ContId, ObjId};
use crate::items::{Items, Memory, TryCopy};
use crate::key::Key;
use crate::operation::Ops;

/// A container and its name.
#[derive(Drop)]
pub struct ContDecl {
    pub name: Key,
    pub id: ContId,
}

/// An object, its name and its container.
#[derive(Drop)]
pub struct ObjDecl {
    pub name: Key,
    pub cont: ContId,
    pub id: ObjId,
}

/// A snapshot that an earlier run created, and the name that the script gives it.
#[derive(Drop)]
pub struct OldDecl {
    pub name: Key,
    pub cont: ContId,
    pub epoch: Epoch,
}

/// A write of a target's region that is to fail, counted from the target's opening.
#[derive(Clone, Copy)]
pub struct StopDecl {
    pub target: TargetId,
    pub write: u32,
}

/// The containers that a script declares, in order; at most 256.
pub type Conts = Items<ContDecl>;

/// The objects that a script declares, in order; at most 4,096.
pub type Objs = Items<ObjDecl>;

/// The snapshots of earlier runs that a script names; at most 256.
pub type Olds = Items<OldDecl>;

/// The names of snapshots of earlier runs that are dropped before the run begins, each once.
pub type Drops = Items<Key>;

/// The writes that are to fail; at most 64.
pub type Stops = Items<StopDecl>;

/// For each operation the turns that its client does nothing before it, and last those between
/// the last operation and the end.
pub type Skips = Items<u64>;

/// What a client does next. Commands are numbered from 0 in each client's list; `Tell` and `Skip`
/// have no number.
#[derive(Drop)]
pub enum Command {
    /// Runs a transaction, or, where it names a snapshot, reads as of that.
    Run {
        ops: Ops,
        skips: Skips,
        snapshot: Option<Key>,
    },
    /// Makes a snapshot of a container.
    Snap {
        name: Key,
        cont: ContId,
    },
    /// Drops the versions of a container that no later read sees.
    Aggregate {
        cont: ContId,
    },
    /// Tells another client the greatest epoch heard of.
    Tell {
        client: u16,
    },
    /// Does nothing for some turns.
    Skip {
        turns: u32,
    },
}

impl TryCopy for Command {
    fn copy(&self) -> Result<Command, Memory> {
        match self {
            Command::Run {
                ops,
                skips,
                snapshot,
            } => Ok(Command::Run {
                ops: ops.copy()?,
                skips: skips.copy()?,
                snapshot: snapshot.copy()?,
            }),
            Command::Snap { name, cont } => Ok(Command::Snap {
                name: name.copy()?,
                cont: *cont,
            }),
            Command::Aggregate { cont } => Ok(Command::Aggregate { cont: *cont }),
            Command::Tell { client } => Ok(Command::Tell { client: *client }),
            Command::Skip { turns } => Ok(Command::Skip { turns: *turns }),
        }
    }
}

/// What a client does, in order.
pub type Commands = Items<Command>;

/// What each client does, in order of the clients' numbers; at most 64.
pub type ClientLists = Items<Commands>;

/// A script: for how many targets it was read, its declarations, what it drops, and the commands of
/// each client.
#[derive(Drop)]
pub struct Script {
    pub targets: u8,
    pub conts: Conts,
    pub objs: Objs,
    pub olds: Olds,
    pub drops: Drops,
    pub stops: Stops,
    pub clients: ClientLists,
}
