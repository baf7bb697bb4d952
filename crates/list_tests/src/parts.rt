// Parts of worlds, as they begin.
use base_types::epoch::Epoch;
use base_types::id::{Class, ContId, ObjId};
use base_types::items::{Items, bytes_of};
use base_types::key::Key;
use base_types::operation::{MinorWrite, MinorWrites, Op, Ops, Write};
use base_types::outcome::FloorWhy;
use base_types::path::Path;
use base_types::script::{ClientLists, Command, Script};
use daos_model::durable::{ContRow, Durable};
use dtx_base::leading::LeaderMemory;
use dtx_base::member::MemberMemory;
use std::alloc::Global;
use world_base::client::ClientState;
use world_base::target::{Life, TargetMemory, TargetState};
use world_base::world::{Numbers, World};

/// An akey under the dkey d of the object of this class and number 0.
pub(crate) fn akey(alloc: Global, class: Class, name: u8) -> Option<Path> {
    let dkey = Key::new(alloc, b"d").ok()?;
    let akey = Key::new(alloc, &[name]).ok()?;
    Some(Path {
        cont: ContId(1),
        obj: Some(ObjId {
            class,
            number: 0,
            unit: 1,
        }),
        dkey: Some(dkey),
        akey: Some(akey),
    })
}

/// A write of 1 at the akey a.
pub(crate) fn put(alloc: Global, class: Class) -> Option<Write> {
    let path = akey(alloc, class, b'a')?;
    let value = bytes_of(alloc, b"1").ok()?;
    Some(Write::Single(path, value))
}

/// It alone, as the operation of this number.
pub(crate) fn writes(alloc: Global, class: Class, minor: u8) -> Option<MinorWrites> {
    let write = put(alloc, class)?;
    let mut writes = Items::new(alloc);
    writes.push(MinorWrite { minor, write }).ok()?;
    Some(writes)
}

/// A client's only command.
pub(crate) fn add_client(alloc: Global, clients: &mut ClientLists, ops: Ops) -> Option<()> {
    let mut commands = Items::new(alloc);
    let run = Command::Run {
        ops,
        skips: Items::new(alloc),
        snapshot: None,
    };
    commands.push(run).ok()?;
    clients.push(commands).ok()
}

/// A script without clients, for so many targets.
pub(crate) fn script(alloc: Global, targets: u8) -> Script {
    Script {
        targets,
        conts: Items::new(alloc),
        objs: Items::new(alloc),
        olds: Items::new(alloc),
        drops: Items::new(alloc),
        stops: Items::new(alloc),
        clients: Items::new(alloc),
    }
}

/// A client before its first turn.
pub(crate) fn client_state(alloc: Global) -> ClientState {
    ClientState {
        place: 0,
        command: 0,
        tracker: Epoch(0),
        skip: 0,
        present: None,
        known: Items::new(alloc),
    }
}

fn durable(alloc: Global) -> Durable {
    Durable {
        versions: Items::new(alloc),
        entries: Items::new(alloc),
        conts: Items::new(alloc),
        snaps: Items::new(alloc),
        lease: 0,
        incarnation: 1,
    }
}

fn memory(alloc: Global) -> TargetMemory {
    TargetMemory {
        ticks: 0,
        stamps: Items::new(alloc),
        leader: LeaderMemory {
            undecided: Items::new(alloc),
            decided: Items::new(alloc),
            named: Items::new(alloc),
            down: 0,
        },
        member: MemberMemory {
            parked: Items::new(alloc),
            inquiries: Items::new(alloc),
        },
        collecting: Items::new(alloc),
    }
}

/// A target that runs, before it knows of any container.
pub(crate) fn target_state(alloc: Global) -> TargetState {
    TargetState {
        durable: durable(alloc),
        free: 15_120,
        opening: (Epoch(0), FloorWhy::Opening),
        life: Life::Running,
        memory: memory(alloc),
    }
}

/// It knows of the container.
pub(crate) fn enlist(target: &mut TargetState) -> Option<()> {
    let row = ContRow {
        cont: ContId(1),
        floor: Epoch(0),
        why: FloorWhy::Opening,
        aggregated: Epoch(0),
        number: 0,
    };
    target.durable.conts.push(row).ok()
}

/// A world without targets and clients.
pub(crate) fn empty_world(alloc: Global) -> World {
    World {
        targets: Items::new(alloc),
        clients: Items::new(alloc),
        messages: Items::new(alloc),
        asked: Items::new(alloc),
        issued: Items::new(alloc),
        numbers: Numbers {
            restarts: 0,
            aggregates: 0,
        },
        lines: Items::new(alloc),
    }
}
