// A leader that is told what became of its own attempt. Client 0 writes an akey that two targets hold; target 0
// leads, has stored the write, and waits for the Ack of target 1. Then it hears a Mark or a Verdict of it. Two
// targets, one turn.
use crate::parts::{add_client, client_state, empty_world, enlist, put, target_state};
use crate::worlds::no_events;
use base_messages::actor::ActorId;
use base_messages::message::Message;
use base_types::entry::{Entry, Verdict};
use base_types::epoch::Epoch;
use base_types::id::{AttemptId, Class};
use base_types::items::Items;
use base_types::operation::{Act, Cond, Op};
use base_types::script::ClientLists;
use daos_model::durable::Version;
use dtx_base::leading::Undecided;
use std::alloc::Global;
use world_base::client::{Present, Stage};
use world_base::letter::Letter;
use world_base::target::TargetState;
use world_base::world::World;
use world_check::check::check_list;
use world_list::events::{Event, EventKind, Events};

/// What is told of the turn: whether a Mark is heard or else a Verdict, whether it tells of a commit or else of
/// an abort, whether the attempt is then settled, and whether the leader then waits for it no more.
#[derive(Clone, Copy)]
pub(crate) struct Told {
    pub marks: bool,
    pub commits: bool,
    pub settles: bool,
    pub forgets: bool,
}

const WRITER: AttemptId = AttemptId {
    client: 0,
    command: 0,
    attempt: 0,
};

const CLIENT: ActorId = ActorId {
    client: true,
    number: 0,
};

const LEADER: ActorId = ActorId {
    client: false,
    number: 0,
};

const MEMBER: ActorId = ActorId {
    client: false,
    number: 1,
};

fn mark(alloc: Global, commits: bool) -> Option<Message> {
    let mut marks = Items::new(alloc);
    marks.push((WRITER, commits)).ok()?;
    Some(Message::Mark { inc: 1, marks })
}

fn verdict(commits: bool) -> Message {
    Message::Verdict {
        attempt: WRITER,
        ask: None,
        inc: 1,
        verdict: if commits {
            Verdict::Committed
        } else {
            Verdict::Aborted
        },
    }
}

// What target 1 tells target 0.
fn heard(alloc: Global, told: &Told) -> Option<Letter> {
    let message = if told.marks {
        mark(alloc, told.commits)?
    } else {
        verdict(told.commits)
    };
    Some(Letter {
        from: MEMBER,
        to: LEADER,
        message,
    })
}

// The answer to a Mark.
fn marked(alloc: Global) -> Option<Letter> {
    let mut attempts = Items::new(alloc);
    attempts.push(WRITER).ok()?;
    Some(Letter {
        from: LEADER,
        to: MEMBER,
        message: Message::Marked { inc: 1, attempts },
    })
}

// The write as the leader stores it, and its entry.
fn store(alloc: Global, target: &mut TargetState, done: bool) -> Option<()> {
    let write = put(alloc, Class::RP2G1)?;
    let version = Version {
        epoch: Epoch(256),
        minor: 0,
        by: WRITER,
        done,
        write,
    };
    target.durable.versions.push(version).ok()?;
    let entry = Entry {
        attempt: WRITER,
        epoch: Epoch(256),
        leader: 0,
        members: 3,
        confirmed: 0,
        committed: done,
    };
    target.durable.entries.push(entry).ok()
}

// Target 0 before the turn and after it.
fn fill_leader(alloc: Global, told: &Told, target: &mut TargetState, over: bool) -> Option<()> {
    enlist(target)?;
    target.free = 15_109;
    target.durable.lease = 65_536;
    target.memory.ticks = 1;
    let settled = over && told.settles;
    if !settled || told.commits {
        store(alloc, target, settled)?;
    }
    if !over || !told.forgets {
        let waits = Undecided {
            attempt: WRITER,
            client: Some(CLIENT),
            counted: 0,
        };
        target.memory.leader.undecided.push(waits).ok()?;
    }
    Some(())
}

fn add_targets(alloc: Global, told: &Told, world: &mut World, over: bool) -> Option<()> {
    let mut target = target_state(alloc);
    fill_leader(alloc, told, &mut target, over)?;
    world.targets.push(target).ok()?;
    let mut target = target_state(alloc);
    enlist(&mut target)?;
    world.targets.push(target).ok()
}

// The client waits for the end of its attempt.
fn add_waiting(alloc: Global, world: &mut World) -> Option<()> {
    let mut client = client_state(alloc);
    client.present = Some(Present {
        attempt: 0,
        first: None,
        epoch: None,
        op: 1,
        stage: Stage::Cond,
        group: 0,
        found: None,
        conds: Items::new(alloc),
        gots: Items::new(alloc),
        waits: true,
    });
    world.clients.push(client).ok()
}

// A Mark is without an answer before the turn; a Verdict has none.
fn add_letters(alloc: Global, told: &Told, world: &mut World, over: bool) -> Option<()> {
    if !over {
        world.messages.push(heard(alloc, told)?).ok()?;
    }
    if told.marks && over {
        world.messages.push(marked(alloc)?).ok()?;
    }
    if told.marks && !over {
        world.asked.push(heard(alloc, told)?).ok()?;
    }
    Some(())
}

// The world before the turn and after it.
fn fill(alloc: Global, told: &Told, world: &mut World, over: bool) -> Option<()> {
    add_targets(alloc, told, world, over)?;
    add_waiting(alloc, world)?;
    world.issued.push((WRITER, Epoch(256))).ok()?;
    add_letters(alloc, told, world, over)
}

fn add_put(alloc: Global, clients: &mut ClientLists) -> Option<()> {
    let mut ops = Items::new(alloc);
    let act = Act::Change(put(alloc, Class::RP2G1)?);
    ops.push(Op {
        act,
        cond: Cond::Free,
    })
    .ok()?;
    add_client(alloc, clients, ops)
}

// The turn, as it is told.
fn tell(alloc: Global, told: &Told, events: &mut Events) -> Option<()> {
    add_put(alloc, &mut events.script.clients)?;
    fill(alloc, told, &mut events.start, false)?;
    let mut event = Event {
        kind: EventKind::Hear,
        actor: LEADER,
        heard: Some(heard(alloc, told)?),
        after: empty_world(alloc),
    };
    fill(alloc, told, &mut event.after, true)?;
    events.list.push(event).ok()
}

/// Whether that is a turn.
pub(crate) fn is_turn(alloc: Global, told: &Told) -> Option<bool> {
    let mut events = no_events(alloc, 2);
    tell(alloc, told, &mut events)?;
    check_list(alloc, &events).ok()
}
