// The worlds of the run, from its tables, and the run as a list of events.
use crate::letters::{add_letters, answer, letter, outcome};
use crate::parts::{
    add_client, akey, client_state, empty_world, enlist, put, script, target_state,
};
use crate::tables::{
    Came, ENDS, FIRST, IN_FLIGHT, KINDS, SECOND, SERVED, SETTLED, STORED, Told, UNANSWERED, Who,
};
use base_types::answer::Answer;
use base_types::entry::Entry;
use base_types::epoch::Epoch;
use base_types::id::Class;
use base_types::items::Items;
use base_types::operation::{Act, Cond, Op, Read};
use base_types::report::{Attempt, Line};
use base_types::script::ClientLists;
use base_types::shown::Shown;
use daos_model::durable::Version;
use std::alloc::Global;
use world_base::client::{ClientState, Present, Stage};
use world_base::target::TargetState;
use world_base::world::World;
use world_list::events::{Event, Events};

fn add_read(alloc: Global, clients: &mut ClientLists, name: u8, writes: bool) -> Option<()> {
    let mut ops = Items::new(alloc);
    let read = Act::Fetch(Read::Single(akey(alloc, Class::S1, name)?));
    let cond = Cond::Free;
    ops.push(Op { act: read, cond }).ok()?;
    if writes {
        let act = Act::Change(put(alloc, Class::S1)?);
        ops.push(Op { act, cond }).ok()?;
    }
    add_client(alloc, clients, ops)
}

// How far an attempt came: it waits for its read, or for its end.
fn present(alloc: Global, told: &Told, who: &Who, commits: bool) -> Present {
    let at = told.attempt(who);
    Present {
        attempt: at.by.attempt,
        first: if commits {
            Some(Epoch(256))
        } else {
            at.first.map(Epoch)
        },
        epoch: if commits { Some(Epoch(at.epoch)) } else { None },
        op: if commits { 2 } else { 0 },
        stage: if commits { Stage::Cond } else { Stage::Act },
        group: 0,
        found: None,
        conds: Items::new(alloc),
        gots: Items::new(alloc),
        waits: true,
    }
}

// How far a client came.
fn come(alloc: Global, told: &Told, client: &mut ClientState, came: &Came) -> Option<()> {
    match came {
        Came::Nowhere => {}
        Came::Reads(who) => {
            client.tracker = Epoch(told.attempt(who).tracker);
            client.present = Some(present(alloc, told, who, false));
        }
        Came::Commits(who) => {
            client.tracker = Epoch(told.attempt(who).epoch);
            let mut present = present(alloc, told, who, true);
            present.gots.push((0, Answer::Absent)).ok()?;
            client.present = Some(present);
        }
        Came::Over(who) => {
            client.place = 1;
            client.command = 1;
            client.tracker = Epoch(told.attempt(who).epoch);
            client.present = None;
        }
    }
    Some(())
}

// A client after so many turns.
fn add_client_at(
    alloc: Global,
    told: &Told,
    world: &mut World,
    table: &[(Came, usize)],
    turn: usize,
) -> Option<()> {
    let mut client = client_state(alloc);
    for (came, from) in table {
        if turn >= *from {
            come(alloc, told, &mut client, came)?;
        }
    }
    world.clients.push(client).ok()
}

// The write as the target stores it, and its entry.
fn store(alloc: Global, told: &Told, target: &mut TargetState, done: bool) -> Option<()> {
    let again = told.attempt(&Who::Again);
    let write = put(alloc, Class::S1)?;
    let version = Version {
        epoch: Epoch(again.epoch),
        minor: 1,
        by: again.by,
        done,
        write,
    };
    target.durable.versions.push(version).ok()?;
    let entry = Entry {
        attempt: again.by,
        epoch: Epoch(again.epoch),
        leader: 0,
        members: 1,
        confirmed: 0,
        committed: done,
    };
    target.durable.entries.push(entry).ok()?;
    target.free = told.free;
    if !done {
        target.memory.leader.decided.push(again.by).ok()?;
    }
    Some(())
}

// A read that the target served.
fn serve(alloc: Global, told: &Told, target: &mut TargetState, who: &Who) -> Option<()> {
    let served = told.attempt(who);
    let path = akey(alloc, Class::S1, served.name)?;
    let shown = Shown {
        by: served.by,
        epoch: Epoch(served.epoch),
        path,
    };
    target.memory.stamps.push(shown).ok()?;
    target.memory.ticks = Epoch(served.epoch).ticks();
    target.durable.lease = 65_536;
    Some(())
}

// The target after so many turns.
fn fill_target(alloc: Global, told: &Told, target: &mut TargetState, turn: usize) -> Option<()> {
    enlist(target)?;
    for (who, at) in &SERVED {
        if turn >= *at {
            serve(alloc, told, target, who)?;
        }
    }
    if turn >= STORED {
        store(alloc, told, target, turn >= SETTLED)?;
    }
    Some(())
}

fn add_target(alloc: Global, told: &Told, world: &mut World, turn: usize) -> Option<()> {
    let mut target = target_state(alloc);
    fill_target(alloc, told, &mut target, turn)?;
    world.targets.push(target).ok()
}

// The line of an attempt.
fn add_line(alloc: Global, told: &Told, world: &mut World, who: &Who) -> Option<()> {
    let over = told.attempt(who);
    let outcome = outcome(alloc, told, who)?;
    let mut gots = Items::new(alloc);
    gots.push((0, answer(told, who))).ok()?;
    let line = Line::Try(Attempt {
        id: over.by,
        epoch: Some(Epoch(over.epoch)),
        conds: Items::new(alloc),
        gots,
        outcome,
    });
    world.lines.push(line).ok()
}

// What was issued and what ended in so many turns.
fn add_past(alloc: Global, told: &Told, world: &mut World, turn: usize) -> Option<()> {
    for (who, at) in &SERVED {
        if turn >= *at {
            let issued = told.attempt(who);
            world.issued.push((issued.by, Epoch(issued.epoch))).ok()?;
        }
    }
    for (who, at) in &ENDS {
        if turn >= *at {
            add_line(alloc, told, world, who)?;
        }
    }
    Some(())
}

// The world after so many turns.
fn fill(alloc: Global, told: &Told, world: &mut World, turn: usize) -> Option<()> {
    add_target(alloc, told, world, turn)?;
    add_client_at(alloc, told, world, &FIRST, turn)?;
    add_client_at(alloc, told, world, &SECOND, turn)?;
    add_past(alloc, told, world, turn)?;
    add_letters(alloc, told, &mut world.messages, IN_FLIGHT.get(turn)?)?;
    add_letters(alloc, told, &mut world.asked, UNANSWERED.get(turn)?)
}

// An event, from 1 on.
fn add_event(alloc: Global, told: &Told, events: &mut Events, turn: usize) -> Option<()> {
    let (kind, actor, hears) = KINDS.get(turn.checked_sub(1)?)?;
    let heard = match hears {
        Some(sent) => Some(letter(alloc, told, sent)?),
        None => None,
    };
    let mut event = Event {
        kind: *kind,
        actor: *actor,
        heard,
        after: empty_world(alloc),
    };
    fill(alloc, told, &mut event.after, turn)?;
    events.list.push(event).ok()
}

/// Lists without events, before the first turn.
pub(crate) fn begin(alloc: Global, told: &Told, events: &mut Events) -> Option<()> {
    add_read(alloc, &mut events.script.clients, b'x', true)?;
    add_read(alloc, &mut events.script.clients, b'a', false)?;
    fill(alloc, told, &mut events.start, 0)
}

/// No events, of no script.
pub(crate) fn no_events(alloc: Global, targets: u8) -> Events {
    Events {
        script: script(alloc, targets),
        attempts: 8,
        epsilon: 0,
        start: empty_world(alloc),
        list: Items::new(alloc),
    }
}

/// The turn of this number, but for the one that is left out.
pub(crate) fn go_on(alloc: Global, told: &Told, events: &mut Events, turn: usize) -> Option<()> {
    if turn == told.without {
        return Some(());
    }
    add_event(alloc, told, events, turn)
}
