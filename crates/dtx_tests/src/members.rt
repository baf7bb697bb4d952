// Fetches parked at a member, and inquiries.
use base_messages::message::Message;
use base_types::entry::{Entry, Verdict};
use base_types::epoch::Epoch;
use base_types::id::{AttemptId, ContId};
use base_types::operation::Read;
use base_types::path::Path;
use dtx_base::member::Freed;
use dtx_member::member::Member;
use std::alloc::Global;

fn attempt(client: u16) -> AttemptId {
    AttemptId {
        client,
        command: 0,
        attempt: 0,
    }
}

fn entry(client: u16) -> Entry {
    Entry {
        attempt: attempt(client),
        epoch: Epoch(256),
        leader: 0,
        members: 3,
        confirmed: 0,
        committed: false,
    }
}

// A Fetch of a client's attempt waits for attempt 0 0 0.
fn park(member: &mut Member, client: u16) -> Option<()> {
    let path = Path {
        cont: ContId(1),
        obj: None,
        dkey: None,
        akey: None,
    };
    let fetch = Message::Fetch {
        attempt: attempt(client),
        op: 0,
        group: 0,
        ep: Some(Epoch(513)),
        first: None,
        tracker: Epoch(255),
        read: Read::Exists(path),
        snapshot: false,
    };
    let _posts = member.park(fetch, attempt(0), 0).ok()?;
    Some(())
}

// The client whose Fetch a message is, or 9.
fn asker(ask: &Message) -> u16 {
    match ask {
        Message::Fetch { attempt, .. } => attempt.client,
        _ => 9,
    }
}

// How many messages follow from a verdict, and the clients whose Fetches are tried again, one decimal digit each.
fn told(freed: &Freed) -> (usize, u16) {
    let mut again = 0u16;
    for ask in freed.again.as_slice() {
        again = again.saturating_mul(10).saturating_add(asker(ask));
    }
    (freed.posts.len(), again)
}

// What follows once two clients' Fetches wait for an attempt that is aborted.
fn freed(alloc: Global) -> Option<(usize, u16)> {
    let mut member = Member::new(alloc, 1, 2).ok()?;
    park(&mut member, 3)?;
    park(&mut member, 1)?;
    let freed = member
        .hear_verdict(attempt(0), None, Verdict::Aborted)
        .ok()?;
    Some(told(&freed))
}

// How many messages ask what became of an entry, and whether it is asked again.
fn asked(alloc: Global) -> Option<(usize, bool)> {
    let mut member = Member::new(alloc, 1, 2).ok()?;
    let posts = member.inquire(&[entry(0)]).ok()?;
    Some((posts.len(), member.has_inquiry(&[entry(0)])))
}

#[test]
fn what_waits_goes_on_in_order(rt: HostRuntime) {
    let alloc = rt.alloc();
    assert!(rt; freed(alloc) == Some((0, 31)));
    assert!(rt; asked(alloc) == Some((1, false)));
}
