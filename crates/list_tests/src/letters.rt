// The letters of the run, and how its attempts end.
use crate::parts::{akey, writes};
use crate::tables::{Said, Sent, Told, Who};
use base_messages::actor::ActorId;
use base_messages::message::{Message, Reply};
use base_types::answer::Answer;
use base_types::epoch::Epoch;
use base_types::id::Class;
use base_types::operation::Read;
use base_types::outcome::{Cause, Outcome};
use std::alloc::Global;
use world_base::letter::{Letter, Letters};

/// What the read of an attempt is answered.
pub(crate) fn answer(told: &Told, who: &Who) -> Answer {
    match who {
        Who::Reader if told.yes => Answer::Yes,
        _ => Answer::Absent,
    }
}

/// How an attempt ends.
pub(crate) fn outcome(alloc: Global, told: &Told, who: &Who) -> Option<Outcome> {
    match who {
        Who::First => {
            let path = akey(alloc, Class::S1, b'a')?;
            Some(Outcome::Restart(Cause::ReadLater {
                by: told.attempt(&Who::Reader).by,
                epoch: Epoch(told.cause),
                path,
            }))
        }
        _ => Some(Outcome::Committed),
    }
}

fn fetch(alloc: Global, told: &Told, who: &Who) -> Option<Message> {
    let asks = told.attempt(who);
    let path = akey(alloc, Class::S1, asks.name)?;
    Some(Message::Fetch {
        attempt: asks.by,
        op: 0,
        group: 0,
        ep: None,
        first: asks.first.map(Epoch),
        tracker: Epoch(asks.tracker),
        read: Read::Single(path),
        snapshot: false,
    })
}

fn commit(alloc: Global, told: &Told, who: &Who) -> Option<Message> {
    let asks = told.attempt(who);
    let writes = writes(alloc, Class::S1, 1)?;
    Some(Message::Commit {
        attempt: asks.by,
        ep: Some(Epoch(asks.epoch)),
        first: Some(Epoch(256)),
        tracker: Epoch(asks.epoch),
        writes,
    })
}

fn ended(alloc: Global, told: &Told, who: &Who) -> Option<Message> {
    let asks = told.attempt(who);
    let outcome = outcome(alloc, told, who)?;
    Some(Message::Ended {
        attempt: asks.by,
        ep: Some(Epoch(asks.epoch)),
        outcome,
    })
}

fn fetched(told: &Told, who: &Who) -> Message {
    let asks = told.attempt(who);
    Message::Fetched {
        attempt: asks.by,
        op: 0,
        group: 0,
        epoch: Some(Epoch(asks.epoch)),
        reply: Reply::Answer(answer(told, who)),
    }
}

fn message(alloc: Global, told: &Told, (said, who): &Sent) -> Option<Message> {
    match said {
        Said::Fetch => fetch(alloc, told, who),
        Said::Fetched => Some(fetched(told, who)),
        Said::Commit => commit(alloc, told, who),
        Said::Ended => ended(alloc, told, who),
    }
}

/// A letter between an attempt's client and the target.
pub(crate) fn letter(alloc: Global, told: &Told, sent: &Sent) -> Option<Letter> {
    let message = message(alloc, told, sent)?;
    let client = ActorId {
        client: true,
        number: told.attempt(&sent.1).by.client,
    };
    let target = ActorId {
        client: false,
        number: 0,
    };
    let (from, to) = match sent.0 {
        Said::Fetch | Said::Commit => (client, target),
        Said::Fetched | Said::Ended => (target, client),
    };
    Some(Letter { from, to, message })
}

/// Letters, one after another.
pub(crate) fn add_letters(
    alloc: Global,
    told: &Told,
    letters: &mut Letters,
    sent: &[Sent],
) -> Option<()> {
    for one in sent {
        letters.push(letter(alloc, told, one)?).ok()?;
    }
    Some(())
}
