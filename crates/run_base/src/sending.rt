// Letters that are made ready first, so that to send them needs no memory.
ghost use Rattle.std.specs.Prelude.{◌≡◌, ◌≤◌, ◌<◌, ◌+◌, ◌++◌, ◌∷◌, [], vec_capacity, vec_len, IfOk, OnErr, OnOk};
ghost use Rattle.world_base.specs.Letters.{asked_after, asked_with, letter_of, letters_of};

use crate::asked::{kept_copy, note};
use base_messages::actor::ActorId;
use base_messages::message::{Post, Posts};
use base_types::items::Memory;
use std::alloc::Global;
use std::marker::Model;
use world_base::letter::Letter;

/// A letter, and the copy of it that is kept while it is without an answer, if it is one that is
/// answered. A contract sees the letter.
#[derive(Drop)]
pub(crate) struct Ready {
    letter: Letter,
    copy: Option<Letter>,
}

impl Model for Ready {
    ghost use Rattle.std.specs.Prelude.{◌≡◌};
    ghost use Rattle.base_messages.specs.contracts.message.Message as message;
    ghost use Rattle.run_base.specs.Letters.{kept_copy};
    ghost use Rattle.std.specs.Coded.{codes};
    ghost use Rattle.world_base.specs.declared.letter.Letter.{Letter};

    ghost Value = { Letter };

    ghost coded = { Prim.hlevel (codes, message.the_row.coded) };

    ghost view = { λ r. r.letter };

    ghost invariant = { λ r. r.copy ≡ kept_copy r.letter };
}

// The letter of a message that an actor sends.
fn make_ready(from: ActorId, post: Post) -> Result<Ready, Memory>
    ensures { IfOk result (λ ready. ready ≡ letter_of from post) }
{
    let letter = Letter {
        from,
        to: post.to,
        message: post.message,
    };
    let copy = kept_copy(&letter)?;
    Ok(Ready { letter, copy })
}

/// The letters of what an actor sends.
///
/// # Errors
///
/// For want of memory.
pub(crate) fn all_ready(alloc: Global, from: ActorId, posts: Posts) -> Result<Vec<Ready>, Memory>
    ensures { IfOk result (λ all. all.items ≡ letters_of from posts) }
{
    let mut all = Vec::with_capacity(alloc, posts.len())?;
    for post in posts.into_vec() {
        all.push(make_ready(from, post)?)?;
    }
    Ok(all)
}

// A letter is sent, for which there is room.
fn send_one(messages: &mut Vec<Letter>, asked: &mut Vec<Letter>, ready: Ready)
    requires room { vec_len messages.old < vec_capacity messages.old }
    requires room_asked { vec_len asked.old < vec_capacity asked.old }
    ensures messages { messages.new.items ≡ messages.old.items ++ ready ∷ [] }
    ensures asked { asked.new.items ≡ asked_with asked.old.items ready }
    ensures len { vec_len messages.new ≡ vec_len messages.old + 1 }
    ensures len_asked { vec_len asked.new ≤ vec_len asked.old + 1 }
    ensures capacity { vec_capacity messages.old ≤ vec_capacity messages.new }
    ensures capacity_asked { vec_capacity asked.old ≤ vec_capacity asked.new }
{
    let Ready { letter, copy } = ready;
    note(asked, &letter, copy);
    messages.push(letter).unwrap();
}

// Letters are sent, one after another, for which there is room.
fn send_all(messages: &mut Vec<Letter>, asked: &mut Vec<Letter>, all: Vec<Ready>)
    requires room { vec_len messages.old + vec_len all ≤ vec_capacity messages.old }
    requires room_asked { vec_len asked.old + vec_len all ≤ vec_capacity asked.old }
    ensures messages { messages.new.items ≡ messages.old.items ++ all.items }
    ensures asked { asked.new.items ≡ asked_after asked.old.items all.items }
{
    for ready in all {
        send_one(messages, asked, ready);
    }
}

/// Sends letters, each of which is without an answer, or answers one that was.
///
/// # Errors
///
/// For want of memory; what is in flight and what is without an answer are then as they were.
pub(crate) fn send(
    messages: &mut Vec<Letter>,
    asked: &mut Vec<Letter>,
    all: Vec<Ready>,
) -> Result<(), Memory>
    ensures messages { OnOk result (messages.new.items ≡ messages.old.items ++ all.items) }
    ensures asked { OnOk result (asked.new.items ≡ asked_after asked.old.items all.items) }
    ensures kept { OnErr result (messages.new.items ≡ messages.old.items) }
    ensures kept_asked { OnErr result (asked.new.items ≡ asked.old.items) }
{
    messages.reserve(all.len())?;
    asked.reserve(all.len())?;
    send_all(messages, asked, all);
    Ok(())
}
