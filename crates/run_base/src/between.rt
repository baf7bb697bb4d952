// What lies between the actors of a run.
ghost use Rattle.std.specs.Prelude.{◌≡◌, ◌<◌, ◌++◌, [], length, map, IfErr, OnOk};
ghost use Rattle.run_base.specs.Letters.{IsPicked, IsPlaceOf, letters_to};
ghost use Rattle.world_base.specs.Events.{listed, with_epoch};
ghost use Rattle.world_base.specs.Letters.{asked_after, letters_of};

use crate::lines::with_epochs;
use crate::sending::{all_ready, send};
use base_messages::actor::ActorId;
use base_types::epoch::Epoch;
use base_types::id::AttemptId;
use base_types::items::{Items, Memory};
use base_types::report::{Line, Lines};
use std::alloc::Global;
use std::marker::Model;
use world_base::did::Did;
use world_base::letter::Letter;

/// What lies between the actors of a run: the messages in flight in the order in which they were
/// sent, those that are without an answer, the epochs that were issued, and the lines of the report so
/// far.
#[derive(Drop)]
pub struct Between {
    pub(crate) messages: Vec<Letter>,
    pub(crate) asked: Vec<Letter>,
    pub(crate) issued: Vec<(AttemptId, Epoch)>,
    pub(crate) lines: Vec<Line>,
}

impl Model for Between {
    ghost use Rattle.run_base.specs.Letters.{BetweenNow};
    ghost use Rattle.base_messages.specs.contracts.message.Message as message;
    ghost use Rattle.std.specs.Coded.{codes};

    ghost Value = { BetweenNow };

    ghost coded = { Prim.hlevel (codes, message.the_row.coded) };

    ghost view = { λ b. record { messages = b.messages.items; asked = b.asked.items; issued = b.issued.items; lines = b.lines.items } };
}

// How many letters are in flight to an actor.
fn count_to(letters: &[Letter], to: ActorId) -> usize
    ensures { result ≡ length (letters_to to letters.now) }
{
    letters.iter().filter(|letter| letter.to == to).count()
}

// The place of the letter of this number among those to an actor.
fn place_of(letters: &[Letter], to: ActorId, number: usize) -> usize
    requires { number < length (letters_to to letters.now) }
    ensures within { result < length letters.now }
    ensures place { IsPlaceOf letters.now to number result }
{
    let mut before = 0;
    for (place, letter) in letters.iter().enumerate() {
        if letter.to == to {
            if before == number {
                return place;
            }
            before += 1;
        }
    }
    unreachable!()
}

impl Between {
    /// Nothing is in flight or without an answer, no epoch was issued, and no line was added.
    pub fn new(alloc: Global) -> Between
        ensures messages { result.messages ≡ [] }
        ensures asked { result.asked ≡ [] }
        ensures issued { result.issued ≡ [] }
        ensures lines { result.lines ≡ [] }
    {
        Between {
            messages: Vec::new(alloc),
            asked: Vec::new(alloc),
            issued: Vec::new(alloc),
            lines: Vec::new(alloc),
        }
    }

    /// How many messages are in flight to an actor.
    pub fn count_to(&self, to: ActorId) -> usize
        ensures { result ≡ length (letters_to to self.now.messages) }
    {
        count_to(&self.messages, to)
    }

    /// Takes the message of this number, from 0, among those in flight to an actor.
    pub fn take(&mut self, to: ActorId, number: usize) -> Letter
        requires number { number < length (letters_to to self.old.messages) }
        ensures picked { IsPicked self.old.messages to number result self.new.messages }
        ensures asked { self.new.asked ≡ self.old.asked }
        ensures issued { self.new.issued ≡ self.old.issued }
        ensures lines { self.new.lines ≡ self.old.lines }
    {
        let place = place_of(&self.messages, to, number);
        self.messages.remove(place)
    }

    /// What follows from an actor's turn comes about: its messages are sent, its lines are added,
    /// each with the epoch issued where its client knows none, and the epoch that it issued is noted.
    ///
    /// # Errors
    ///
    /// For want of memory; nothing is changed then.
    pub fn follow(&mut self, from: ActorId, did: Did) -> Result<(), Memory>
        ensures messages { OnOk result (self.new.messages ≡ self.old.messages ++ letters_of from did.posts) }
        ensures asked { OnOk result (self.new.asked ≡ asked_after self.old.asked (letters_of from did.posts)) }
        ensures lines { OnOk result (self.new.lines ≡ self.old.lines ++ map (with_epoch self.old.issued) did.lines) }
        ensures issued { OnOk result (self.new.issued ≡ self.old.issued ++ listed did.issued) }
        ensures kept { IfErr result (λ no. self.new ≡ self.old) }
    {
        let Did {
            posts,
            lines,
            issued,
        } = did;
        let alloc = *self.messages.allocator();
        let letters = all_ready(alloc, from, posts)?;
        let mut told = with_epochs(alloc, &self.issued, lines)?;
        self.issued.reserve(1)?;
        self.lines.reserve(told.len())?;
        send(&mut self.messages, &mut self.asked, letters)?;
        self.lines.append(&mut told).unwrap();
        if let Some(issue) = issued {
            self.issued.push(issue).unwrap();
        }
        Ok(())
    }

    /// The lines of the report.
    pub fn into_lines(self) -> Lines
        ensures { result ≡ self.lines }
    {
        let Between {
            messages: _messages,
            asked: _asked,
            issued: _issued,
            lines,
        } = self;
        Items::from_vec(lines)
    }
}
