// A leader that opened again.
ghost use Rattle.std.specs.Prelude.{◌≡◌, [], true, IfOk, OnErr};
ghost use Rattle.daos_model.specs.Durables.{entry_key};
ghost use Rattle.daos_model.specs.Ordered.{is_rising};
ghost use Rattle.dtx_base.specs.Leading.{first_leader, step_of};
ghost use Rattle.dtx_resync.specs.Resyncs.{started, status_heard};

use crate::statuses::{opening_posts, status_refusal};
use base_messages::message::{Message, Posts};
use base_types::entry::Entries;
use base_types::epoch::TargetId;
use base_types::items::{Items, Memory};
use dtx_leader::leader::Leader;
use dtx_table::posts::none;
use std::alloc::Global;
use std::marker::Model;

/// A leader that opened again: what it is as a leader, and what members answer of what it led.
#[derive(Drop)]
pub struct Resync {
    alloc: Global,
    leader: Leader,
}

impl Model for Resync {
    ghost use Rattle.dtx_base.specs.Leading.{LeaderOf};

    ghost Value = { LeaderOf };

    ghost view = { λ r. r.leader };
}

impl Resync {
    /// The leader of target `me` of so many, without entries, before any opening.
    ///
    /// # Errors
    ///
    /// For want of memory.
    pub fn new(alloc: Global, me: TargetId, targets: u8) -> Result<Resync, Memory>
        ensures { IfOk result (λ resync. resync ≡ first_leader me targets 0 []) }
    {
        let leader = Leader::new(alloc, me, targets, 0, &Items::new(alloc))?;
        Ok(Resync { alloc, leader })
    }

    /// The target has opened, in this incarnation, over these entries, in the order of attempts. It is then the leader that has
    /// just opened: of the entries that it leads, one that isn't committed is undecided, or decided where there is no other
    /// member. Of each that is undecided every other member is asked what it holds.
    ///
    /// # Errors
    ///
    /// For want of memory; the leader is then as it was.
    pub fn start(&mut self, entries: &Entries, incarnation: u64) -> Result<Posts, Memory>
        requires order { is_rising entry_key entries.now ≡ true }
        ensures ok { IfOk result (λ posts. step_of self.new posts ≡ started incarnation entries.now self.old) }
        ensures err { OnErr result (self.new ≡ self.old) }
    {
        let seat = self.leader.seat();
        let posts = opening_posts(self.alloc, seat.me, incarnation, entries.as_slice())?;
        self.leader = Leader::new(self.alloc, seat.me, seat.targets, incarnation, entries)?;
        Ok(posts)
    }

    /// A member answers what it holds of an attempt: nothing, which is as a refusal by the unresolved attempt; or its entry, which counts
    /// as Ok. Of any other message nothing follows.
    ///
    /// # Errors
    ///
    /// For want of memory; the leader is then as it was.
    pub fn hear_status(&mut self, from: TargetId, message: &Message) -> Result<Posts, Memory>
        ensures ok { IfOk result (λ posts. step_of self.new posts ≡ status_heard from message.now self.old) }
        ensures err { OnErr result (self.new ≡ self.old) }
    {
        let Message::StatusIs {
            attempt,
            inc,
            state,
        } = message
        else {
            return Ok(none(self.alloc));
        };
        let ack = Message::Ack {
            attempt: *attempt,
            inc: *inc,
            refusal: status_refusal(*attempt, *state),
        };
        self.leader.hear_ack(from, &ack)
    }

    /// The leader that it has become.
    pub fn into_leader(self) -> Leader
        ensures { result ≡ self }
    {
        let Resync {
            alloc: _alloc,
            leader,
        } = self;
        leader
    }
}
