// What a leader decided, and what it waits for.
ghost use Rattle.std.specs.Prelude.{◌≡◌, [], All, IfOk, IfSome, OnErr, filter};
ghost use Rattle.base_types.specs.Operations.{write_path};
ghost use Rattle.base_types.specs.Placement.{ClassFits};
ghost use Rattle.dtx_base.specs.Leading.{begun, begun_alone, begun_with_others, first_memory, is_led};
ghost use Rattle.dtx_base.specs.Members.{other_members};
ghost use Rattle.dtx_table.specs.Seats.{came, leader_of};

use crate::opening::{first_decided, first_undecided};
use base_messages::actor::ActorId;
use base_messages::message::Posts;
use base_types::entry::Entry;
use base_types::epoch::{Epoch, TargetId};
use base_types::id::AttemptId;
use base_types::items::{Items, Memory};
use base_types::operation::MinorWrite;
use base_types::outcome::Outcome;
use dtx_base::leading::{LeaderMemory, Naming, Undecided};
use dtx_table::bits::other_members;
use dtx_table::led::led_by;
use dtx_table::posts::{Asking, ended, prepares};
use dtx_table::rows::put;
use dtx_table::seat::Seat;
use std::alloc::Global;
use std::marker::Model;

/// What a leader remembers, without the entries: which attempts it hasn't decided, and whose Ok it
/// counted of each; which it decided and hasn't settled; what Marks it sent that are without an answer;
/// and which targets it knows to be down. For a target, whose store keeps the entries: each call that
/// needs them is given them.
#[derive(Drop)]
pub struct Decisions {
    pub(crate) alloc: Global,
    pub(crate) undecided: Vec<Undecided>,
    pub(crate) decided: Vec<AttemptId>,
    pub(crate) named: Vec<Naming>,
    pub(crate) down: u64,
}

impl Model for Decisions {
    ghost use Rattle.dtx_base.specs.declared.leading.LeaderMemory.{LeaderMemory};

    ghost Value = { LeaderMemory };

    ghost view = { λ l. record { undecided = l.undecided.items; decided = l.decided.items; named = l.named.items; down = l.down } };
}

impl Decisions {
    /// What a leader remembers that has just opened, at a target of this number which keeps these entries. Of those that
    /// it leads, one that isn't committed is undecided, or decided where there is no other member.
    ///
    /// # Errors
    ///
    /// For want of memory.
    pub fn new(alloc: Global, me: TargetId, entries: &[Entry]) -> Result<Decisions, Memory>
        ensures { IfOk result (λ decisions. decisions ≡ first_memory (filter (is_led me) entries.now)) }
    {
        let led = led_by(alloc, me, entries)?;
        let undecided = first_undecided(alloc, &led)?;
        let decided = first_decided(alloc, &led)?;
        Ok(Decisions {
            alloc,
            undecided,
            decided,
            named: Vec::new(alloc),
            down: 0,
        })
    }

    /// What this memory says.
    pub fn remembering(alloc: Global, memory: LeaderMemory) -> Decisions
        ensures { result ≡ memory }
    {
        let LeaderMemory {
            undecided,
            decided,
            named,
            down,
        } = memory;
        Decisions {
            alloc,
            undecided: undecided.into_vec(),
            decided: decided.into_vec(),
            named: named.into_vec(),
            down,
        }
    }

    /// As plain data.
    pub fn into_memory(self) -> LeaderMemory
        ensures { result ≡ self }
    {
        let Decisions {
            alloc: _alloc,
            undecided,
            decided,
            named,
            down,
        } = self;
        LeaderMemory {
            undecided: Items::from_vec(undecided),
            decided: Items::from_vec(decided),
            named: Items::from_vec(named),
            down,
        }
    }

    // An attempt without other members begins, and is decided.
    fn begin_alone(&mut self, seat: Seat, entry: &Entry, client: ActorId) -> Result<Posts, Memory>
        ensures ok { IfOk result (λ posts. (self.new, posts) ≡ came (begun_alone entry.now client (leader_of seat [] self.old))) }
        ensures err { OnErr result (self.new ≡ self.old) }
    {
        let _seat = seat;
        let posts = ended(
            self.alloc,
            Some(client),
            entry.attempt,
            entry.epoch,
            Outcome::Committed,
        )?;
        self.decided.reserve(1)?;
        put(&mut self.decided, entry.attempt);
        Ok(posts)
    }

    // An attempt with these other members begins.
    fn begin_with(
        &mut self,
        seat: Seat,
        asking: Asking,
        client: ActorId,
        writes: &[MinorWrite],
        others: &[TargetId],
    ) -> Result<Posts, Memory>
        requires fit { All (λ w. IfSome (write_path w.write).obj (λ o. ClassFits o.class asking.targets)) writes.now }
        requires targets { asking.targets ≡ seat.targets }
        requires incarnation { asking.incarnation ≡ seat.incarnation }
        requires others { others.now ≡ other_members asking.entry }
        ensures ok { IfOk result (λ posts. (self.new, posts) ≡ came (begun_with_others asking.entry asking.first client writes.now (leader_of seat [] self.old))) }
        ensures err { OnErr result (self.new ≡ self.old) }
    {
        let _seat = seat;
        let posts = prepares(self.alloc, asking, writes, others)?;
        self.undecided.reserve(1)?;
        put(
            &mut self.undecided,
            Undecided {
                attempt: asking.entry.attempt,
                client: Some(client),
                counted: 0,
            },
        );
        Ok(posts)
    }

    /// An attempt begins, whose entry the store has taken; a client waits for its end. Each other
    /// member is asked to prepare the writes of its groups; without others the attempt is decided.
    /// The writes are all that the attempt has, and their classes fit the number of targets.
    ///
    /// # Errors
    ///
    /// For want of memory; the leader is then as it was.
    #[tactic(auto, unfolding(dtx_base::specs::Leading::begun))]
    pub fn begin(
        &mut self,
        seat: Seat,
        entry: &Entry,
        first: Option<Epoch>,
        client: ActorId,
        writes: &[MinorWrite],
    ) -> Result<Posts, Memory>
        requires { All (λ w. IfSome (write_path w.write).obj (λ o. ClassFits o.class seat.targets)) writes.now }
        ensures ok { IfOk result (λ posts. (self.new, posts) ≡ came (begun entry.now first client writes.now (leader_of seat [] self.old))) }
        ensures err { OnErr result (self.new ≡ self.old) }
    {
        let others = other_members(self.alloc, entry)?;
        if others.is_empty() {
            return self.begin_alone(seat, entry, client);
        }
        let asking = Asking {
            entry: *entry,
            first,
            targets: seat.targets,
            incarnation: seat.incarnation,
        };
        self.begin_with(seat, asking, client, writes, &others)
    }
}
