// A leader: the target that decides an attempt.
ghost use Rattle.std.specs.Prelude.{◌≡◌, ◌<◌, true, filter, All, IfOk, IfSome, None, OnErr};
ghost use Rattle.base_types.specs.Operations.{write_path};
ghost use Rattle.base_types.specs.Placement.{ClassFits};
ghost use Rattle.daos_model.specs.Changes.{committed_at};
ghost use Rattle.daos_model.specs.Durables.{entry_key};
ghost use Rattle.daos_model.specs.Ordered.{is_rising};
ghost use Rattle.dtx_base.specs.Leading.{batched, begun, first_leader, is_batch_due, query_answer, settled_led, step_of};
ghost use Rattle.dtx_entries.specs.Settling.{entry_in};

use crate::decisions::Decisions;
use base_messages::actor::ActorId;
use base_messages::message::Posts;
use base_types::entry::{Entries, Entry, Settle, Verdict};
use base_types::epoch::{Epoch, TargetId};
use base_types::id::AttemptId;
use base_types::items::Memory;
use base_types::operation::MinorWrite;
use dtx_table::led::led_by;
use dtx_table::seat::Seat;
use dtx_table::table::Table;
use std::alloc::Global;
use std::marker::Model;

/// A leader of attempts: the entries that it leads, in the order of attempts, which of them it hasn't
/// decided, and whose Ok it counted of each; which it decided and hasn't settled; what Marks it sent that
/// are without an answer; and which targets it knows to be down.
#[derive(Drop)]
pub struct Leader {
    pub(crate) alloc: Global,
    pub(crate) seat: Seat,
    pub(crate) table: Table,
    pub(crate) decisions: Decisions,
}

impl Model for Leader {
    ghost use Rattle.std.specs.Prelude.{◌≡◌, filter};
    ghost use Rattle.dtx_base.specs.Leading.{LeaderOf, is_led};

    ghost Value = { LeaderOf };

    ghost view = { λ l. record { me = l.seat.me; targets = l.seat.targets; incarnation = l.seat.incarnation; entries = l.table; memory = l.decisions } };

    ghost invariant = { λ l. filter (is_led l.seat.me) l.table ≡ l.table };
}

impl Leader {
    /// A leader that has just opened: target `me` of so many, in this incarnation, whose store keeps these
    /// entries, in the order of attempts. Of those that it leads, one that isn't committed is undecided,
    /// or decided where there is no other member.
    ///
    /// # Errors
    ///
    /// For want of memory.
    #[tactic(auto, unfolding(dtx_base::specs::Leading::first_leader))]
    pub fn new(
        alloc: Global,
        me: TargetId,
        targets: u8,
        incarnation: u64,
        entries: &Entries,
    ) -> Result<Leader, Memory>
        requires order { is_rising entry_key entries.now ≡ true }
        ensures { IfOk result (λ leader. leader ≡ first_leader me targets incarnation entries.now) }
    {
        let led = led_by(alloc, me, entries.as_slice())?;
        let decisions = Decisions::new(alloc, me, entries.as_slice())?;
        Ok(Leader {
            alloc,
            seat: Seat {
                me,
                targets,
                incarnation,
            },
            table: Table::of_rows(led),
            decisions,
        })
    }

    /// An attempt begins, whose entry the store has taken; a client waits for its end. Each other
    /// member is asked to prepare the writes of its groups; without others the attempt is decided.
    /// The writes are all that the attempt has, and their classes fit the number of targets; it has no
    /// entry here yet, and this target leads it.
    ///
    /// # Errors
    ///
    /// For want of memory; the leader is then as it was.
    #[tactic(auto, unfolding(dtx_base::specs::Leading::begun, dtx_entries::specs::Settling::entries_settled))]
    pub fn begin(
        &mut self,
        entry: &Entry,
        first: Option<Epoch>,
        client: ActorId,
        writes: &[MinorWrite],
    ) -> Result<Posts, Memory>
        requires fit { All (λ w. IfSome (write_path w.write).obj (λ o. ClassFits o.class self.old.targets)) writes.now }
        requires led { entry.now.leader ≡ self.old.me }
        requires new { entry_in self.old.entries entry.now.attempt ≡ None }
        ensures ok { IfOk result (λ posts. step_of self.new posts ≡ begun entry.now first client writes.now self.old) }
        ensures err { OnErr result (self.new ≡ self.old) }
    {
        self.table.add(*entry)?;
        match self
            .decisions
            .begin(self.seat, entry, first, client, writes)
        {
            Ok(posts) => Ok(posts),
            Err(memory) => {
                self.table.settle(entry.attempt, Settle::Abort);
                Err(memory)
            }
        }
    }

    /// Tells each other member of the commits that it hasn't confirmed, by one Mark each, in the
    /// order of their numbers; but of none that a Mark names which is without an answer, and no
    /// target that is known to be down.
    ///
    /// # Errors
    ///
    /// For want of memory; the leader is then as it was.
    #[tactic(auto, unfolding(dtx_base::specs::Leading::batched))]
    pub fn batch(&mut self) -> Result<Posts, Memory>
        ensures ok { IfOk result (λ posts. step_of self.new posts ≡ batched self.old) }
        ensures err { OnErr result (self.new ≡ self.old) }
    {
        self.decisions.batch(self.seat, self.table.entries())
    }

    /// Whether a batch would send something.
    pub fn has_batch(&self) -> bool
        ensures { result ≡ is_batch_due self.now }
    {
        self.decisions.has_batch(self.seat, self.table.entries())
    }

    /// What became of an attempt: committed where its entry is or where it is decided, aborted where
    /// there is no entry of it.
    pub fn answer_query(&self, attempt: AttemptId) -> Verdict
        ensures { result ≡ query_answer attempt self.now }
    {
        self.decisions
            .answer_query(self.seat, self.table.entries(), attempt)
    }

    /// Where it is.
    pub fn seat(&self) -> Seat
        ensures me { result.me ≡ self.now.me }
        ensures targets { result.targets ≡ self.now.targets }
        ensures incarnation { result.incarnation ≡ self.now.incarnation }
    {
        self.seat
    }

    /// The entries that it leads, in the order of attempts.
    pub fn entries(&self) -> &[Entry]
        ensures { result.now ≡ self.now.entries }
    {
        self.table.entries()
    }

    /// The attempts that are decided and not settled in the store yet, in their order.
    pub fn decided(&self) -> &[AttemptId]
        ensures { result.now ≡ self.now.memory.decided }
    {
        self.decisions.decided()
    }

    /// A decided attempt was committed in the store.
    #[tactic(auto, unfolding(dtx_base::specs::Leading::settled_led, dtx_entries::specs::Settling::entries_settled))]
    pub fn settled(&mut self, attempt: AttemptId)
        ensures { self.new ≡ settled_led attempt self.old }
    {
        self.decisions.settled(attempt);
        self.table.settle(attempt, Settle::Commit);
    }
}
