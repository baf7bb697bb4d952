// What a leader tells of what it decided.
ghost use Rattle.std.specs.Prelude.{◌≡◌, [], IfOk, OnErr};
ghost use Rattle.dtx_base.specs.Leading.{batched, first_down, forgotten, is_batch_due, query_answer, undecided_attempt};
ghost use Rattle.dtx_base.specs.Rows.{itself, row_of, without_row};
ghost use Rattle.dtx_table.specs.Seats.{came, leader_of};

use crate::decisions::Decisions;
use base_messages::message::Posts;
use base_types::entry::{Entry, Verdict};
use base_types::epoch::TargetId;
use base_types::id::AttemptId;
use base_types::items::Memory;
use dtx_base::leading::Undecided;
use dtx_table::batch::{batch_of, is_due};
use dtx_table::bits::first_down;
use dtx_table::led::find_led;
use dtx_table::rows::{find, is_among, remove};
use dtx_table::seat::Seat;

impl Decisions {
    /// Tells each other member of the commits that it hasn't confirmed, by one Mark each, in the
    /// order of their numbers; but of none that a Mark names which is without an answer, and no
    /// target that is known to be down.
    ///
    /// # Errors
    ///
    /// For want of memory; the leader is then as it was.
    #[tactic(auto, unfolding(dtx_base::specs::Leading::batched))]
    pub fn batch(&mut self, seat: Seat, entries: &[Entry]) -> Result<Posts, Memory>
        ensures ok { IfOk result (λ posts. (self.new, posts) ≡ came (batched (leader_of seat entries.now self.old))) }
        ensures err { OnErr result (self.new ≡ self.old) }
    {
        let batch = batch_of(self.alloc, seat, self.down, &self.named, entries)?;
        self.named.extend_from_slice(&batch.named)?;
        Ok(batch.posts)
    }

    /// Whether a batch would send something.
    #[tactic(auto, unfolding(dtx_base::specs::Leading::is_batch_due))]
    pub fn has_batch(&self, seat: Seat, entries: &[Entry]) -> bool
        ensures { result ≡ is_batch_due (leader_of seat entries.now self.now) }
    {
        is_due(seat.me, self.down, &self.named, entries)
    }

    /// What became of an attempt: committed where it is decided, aborted where there is no entry of
    /// it.
    #[tactic(auto, unfolding(dtx_base::specs::Leading::query_answer))]
    pub fn answer_query(&self, seat: Seat, entries: &[Entry], attempt: AttemptId) -> Verdict
        ensures { result ≡ query_answer attempt (leader_of seat entries.now self.now) }
    {
        match find_led(entries, seat.me, attempt) {
            None => Verdict::Aborted,
            Some(entry) => {
                if entry.committed || is_among(&self.decided, attempt) {
                    Verdict::Committed
                } else {
                    Verdict::Undecided
                }
            }
        }
    }

    /// What is known of an attempt that isn't decided, if it is one.
    pub fn undecided(&self, attempt: AttemptId) -> Option<Undecided>
        ensures { result ≡ row_of undecided_attempt attempt self.now.undecided }
    {
        find(&self.undecided, attempt)
    }

    /// The attempts that are decided and not settled in the store yet, in their order.
    pub fn decided(&self) -> &[AttemptId]
        ensures { result.now ≡ self.now.decided }
    {
        &self.decided
    }

    /// A decided attempt was settled in the store.
    pub fn settled(&mut self, attempt: AttemptId)
        ensures { self.new ≡ record self.old { decided = without_row itself attempt self.old.decided } }
    {
        remove(&mut self.decided, attempt);
    }

    /// What became of an attempt is known from another target: it is neither undecided nor decided
    /// here any more.
    pub fn forget(&mut self, attempt: AttemptId)
        ensures { self.new ≡ forgotten attempt self.old }
    {
        remove(&mut self.undecided, attempt);
        remove(&mut self.decided, attempt);
    }

    /// All decided attempts were settled in the store.
    pub fn all_settled(&mut self)
        ensures { self.new ≡ record self.old { decided = [] } }
    {
        self.decided.clear();
    }

    /// The least of some members, one bit for each target, that is known to be down.
    pub fn down_among(&self, members: u64) -> Option<TargetId>
        ensures { result ≡ first_down members self.now.down }
    {
        first_down(members, self.down)
    }
}
