// A leader hears what members answer, and what messages to them got no answer.
ghost use Rattle.std.specs.Prelude.{◌≡◌, ◌<◌, IfOk, OnErr};
ghost use Rattle.dtx_base.specs.Leading.{ack_heard, answer_heard, answer_of_member, marked_heard, reset_heard, step_of};

use crate::confirms::confirm_all;
use crate::leader::Leader;
use base_messages::message::{Message, Posts};
use base_types::entry::{Entry, Settle};
use base_types::epoch::TargetId;
use base_types::id::AttemptId;
use base_types::items::Memory;
use base_types::outcome::Outcome;
use dtx_base::leading::Undecided;
use dtx_table::bits::is_other_member;
use dtx_table::posts::none;

impl Leader {
    // Another member of an undecided attempt answers: it is counted, or the attempt is aborted and its
    // entry goes.
    #[tactic(auto, unfolding(dtx_table::specs::Tables::entries_settled))]
    fn hear_answer(
        &mut self,
        from: TargetId,
        attempt: AttemptId,
        refusal: &Option<Outcome>,
        entry: &Entry,
        undecided: &Undecided,
    ) -> Result<Posts, Memory>
        requires { from < 64 }
        ensures ok { IfOk result (λ posts. step_of self.new posts ≡ answer_heard from attempt refusal.now entry.now undecided.now self.old) }
        ensures err { OnErr result (self.new ≡ self.old) }
    {
        let entries = self.table.entries();
        match refusal {
            None => self
                .decisions
                .hear_ok(self.seat, entries, from, attempt, entry, undecided),
            Some(outcome) => {
                let posts = self
                    .decisions
                    .hear_refusal(self.seat, entries, attempt, outcome, entry, undecided)?;
                self.table.settle(attempt, Settle::Abort);
                Ok(posts)
            }
        }
    }

    // A member answers a Prepare or a Status.
    #[tactic(auto, unfolding(dtx_base::specs::Leading::ack_heard))]
    fn hear_ack_of(
        &mut self,
        from: TargetId,
        attempt: AttemptId,
        inc: u64,
        refusal: &Option<Outcome>,
    ) -> Result<Posts, Memory>
        ensures ok { IfOk result (λ posts. step_of self.new posts ≡ ack_heard from attempt inc refusal.now self.old) }
        ensures err { OnErr result (self.new ≡ self.old) }
    {
        if inc != self.seat.incarnation {
            return Ok(none(self.alloc));
        }
        let Some(entry) = self.table.state(attempt) else {
            return Ok(none(self.alloc));
        };
        let Some(undecided) = self.decisions.undecided(attempt) else {
            return Ok(none(self.alloc));
        };
        if !is_other_member(&entry, from) {
            return Ok(none(self.alloc));
        }
        self.hear_answer(from, attempt, refusal, &entry, &undecided)
    }

    // A member answers a Mark.
    #[tactic(auto, unfolding(dtx_base::specs::Leading::marked_heard))]
    fn hear_marked_of(
        &mut self,
        from: TargetId,
        inc: u64,
        attempts: &[AttemptId],
    ) -> Result<Posts, Memory>
        ensures ok { IfOk result (λ posts. step_of self.new posts ≡ marked_heard from inc attempts.now self.old) }
        ensures err { OnErr result (self.new ≡ self.old) }
    {
        self.decisions.hear_marked(u16::from(from), inc, attempts)?;
        if inc == self.seat.incarnation {
            confirm_all(&mut self.table, from, attempts);
        }
        Ok(none(self.alloc))
    }

    /// A member answers: an Ack counts it, or the attempt is aborted; a Marked confirms the commits that
    /// it names of which the member has an entry. One of another incarnation, and one of an attempt that
    /// isn't undecided here or of no other member of it, changes nothing. Of any other message nothing
    /// follows.
    ///
    /// # Errors
    ///
    /// For want of memory; the leader is then as it was.
    pub fn hear_ack(&mut self, from: TargetId, message: &Message) -> Result<Posts, Memory>
        ensures ok { IfOk result (λ posts. step_of self.new posts ≡ answer_of_member from message.now self.old) }
        ensures err { OnErr result (self.new ≡ self.old) }
    {
        match message {
            Message::Ack {
                attempt,
                inc,
                refusal,
            } => self.hear_ack_of(from, *attempt, *inc, refusal),
            Message::Marked { inc, attempts } => {
                self.hear_marked_of(from, *inc, attempts.as_slice())
            }
            _ => Ok(none(self.alloc)),
        }
    }

    /// A message to a target got no answer, since the target stopped or, where `down` is set, is
    /// given up; that it is down is remembered, whatever the message. A Prepare or Status of this
    /// incarnation is followed by a Status, and a Mark is sent again. Where the target is down, an
    /// attempt stays undecided, and its client, if it waits, is told. The target is below 64.
    ///
    /// # Errors
    ///
    /// For want of memory; the leader is then as it was.
    pub fn hear_reset(
        &mut self,
        target: TargetId,
        down: bool,
        message: &Message,
    ) -> Result<Posts, Memory>
        requires { target < 64 }
        ensures ok { IfOk result (λ posts. step_of self.new posts ≡ reset_heard target down message.now self.old) }
        ensures err { OnErr result (self.new ≡ self.old) }
    {
        self.decisions
            .hear_reset(self.seat, self.table.entries(), target, down, message)
    }
}
