// What members answer.
ghost use Rattle.std.specs.Prelude.{◌≡◌, ◌<◌, IfOk, OnErr, OnOk, map};
ghost use Rattle.dtx_base.specs.Leading.{ack_heard, answered, counted_at, ok_heard, refusal_heard};
ghost use Rattle.dtx_table.specs.Seats.{came, leader_of};

use crate::decisions::Decisions;
use base_messages::message::Posts;
use base_types::entry::Entry;
use base_types::epoch::TargetId;
use base_types::id::AttemptId;
use base_types::items::Memory;
use base_types::outcome::Outcome;
use daos_model::durable::is_same_attempt;
use dtx_base::leading::Undecided;
use dtx_table::bits::{are_all_counted, is_other_number, other_members, with_target};
use dtx_table::led::find_led;
use dtx_table::marks::{names_to, unanswered};
use dtx_table::posts::{ended, none, push_aborts};
use dtx_table::rows::{find, put, remove};
use dtx_table::seat::Seat;

// One more member of an attempt counts as Ok.
fn count_among(rows: &mut [Undecided], attempt: AttemptId, member: TargetId)
    requires { member < 64 }
    ensures { rows.new ≡ map (counted_at attempt member) rows.old }
{
    for row in rows.iter_mut() {
        if is_same_attempt(row.attempt, attempt) {
            row.counted = with_target(row.counted, member);
        }
    }
}

fn count(rows: &mut Vec<Undecided>, attempt: AttemptId, member: TargetId)
    requires { member < 64 }
    ensures { rows.new.items ≡ map (counted_at attempt member) rows.old.items }
{
    count_among(rows, attempt, member)
}

impl Decisions {
    // A member answers Ok, and is counted; the last one decides.
    pub(crate) fn hear_ok(
        &mut self,
        seat: Seat,
        entries: &[Entry],
        from: TargetId,
        attempt: AttemptId,
        entry: &Entry,
        undecided: &Undecided,
    ) -> Result<Posts, Memory>
        requires { from < 64 }
        ensures ok { IfOk result (λ posts. (self.new, posts) ≡ came (ok_heard from attempt entry.now undecided.now (leader_of seat entries.now self.old))) }
        ensures err { OnErr result (self.new ≡ self.old) }
    {
        let _seat = seat;
        let _kept = entries;
        if !are_all_counted(entry, with_target(undecided.counted, from)) {
            count(&mut self.undecided, attempt, from);
            return Ok(none(self.alloc));
        }
        let posts = ended(
            self.alloc,
            undecided.client,
            attempt,
            entry.epoch,
            Outcome::Committed,
        )?;
        self.decided.reserve(1)?;
        remove(&mut self.undecided, attempt);
        put(&mut self.decided, attempt);
        Ok(posts)
    }

    // A member refuses: the attempt is aborted.
    pub(crate) fn hear_refusal(
        &mut self,
        seat: Seat,
        entries: &[Entry],
        attempt: AttemptId,
        refusal: &Outcome,
        entry: &Entry,
        undecided: &Undecided,
    ) -> Result<Posts, Memory>
        ensures ok { IfOk result (λ posts. (self.new, posts) ≡ came (refusal_heard attempt refusal.now entry.now undecided.now (leader_of seat entries.now self.old))) }
        ensures err { OnErr result (self.new ≡ self.old) }
    {
        let _kept = entries;
        let others = other_members(self.alloc, entry)?;
        let mut posts = ended(
            self.alloc,
            undecided.client,
            attempt,
            entry.epoch,
            refusal.copy()?,
        )?;
        push_aborts(self.alloc, &mut posts, seat.incarnation, attempt, &others)?;
        let named = names_to(self.alloc, &others, seat.incarnation, attempt)?;
        self.named.extend_from_slice(&named)?;
        remove(&mut self.undecided, attempt);
        Ok(posts)
    }

    /// The actor of this number answers a Prepare: the Ack counts it as a member, or the attempt is
    /// aborted. One of another incarnation changes nothing; nor does one of an attempt that isn't
    /// undecided here, or of a number that isn't that of another member of it.
    ///
    /// # Errors
    ///
    /// For want of memory; the leader is then as it was.
    #[tactic(auto, unfolding(dtx_base::specs::Leading::ack_heard))]
    pub fn hear_ack(
        &mut self,
        seat: Seat,
        entries: &[Entry],
        from: u16,
        attempt: AttemptId,
        inc: u64,
        refusal: &Option<Outcome>,
    ) -> Result<Posts, Memory>
        ensures ok { IfOk result (λ posts. (self.new, posts) ≡ came (ack_heard from attempt inc refusal.now (leader_of seat entries.now self.old))) }
        ensures err { OnErr result (self.new ≡ self.old) }
    {
        if inc != seat.incarnation {
            return Ok(none(self.alloc));
        }
        let Some(entry) = find_led(entries, seat.me, attempt) else {
            return Ok(none(self.alloc));
        };
        let Some(undecided) = find(&self.undecided, attempt) else {
            return Ok(none(self.alloc));
        };
        if !is_other_number(&entry, from) {
            return Ok(none(self.alloc));
        }
        match refusal {
            None => {
                let member = from as TargetId;
                self.hear_ok(seat, entries, member, attempt, &entry, &undecided)
            }
            Some(outcome) => self.hear_refusal(seat, entries, attempt, outcome, &entry, &undecided),
        }
    }

    /// The actor of this number answers a Mark, which is then no more without an answer.
    ///
    /// # Errors
    ///
    /// For want of memory; the leader is then as it was.
    pub fn hear_marked(&mut self, from: u16, inc: u64, attempts: &[AttemptId]) -> Result<(), Memory>
        ensures ok { OnOk result (self.new ≡ record self.old { named = answered from inc attempts.now self.old.named }) }
        ensures err { OnErr result (self.new ≡ self.old) }
    {
        self.named = unanswered(self.alloc, &self.named, from, inc, attempts)?;
        Ok(())
    }
}
