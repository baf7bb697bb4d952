// Resets: messages that got no answer, since the target stopped or is down.
ghost use Rattle.std.specs.Prelude.{◌≡◌, ◌<◌, IfOk, OnErr, map};
ghost use Rattle.dtx_base.specs.Leading.{down_told, entry_led, mark_reset, prepare_reset, reset_heard, reset_of, status_asked, undecided_of, unwaited_at};
ghost use Rattle.dtx_table.specs.Seats.{came, leader_of};

use crate::decisions::Decisions;
use base_messages::message::{Marks, Message, Posts};
use base_types::entry::Entry;
use base_types::epoch::TargetId;
use base_types::id::AttemptId;
use base_types::items::Memory;
use base_types::outcome::Outcome;
use daos_model::durable::is_same_attempt;
use dtx_base::leading::Undecided;
use dtx_table::bits::with_target;
use dtx_table::led::find_led;
use dtx_table::marks::{attempts_of, name, unanswered};
use dtx_table::posts::{ended, none, one, to_target};
use dtx_table::rows::find;
use dtx_table::seat::Seat;

// No client waits any more for the end of an attempt.
fn unwait_among(rows: &mut [Undecided], attempt: AttemptId)
    ensures { rows.new ≡ map (unwaited_at attempt) rows.old }
{
    for row in rows.iter_mut() {
        if is_same_attempt(row.attempt, attempt) {
            row.client = None;
        }
    }
}

fn unwait(rows: &mut Vec<Undecided>, attempt: AttemptId)
    ensures { rows.new.items ≡ map (unwaited_at attempt) rows.old.items }
{
    unwait_among(rows, attempt)
}

impl Decisions {
    // A member is down: the client that waits for an attempt is told, and the attempt stays undecided.
    fn tell_down(
        &mut self,
        seat: Seat,
        entries: &[Entry],
        target: TargetId,
        attempt: AttemptId,
    ) -> Result<Posts, Memory>
        ensures ok { IfOk result (λ posts. (self.new, posts) ≡ came (down_told target attempt
            (entry_led attempt (leader_of seat entries.now self.old)) (undecided_of attempt (leader_of seat entries.now self.old)) (leader_of seat entries.now self.old))) }
        ensures err { OnErr result (self.new ≡ self.old) }
    {
        let Some(entry) = find_led(entries, seat.me, attempt) else {
            return Ok(none(self.alloc));
        };
        let Some(undecided) = find(&self.undecided, attempt) else {
            return Ok(none(self.alloc));
        };
        let outcome = Outcome::Unknown { target };
        let posts = ended(self.alloc, undecided.client, attempt, entry.epoch, outcome)?;
        unwait(&mut self.undecided, attempt);
        Ok(posts)
    }

    // A member that stopped is asked what it holds, unless an older incarnation asked it to prepare.
    fn ask_status(
        &self,
        seat: Seat,
        entries: &[Entry],
        target: TargetId,
        attempt: AttemptId,
        inc: u64,
    ) -> Result<Posts, Memory>
        ensures { IfOk result (λ posts. (self.now, posts) ≡ came (status_asked target attempt inc (leader_of seat entries.now self.now))) }
    {
        let _kept = entries;
        if inc != seat.incarnation {
            return Ok(none(self.alloc));
        }
        one(
            self.alloc,
            to_target(target, Message::Status { attempt, inc }),
        )
    }

    // A Prepare or a Status got no answer.
    #[tactic(auto, unfolding(dtx_base::specs::Leading::prepare_reset))]
    fn hear_prepare_reset(
        &mut self,
        seat: Seat,
        entries: &[Entry],
        target: TargetId,
        down: bool,
        attempt: AttemptId,
        inc: u64,
    ) -> Result<Posts, Memory>
        ensures ok { IfOk result (λ posts. (self.new, posts) ≡ came (prepare_reset target down attempt inc (leader_of seat entries.now self.old))) }
        ensures err { OnErr result (self.new ≡ self.old) }
    {
        if down {
            return self.tell_down(seat, entries, target, attempt);
        }
        self.ask_status(seat, entries, target, attempt, inc)
    }

    // A Mark got no answer: it is sent again, unless the member is down.
    #[tactic(auto, unfolding(dtx_base::specs::Leading::mark_reset))]
    fn hear_mark_reset(
        &mut self,
        seat: Seat,
        entries: &[Entry],
        target: TargetId,
        down: bool,
        inc: u64,
        marks: &Marks,
    ) -> Result<Posts, Memory>
        ensures ok { IfOk result (λ posts. (self.new, posts) ≡ came (mark_reset target down inc marks.now (leader_of seat entries.now self.old))) }
        ensures err { OnErr result (self.new ≡ self.old) }
    {
        let _seat = seat;
        let _kept = entries;
        let attempts = attempts_of(self.alloc, marks.as_slice())?;
        let mut named = unanswered(self.alloc, &self.named, u16::from(target), inc, &attempts)?;
        if down {
            self.named = named;
            return Ok(none(self.alloc));
        }
        name(&mut named, target, inc, &attempts)?;
        let again = Message::Mark {
            inc,
            marks: marks.copy()?,
        };
        let posts = one(self.alloc, to_target(target, again))?;
        self.named = named;
        Ok(posts)
    }

    // What follows of the message.
    fn hear_reset_of(
        &mut self,
        seat: Seat,
        entries: &[Entry],
        target: TargetId,
        down: bool,
        message: &Message,
    ) -> Result<Posts, Memory>
        ensures ok { IfOk result (λ posts. (self.new, posts) ≡ came (reset_of target down message.now (leader_of seat entries.now self.old))) }
        ensures err { OnErr result (self.new ≡ self.old) }
    {
        match message {
            Message::Prepare { entry, inc, .. } => {
                self.hear_prepare_reset(seat, entries, target, down, entry.attempt, *inc)
            }
            Message::Status { attempt, inc } => {
                self.hear_prepare_reset(seat, entries, target, down, *attempt, *inc)
            }
            Message::Mark { inc, marks } => self.hear_mark_reset(
                seat, entries, target, down, *inc, marks,
            ),
            _ => Ok(none(self.alloc)),
        }
    }

    /// A message to a target got no answer, since the target stopped or, where `down` is set, is
    /// given up; that it is down is remembered, whatever the message. A Prepare or Status of this
    /// incarnation is followed by a Status, and a Mark is sent again. Where the target is down, an
    /// attempt stays undecided, and its client, if it waits, is told. The target is below 64.
    ///
    /// # Errors
    ///
    /// For want of memory; the leader is then as it was.
    pub fn hear_reset(
        &mut self,
        seat: Seat,
        entries: &[Entry],
        target: TargetId,
        down: bool,
        message: &Message,
    ) -> Result<Posts, Memory>
        requires { target < 64 }
        ensures ok { IfOk result (λ posts. (self.new, posts) ≡ came (reset_heard target down message.now (leader_of seat entries.now self.old))) }
        ensures err { OnErr result (self.new ≡ self.old) }
    {
        let posts = self.hear_reset_of(seat, entries, target, down, message)?;
        if down {
            self.down = with_target(self.down, target);
        }
        Ok(posts)
    }
}
