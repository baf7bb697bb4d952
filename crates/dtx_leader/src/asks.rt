// A client asks what became of an attempt.
ghost use Rattle.std.specs.Prelude.{◌≡◌, IfOk, OnErr, map};
ghost use Rattle.dtx_base.specs.Asking.{ask_heard, asked_of, asked_open, tells_end, waits_at};
ghost use Rattle.dtx_base.specs.Leading.{first_down};
ghost use Rattle.dtx_table.specs.Seats.{came, leader_of};

use crate::decisions::Decisions;
use base_messages::actor::ActorId;
use base_messages::message::{Message, Post, Posts};
use base_types::entry::Entry;
use base_types::epoch::Epoch;
use base_types::id::AttemptId;
use base_types::items::Memory;
use base_types::outcome::{Cause, Outcome};
use daos_model::durable::is_same_attempt;
use dtx_base::leading::Undecided;
use dtx_table::led::find_led;
use dtx_table::posts::{none, one};
use dtx_table::rows::is_among;
use dtx_table::seat::Seat;
use std::alloc::Global;

// A client waits from now on for the end of an attempt.
fn wait_among(rows: &mut [Undecided], attempt: AttemptId, client: ActorId)
    ensures { rows.new ≡ map (waits_at attempt client) rows.old }
{
    for row in rows.iter_mut() {
        if is_same_attempt(row.attempt, attempt) {
            row.client = Some(client);
        }
    }
}

fn wait(rows: &mut Vec<Undecided>, attempt: AttemptId, client: ActorId)
    ensures { rows.new.items ≡ map (waits_at attempt client) rows.old.items }
{
    wait_among(rows, attempt, client)
}

// A client is told how an attempt ended.
fn tell_end(
    alloc: Global,
    to: ActorId,
    attempt: AttemptId,
    ep: Option<Epoch>,
    outcome: Outcome,
) -> Result<Posts, Memory>
    ensures { IfOk result (λ posts. posts ≡ tells_end to attempt ep outcome) }
{
    one(
        alloc,
        Post {
            to,
            message: Message::Ended {
                attempt,
                ep,
                outcome,
            },
        },
    )
}

impl Decisions {
    // An attempt isn't decided: the client is told of the least member that is known to be down, or waits.
    fn hear_ask_open(
        &mut self,
        seat: Seat,
        entries: &[Entry],
        attempt: AttemptId,
        from: ActorId,
        entry: &Entry,
    ) -> Result<Posts, Memory>
        ensures ok { IfOk result (λ posts. (self.new, posts) ≡ came (asked_open attempt from entry.now (first_down entry.now.members self.old.down) (leader_of seat entries.now self.old))) }
        ensures err { OnErr result (self.new ≡ self.old) }
    {
        let _seat = seat;
        let _kept = entries;
        match self.down_among(entry.members) {
            None => {
                wait(&mut self.undecided, attempt, from);
                Ok(none(self.alloc))
            }
            Some(target) => tell_end(
                self.alloc,
                from,
                attempt,
                Some(entry.epoch),
                Outcome::Unknown { target },
            ),
        }
    }

    /// A client asks what became of an attempt. It is told so: committed, where that is decided; that it is to restart,
    /// since the attempt isn't resolved, where there is no entry of it; and where it isn't decided, the least member that is
    /// known to be down, if there is one. Else the client waits for the decision.
    ///
    /// # Errors
    ///
    /// For want of memory; the leader is then as it was.
    #[tactic(auto, unfolding(dtx_base::specs::Asking::ask_heard))]
    pub fn hear_ask(
        &mut self,
        seat: Seat,
        entries: &[Entry],
        attempt: AttemptId,
        from: ActorId,
    ) -> Result<Posts, Memory>
        ensures ok { IfOk result (λ posts. (self.new, posts) ≡ came (ask_heard attempt from (leader_of seat entries.now self.old))) }
        ensures err { OnErr result (self.new ≡ self.old) }
    {
        let Some(entry) = find_led(entries, seat.me, attempt) else {
            let cause = Cause::Unresolved { by: attempt };
            return tell_end(self.alloc, from, attempt, None, Outcome::Restart(cause));
        };
        if entry.committed || is_among(&self.decided, attempt) {
            let ep = Some(entry.epoch);
            return tell_end(self.alloc, from, attempt, ep, Outcome::Committed);
        }
        self.hear_ask_open(seat, entries, attempt, from, &entry)
    }
}
