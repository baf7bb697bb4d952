// A member: a target that holds the entry of an attempt which another target leads.
ghost use Rattle.std.specs.Prelude.{◌≡◌, [], ◌∷◌, true, IfOk, OnErr, OnOk, is_some};
ghost use Rattle.dtx_base.specs.Joining.{asker, first_member, inquired, is_inquiry_due, member_step, ok_told, parking, query_for, query_reset, reset_heard, resolved, undecided_heard, unresolved, verdict_heard};
ghost use Rattle.dtx_base.specs.Leading.{to_target};

use crate::inquiries::{is_due, put_all, queries, reset, set, to_inquire, to_target};
use crate::parked::{asker, drop_waiting, free, unresolved_told};
use base_messages::message::{Message, Posts};
use base_types::entry::{Entry, Verdict};
use base_types::epoch::TargetId;
use base_types::id::AttemptId;
use base_types::items::{Items, Memory};
use dtx_base::member::{Freed, Inquiry, MemberMemory, Parked, QueryState};
use dtx_table::rows::remove;
use std::alloc::Global;
use std::marker::Model;

/// A member: the Fetches that wait until it knows what became of an attempt, and the Queries that
/// its idle work sent.
#[derive(Drop)]
pub struct Member {
    alloc: Global,
    me: TargetId,
    parked: Vec<Parked>,
    inquiries: Vec<Inquiry>,
}

impl Model for Member {
    ghost use Rattle.base_messages.specs.contracts.message.Message as message;
    ghost use Rattle.dtx_base.specs.Joining.{MemberOf};
    ghost use Rattle.std.specs.Coded.{codes};

    ghost Value = { MemberOf };

    ghost coded = { Prim.hlevel (codes, message.the_row.coded) };

    ghost view = { λ m. record { me = m.me; memory = record { parked = m.parked.items; inquiries = m.inquiries.items } } };
}

// Nothing is tried again.
fn posts_alone(alloc: Global, posts: Posts) -> Freed
    ensures { result ≡ record { posts = posts; again = [] } }
{
    Freed {
        posts,
        again: Items::new(alloc),
    }
}

// One message.
fn one(alloc: Global, target: TargetId, message: Message) -> Result<Posts, Memory>
    ensures { IfOk result (λ posts. posts ≡ to_target target message ∷ []) }
{
    let mut posts = Items::new(alloc);
    posts.push(to_target(target, message))?;
    Ok(posts)
}

impl Member {
    /// A member that has just opened, with this number among so many targets.
    ///
    /// # Errors
    ///
    /// None so far: it takes no memory.
    pub fn new(alloc: Global, me: TargetId, _targets: u8) -> Result<Member, Memory>
        ensures { IfOk result (λ member. member ≡ first_member me) }
    {
        Ok(Member {
            alloc,
            me,
            parked: Vec::new(alloc),
            inquiries: Vec::new(alloc),
        })
    }

    /// A member with this number that remembers this.
    pub fn remembering(alloc: Global, me: TargetId, memory: MemberMemory) -> Member
        ensures { result ≡ record { me = me; memory = memory } }
    {
        let MemberMemory { parked, inquiries } = memory;
        Member {
            alloc,
            me,
            parked: parked.into_vec(),
            inquiries: inquiries.into_vec(),
        }
    }

    /// What it remembers.
    pub fn into_memory(self) -> MemberMemory
        ensures { result ≡ self.memory }
    {
        let Member {
            alloc: _alloc,
            me: _me,
            parked,
            inquiries,
        } = self;
        MemberMemory {
            parked: Items::from_vec(parked),
            inquiries: Items::from_vec(inquiries),
        }
    }

    /// The writes of a Prepare are stored with its entry: its leader is told Ok. Any other message
    /// is followed by nothing.
    ///
    /// # Errors
    ///
    /// For want of memory; the member is then as it was.
    pub fn prepared(&mut self, message: &Message) -> Result<Posts, Memory>
        ensures posts { IfOk result (λ posts. posts ≡ ok_told message.now) }
        ensures stays { self.new ≡ self.old }
    {
        let Message::Prepare { entry, inc, .. } = message else {
            return Ok(Items::new(self.alloc));
        };
        let ack = Message::Ack {
            attempt: entry.attempt,
            inc: *inc,
            refusal: None,
        };
        one(self.alloc, entry.leader, ack)
    }

    /// A Fetch, with the epoch that it was issued, met an unsettled write of an attempt that another
    /// target leads: it waits behind all that wait already, and the leader is asked.
    ///
    /// # Errors
    ///
    /// For want of memory; the member is then as it was.
    pub fn park(&mut self, ask: Message, on: AttemptId, leader: TargetId) -> Result<Posts, Memory>
        requires fetch { is_some (asker ask) ≡ true }
        ensures posts { IfOk result (λ posts. posts ≡ query_for ask on leader) }
        ensures ok { OnOk result (self.new ≡ parking ask on leader self.old) }
        ensures err { OnErr result (self.new ≡ self.old) }
    {
        let query = Message::Query {
            attempt: on,
            ask: asker(&ask),
        };
        let posts = one(self.alloc, leader, query)?;
        self.parked.push(Parked { on, leader, ask })?;
        Ok(posts)
    }

    // What became of an attempt is known.
    fn hear_resolved(&mut self, attempt: AttemptId) -> Result<Freed, Memory>
        ensures ok { IfOk result (λ freed. member_step self.new freed ≡ resolved attempt self.old) }
        ensures err { OnErr result (self.new ≡ self.old) }
    {
        let again = free(self.alloc, &mut self.parked, attempt)?;
        remove(&mut self.inquiries, attempt);
        Ok(Freed {
            posts: Items::new(self.alloc),
            again,
        })
    }

    // An attempt isn't decided, and a Fetch of another one asked.
    #[tactic(auto, unfolding(dtx_base::specs::Joining::unresolved))]
    fn hear_unresolved(&mut self, on: AttemptId, attempt: AttemptId) -> Result<Freed, Memory>
        ensures ok { IfOk result (λ freed. member_step self.new freed ≡ unresolved on attempt self.old) }
        ensures err { OnErr result (self.new ≡ self.old) }
    {
        let posts = unresolved_told(self.alloc, &self.parked, on, attempt)?;
        drop_waiting(&mut self.parked, on, attempt);
        Ok(posts_alone(self.alloc, posts))
    }

    // An attempt isn't decided.
    fn hear_undecided(
        &mut self,
        attempt: AttemptId,
        ask: Option<AttemptId>,
    ) -> Result<Freed, Memory>
        ensures ok { IfOk result (λ freed. member_step self.new freed ≡ undecided_heard attempt ask self.old) }
        ensures err { OnErr result (self.new ≡ self.old) }
    {
        let Some(asker) = ask else {
            set(&mut self.inquiries, attempt, QueryState::Undecided);
            return Ok(posts_alone(self.alloc, Items::new(self.alloc)));
        };
        self.hear_unresolved(attempt, asker)
    }

    /// A leader answers what became of an attempt. Where it is committed or aborted, all Fetches
    /// that wait for it are handed back, to be tried again in the order in which they were parked.
    /// Where it is undecided, the Fetch that asked is answered, if it still waits, and the others
    /// wait on.
    ///
    /// # Errors
    ///
    /// For want of memory; the member is then as it was.
    pub fn hear_verdict(
        &mut self,
        attempt: AttemptId,
        ask: Option<AttemptId>,
        verdict: Verdict,
    ) -> Result<Freed, Memory>
        ensures ok { IfOk result (λ freed. member_step self.new freed ≡ verdict_heard attempt ask verdict self.old) }
        ensures err { OnErr result (self.new ≡ self.old) }
    {
        match verdict {
            Verdict::Committed | Verdict::Aborted => self.hear_resolved(attempt),
            Verdict::Undecided => self.hear_undecided(attempt, ask),
        }
    }

    // A Query got no answer.
    fn hear_query_reset(
        &mut self,
        down: bool,
        attempt: AttemptId,
        ask: Option<AttemptId>,
    ) -> Result<Freed, Memory>
        ensures ok { IfOk result (λ freed. member_step self.new freed ≡ query_reset down attempt ask self.old) }
        ensures err { OnErr result (self.new ≡ self.old) }
    {
        let Some(asker) = ask else {
            reset(&mut self.inquiries, attempt, down);
            return Ok(posts_alone(self.alloc, Items::new(self.alloc)));
        };
        self.hear_unresolved(attempt, asker)
    }

    /// A message to a leader got no answer, since that target stopped or, where `down` is set, is
    /// given up. The Fetch for which a Query was sent is answered as by a Verdict that the attempt is
    /// undecided; a Query of idle work may be sent again, unless the leader is down. Any other
    /// message is followed by nothing.
    ///
    /// # Errors
    ///
    /// For want of memory; the member is then as it was.
    pub fn hear_reset(&mut self, down: bool, message: &Message) -> Result<Freed, Memory>
        ensures ok { IfOk result (λ freed. member_step self.new freed ≡ reset_heard down message.now self.old) }
        ensures err { OnErr result (self.new ≡ self.old) }
    {
        match message {
            Message::Query { attempt, ask } => self.hear_query_reset(down, *attempt, *ask),
            _ => Ok(posts_alone(self.alloc, Items::new(self.alloc))),
        }
    }

    /// Whether there is a leader to ask of these entries.
    pub fn has_inquiry(&self, entries: &[Entry]) -> bool
        ensures { result ≡ is_inquiry_due entries.now self.now }
    {
        is_due(entries, self.me, &self.inquiries)
    }

    /// Asks, once each, the leaders of those of these entries that are prepared and that other
    /// targets lead, what became of them.
    ///
    /// # Errors
    ///
    /// For want of memory; the member is then as it was.
    #[tactic(auto, unfolding(dtx_base::specs::Joining::inquired, dtx_base::specs::Joining::to_inquire))]
    pub fn inquire(&mut self, entries: &[Entry]) -> Result<Posts, Memory>
        ensures ok { IfOk result (λ posts. member_step self.new (record { posts = posts; again = [] }) ≡ inquired entries.now self.old) }
        ensures err { OnErr result (self.new ≡ self.old) }
    {
        let asked = to_inquire(self.alloc, entries, self.me, &self.inquiries)?;
        let posts = queries(self.alloc, &asked)?;
        self.inquiries.reserve(asked.len())?;
        put_all(&mut self.inquiries, &asked);
        Ok(posts)
    }
}
