// What target 0 is making with the other targets.
ghost use Rattle.std.specs.Prelude.{◌≡◌, ◌<◌, ◌++◌, ◌∷◌, [], filter, map, true, None, Some, IfOk, OnErr, OnOk};
ghost use Rattle.std.specs.Option.{option_copied};
ghost use Rattle.snap_core.specs.Snaps.{all_others, are_all_others, begun, begun_with, collection_in, first_snaps, held, held_heard, lost, made, reset_heard, step_of, with_collecting};
ghost use Rattle.dtx_base.specs.Members.{with_target};
ghost use Rattle.base_messages.specs.declared.message.Message.{Message};
ghost use Rattle.base_messages.specs.declared.message.Message.TheVariants as message;
ghost use Rattle.world_base.specs.Snapshots.{freeze_to, held_at, is_other_collection, new_collection, prune_to};

use crate::asking::{freeze, freezes, prune, prunes, told};
use crate::others::{all_others, are_all_others};
use base_messages::actor::ActorId;
use base_messages::message::{Message, Posts};
use base_types::epoch::{Epoch, TargetId};
use base_types::id::{AttemptId, ContId};
use base_types::items::Memory;
use base_types::key::Key;
use base_types::outcome::Outcome;
use daos_model::durable::is_same_attempt;
use dtx_table::bits::with_target;
use dtx_table::posts::{none, one, to_target};
use std::alloc::Global;
use std::marker::Model;
use world_base::target::Collection;

/// What target 0 is making with the other targets: snapshots and aggregations, in the order in which they began, each
/// with the client that waits for it and the targets that hold it.
#[derive(Drop)]
pub struct SnapCore {
    alloc: Global,
    me: TargetId,
    targets: u8,
    collecting: Vec<Collection>,
}

impl Model for SnapCore {
    ghost use Rattle.snap_core.specs.Snaps.{SnapOf};

    ghost Value = { SnapOf };

    ghost view = { λ s. record { me = s.me; targets = s.targets; collecting = s.collecting.items } };
}

// The collection of an attempt, if there is one.
fn collection_in(collecting: &[Collection], attempt: AttemptId) -> Option<&Collection>
    ensures { option_copied result ≡ collection_in attempt collecting.now }
{
    collecting
        .iter()
        .find(|collection| is_same_attempt(collection.attempt, attempt))
}

// Takes the collection of an attempt away.
fn remove(collecting: &mut Vec<Collection>, attempt: AttemptId)
    ensures { collecting.new.items ≡ filter (is_other_collection attempt) collecting.old.items }
{
    collecting.retain(|collection| !is_same_attempt(collection.attempt, attempt));
}

// Counts a target among those that hold the collection of an attempt.
fn count(collecting: &mut [Collection], attempt: AttemptId, from: TargetId)
    requires { from < 64 }
    ensures { collecting.new ≡ map (held_at attempt from) collecting.old }
{
    for collection in collecting.iter_mut() {
        if is_same_attempt(collection.attempt, attempt) {
            collection.held = with_target(collection.held, from);
        }
    }
}

impl SnapCore {
    /// Target `me` of so many makes nothing yet.
    ///
    /// # Errors
    ///
    /// None so far: it takes no memory.
    pub fn new(alloc: Global, me: TargetId, targets: u8) -> Result<SnapCore, Memory>
        ensures { IfOk result (λ snaps. snaps ≡ first_snaps me targets) }
    {
        Ok(SnapCore {
            alloc,
            me,
            targets,
            collecting: Vec::new(alloc),
        })
    }

    // All others are asked to freeze a container at an epoch.
    fn ask_to_freeze(&self, attempt: AttemptId, cont: ContId, epoch: Epoch) -> Result<Posts, Memory>
        ensures { IfOk result (λ posts. posts ≡ map (freeze_to attempt cont epoch) (all_others self.now.me self.now.targets)) }
    {
        let others = all_others(self.alloc, self.me, self.targets)?;
        freezes(self.alloc, attempt, cont, epoch, &others)
    }

    // All others are asked to prune a container up to an epoch.
    fn ask_to_prune(&self, attempt: AttemptId, cont: ContId, epoch: Epoch) -> Result<Posts, Memory>
        ensures { IfOk result (λ posts. posts ≡ map (prune_to attempt cont epoch) (all_others self.now.me self.now.targets)) }
    {
        let others = all_others(self.alloc, self.me, self.targets)?;
        prunes(self.alloc, attempt, cont, epoch, &others)
    }

    // One collection more is made.
    fn collect(&mut self, collection: Collection) -> Result<(), Memory>
        ensures ok { OnOk result (self.new ≡ with_collecting (self.old.collecting ++ collection ∷ []) self.old) }
        ensures err { OnErr result (self.new ≡ self.old) }
    {
        self.collecting.push(collection)?;
        Ok(())
    }

    // A client asks for a snapshot, which others are to hold too.
    fn begin_snap(
        &mut self,
        client: ActorId,
        attempt: AttemptId,
        cont: ContId,
        name: &Key,
        epoch: Epoch,
    ) -> Result<Posts, Memory>
        ensures ok { IfOk result (λ posts. step_of self.new posts ≡ begun_with (new_collection attempt client cont epoch (Some name.now)) (freeze_to attempt cont epoch) self.old) }
        ensures err { OnErr result (self.new ≡ self.old) }
    {
        let posts = self.ask_to_freeze(attempt, cont, epoch)?;
        let name = Some(name.copy()?);
        self.collect(Collection {
            attempt,
            client,
            cont,
            epoch,
            name,
            held: 0,
        })?;
        Ok(posts)
    }

    // A client asks for an aggregation, which others are to make too.
    fn begin_prune(
        &mut self,
        client: ActorId,
        attempt: AttemptId,
        cont: ContId,
        epoch: Epoch,
    ) -> Result<Posts, Memory>
        ensures ok { IfOk result (λ posts. step_of self.new posts ≡ begun_with (new_collection attempt client cont epoch None) (prune_to attempt cont epoch) self.old) }
        ensures err { OnErr result (self.new ≡ self.old) }
    {
        let posts = self.ask_to_prune(attempt, cont, epoch)?;
        self.collect(Collection {
            attempt,
            client,
            cont,
            epoch,
            name: None,
            held: 0,
        })?;
        Ok(posts)
    }

    /// A client asks for a snapshot by a Snap, or for an aggregation by a Prune, whose epoch was issued and which this
    /// target has frozen or pruned: the others are asked to do so too. Where there is no other one, the client is told
    /// that it is committed. Of any other message nothing follows.
    ///
    /// # Errors
    ///
    /// For want of memory; what is being made is then as it was.
    #[tactic(auto, unfolding(crate::specs::Snaps::begun))]
    pub fn begin(
        &mut self,
        client: ActorId,
        message: &Message,
        epoch: Epoch,
    ) -> Result<Posts, Memory>
        ensures ok { IfOk result (λ posts. step_of self.new posts ≡ begun client message.now epoch self.old) }
        ensures err { OnErr result (self.new ≡ self.old) }
    {
        match message {
            Message::Snap {
                attempt,
                cont,
                name,
                ..
            } => {
                if are_all_others(self.me, self.targets, 0) {
                    return told(self.alloc, client, *attempt, epoch, Outcome::Committed);
                }
                self.begin_snap(client, *attempt, *cont, name, epoch)
            }
            Message::Prune { attempt, cont, .. } => {
                if are_all_others(self.me, self.targets, 0) {
                    return told(self.alloc, client, *attempt, epoch, Outcome::Committed);
                }
                self.begin_prune(client, *attempt, *cont, epoch)
            }
            _ => Ok(none(self.alloc)),
        }
    }

    // Whether the target from which an answer comes is the last one to hold a collection.
    fn is_last(&self, from: TargetId, held: u64) -> bool
        requires { from < 64 }
        ensures { result ≡ are_all_others self.now.me self.now.targets (with_target held from) }
    {
        are_all_others(self.me, self.targets, with_target(held, from))
    }

    // Another target holds what it was asked to.
    fn hear_well(&mut self, from: TargetId, attempt: AttemptId) -> Result<Posts, Memory>
        requires { from < 64 }
        ensures ok { IfOk result (λ posts. step_of self.new posts ≡ held from attempt None (collection_in attempt self.old.collecting) self.old) }
        ensures err { OnErr result (self.new ≡ self.old) }
    {
        let Some(collection) = collection_in(&self.collecting, attempt) else {
            return Ok(none(self.alloc));
        };
        let (client, epoch, held) = (collection.client, collection.epoch, collection.held);
        if !self.is_last(from, held) {
            count(&mut self.collecting, attempt, from);
            return Ok(none(self.alloc));
        }
        let posts = told(self.alloc, client, attempt, epoch, Outcome::Committed)?;
        remove(&mut self.collecting, attempt);
        Ok(posts)
    }

    // Another target refuses what it was asked to.
    fn hear_refusal(
        &mut self,
        from: TargetId,
        attempt: AttemptId,
        refusal: &Outcome,
    ) -> Result<Posts, Memory>
        ensures ok { IfOk result (λ posts. step_of self.new posts ≡ held from attempt (Some refusal.now) (collection_in attempt self.old.collecting) self.old) }
        ensures err { OnErr result (self.new ≡ self.old) }
    {
        let _from = from;
        let Some(collection) = collection_in(&self.collecting, attempt) else {
            return Ok(none(self.alloc));
        };
        let (client, epoch) = (collection.client, collection.epoch);
        let posts = told(self.alloc, client, attempt, epoch, refusal.copy()?)?;
        remove(&mut self.collecting, attempt);
        Ok(posts)
    }

    /// Another target answers by a Held: it holds what it was asked to, and the last one that does ends the attempt; or
    /// it refuses, which ends it. Of any other message nothing follows, nor of an answer for what isn't being made.
    ///
    /// # Errors
    ///
    /// For want of memory; what is being made is then as it was.
    #[tactic(auto, unfolding(crate::specs::Snaps::held_heard))]
    pub fn hear_held(&mut self, from: TargetId, message: &Message) -> Result<Posts, Memory>
        requires { from < 64 }
        ensures ok { IfOk result (λ posts. step_of self.new posts ≡ held_heard from message.now self.old) }
        ensures err { OnErr result (self.new ≡ self.old) }
    {
        match message {
            Message::Held {
                attempt,
                refusal: None,
            } => self.hear_well(from, *attempt),
            Message::Held {
                attempt,
                refusal: Some(refusal),
            } => self.hear_refusal(from, *attempt, refusal),
            _ => Ok(none(self.alloc)),
        }
    }

    /// The collection that such an answer makes whole, if it does: then all other targets hold it.
    #[tactic(auto, unfolding(crate::specs::Snaps::made))]
    pub fn made_by(&self, from: TargetId, message: &Message) -> Option<&Collection>
        requires { from < 64 }
        ensures { option_copied result ≡ made from message.now self.now }
    {
        let Message::Held {
            attempt,
            refusal: None,
        } = message
        else {
            return None;
        };
        let collection = collection_in(&self.collecting, *attempt)?;
        if self.is_last(from, collection.held) {
            Some(collection)
        } else {
            None
        }
    }

    // A target that is down got a message of an attempt.
    fn give_up(&mut self, target: TargetId, attempt: AttemptId) -> Result<Posts, Memory>
        ensures ok { IfOk result (λ posts. (asked : Message) → step_of self.new posts ≡ lost target true asked attempt (collection_in attempt self.old.collecting) self.old) }
        ensures err { OnErr result (self.new ≡ self.old) }
    {
        let Some(collection) = collection_in(&self.collecting, attempt) else {
            return Ok(none(self.alloc));
        };
        let (client, epoch) = (collection.client, collection.epoch);
        let outcome = Outcome::Unknown { target };
        let posts = told(self.alloc, client, attempt, epoch, outcome)?;
        remove(&mut self.collecting, attempt);
        Ok(posts)
    }

    // What was asked of a target for an attempt got no answer.
    fn lose(
        &mut self,
        target: TargetId,
        down: bool,
        attempt: AttemptId,
        asked: Message,
    ) -> Result<Posts, Memory>
        ensures ok { IfOk result (λ posts. step_of self.new posts ≡ lost target down asked attempt (collection_in attempt self.old.collecting) self.old) }
        ensures err { OnErr result (self.new ≡ self.old) }
    {
        if down {
            return self.give_up(target, attempt);
        }
        one(self.alloc, to_target(target, asked))
    }

    /// A Freeze or a Prune to another target got no answer, since it stopped: it is asked again; or it is down, and the
    /// client is told that what became of its attempt is unknown. Of any other message nothing follows.
    ///
    /// # Errors
    ///
    /// For want of memory; what is being made is then as it was.
    #[tactic(auto, unfolding(crate::specs::Snaps::reset_heard))]
    pub fn hear_reset(
        &mut self,
        target: TargetId,
        down: bool,
        message: &Message,
    ) -> Result<Posts, Memory>
        ensures ok { IfOk result (λ posts. step_of self.new posts ≡ reset_heard target down message.now self.old) }
        ensures err { OnErr result (self.new ≡ self.old) }
    {
        match message {
            Message::Freeze {
                attempt,
                cont,
                epoch,
            } => self.lose(target, down, *attempt, freeze(*attempt, *cont, *epoch)),
            Message::Prune {
                attempt,
                cont,
                tracker,
                epoch,
            } => {
                let asked = prune(*attempt, *cont, *tracker, *epoch);
                self.lose(target, down, *attempt, asked)
            }
            _ => Ok(none(self.alloc)),
        }
    }
}
