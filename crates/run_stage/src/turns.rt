// The turns of clients and of targets.
ghost use Rattle.std.specs.Prelude.{◌≡◌, ◌<◌, ◌≤◌, Bool, max, length, slice_get, IfOk, OnErr, OnOk, Some};
ghost use Rattle.run_base.specs.Picks.{count_to, heard_awake};
ghost use Rattle.run_laws.specs.shows.Accounts.{AreServed};
ghost use Rattle.run_laws.specs.shows.CanGo.{CanTurn};
ghost use Rattle.run_laws.specs.shows.Steps.{ClientTurned, ClientWorks, TargetBroke, TargetTurned};
ghost use Rattle.run_stage.specs.Now.{stage_now};
ghost use Rattle.run_laws.specs.target_core.Targets.{TargetOf};
ghost use Rattle.world_base.specs.declared.target.Life.{Life};
ghost use Rattle.world_base.specs.Letters.{client, target};

use crate::stage::Stage;
use base_messages::actor::ActorId;
use base_outside::clock::Clock;
use base_types::items::Memory;
use run_base::between::Between;
use run_laws::below::client::client::Client;
use vos_store::store::{Fuse, Store};
use world_base::did::Did;
use world_base::target::Life;

/// The name of a client.
pub fn client_id(n: usize) -> ActorId
    requires { n < 65536 }
    ensures { result ≡ client n }
{
    ActorId {
        client: true,
        number: n as u16,
    }
}

/// The name of a target.
pub fn target_id(t: usize) -> ActorId
    requires { t < 65536 }
    ensures { result ≡ target t }
{
    ActorId {
        client: false,
        number: t as u16,
    }
}

// Of how many messages a client hears one in its next turn; of none where it skips that turn.
pub(crate) fn heard_by(one: &Client, between: &Between, n: usize) -> usize
    requires few { n < 65536 }
    ensures { result ≡ heard_awake one.now.state (count_to (client n) between.now.messages) }
{
    if one.skips() {
        0
    } else {
        between.count_to(client_id(n))
    }
}

// A turn of a client: it counts a skip, hears the message of this number among those to it, or goes on.
fn hear_or_go(
    one: &mut Client,
    between: &mut Between,
    n: usize,
    number: usize,
) -> Result<Did, Memory>
    requires few { n < 65536 }
    requires number { number < max 1 (count_to (client n) between.old.messages) }
    ensures plan { one.new.plan ≡ one.old.plan }
    ensures works { IfOk result (ClientWorks n number one.old one.new between.old between.new) }
{
    if heard_by(one, between, n) == 0 {
        return one.next();
    }
    one.hear(between.take(client_id(n), number).message)
}

impl<S: Store, C: Clock> Stage<S, C> {
    /// A turn of a client: it counts a skip, hears the message of this number among those to it, or
    /// goes on; and what follows comes about.
    ///
    /// # Errors
    ///
    /// For want of memory.
    pub fn client_turn(&mut self, n: usize, number: usize) -> Result<(), Memory>
        requires within { n < length self.old.clients.items }
        requires few { n < 65536 }
        requires few_targets { length self.old.watch.lives ≤ 256 }
        requires number { number < max 1 (count_to (client n) self.old.between.messages) }
        ensures turned { OnOk result (ClientTurned n number (stage_now self.old) (stage_now self.new)) }
        ensures targets { self.new.targets ≡ self.old.targets }
    {
        let did = hear_or_go(&mut self.clients[n], &mut self.between, n, number)?;
        self.follow(client_id(n), did)
    }
}

impl<S: Fuse, C: Clock> Stage<S, C> {
    /// A turn of a target. One that runs hears the message of this number among those to it, or does its
    /// idle work; where its store stops in that, it is stopped, and given up where the outside failed it for the
    /// ninth time. One that is stopped opens again, and its next fuse is set.
    ///
    /// # Errors
    ///
    /// For want of memory: then the target keeps what it kept, what its turn left of it, or what a stop in its
    /// turn leaves.
    pub fn target_turn(&mut self, t: usize, number: usize, settling: bool) -> Result<(), Memory>
        requires within { t < length self.old.targets.items }
        requires standing { length self.old.watch.lives ≡ length self.old.targets.items }
        requires few { length self.old.targets.items ≤ 256 }
        requires number { number < max 1 (count_to (target t) self.old.between.messages) }
        requires up { slice_get self.old.watch.lives t ≡ Some Life.Down → ⊥ }
        requires able { (x : TargetOf S C) → slice_get self.old.targets.items t ≡ Some x → CanTurn S.durable S.state S.may (stage_now self.old) t number x }
        ensures turned { OnOk result (TargetTurned S.durable S.state S.may C.is_read C.next settling t number (stage_now self.old) (stage_now self.new)) }
        ensures broke { OnErr result (TargetBroke S.durable S.state S.may C.is_read C.next settling t number (stage_now self.old) self.new.targets.items) }
        ensures served { AreServed S.durable S.state C.is_read self.old.targets.items self.new.targets.items }
    {
        match self.watch.life(t) {
            Life::Running => self.work(t, number, settling),
            Life::Stopped => self.reopen(t),
            Life::Down => Ok(()),
        }
    }
}
