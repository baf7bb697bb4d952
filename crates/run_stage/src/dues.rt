// Which actors have something to do, and of how many messages they hear one.
ghost use Rattle.std.specs.Prelude.{◌≡◌, ◌<◌, ◌≤◌, ◌||◌, ℕ, false, length, nat_lt, slice_get, true, IfOk, Some};
ghost use Rattle.run_laws.specs.client_core.Clients.{ClientNow};
ghost use Rattle.daos_model.specs.declared.durable.Durable.{Durable};
ghost use Rattle.run_base.specs.Picks.{count_to, heard_awake, is_due};
ghost use Rattle.run_laws.specs.shows.Due.{AllAreDue, is_due_client};
ghost use Rattle.run_laws.specs.shows.Shows.{Shows};
ghost use Rattle.run_stage.specs.Now.{stage_now};
ghost use Rattle.run_laws.specs.turns.Turns.{heard_where};
ghost use Rattle.run_laws.specs.target_core.Targets.{TargetOf};
ghost use Rattle.world_base.specs.declared.target.Life.{Life};
ghost use Rattle.world_base.specs.declared.world.World.{World};
ghost use Rattle.world_base.specs.Events.{Rules};
ghost use Rattle.world_base.specs.Idle.{has_idle};
ghost use Rattle.world_base.specs.Letters.{client, target};

use crate::stage::Stage;
use crate::turns::{client_id, heard_by, target_id};
use base_messages::actor::ActorId;
use base_outside::clock::Clock;
use base_types::items::Memory;
use std::alloc::Global;
use vos_store::store::Store;
use world_base::target::Life;

impl<S: Store, C: Clock> Stage<S, C> {
    /// Of how many messages a client hears one in its next turn; of none where it skips that turn.
    pub fn heard_by_client(&self, n: usize) -> usize
        requires within { n < length self.now.clients.items }
        requires few { n < 65536 }
        ensures { (c : ClientNow) → slice_get self.now.clients.items n ≡ Some c → result ≡ heard_awake c.state (count_to (client n) self.now.between.messages) }
    {
        heard_by(&self.clients[n], &self.between, n)
    }

    /// Of how many messages a target hears one in its next turn; of none where it doesn't run.
    pub fn heard_by_target(&self, t: usize) -> usize
        requires within { t < length self.now.watch.lives }
        requires few { t < 65536 }
        ensures { (life : Life) → slice_get self.now.watch.lives t ≡ Some life → result ≡ heard_where life (count_to (target t) self.now.between.messages) }
    {
        match self.watch.life(t) {
            Life::Running => self.between.count_to(target_id(t)),
            Life::Stopped | Life::Down => 0,
        }
    }

    /// Whether a client has something to do.
    pub fn is_client_due(&self, n: usize) -> bool
        requires within { n < length self.now.clients.items }
        requires few { n < 65536 }
        ensures { result ≡ is_due_client self.now.between.messages n (slice_get self.now.clients.items n) }
    {
        let client = &self.clients[n];
        client.skips()
            || self.between.count_to(client_id(n)) > 0
            || !(client.waits() || client.done())
    }

    // Whether a target that runs has something to do: it hears a message, or has idle work.
    fn is_busy(&self, t: usize, settling: bool) -> bool
        requires within { t < length self.now.targets.items }
        requires few { t < 65536 }
        ensures { (x : TargetOf S C) → slice_get self.now.targets.items t ≡ Some x → x.opened ≡ true → (S.state x.store).stopped ≡ false → (d : Durable) → S.durable x.store ≡ Some d
            → result ≡ (nat_lt 0 (count_to (target t) self.now.between.messages) || has_idle settling x.plan x.memory d) }
    {
        self.between.count_to(target_id(t)) > 0 || self.targets[t].has_idle(settling)
    }

    /// Whether a target has something to do, in the settling phase or before it: one that is stopped opens
    /// again; one that runs hears a message, or has idle work; one that was given up has nothing to do.
    pub fn is_target_due(&self, t: usize, settling: bool) -> bool
        requires within { t < length self.now.targets.items }
        requires standing { length self.now.watch.lives ≡ length self.now.targets.items }
        requires few { t < 65536 }
        ensures due { (r : Rules) (found : ℕ → Durable) (w : World) → Shows S.durable S.state r found (stage_now self.now) w → result ≡ is_due settling r w (target t) }
        ensures up { result ≡ true → slice_get self.now.watch.lives t ≡ Some Life.Down → ⊥ }
    {
        match self.watch.life(t) {
            Life::Running => self.is_busy(t, settling),
            Life::Stopped => true,
            Life::Down => false,
        }
    }

    /// The actors that have something to do, in the settling phase or before it, in the order of their
    /// numbers, clients first.
    pub fn due(&self, alloc: Global, settling: bool) -> Result<Vec<ActorId>, Memory>
        requires standing { length self.now.watch.lives ≡ length self.now.targets.items }
        requires few_clients { length self.now.clients.items ≤ 65535 }
        requires few_targets { length self.now.targets.items ≤ 255 }
        ensures { IfOk result (λ due. AllAreDue S.durable S.state settling (stage_now self.now) due.items) }
    {
        let mut due = Vec::new(alloc);
        for n in 0..self.clients.len() {
            if self.is_client_due(n) {
                due.push(client_id(n))?;
            }
        }
        for t in 0..self.targets.len() {
            if self.is_target_due(t, settling) {
                due.push(target_id(t))?;
            }
        }
        Ok(due)
    }
}
