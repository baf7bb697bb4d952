// The actors of a run, and what lies between them.
ghost use Rattle.std.specs.Prelude.{◌≡◌, ◌≤◌, length, IfErr, OnOk};
ghost use Rattle.run_laws.specs.shows.Turned.{followed, swept_stage, with_between};
ghost use Rattle.run_stage.specs.Now.{stage_now};

use base_messages::actor::ActorId;
use base_outside::clock::Clock;
use base_types::items::Memory;
use run_base::between::Between;
use run_laws::below::client::client::Client;
pub use run_laws::below::target::target::{Target, TargetNew};
use run_watch::watch::Watch;
use std::alloc::Global;
use vos_store::store::Store;
use world_base::did::Did;

/// The clients and the targets of a run, in the order of their numbers.
pub struct Stage<S: Store, C: Clock> {
    /// Where their letters get memory.
    pub alloc: Global,
    /// The clients.
    pub clients: Vec<Client>,
    /// The targets.
    pub targets: Vec<Target<S, C>>,
    /// How the targets stand.
    pub watch: Watch,
    /// What lies between them.
    pub between: Between,
}

impl<S: Store, C: Clock> Stage<S, C> {
    // What follows from an actor's turn comes about, and what goes to targets that are given up is lost. Where memory is wanting, all that lies
    // between actors is as before.
    pub(crate) fn follow(&mut self, from: ActorId, did: Did) -> Result<(), Memory>
        requires few { length self.old.watch.lives ≤ 256 }
        ensures followed { OnOk result (stage_now self.new ≡ swept_stage (with_between (followed from did self.old.between) (stage_now self.old))) }
        ensures targets { self.new.targets ≡ self.old.targets }
        ensures kept { IfErr result (λ no. self.new.between ≡ self.old.between) }
    {
        if self.watch.some_down() {
            return self
                .between
                .follow_swept(self.alloc, self.watch.lives(), from, did);
        }
        self.between.follow(from, did)
    }
}
