// Counters that come after those of a pool.
ghost use Rattle.std.specs.Prelude.{◌≡◌, ◌≤◌, ◌<◌, ◌+◌, ◌^◌};
ghost use Rattle.daos_model.specs.Changes.{leased, reopened};
ghost use Rattle.vos_places.specs.Laws.{counted};
ghost use Rattle.vos_tables.specs.Kept.{Makes};
ghost use Rattle.vos_tables.specs.Tables.{AreNext};

use crate::table::Tables;
use vos_places::codec::Counters;

impl Tables {
    /// The counters with this lease, in ticks, where it isn't below the one that there is.
    #[tactic(auto, unfolding(daos_model::specs::Changes::leased))]
    pub fn plan_lease(&self, ticks: u64) -> Counters
        requires { ticks < 2 ^ 56 }
        ensures next { AreNext self.now result }
        ensures objects { result.objects ≡ self.now.header.objects }
        ensures entries { result.entries ≡ self.now.header.entries }
        ensures leased { self.now.header.lease ≤ ticks → Makes (leased ticks) self.now (counted result self.now) }
    {
        let mut counters = self.counters;
        if counters.lease <= ticks {
            counters.lease = ticks;
        }
        counters
    }

    /// The counters of one more opening.
    #[tactic(auto, unfolding(daos_model::specs::Changes::reopened))]
    pub fn plan_reopening(&self) -> Counters
        ensures next { AreNext self.now result }
        ensures objects { result.objects ≡ self.now.header.objects }
        ensures entries { result.entries ≡ self.now.header.entries }
        ensures reopened { self.now.header.incarnation + 1 < 2 ^ 64 → Makes reopened self.now (counted result self.now) }
    {
        let mut counters = self.counters;
        counters.incarnation = counters.incarnation.saturating_add(1);
        counters
    }

    /// The counters with these roots of objects and of entries.
    pub fn plan_roots(&self, objects: u32, entries: u32) -> Counters
        ensures next { AreNext self.now result }
        ensures objects { result.objects ≡ objects }
        ensures entries { result.entries ≡ entries }
        ensures kept { Makes (λ d. d) self.now (counted result self.now) }
    {
        let mut counters = self.counters;
        counters.objects = objects;
        counters.entries = entries;
        counters
    }
}
