// The calls of a store over a region.
ghost use Rattle.vos_pool.specs.Pool.{pool_durable, pool_may, pool_state};
ghost use Rattle.vos_pool_site.specs.Laws.{site_alike, site_findable, site_formed, site_steady};

use crate::changing;
use crate::pool::Pool;
use base_outside::region::Region;
use base_types::answer::Answer;
use base_types::entry::{Entries, Entry, Settle};
use base_types::epoch::Epoch;
use base_types::id::{AttemptId, ContId};
use base_types::items::{Items, Memory};
use base_types::operation::{MinorWrite, Read};
use base_types::outcome::FloorWhy;
use base_types::path::Path;
use base_types::shown::Shown;
use base_types::snapshot::Snaps;
use core::mem::replace_with;
use vos_pool_rows::enlisting::enlist;
use vos_pool_rows::leasing::extend_lease;
use vos_pool_rows::snapshots::{create, freeze, thaw};
use vos_pool_site::site::Site;
use vos_store::listed::{ContIds, ObjIds};
use vos_store::refusal::{
    DiscardNo, EnlistNo, FetchNo, FreezeNo, LaterNo, PrepareNo, ReopenNo, Stopped,
};
use vos_store::store::Store;

impl<R: Region> Store for Pool<R> {
    ghost durable = { pool_durable R.tells R.extent R.image };

    ghost may = { pool_may R.tells R.extent R.may_leave };

    ghost state = { pool_state R.count R.burns R.can_burn };

    fn enlist(&mut self, conts: &[ContId]) -> Result<(), EnlistNo> {
        match &mut self.site {
            Site::Open(held) => enlist(held, conts),
            Site::Closed(_) => Err(EnlistNo::Stopped),
        }
    }

    fn prepare(&mut self, entry: &Entry, writes: &[MinorWrite]) -> Result<(), PrepareNo> {
        replace_with(&mut self.site, (entry, writes), changing::prepare)
    }

    fn settle(&mut self, attempt: AttemptId, step: Settle) -> Result<(), Stopped> {
        replace_with(&mut self.site, (attempt, step), changing::settle)
    }

    fn extend_lease(&mut self, ticks: u64) -> Result<(), Stopped> {
        match &mut self.site {
            Site::Open(held) => extend_lease(held, ticks),
            Site::Closed(_) => Err(Stopped),
        }
    }

    fn freeze(&mut self, cont: ContId, s: Epoch) -> Result<(), FreezeNo> {
        match &mut self.site {
            Site::Open(held) => freeze(held, cont, s),
            Site::Closed(_) => Err(FreezeNo::Stopped),
        }
    }

    fn create(&mut self, cont: ContId, s: Epoch) -> Result<(), Stopped> {
        match &mut self.site {
            Site::Open(held) => create(held, cont, s),
            Site::Closed(_) => Err(Stopped),
        }
    }

    fn thaw(&mut self, cont: ContId, s: Epoch) -> Result<(), Stopped> {
        match &mut self.site {
            Site::Open(held) => thaw(held, cont, s),
            Site::Closed(_) => Err(Stopped),
        }
    }

    fn prune(&mut self, cont: ContId, upto: Epoch, number: u32) -> Result<(), Stopped> {
        replace_with(&mut self.site, (cont, upto, number), changing::prune)
    }

    fn discard(&mut self, cont: ContId, lo: Epoch, hi: Epoch) -> Result<(), DiscardNo> {
        replace_with(&mut self.site, (cont, lo, hi), changing::discard)
    }

    fn fetch(&mut self, read: &Read, below: Epoch) -> Result<Answer, FetchNo> {
        match &mut self.site {
            Site::Open(held) => held.fetch(read, below),
            Site::Closed(_) => Err(FetchNo::Stopped),
        }
    }

    fn later_write(
        &mut self,
        path: &Path,
        above: Epoch,
        upto: Epoch,
    ) -> Result<Option<Shown>, LaterNo> {
        match &mut self.site {
            Site::Open(held) => held.later_write(path, above, upto),
            Site::Closed(_) => Err(LaterNo::Stopped),
        }
    }

    fn entries(&mut self) -> Result<Entries, LaterNo> {
        match &mut self.site {
            Site::Open(held) => held.entries(),
            Site::Closed(_) => Err(LaterNo::Stopped),
        }
    }

    fn objects(&mut self, cont: ContId) -> Result<ObjIds, LaterNo> {
        match &mut self.site {
            Site::Open(held) => held.objects(cont),
            Site::Closed(_) => Err(LaterNo::Stopped),
        }
    }

    fn conts(&self) -> Result<ContIds, Memory> {
        match &self.site {
            Site::Open(held) => held.conts(),
            Site::Closed(_) => Ok(Items::new(self.alloc)),
        }
    }

    fn floor(&self, cont: ContId) -> (Epoch, FloorWhy) {
        match &self.site {
            Site::Open(held) => held.floor(cont),
            Site::Closed(closed) => (closed.floor, closed.why),
        }
    }

    fn aggregated(&self, cont: ContId) -> Epoch {
        match &self.site {
            Site::Open(held) => held.aggregated(cont),
            Site::Closed(_) => Epoch(0),
        }
    }

    fn open_below(&self, cont: ContId, upto: Epoch) -> Option<Epoch> {
        match &self.site {
            Site::Open(held) => held.open_below(cont, upto),
            Site::Closed(_) => None,
        }
    }

    fn snaps(&self) -> Result<Snaps, Memory> {
        match &self.site {
            Site::Open(held) => held.snaps(),
            Site::Closed(_) => Ok(Items::new(self.alloc)),
        }
    }

    fn lease(&self) -> u64 {
        match &self.site {
            Site::Open(held) => held.lease(),
            Site::Closed(_) => 0,
        }
    }

    fn incarnation(&self) -> u64 {
        match &self.site {
            Site::Open(held) => held.incarnation(),
            Site::Closed(_) => 0,
        }
    }

    fn reopen(&mut self, number: u32) -> Result<(), ReopenNo> {
        replace_with(&mut self.site, (self.alloc, number), changing::reopen)
    }

    fn free(&self) -> u32 {
        match &self.site {
            Site::Open(held) => held.free(),
            Site::Closed(closed) => closed.free,
        }
    }

    fn faults(&self) -> u64 {
        match &self.site {
            Site::Open(held) => held.faults(),
            Site::Closed(closed) => closed.region.faults(),
        }
    }

    fn burnt(&self) -> u64 {
        match &self.site {
            Site::Open(held) => held.burnt(),
            Site::Closed(closed) => closed.region.burnt(),
        }
    }

    ghost steady = { λ p d x runs is m. site_steady R.count R.burns R.can_burn p.site d x runs is m };

    ghost findable = { λ p tells. site_findable R.leaves_some p.site tells };

    ghost alike = { λ p q tells. site_alike p.site q.site tells };

    ghost formed = { λ p runs. site_formed R.count R.burns R.can_burn p.site runs };
}
