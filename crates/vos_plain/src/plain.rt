// The calls of a store over lists.
ghost use Rattle.std.specs.Prelude.{◌≡◌, ◌+◌, ◌-◌, ◌*◌, ◌≤◌, IfOk, Some, refl};
ghost use Rattle.daos_model.specs.Durables.{empty_durable};
ghost use Rattle.vos_plain.specs.Counted.{kept_by};
ghost use Rattle.vos_plain.specs.Laws.{plain_formed, plain_steady};
ghost use Rattle.vos_plain.specs.Plain.{new_state, plain_durable, plain_state};
ghost use Rattle.vos_plain.specs.Stops.{has_some};

use crate::counted::Counted;
use crate::stop_plan::{Injected, StopPlan};
use crate::store::PlainStore;
use base_types::answer::Answer;
use base_types::entry::{Entries, Entry, Settle};
use base_types::epoch::Epoch;
use base_types::id::{AttemptId, ContId};
use base_types::items::{Items, Memory};
use base_types::operation::{MinorWrite, Read};
use base_types::outcome::FloorWhy;
use base_types::path::Path;
use base_types::shown::Shown;
use base_types::snapshot::Snaps;
use daos_model::accounts::blocks;
use std::alloc::Global;
use vos_contents::tables::copied;
use vos_store::listed::{ContIds, ObjIds};
use vos_store::refusal::{
    DiscardNo, EnlistNo, FetchNo, FreezeNo, LaterNo, PrepareNo, ReopenNo, Stopped,
};
use vos_store::store::{Fuse, Store};

impl Store for PlainStore {
    ghost durable = { λ s. Some (plain_durable s) };

    ghost may = { λ s d. d ≡ plain_durable s };

    ghost state = { plain_state };

    fn enlist(&mut self, conts: &[ContId]) -> Result<(), EnlistNo> {
        if self.stops.stopped {
            return Err(EnlistNo::Stopped);
        }
        self.contents.enlist(conts)
    }

    fn prepare(&mut self, entry: &Entry, writes: &[MinorWrite]) -> Result<(), PrepareNo> {
        if self.stops.stopped {
            return Err(PrepareNo::Stopped);
        }
        let (need, free) = (blocks(writes), self.contents.free());
        if free < need {
            return Err(PrepareNo::NoSpace { need, free });
        }
        let Ok(()) = self.contents.ready(entry, writes) else {
            return Err(PrepareNo::Memory);
        };
        match self.stops.next_change() {
            Injected::Made => {
                self.contents.prepare(*entry);
                Ok(())
            }
            Injected::StopBefore => Err(PrepareNo::Stopped),
            Injected::StopAfter => {
                self.contents.prepare(*entry);
                Err(PrepareNo::Stopped)
            }
        }
    }

    fn settle(&mut self, attempt: AttemptId, step: Settle) -> Result<(), Stopped> {
        if self.stops.stopped {
            return Err(Stopped);
        }
        match self.stops.next_change() {
            Injected::Made => {
                self.contents.settle(attempt, step);
                Ok(())
            }
            Injected::StopBefore => Err(Stopped),
            Injected::StopAfter => {
                self.contents.settle(attempt, step);
                Err(Stopped)
            }
        }
    }

    fn extend_lease(&mut self, ticks: u64) -> Result<(), Stopped> {
        if self.stops.stopped {
            return Err(Stopped);
        }
        match self.stops.next_change() {
            Injected::Made => {
                self.contents.extend(ticks);
                Ok(())
            }
            Injected::StopBefore => Err(Stopped),
            Injected::StopAfter => {
                self.contents.extend(ticks);
                Err(Stopped)
            }
        }
    }

    fn freeze(&mut self, cont: ContId, s: Epoch) -> Result<(), FreezeNo> {
        if self.stops.stopped {
            return Err(FreezeNo::Stopped);
        }
        if let Err(refusal) = self.contents.kept.can_freeze(cont, s) {
            return Err(refusal);
        }
        match self.stops.next_change() {
            Injected::Made => {
                self.contents.freeze(cont, s);
                Ok(())
            }
            Injected::StopBefore => Err(FreezeNo::Stopped),
            Injected::StopAfter => {
                self.contents.freeze(cont, s);
                Err(FreezeNo::Stopped)
            }
        }
    }

    fn create(&mut self, cont: ContId, s: Epoch) -> Result<(), Stopped> {
        if self.stops.stopped {
            return Err(Stopped);
        }
        match self.stops.next_change() {
            Injected::Made => {
                self.contents.create(cont, s);
                Ok(())
            }
            Injected::StopBefore => Err(Stopped),
            Injected::StopAfter => {
                self.contents.create(cont, s);
                Err(Stopped)
            }
        }
    }

    fn thaw(&mut self, cont: ContId, s: Epoch) -> Result<(), Stopped> {
        if self.stops.stopped {
            return Err(Stopped);
        }
        match self.stops.next_change() {
            Injected::Made => {
                self.contents.thaw(cont, s);
                Ok(())
            }
            Injected::StopBefore => Err(Stopped),
            Injected::StopAfter => {
                self.contents.thaw(cont, s);
                Err(Stopped)
            }
        }
    }

    fn prune(&mut self, cont: ContId, upto: Epoch, number: u32) -> Result<(), Stopped> {
        if self.stops.stopped {
            return Err(Stopped);
        }
        match self.stops.next_change() {
            Injected::Made => {
                self.contents.prune(cont, upto, number);
                Ok(())
            }
            Injected::StopBefore => Err(Stopped),
            Injected::StopAfter => {
                self.contents.prune(cont, upto, number);
                Err(Stopped)
            }
        }
    }

    fn discard(&mut self, cont: ContId, lo: Epoch, hi: Epoch) -> Result<(), DiscardNo> {
        if self.stops.stopped {
            return Err(DiscardNo::Stopped);
        }
        if let Err(refusal) = self.contents.kept.can_discard(cont, lo, hi) {
            return Err(refusal);
        }
        match self.stops.next_change() {
            Injected::Made => {
                self.contents.discard(cont, lo, hi);
                Ok(())
            }
            Injected::StopBefore => Err(DiscardNo::Stopped),
            Injected::StopAfter => {
                self.contents.discard(cont, lo, hi);
                Err(DiscardNo::Stopped)
            }
        }
    }

    fn fetch(&mut self, read: &Read, below: Epoch) -> Result<Answer, FetchNo> {
        if self.stops.stopped {
            return Err(FetchNo::Stopped);
        }
        self.contents.fetch(read, below)
    }

    fn later_write(
        &mut self,
        path: &Path,
        above: Epoch,
        upto: Epoch,
    ) -> Result<Option<Shown>, LaterNo> {
        if self.stops.stopped {
            return Err(LaterNo::Stopped);
        }
        match self.contents.kept.later_write(path, above, upto) {
            Ok(shown) => Ok(shown),
            Err(_) => Err(LaterNo::Memory),
        }
    }

    fn entries(&mut self) -> Result<Entries, LaterNo> {
        if self.stops.stopped {
            return Err(LaterNo::Stopped);
        }
        match self.contents.kept.entries() {
            Ok(entries) => Ok(entries),
            Err(_) => Err(LaterNo::Memory),
        }
    }

    fn objects(&mut self, cont: ContId) -> Result<ObjIds, LaterNo> {
        if self.stops.stopped {
            return Err(LaterNo::Stopped);
        }
        match self.contents.kept.objects(cont) {
            Ok(objects) => Ok(objects),
            Err(_) => Err(LaterNo::Memory),
        }
    }

    fn conts(&self) -> Result<ContIds, Memory> {
        self.contents.kept.enlisted()
    }

    fn floor(&self, cont: ContId) -> (Epoch, FloorWhy) {
        self.contents.kept.floor((self.floor, self.why), cont)
    }

    fn aggregated(&self, cont: ContId) -> Epoch {
        self.contents.kept.row(cont).aggregated
    }

    fn open_below(&self, cont: ContId, upto: Epoch) -> Option<Epoch> {
        self.contents.kept.open_below(cont, upto)
    }

    fn snaps(&self) -> Result<Snaps, Memory> {
        self.contents.kept.snaps()
    }

    fn lease(&self) -> u64 {
        self.contents.kept.lease
    }

    fn incarnation(&self) -> u64 {
        self.contents.kept.incarnation
    }

    fn reopen(&mut self, number: u32) -> Result<(), ReopenNo> {
        self.contents.open();
        self.floor = self.contents.kept.restart_floor();
        self.why = FloorWhy::Restart(number);
        self.stops.stopped = false;
        Ok(())
    }

    fn free(&self) -> u32 {
        self.contents.free()
    }

    fn faults(&self) -> u64 {
        self.stops.faults
    }

    fn burnt(&self) -> u64 {
        self.stops.burns
    }

    ghost steady = { λ s d x runs is m. plain_steady d x (kept_by s.contents) is m };

    ghost findable = { λ s tells. (plain_durable s, refl) };

    ghost alike = { λ s t tells. refl };

    ghost formed = { λ s runs d is. plain_formed (kept_by s.contents) d s.contents.kept.formed is };
}

impl Fuse for PlainStore {
    fn fuse(&mut self, k: u32) {
        self.stops.set(k);
    }
}

impl PlainStore {
    /// An empty store of so many MiB, from 2 to 32, which stops at the changes of the plan: the
    /// calls of `prepare`, `settle`, `extend_lease`, `freeze`, `create`, `thaw`, `prune` and
    /// `discard` that aren't refused are numbered from 1, and a change that stops it is made where
    /// its number is even. With an empty plan nothing but a fuse stops it. Its incarnation is 1.
    pub fn new(alloc: Global, size_mib: u8, plan: &[u32]) -> Result<PlainStore, Memory>
        requires least { 2 ≤ size_mib }
        requires most { size_mib ≤ 32 }
        ensures durable { IfOk result (λ s. plain_durable s ≡ empty_durable 1) }
        ensures state { IfOk result (λ s. plain_state s ≡ record (new_state (size_mib * 4096 - 1264)) { may_fail = has_some plan.now }) }
    {
        Ok(PlainStore {
            contents: Counted::new(alloc, u32::from(size_mib) * 4096 - 1264)?,
            stops: StopPlan::new(copied(alloc, plan)?),
            floor: Epoch(0),
            why: FloorWhy::Opening,
        })
    }
}
