// Objects on trees in memory.
ghost use Rattle.std.specs.Prelude.{◌≡◌, true, false};
ghost use Rattle.vos_path.specs.Writes.{is_update};
ghost use Rattle.vos_settle.specs.Names.{IsNamed};
ghost use Rattle.vos_object.specs.Updates.{IsWritable};

use base_types::entry::Settle;
use base_types::epoch::Epoch;
use base_types::id::AttemptId;
use base_types::operation::MinorWrite;
use pmem_memory::mem_pages::MemPages;
use pmem_pages::pages::Pages;
use pmem_pages::steps::Steps;
use pmem_tree::tree::Tree;
use std::alloc::Global;
use std::sync::ledger::Ledger;
use vos_object::object::Objects;
use vos_punches::punches::Punches;
use vos_settle::name::WriteName;
use vos_settle::task::WriteKind;
use vos_values::keys::Moment;

/// The attempt that writes.
pub(crate) const BY: AttemptId = AttemptId {
    client: 1,
    command: 2,
    attempt: 3,
};

/// Objects on trees, by the root of theirs, and the punches that were made of them.
#[derive(Drop)]
pub(crate) struct Store {
    pub pages: MemPages,
    pub root: u32,
    pub punches: Punches,
}

impl Store {
    /// No object yet, in so many blocks.
    pub(crate) fn empty(alloc: Global, blocks: u32) -> Option<Store> {
        let pages = MemPages::new(alloc, blocks).ok()?;
        Some(Store {
            pages,
            root: 0,
            punches: Punches::new(alloc),
        })
    }

    /// The objects.
    pub(crate) fn objects(&self) -> Objects
        ensures { result.tree.kind ≡ 1 }
    {
        Objects {
            tree: Tree {
                kind: 1,
                root: self.root,
            },
        }
    }

    /// Makes an update.
    pub(crate) fn update<L: Ledger>(
        &mut self,
        epoch: u64,
        write: &MinorWrite,
        steps: &mut Steps<L>,
    ) -> Option<()>
        requires update { is_update write.now.write ≡ true }
        requires write { IsWritable write.now }
    {
        self.pages.grant(1024, 256000);
        let mut objects = self.objects();
        let made = objects.update(&mut self.pages, Epoch(epoch), BY, write, steps);
        self.root = objects.tree.root;
        made.ok()
    }

    /// Makes a punch.
    pub(crate) fn punch<L: Ledger>(
        &mut self,
        alloc: Global,
        epoch: u64,
        write: &MinorWrite,
        steps: &mut Steps<L>,
    ) -> Option<()>
        requires punch { is_update write.now.write ≡ false }
        requires write { IsWritable write.now }
    {
        self.pages.grant(1024, 256000);
        let mut objects = self.objects();
        let made = objects.punch(&mut self.pages, Epoch(epoch), BY, write, steps);
        self.root = objects.tree.root;
        made.ok()?;
        self.note(alloc, Epoch(epoch), write)
    }

    // Notes where and when a punch was made.
    fn note(&mut self, alloc: Global, epoch: Epoch, write: &MinorWrite) -> Option<()> {
        let path = write.write.path().copy().ok()?;
        let at = Moment {
            epoch,
            minor: write.minor,
        };
        self.punches.add(alloc, path, at).ok()
    }

    /// Commits a write of the attempt, or takes it out. A punch that goes goes from the punches too.
    pub(crate) fn settle<L: Ledger>(
        &mut self,
        name: &WriteName,
        commits: bool,
        steps: &mut Steps<L>,
    ) -> Option<()>
        requires { IsNamed name.now }
    {
        self.pages.grant(1024, 256000);
        let mut objects = self.objects();
        let step = if commits {
            Settle::Commit
        } else {
            Settle::Abort
        };
        let made = objects.settle_write(&mut self.pages, BY, name, step, steps);
        made.ok()?;
        if !commits && matches!(name.kind, WriteKind::Punch) {
            self.forget(name);
        }
        Some(())
    }

    /// Gathers the punches anew from the trees.
    pub(crate) fn gather<L: Ledger>(&mut self, alloc: Global, steps: &mut Steps<L>) -> Option<()> {
        let objects = self.objects();
        let punches = objects.punches(&mut self.pages, alloc, steps).ok()?;
        self.punches = punches;
        Some(())
    }

    // Takes a punch out of the punches.
    fn forget(&mut self, name: &WriteName) {
        let at = Moment {
            epoch: name.epoch,
            minor: name.minor,
        };
        self.punches.remove(&name.path, at);
    }
}
