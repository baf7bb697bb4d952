// Objects on trees in memory.
ghost use Rattle.std.specs.Prelude.{◌≡◌, ◌*◌, ◌≤◌, true, false, length, IfSome};
ghost use Rattle.base_types.specs.Operations.{write_path};
ghost use Rattle.base_types.specs.Paths.{record_size};
ghost use Rattle.daos_model.specs.Forms.{ends_at_akey, is_write_in_form};
ghost use Rattle.vos_path.specs.Writes.{NamesAreKeys, is_update};

use crate::lines::Line;
use crate::place::{Place, akey_path, dkey_path, object_path};
use base_types::entry::Settle;
use base_types::id::AttemptId;
use base_types::items::{Items, Vec8, bytes_of};
use base_types::operation::{MinorWrite, Write};
use base_types::path::Path;
use pmem_memory::mem_pages::MemPages;
use pmem_pages::steps::Steps;
use pmem_tree::tree::Tree;
use std::alloc::Global;
use std::sync::ledger::Ledger;
use vos_gather::objects::list_names;
use vos_gather::wanted::Wanted;
use vos_levels::change::Change;
use vos_object::object::Objects;
use vos_settle::name::WriteName;
use vos_settle::task::WriteKind;
use vos_values::keys::Moment;

// How many bytes a single value has: they take two blocks.
const LENGTH: usize = 300;

// Two records of a size, all of one byte.
fn records(alloc: Global, unit: u8, byte: u8) -> Option<Vec8>
    ensures { IfSome result (λ b. length b ≡ unit * 2) }
{
    let mut bytes = Items::new(alloc);
    for _ in 0..unit {
        bytes.push(byte).ok()?;
        bytes.push(byte).ok()?;
    }
    Some(bytes)
}

// The write of two records of an array, from an index on.
fn extent(alloc: Global, path: Path, unit: u8, low: u32, byte: u8) -> Option<Write>
    requires some { 1 ≤ unit }
    requires few { unit ≤ 64 }
    requires ends { ends_at_akey path ≡ true }
    requires size { record_size path ≡ unit }
    requires low { low ≤ 1000 }
    ensures form { IfSome result (λ w. is_write_in_form w ≡ true) }
    ensures path { IfSome result (λ w. write_path w ≡ path) }
    ensures update { IfSome result (λ w. is_update w ≡ true) }
{
    let bytes = records(alloc, unit, byte)?;
    Some(Write::Extent(path, low, bytes))
}

// The update that a version has.
#[tactic(auto, unfolding(daos_model::specs::Forms::is_write_in_form))]
fn update(alloc: Global, unit: u8, line: Line) -> Option<Write>
    requires some { 1 ≤ unit }
    requires few { unit ≤ 64 }
    ensures form { IfSome result (λ w. is_write_in_form w ≡ true) }
    ensures size { IfSome result (λ w. record_size (write_path w) ≡ unit) }
    ensures names { IfSome result (λ w. NamesAreKeys (write_path w)) }
    ensures update { IfSome result (λ w. is_update w ≡ true) }
{
    let Place::Akey(object, dkey, akey) = line.place else {
        return None;
    };
    let path = akey_path(alloc, unit, object, dkey, akey)?;
    match line.kind {
        WriteKind::Extent(low) if low <= 1000 => extent(alloc, path, unit, low, line.byte),
        _ => {
            let bytes = bytes_of(alloc, &[line.byte; LENGTH]).ok()?;
            Some(Write::Single(path, bytes))
        }
    }
}

// The punch of a place in the container.
#[tactic(auto, unfolding(daos_model::specs::Forms::is_write_in_form))]
fn punch(alloc: Global, unit: u8, place: Place) -> Option<Write>
    requires some { 1 ≤ unit }
    requires few { unit ≤ 64 }
    ensures form { IfSome result (λ w. is_write_in_form w ≡ true) }
    ensures size { IfSome result (λ w. record_size (write_path w) ≡ unit) }
    ensures names { IfSome result (λ w. NamesAreKeys (write_path w)) }
    ensures punch { IfSome result (λ w. is_update w ≡ false) }
{
    match place {
        Place::Cont => None,
        Place::Object(object) => Some(Write::PunchObject(object_path(unit, object))),
        Place::Dkey(object, dkey) => {
            let path = dkey_path(alloc, unit, object, dkey)?;
            Some(Write::PunchDkey(path))
        }
        Place::Akey(object, dkey, akey) => {
            let path = akey_path(alloc, unit, object, dkey, akey)?;
            Some(Write::PunchAkey(path))
        }
    }
}

/// Objects, by the root of their tree.
#[derive(Drop)]
pub(crate) struct Store {
    pub pages: MemPages,
    pub root: u32,
}

impl Store {
    /// No object yet, in so many blocks.
    pub(crate) fn empty(alloc: Global, blocks: u32) -> Option<Store> {
        let pages = MemPages::new(alloc, blocks).ok()?;
        Some(Store { pages, root: 0 })
    }

    /// The objects.
    pub(crate) fn objects(&self) -> Objects
        ensures { result.tree.kind ≡ 1 }
    {
        Objects {
            tree: Tree {
                kind: 1,
                root: self.root,
            },
        }
    }

    // The objects, with as much left to stage as one commit takes.
    fn for_change(&mut self) -> Objects
        ensures { result.tree.kind ≡ 1 }
    {
        self.pages.grant(1024, 256000);
        self.objects()
    }

    /// Makes the punch or the update of a version.
    pub(crate) fn write<L: Ledger>(
        &mut self,
        alloc: Global,
        unit: u8,
        line: Line,
        steps: &mut Steps<L>,
    ) -> Option<()>
        requires some { 1 ≤ unit }
        requires few { unit ≤ 64 }
    {
        let minor = line.at.minor % 64;
        let mut objects = self.for_change();
        let (pages, epoch) = (&mut self.pages, line.at.epoch);
        let made = if matches!(line.kind, WriteKind::Punch) {
            let write = punch(alloc, unit, line.place)?;
            objects.punch(pages, epoch, line.by, &MinorWrite { minor, write }, steps)
        } else {
            let write = update(alloc, unit, line)?;
            objects.update(pages, epoch, line.by, &MinorWrite { minor, write }, steps)
        };
        self.root = objects.tree.root;
        made.ok()
    }

    /// Settles what an attempt has of some moments.
    pub(crate) fn settle<L: Ledger>(
        &mut self,
        alloc: Global,
        by: AttemptId,
        which: &[Moment],
        commits: bool,
        steps: &mut Steps<L>,
    ) -> Option<()> {
        let mut objects = self.for_change();
        let step = if commits {
            Settle::Commit
        } else {
            Settle::Abort
        };
        let made = objects.settle(&mut self.pages, alloc, by, which, step, steps);
        made.ok()
    }

    /// Prunes what is done below a path of some moments.
    pub(crate) fn prune<L: Ledger>(
        &mut self,
        alloc: Global,
        path: &Path,
        gone: &[Moment],
        steps: &mut Steps<L>,
    ) -> Option<()> {
        let mut objects = self.for_change();
        let made = objects.prune(&mut self.pages, alloc, path, gone, steps);
        made.ok()
    }

    /// The names of the versions that a change takes, or of all.
    pub(crate) fn names<L: Ledger>(
        &mut self,
        alloc: Global,
        change: Option<Change>,
        steps: &mut Steps<L>,
    ) -> Option<Vec<WriteName>> {
        let wanted = Wanted {
            updates: true,
            change,
            moments: None,
            under: None,
        };
        let objects = self.objects();
        list_names(objects.tree, &mut self.pages, alloc, &wanted, steps).ok()
    }
}
