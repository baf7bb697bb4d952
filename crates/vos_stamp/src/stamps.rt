// The reads that a target served.
ghost use Rattle.std.specs.Prelude.{◌≡◌, ◌≤◌, ◌++◌, [], ◌∷◌, true, OnOk, OnErr, IfOk};
ghost use Rattle.std.specs.Option.{option_copied};
ghost use Rattle.daos_model.specs.Forms.{is_path_in_form};
ghost use Rattle.vos_stamp.specs.Entities.{AnswersLevel, raise_or_none};
ghost use Rattle.vos_stamp.specs.Stamps.{AnswersLater};

use crate::entity::entity_at;
use crate::marks::{Marks, Raise, Stamp};
use crate::table::Table;
use base_types::epoch::Epoch;
use base_types::id::AttemptId;
use base_types::items::Memory;
use base_types::path::{Level, Path};
use base_types::shown::Shown;
use std::alloc::Global;
use std::marker::Model;

/// The read timestamps of a target. A contract sees all reads that were raised, each with its attempt,
/// epoch and path, and how many entities have timestamps of their own; what is kept has a bound.
///
/// An entity is a container, an object, a dkey or an akey. It has two marks: `high` is the greatest
/// read of some node of its subtree, `low` the greatest one of its whole subtree. At most 1,024
/// entities of a level have marks of their own, those that were raised last; when one goes out, its
/// slot, of 4,096 at its level, takes its marks in, and of each kind the greater one stays.
///
/// So a slot may tell of a read at another entity that shares it, and a write may be refused where no
/// read overlaps it. But the read that is told is later, and its path is near: cut to the level of
/// the shorter of the two paths, both share a slot.
///
/// Timestamps are in memory and lost at a stop.
#[derive(Drop)]
pub struct Stamps {
    alloc: Global,
    cont: Table,
    obj: Table,
    dkey: Table,
    akey: Table,
}

impl Model for Stamps {
    ghost use Rattle.vos_stamp.specs.Entities.{AreLevels, Stamped, stamped};

    ghost Value = { Stamped };

    ghost view = { λ s. stamped s.cont s.obj s.dkey s.akey };

    ghost invariant = { λ s. AreLevels s.cont s.obj s.dkey s.akey };
}

// What a read raises at a level, if its path reaches it.
fn raise_or_none(stamp: &Stamp, level: Level) -> Result<Option<Raise>, Memory>
    ensures { IfOk result (λ raise. raise ≡ raise_or_none level stamp.now) }
{
    let path = &stamp.read().path;
    let (here, last) = (level.depth(), path.level().depth());
    if here > last {
        return Ok(None);
    }
    let low = if here == last {
        Some(stamp.copy()?)
    } else {
        None
    };
    Ok(Some(Raise {
        entity: entity_at(path, level),
        marks: Marks {
            low,
            high: Some(stamp.copy()?),
        },
    }))
}

// A later read that a level tells of: at the path's last level, of some node below it; above that,
// of a whole subtree that the path lies in.
fn later_at<'a>(table: &'a Table, level: Level, path: &Path, epoch: Epoch) -> Option<&'a Shown>
    ensures { AnswersLevel level path.now epoch.0 table.now.raises (option_copied result) }
{
    let (here, last) = (level.depth(), path.level().depth());
    if here > last {
        return None;
    }
    table.raised_above(here < last, entity_at(path, level), epoch)
}

impl Stamps {
    /// No read, as when a target opens.
    ///
    /// # Errors
    ///
    /// For want of memory alone.
    pub fn new(alloc: Global) -> Result<Stamps, Memory>
        ensures { IfOk result (λ stamps. stamps ≡ record { reads = []; held = 0 }) }
    {
        Ok(Stamps {
            alloc,
            cont: Table::new(alloc)?,
            obj: Table::new(alloc)?,
            dkey: Table::new(alloc)?,
            akey: Table::new(alloc)?,
        })
    }

    /// Raises the timestamps of a read that was served, at its path's level and above.
    ///
    /// # Errors
    ///
    /// For want of memory alone; then no timestamp was raised. So many entities at most have timestamps of
    /// their own before and after.
    pub fn read(&mut self, path: &Path, epoch: Epoch, by: AttemptId) -> Result<(), Memory>
        requires form { is_path_in_form path.now ≡ true }
        ensures raised { OnOk result (self.new.reads ≡ self.old.reads ++ record { by = by; epoch = epoch; path = path.now } ∷ []) }
        ensures kept { OnErr result (self.new ≡ self.old) }
        ensures bounded { self.new.held ≤ 4096 }
    {
        let alloc = self.alloc;
        let read = Shown {
            by,
            epoch,
            path: path.copy()?,
        };
        let stamp = Stamp::new(alloc, read)?;
        let cont = raise_or_none(&stamp, Level::Cont)?;
        let obj = raise_or_none(&stamp, Level::Obj)?;
        let dkey = raise_or_none(&stamp, Level::Dkey)?;
        let akey = raise_or_none(&stamp, Level::Akey)?;
        self.cont.raise_some(cont);
        self.obj.raise_some(obj);
        self.dkey.raise_some(dkey);
        self.akey.raise_some(akey);
        Ok(())
    }

    /// A read above an epoch near a path: some wherever a read above it overlaps the path, and only
    /// a read above it near the path. It looks at the entities on the path and at their slots, eight
    /// in all, and takes no memory.
    pub fn later_read(&self, path: &Path, epoch: Epoch) -> Option<&Shown>
        requires form { is_path_in_form path.now ≡ true }
        ensures { AnswersLater path.now epoch.0 self.now.reads (option_copied result) }
    {
        if let Some(read) = later_at(&self.cont, Level::Cont, path, epoch) {
            return Some(read);
        }
        if let Some(read) = later_at(&self.obj, Level::Obj, path, epoch) {
            return Some(read);
        }
        if let Some(read) = later_at(&self.dkey, Level::Dkey, path, epoch) {
            return Some(read);
        }
        later_at(&self.akey, Level::Akey, path, epoch)
    }

    /// How many entities have timestamps of their own; it takes no memory.
    pub fn held(&self) -> u32
        ensures exact { result ≡ self.now.held }
        ensures bounded { result ≤ 4096 }
    {
        self.cont.held() + self.obj.held() + self.dkey.held() + self.akey.held()
    }
}
