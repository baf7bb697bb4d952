// Paths: where a container, an object, a dkey or an akey stands.
ghost use Rattle.std.specs.Prelude.{◌≡◌, IfOk};
ghost use Rattle.std.specs.Option.{option_eq};
ghost use Rattle.base_types.specs.Keys.{same_key};
ghost use Rattle.base_types.specs.Paths.{depth, leads_to, level_of, overlaps, record_size, same_object, same_path};

use crate::id::{ContId, ObjId};
use crate::items::{Memory, TryCopy};
use crate::key::Key;

/// How far a path goes.
#[derive(Clone, Copy)]
pub enum Level {
    Cont,
    Obj,
    Dkey,
    Akey,
}

/// The path of a container, or of an object, a dkey or an akey in it. It has a dkey only with an
/// object, and an akey only with a dkey.
#[derive(Drop)]
pub struct Path {
    pub cont: ContId,
    pub obj: Option<ObjId>,
    pub dkey: Option<Key>,
    pub akey: Option<Key>,
}

impl Level {
    /// How far the level is from the container, from 0 to 3.
    pub fn depth(self) -> u8
        ensures { result ≡ depth self }
    {
        match self {
            Level::Cont => 0,
            Level::Obj => 1,
            Level::Dkey => 2,
            Level::Akey => 3,
        }
    }
}

/// Whether two objects, or none, are the same.
pub fn same_objects(one: Option<ObjId>, other: Option<ObjId>) -> bool
    ensures { result ≡ option_eq same_object one other }
{
    match (one, other) {
        (Some(one), Some(other)) => one.same(other),
        (None, None) => true,
        _ => false,
    }
}

/// Whether two keys, or none, are the same.
pub fn same_keys(one: &Option<Key>, other: &Option<Key>) -> bool
    ensures { result ≡ option_eq same_key one.now other.now }
{
    match (one, other) {
        (Some(one), Some(other)) => one.same(other),
        (None, None) => true,
        _ => false,
    }
}

impl Path {
    /// The record size of the arrays under the path, in bytes: that of its object, or 1 where it names
    /// none.
    pub fn record_size(&self) -> u8
        ensures { result ≡ record_size self.now }
    {
        match self.obj {
            Some(obj) => obj.unit,
            None => 1,
        }
    }

    /// How far the path goes.
    pub fn level(&self) -> Level
        ensures { result ≡ level_of self.now }
    {
        if self.akey.is_some() {
            Level::Akey
        } else if self.dkey.is_some() {
            Level::Dkey
        } else if self.obj.is_some() {
            Level::Obj
        } else {
            Level::Cont
        }
    }

    /// The same path again.
    pub fn copy(&self) -> Result<Path, Memory>
        ensures { IfOk result (λ path. path ≡ self.now) }
    {
        Ok(Path {
            cont: self.cont,
            obj: self.obj,
            dkey: self.dkey.copy()?,
            akey: self.akey.copy()?,
        })
    }

    /// Whether the other path goes on from this one, or is it.
    #[tactic(auto, unfolding(crate::specs::Paths::leads_to))]
    pub fn leads_to(&self, other: &Path) -> bool
        ensures { result ≡ leads_to self.now other.now }
    {
        self.cont.0 == other.cont.0
            && (self.obj.is_none() || same_objects(self.obj, other.obj))
            && (self.dkey.is_none() || same_keys(&self.dkey, &other.dkey))
            && (self.akey.is_none() || same_keys(&self.akey, &other.akey))
    }

    /// Whether one of two paths goes on from the other, or is it.
    #[tactic(auto, unfolding(crate::specs::Paths::overlaps))]
    pub fn overlaps(&self, other: &Path) -> bool
        ensures { result ≡ overlaps self.now other.now }
    {
        self.leads_to(other) || other.leads_to(self)
    }

    /// Whether two paths are the same.
    #[tactic(auto, unfolding(crate::specs::Paths::same_path))]
    pub fn same(&self, other: &Path) -> bool
        ensures { result ≡ same_path self.now other.now }
    {
        self.cont.0 == other.cont.0
            && same_objects(self.obj, other.obj)
            && same_keys(&self.dkey, &other.dkey)
            && same_keys(&self.akey, &other.akey)
    }
}
