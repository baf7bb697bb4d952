// What is declared so far.
ghost use Rattle.std.specs.Prelude.{◌≡◌, [], ◌<◌, None, OnOk};
ghost use Rattle.base_types.specs.Scripts.{IsUnit};
ghost use Rattle.script_words.specs.Lookups.{cont_named, obj_named, old_named};
ghost use Rattle.script_words.specs.Snaps.{is_dropped, is_snap, snap_named};
ghost use Rattle.base_names.specs.Names.{named};
ghost use Rattle.script_words.specs.Decls.{nothing_declared, room, with_cont, with_drop, with_obj, with_old, with_own, with_stop};
ghost use Rattle.script_words.specs.Reads.{Gives};

use crate::fault::LineNo;
use crate::tables::{ContDecls, ObjDecls, OldDecls};
use base_names::Names;
use base_types::fault::Why;
use base_types::id::ContId;
use base_types::items::Items;
use base_types::key::Key;
use base_types::script::{ContDecl, Drops, ObjDecl, OldDecl, StopDecl, Stops};
use std::alloc::{AllocError, Global};

/// The most containers that a script declares.
pub const CONTS_MAX: u32 = 256;

/// The most objects that a script declares.
pub const OBJS_MAX: u32 = 4096;

/// The most snapshots of earlier runs that a script names.
pub const OLDS_MAX: u32 = 256;

/// The most stops that a script asks for.
pub const STOPS_MAX: u32 = 64;

/// What is declared so far, in a script for so many targets. Each line is read by it. After an error
/// of what adds to it, nothing is said of what it holds.
#[derive(Drop)]
pub struct Decls {
    pub targets: u8,
    pub conts: ContDecls,
    pub objs: ObjDecls,
    pub olds: OldDecls,
    /// The names of those of them that are dropped.
    pub drops: Drops,
    pub stops: Stops,
    /// The snapshots that clients make.
    pub made: Names<ContId>,
    /// Those of them that the present client makes.
    pub own: Names<ContId>,
}

/// Whether one more may come after so many: at most this many there may be.
pub fn room(most: u32, count: usize) -> Result<(), LineNo>
    ensures exact { Gives (λ x. x) result (room most count) }
    ensures fits { OnOk result (count < most) }
{
    if count >= most as usize {
        return Err(LineNo::Fault(Why::TooMany(most)));
    }
    Ok(())
}

impl Decls {
    /// Nothing declared yet, for so many targets. This takes no memory.
    pub fn new(alloc: Global, targets: u8) -> Decls
        ensures { result ≡ nothing_declared targets }
    {
        Decls {
            targets,
            conts: ContDecls::new(alloc),
            objs: ObjDecls::new(alloc),
            olds: OldDecls::new(alloc),
            drops: Items::new(alloc),
            stops: Items::new(alloc),
            made: Names::new(alloc),
            own: Names::new(alloc),
        }
    }

    /// Whether a snapshot has this name already.
    #[tactic(auto, unfolding(crate::specs::Snaps::is_snap))]
    pub fn is_snap(&self, name: &[u8]) -> bool
        ensures { result ≡ is_snap self.now name.now }
    {
        self.olds.find(name).is_some()
            || self.made.find(name).is_some()
            || self.own.find(name).is_some()
    }

    /// The container of a snapshot that the present client may read: an old one, or its own.
    #[tactic(auto, unfolding(crate::specs::Snaps::snap_named))]
    pub fn find_snap(&self, name: &[u8]) -> Option<ContId>
        ensures { result ≡ snap_named self.now name.now }
    {
        match self.olds.find(name) {
            Some(cont) => Some(cont),
            None => self.own.find(name),
        }
    }

    /// One more container, of a new name.
    #[tactic(auto, unfolding(crate::specs::Decls::with_cont))]
    pub fn add_cont(&mut self, alloc: Global, decl: ContDecl) -> Result<(), LineNo>
        requires { cont_named self.old.conts decl.name ≡ None }
        ensures { Gives (λ done. self.new) result (with_cont self.old decl) }
    {
        room(CONTS_MAX, self.conts.count())?;
        self.conts.add(alloc, decl)?;
        Ok(())
    }

    /// One more object, of a new name and with a record size.
    #[tactic(auto, unfolding(crate::specs::Decls::with_obj))]
    pub fn add_obj(&mut self, alloc: Global, decl: ObjDecl) -> Result<(), LineNo>
        requires new { obj_named self.old.objs decl.name ≡ None }
        requires unit { IsUnit decl.id.unit }
        ensures { Gives (λ done. self.new) result (with_obj self.old decl) }
    {
        room(OBJS_MAX, self.objs.count())?;
        self.objs.add(alloc, decl)?;
        Ok(())
    }

    /// One more snapshot of an earlier run, of a new name.
    #[tactic(auto, unfolding(crate::specs::Decls::with_old))]
    pub fn add_old(&mut self, alloc: Global, decl: OldDecl) -> Result<(), LineNo>
        requires { old_named self.old.olds decl.name ≡ None }
        ensures { Gives (λ done. self.new) result (with_old self.old decl) }
    {
        room(OLDS_MAX, self.olds.count())?;
        self.olds.add(alloc, decl)?;
        Ok(())
    }

    /// Whether the snapshot of this name is dropped.
    #[tactic(auto, unfolding(crate::specs::Snaps::is_dropped))]
    pub fn is_dropped(&self, name: &[u8]) -> bool
        ensures { result ≡ is_dropped self.now name.now }
    {
        self.drops
            .as_slice()
            .iter()
            .any(|dropped| dropped.bytes() == name)
    }

    /// One more snapshot of an earlier run is dropped.
    pub fn add_drop(&mut self, name: Key) -> Result<(), AllocError>
        ensures { OnOk result (self.new ≡ with_drop self.old name) }
    {
        self.drops.push(name)?;
        Ok(())
    }

    /// One more stop.
    #[tactic(auto, unfolding(crate::specs::Decls::with_stop))]
    pub fn add_stop(&mut self, decl: StopDecl) -> Result<(), LineNo>
        ensures { Gives (λ done. self.new) result (with_stop self.old decl) }
    {
        room(STOPS_MAX, self.stops.len())?;
        self.stops.push(decl)?;
        Ok(())
    }

    /// One more snapshot that the present client makes, of a new name.
    #[tactic(auto, unfolding(crate::specs::Decls::with_own))]
    pub fn add_own(&mut self, alloc: Global, name: &Key, cont: ContId) -> Result<(), AllocError>
        requires made { named self.old.made name.now ≡ None }
        requires own { named self.old.own name.now ≡ None }
        ensures { OnOk result (self.new ≡ with_own self.old name.now cont) }
    {
        self.made.declare(alloc, name.bytes(), cont)?;
        self.own.declare(alloc, name.bytes(), cont)?;
        Ok(())
    }

    /// The next client is the present one, and makes none yet.
    pub fn begin_next(&mut self, alloc: Global)
        ensures { self.new ≡ record self.old { own = [] } }
    {
        self.own = Names::new(alloc);
    }
}
