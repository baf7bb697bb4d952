// Declarations, each found by its name.
ghost use Rattle.std.specs.Prelude.{◌≡◌, [], ◌∷◌, ◌++◌, None, IfSome, OnOk, length};
ghost use Rattle.base_types.specs.Scripts.{IsUnit};
ghost use Rattle.script_words.specs.Lookups.{IsObj, cont_named, has_cont, has_obj, obj_named, old_named};

use base_names::Names;
use base_types::id::{ContId, ObjId};
use base_types::items::Items;
use base_types::script::{ContDecl, Conts, ObjDecl, Objs, OldDecl, Olds};
use std::alloc::{AllocError, Global};
use std::marker::Model;
use std::mem::replace;

/// The containers, each found by its name. After an error of `add`, nothing is said of
/// what they are.
#[derive(Drop)]
pub struct ContDecls {
    decls: Conts,
    names: Names<ContId>,
}

impl Model for ContDecls {
    ghost use Rattle.std.specs.Prelude.{◌≡◌, List, map};
    ghost use Rattle.base_types.specs.declared.script.ContDecl.{ContDecl};
    ghost use Rattle.script_words.specs.Lookups.{name_of_cont};

    ghost Value = { List ContDecl };

    ghost view = { λ a. a.decls };

    ghost invariant = { λ a. a.names ≡ map name_of_cont a.decls };
}

// Whether a container of this identity is declared.
#[tactic(auto, unfolding(crate::specs::Lookups::has_cont))]
fn has_cont(decls: &[ContDecl], id: ContId) -> bool
    ensures { result ≡ has_cont decls.now id }
{
    decls.iter().any(|decl| decl.id.0 == id.0)
}

impl ContDecls {
    /// None yet. This takes no memory.
    pub fn new(alloc: Global) -> Self
        ensures { result ≡ [] }
    {
        ContDecls {
            decls: Items::new(alloc),
            names: Names::new(alloc),
        }
    }

    /// The container of a name.
    #[tactic(auto, unfolding(crate::specs::Lookups::cont_named))]
    pub fn find(&self, name: &[u8]) -> Option<ContId>
        ensures { result ≡ cont_named self.now name.now }
    {
        self.names.find(name)
    }

    /// Whether a container of this identity is declared.
    pub fn has(&self, id: ContId) -> bool
        ensures { result ≡ has_cont self.now id }
    {
        has_cont(self.decls.as_slice(), id)
    }

    /// Adds a container of a new name.
    #[tactic(auto, unfolding(crate::specs::Lookups::cont_named))]
    pub fn add(&mut self, alloc: Global, decl: ContDecl) -> Result<(), AllocError>
        requires { cont_named self.old decl.name ≡ None }
        ensures { OnOk result (self.new ≡ self.old ++ decl ∷ []) }
    {
        let ContDecls {
            mut decls,
            mut names,
        } = replace(self, ContDecls::new(alloc));
        names.declare(alloc, decl.name.bytes(), decl.id)?;
        decls.push(decl)?;
        *self = ContDecls { decls, names };
        Ok(())
    }

    /// How many there are.
    pub fn count(&self) -> usize
        ensures { result ≡ length self.now }
    {
        self.decls.len()
    }

    /// The declarations, in their order.
    pub fn into_items(self) -> Conts
        ensures { result ≡ self }
    {
        let ContDecls {
            decls,
            names: _names,
        } = self;
        decls
    }
}

/// The objects, each found by its name. After an error of `add`, nothing is said of
/// what they are.
#[derive(Drop)]
pub struct ObjDecls {
    decls: Objs,
    names: Names<(ContId, ObjId)>,
}

impl Model for ObjDecls {
    ghost use Rattle.std.specs.Prelude.{◌≡◌, List, map};
    ghost use Rattle.base_types.specs.declared.script.ObjDecl.{ObjDecl};
    ghost use Rattle.script_words.specs.Lookups.{AreNamedObjs};

    ghost Value = { List ObjDecl };

    ghost view = { λ a. a.decls };

    ghost invariant = { λ a. AreNamedObjs a.decls a.names };
}

// Whether this object of this container is declared.
#[tactic(auto, unfolding(crate::specs::Lookups::has_obj))]
fn has_obj(decls: &[ObjDecl], cont: ContId, id: ObjId) -> bool
    ensures { result ≡ has_obj decls.now cont id }
{
    decls
        .iter()
        .any(|decl| decl.cont.0 == cont.0 && decl.id.same(id))
}

impl ObjDecls {
    /// None yet. This takes no memory.
    pub fn new(alloc: Global) -> Self
        ensures { result ≡ [] }
    {
        ObjDecls {
            decls: Items::new(alloc),
            names: Names::new(alloc),
        }
    }

    /// The object of a name, with its container.
    #[tactic(auto, unfolding(crate::specs::Lookups::obj_named))]
    pub fn find(&self, name: &[u8]) -> Option<(ContId, ObjId)>
        ensures exact { result ≡ obj_named self.now name.now }
        ensures known { IfSome result (IsObj self.now) }
        ensures unit { IfSome result (λ o. IsUnit o.1.unit) }
    {
        self.names.find(name)
    }

    /// Whether this object of this container is declared.
    pub fn has(&self, cont: ContId, id: ObjId) -> bool
        ensures { result ≡ has_obj self.now cont id }
    {
        has_obj(self.decls.as_slice(), cont, id)
    }

    /// Adds an object of a new name, which has a record size.
    #[tactic(auto, unfolding(crate::specs::Lookups::obj_named))]
    pub fn add(&mut self, alloc: Global, decl: ObjDecl) -> Result<(), AllocError>
        requires new { obj_named self.old decl.name ≡ None }
        requires unit { IsUnit decl.id.unit }
        ensures { OnOk result (self.new ≡ self.old ++ decl ∷ []) }
    {
        let ObjDecls {
            mut decls,
            mut names,
        } = replace(self, ObjDecls::new(alloc));
        names.declare(alloc, decl.name.bytes(), (decl.cont, decl.id))?;
        decls.push(decl)?;
        *self = ObjDecls { decls, names };
        Ok(())
    }

    /// How many there are.
    pub fn count(&self) -> usize
        ensures { result ≡ length self.now }
    {
        self.decls.len()
    }

    /// The declarations, in their order.
    pub fn into_items(self) -> Objs
        ensures { result ≡ self }
    {
        let ObjDecls {
            decls,
            names: _names,
        } = self;
        decls
    }
}

/// The snapshots of earlier runs, each found by its name. After an error of `add`, nothing is said of
/// what they are.
#[derive(Drop)]
pub struct OldDecls {
    decls: Olds,
    names: Names<ContId>,
}

impl Model for OldDecls {
    ghost use Rattle.std.specs.Prelude.{◌≡◌, List, map};
    ghost use Rattle.base_types.specs.declared.script.OldDecl.{OldDecl};
    ghost use Rattle.script_words.specs.Lookups.{name_of_old};

    ghost Value = { List OldDecl };

    ghost view = { λ a. a.decls };

    ghost invariant = { λ a. a.names ≡ map name_of_old a.decls };
}

impl OldDecls {
    /// None yet. This takes no memory.
    pub fn new(alloc: Global) -> Self
        ensures { result ≡ [] }
    {
        OldDecls {
            decls: Items::new(alloc),
            names: Names::new(alloc),
        }
    }

    /// The container of a snapshot of this name.
    #[tactic(auto, unfolding(crate::specs::Lookups::old_named))]
    pub fn find(&self, name: &[u8]) -> Option<ContId>
        ensures { result ≡ old_named self.now name.now }
    {
        self.names.find(name)
    }

    /// Adds a snapshot of a new name.
    #[tactic(auto, unfolding(crate::specs::Lookups::old_named))]
    pub fn add(&mut self, alloc: Global, decl: OldDecl) -> Result<(), AllocError>
        requires { old_named self.old decl.name ≡ None }
        ensures { OnOk result (self.new ≡ self.old ++ decl ∷ []) }
    {
        let OldDecls {
            mut decls,
            mut names,
        } = replace(self, OldDecls::new(alloc));
        names.declare(alloc, decl.name.bytes(), decl.cont)?;
        decls.push(decl)?;
        *self = OldDecls { decls, names };
        Ok(())
    }

    /// How many there are.
    pub fn count(&self) -> usize
        ensures { result ≡ length self.now }
    {
        self.decls.len()
    }

    /// The declarations, in their order.
    pub fn into_items(self) -> Olds
        ensures { result ≡ self }
    {
        let OldDecls {
            decls,
            names: _names,
        } = self;
        decls
    }
}
