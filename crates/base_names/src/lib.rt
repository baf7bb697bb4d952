// Names, each found in one step.
#![tactic(auto)]

ghost use Rattle.std.specs.Prelude.{◌≡◌, [], ◌∷◌, ◌++◌, None, OnOk, OnErr, length, IsTrue, ◌↔◌};
ghost use Rattle.base_names.specs.Names.{named};

use indexmap::IndexMap;
use std::alloc::{AllocError, Global};
use std::marker::Model;

/// Names with what each stands for, in the order in which they were declared.
#[derive(Drop)]
pub struct Names<V> {
    table: IndexMap<Vec<u8>, V>,
}

impl<V> Model for Names<V> {
    ghost use Rattle.std.specs.Prelude.{List, ℕ, map};
    ghost use Rattle.base_names.specs.Names.{name_and_value};

    ghost Value = { List (List ℕ × V) };

    ghost view = { λ a. map name_and_value a.table.entries };
}

impl<V: Copy + Drop> Names<V> {
    /// No names. This takes no memory.
    pub fn new(alloc: Global) -> Self
        ensures { result ≡ [] }
    {
        Names {
            table: IndexMap::new(alloc),
        }
    }

    /// What a name stands for, or none where it isn't declared.
    pub fn find(&self, name: &[u8]) -> Option<V>
        ensures { result ≡ named self.now name.now }
    {
        self.table.get(name).copied()
    }

    /// How many names are declared.
    pub fn len(&self) -> usize
        ensures { result ≡ length self.now }
    {
        self.table.len()
    }

    /// Whether no name is declared.
    pub fn is_empty(&self) -> bool
        ensures { IsTrue result ↔ (self.now ≡ []) }
    {
        self.table.is_empty()
    }

    /// Declares a name that isn't declared yet. Where memory runs out the names stay as they were.
    pub fn declare(&mut self, alloc: Global, name: &[u8], value: V) -> Result<(), AllocError>
        requires { named self.old name.now ≡ None }
        ensures ok { OnOk result (self.new ≡ self.old ++ (name.now, value) ∷ []) }
        ensures err { OnErr result (self.new ≡ self.old) }
    {
        let key = Vec::from_slice(alloc, name)?;
        self.table.insert(key, value)?;
        Ok(())
    }
}
