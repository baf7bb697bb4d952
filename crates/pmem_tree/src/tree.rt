// A tree, and its calls.
ghost use Rattle.std.specs.Prelude.{◌≡◌, true, IfOk, OnOk, OnErr, IsTrue, ◌⊎◌, ◌<◌, ◌≤◌, Some, IsErrOf, ◌↔◌, ◌+◌, None, ⊤};
ghost use Rattle.pmem_pages.specs.Node.{IsKind, IsKey, IsValue};
ghost use Rattle.pmem_pages.specs.Shape.{Shape, IsTree, entries, entry_at, first_above, last_under, Entry};
ghost use Rattle.pmem_tree_base.specs.Calls.{Goes};
ghost use Rattle.pmem_tree_base.specs.Find.{value_of, pair_of};
ghost use Rattle.pmem_tree.specs.Calls.{OfTree, StepsAtMost, HasTree, StagesAtMost, TooFew};
ghost use Rattle.pmem_pages.specs.Blocks.{IsSpent};
ghost use Rattle.pmem_tree_base.specs.declared.refusal.TreeNo.{TreeNo};
ghost use Rattle.pmem_tree.specs.Ends.{StagesAtEnd};
ghost use Rattle.pmem_tree.specs.Changes.{Puts, Inserts, PutAt, Removes, put_blocks};

use crate::HIGHEST;
use crate::grow::{Fresh, set_at};
use crate::shrink::remove_at;
use pmem_pages::node::{Pair, TreeKey, Value};
use pmem_pages::pages::Pages;
use pmem_pages::refusal::Stopped;
use pmem_pages::steps::Steps;
use pmem_tree_base::find::{find, first_after, last_before};
use pmem_tree_base::put::put_at;
use pmem_tree_base::read::sub_at;
use pmem_tree_base::refusal::TreeNo;
use std::sync::ledger::Ledger;

/// A tree of one kind: the block of its root, or 0 where it is empty. The kinds are 1 to 7, and say how
/// long a value is.
#[derive(Clone, Copy)]
pub struct Tree {
    pub kind: u8,
    pub root: u32,
}

impl Tree {
    /// The value at a key.
    ///
    /// # Errors
    ///
    /// `Stopped` comes only where the pages answered it.
    pub fn get<P: Pages, L: Ledger>(
        &self,
        pages: &mut P,
        key: &TreeKey,
        steps: &mut Steps<L>,
    ) -> Result<Option<Value>, Stopped>
        requires kind { IsKind self.now.kind }
        requires key { IsKey key.now }
        requires tree { IsTrue P.tells → (t : Shape) × IsTree (P.blocks pages.old) self.now.kind self.now.root t }
        ensures found { IfOk result (λ v. OfTree P.tells (P.blocks pages.old) self.now.kind self.now.root (λ t. v ≡ value_of (entry_at key.now (entries t)))) }
        ensures steps { OfTree P.tells (P.blocks pages.old) self.now.kind self.now.root (λ t. StepsAtMost 2 0 t steps.old steps.new) }
        ensures kept { IsTrue P.tells → P.blocks pages.new ≡ P.blocks pages.old }
        ensures budget { P.budget pages.new ≡ P.budget pages.old }
        ensures goes { Goes P.stopped P.count P.burns pages.old pages.new }
        ensures stopped { OnErr result (P.stopped pages.new ≡ true) }
        ensures went_on { OnOk result (P.stopped pages.new ≡ P.stopped pages.old) }
    {
        find(pages, self.kind, self.root, HIGHEST, key, steps)
    }

    /// The pair of the least key above this one.
    ///
    /// # Errors
    ///
    /// `Stopped` comes only where the pages answered it.
    pub fn next_after<P: Pages, L: Ledger>(
        &self,
        pages: &mut P,
        key: &TreeKey,
        steps: &mut Steps<L>,
    ) -> Result<Option<Pair>, Stopped>
        requires kind { IsKind self.now.kind }
        requires key { IsKey key.now }
        requires tree { IsTrue P.tells → (t : Shape) × IsTree (P.blocks pages.old) self.now.kind self.now.root t }
        ensures found { IfOk result (λ p. OfTree P.tells (P.blocks pages.old) self.now.kind self.now.root (λ t. p ≡ pair_of (first_above key.now (entries t)))) }
        ensures steps { OfTree P.tells (P.blocks pages.old) self.now.kind self.now.root (λ t. StepsAtMost 2 0 t steps.old steps.new) }
        ensures kept { IsTrue P.tells → P.blocks pages.new ≡ P.blocks pages.old }
        ensures budget { P.budget pages.new ≡ P.budget pages.old }
        ensures goes { Goes P.stopped P.count P.burns pages.old pages.new }
        ensures stopped { OnErr result (P.stopped pages.new ≡ true) }
        ensures went_on { OnOk result (P.stopped pages.new ≡ P.stopped pages.old) }
    {
        first_after(pages, self.kind, self.root, HIGHEST, key, steps)
    }

    /// The pair of the greatest key below this one.
    ///
    /// # Errors
    ///
    /// `Stopped` comes only where the pages answered it.
    pub fn last_below<P: Pages, L: Ledger>(
        &self,
        pages: &mut P,
        key: &TreeKey,
        steps: &mut Steps<L>,
    ) -> Result<Option<Pair>, Stopped>
        requires kind { IsKind self.now.kind }
        requires key { IsKey key.now }
        requires tree { IsTrue P.tells → (t : Shape) × IsTree (P.blocks pages.old) self.now.kind self.now.root t }
        ensures found { IfOk result (λ p. OfTree P.tells (P.blocks pages.old) self.now.kind self.now.root (λ t. p ≡ pair_of (last_under key.now (entries t)))) }
        ensures steps { OfTree P.tells (P.blocks pages.old) self.now.kind self.now.root (λ t. StepsAtMost 2 0 t steps.old steps.new) }
        ensures kept { IsTrue P.tells → P.blocks pages.new ≡ P.blocks pages.old }
        ensures budget { P.budget pages.new ≡ P.budget pages.old }
        ensures goes { Goes P.stopped P.count P.burns pages.old pages.new }
        ensures stopped { OnErr result (P.stopped pages.new ≡ true) }
        ensures went_on { OnOk result (P.stopped pages.new ≡ P.stopped pages.old) }
    {
        last_before(pages, self.kind, self.root, HIGHEST, key, steps)
    }

    /// Puts a value at a key, which the tree has. Where it has that value already, nothing is staged.
    ///
    /// # Errors
    ///
    /// `TooMuch` comes only where no range or fewer than 256 bytes are left to stage. After it no more are left.
    /// `Stopped` comes only where the pages answered it, and `NoBlock` never.
    pub fn put_value<P: Pages, L: Ledger>(
        &mut self,
        pages: &mut P,
        key: &TreeKey,
        value: &Value,
        steps: &mut Steps<L>,
    ) -> Result<(), TreeNo>
        requires kind { IsKind self.old.kind }
        requires key { IsKey key.now }
        requires value { IsValue self.old.kind value.now }
        requires tree { HasTree P.tells (P.blocks pages.old) self.old.kind self.old.root (λ t. (e : Entry) × (entry_at key.now (entries t) ≡ Some e)) }
        ensures put { OnOk result (OfTree P.tells (P.blocks pages.old) self.old.kind self.old.root (λ t. (e : Entry) → entry_at key.now (entries t) ≡ Some e → Puts (P.blocks pages.old) self.old.kind t key.now value.now (P.blocks pages.new) self.new.root)) }
        ensures idle { OfTree P.tells (P.blocks pages.old) self.old.kind self.old.root (λ t. (e : Entry) → entry_at key.now (entries t) ≡ Some e → e.value ≡ value.now → (P.blocks pages.new ≡ P.blocks pages.old) × (P.budget pages.new ≡ P.budget pages.old)) }
        ensures kept { self.new ≡ self.old }
        ensures no_block { IsErrOf result TreeNo.NoBlock → ⊥ }
        ensures too_much { IsErrOf result TreeNo.TooMuch → ((P.budget pages.old).ranges < 1) ⊎ ((P.budget pages.old).bytes < 256) }
        ensures few_left { IsErrOf result TreeNo.TooMuch → ((P.budget pages.new).ranges < 1) ⊎ ((P.budget pages.new).bytes < 256) }
        ensures steps { OfTree P.tells (P.blocks pages.old) self.old.kind self.old.root (λ t. StepsAtMost 16 16 t steps.old steps.new) }
        ensures staged { IsSpent 1 256 (P.budget pages.old) (P.budget pages.new) }
        ensures free { (P.budget pages.new).free ≡ (P.budget pages.old).free }
        ensures goes { Goes P.stopped P.count P.burns pages.old pages.new }
        ensures stopped { IsErrOf result TreeNo.Stopped → P.stopped pages.new ≡ true }
        ensures went_on { OnOk result (P.stopped pages.new ≡ P.stopped pages.old) }
    {
        let whole = sub_at(pages, self.kind, self.root, steps)?;
        let pair = Pair {
            key: *key,
            value: *value,
        };
        put_at(pages, self.kind, self.root, whole.height, &pair, steps)
    }

    /// Puts a pair into the tree, whose key isn't there yet. After `TooMuch` the stage has to be dropped.
    ///
    /// # Errors
    ///
    /// `NoBlock` comes exactly where no block is free. Where the pages tell their blocks, `TooMuch` comes
    /// only where fewer than `16 * d + 32` ranges or 256 times as many bytes are left to stage, with a
    /// number of pairs of `d` binary digits. After it no more are left. `Stopped` comes only where the
    /// pages answered it.
    pub fn insert<P: Pages, L: Ledger>(
        &mut self,
        pages: &mut P,
        key: &TreeKey,
        value: &Value,
        steps: &mut Steps<L>,
    ) -> Result<(), TreeNo>
        requires kind { IsKind self.old.kind }
        requires key { IsKey key.now }
        requires value { IsValue self.old.kind value.now }
        requires tree { HasTree P.tells (P.blocks pages.old) self.old.kind self.old.root (λ t. entry_at key.now (entries t) ≡ None) }
        ensures inserted { OnOk result (OfTree P.tells (P.blocks pages.old) self.old.kind self.old.root (λ t. entry_at key.now (entries t) ≡ None → Inserts (P.blocks pages.old) self.old.kind t key.now value.now (P.blocks pages.new) self.new.root)) }
        ensures kind { self.new.kind ≡ self.old.kind }
        ensures root_kept { OnErr result (self.new.root ≡ self.old.root) }
        ensures no_block { IsErrOf result TreeNo.NoBlock ↔ ((P.budget pages.old).free ≡ 0) }
        ensures too_much { IsErrOf result TreeNo.TooMuch → OfTree P.tells (P.blocks pages.old) self.old.kind self.old.root (λ t. entry_at key.now (entries t) ≡ None → TooFew t (P.budget pages.old)) }
        ensures few_left { IsErrOf result TreeNo.TooMuch → OfTree P.tells (P.blocks pages.old) self.old.kind self.old.root (λ t. entry_at key.now (entries t) ≡ None → TooFew t (P.budget pages.new)) }
        ensures steps { OfTree P.tells (P.blocks pages.old) self.old.kind self.old.root (λ t. StepsAtMost 16 16 t steps.old steps.new) }
        ensures staged { OnOk result (OfTree P.tells (P.blocks pages.old) self.old.kind self.old.root (λ t. entry_at key.now (entries t) ≡ None → StagesAtMost 4 8 t (P.budget pages.old) (P.budget pages.new))) }
        ensures few { OnOk result (OfTree P.tells (P.blocks pages.old) self.old.kind self.old.root (λ t. entry_at key.now (entries t) ≡ None → StagesAtEnd 6 key.now t (P.budget pages.old) (P.budget pages.new))) }
        ensures free { OnOk result ((P.budget pages.new).free + 1 ≡ (P.budget pages.old).free) }
        ensures goes { Goes P.stopped P.count P.burns pages.old pages.new }
        ensures stopped { IsErrOf result TreeNo.Stopped → P.stopped pages.new ≡ true }
        ensures went_on { OnOk result (P.stopped pages.new ≡ P.stopped pages.old) }
    {
        let at = pages.take_block()?;
        let fresh = Fresh {
            kind: self.kind,
            block: Some(at),
            pair: Pair {
                key: *key,
                value: *value,
            },
        };
        let whole = sub_at(pages, self.kind, self.root, steps)?;
        let grown = set_at(pages, &fresh, self.root, whole.height, steps)?;
        self.root = grown.root;
        Ok(())
    }

    /// Puts a pair into the tree, whether its key is there or not: another value where it is, and else a new
    /// pair. Where the key has that value already, nothing is staged. After `TooMuch` the stage has to be
    /// dropped.
    ///
    /// # Errors
    ///
    /// `NoBlock` comes only where the key isn't there and no block is free. Where the pages tell their blocks,
    /// `TooMuch` comes only where fewer than `16 * d + 32` ranges or 256 times as many bytes are left to stage,
    /// with a number of pairs of `d` binary digits. After it no more are left. `Stopped` comes only where the
    /// pages answered it.
    pub fn set<P: Pages, L: Ledger>(
        &mut self,
        pages: &mut P,
        key: &TreeKey,
        value: &Value,
        steps: &mut Steps<L>,
    ) -> Result<(), TreeNo>
        requires kind { IsKind self.old.kind }
        requires key { IsKey key.now }
        requires value { IsValue self.old.kind value.now }
        requires tree { HasTree P.tells (P.blocks pages.old) self.old.kind self.old.root (λ t. ⊤) }
        ensures set { OnOk result (OfTree P.tells (P.blocks pages.old) self.old.kind self.old.root (λ t. PutAt (P.blocks pages.old) self.old.kind t key.now value.now (P.blocks pages.new) self.new.root)) }
        ensures idle { OnOk result (OfTree P.tells (P.blocks pages.old) self.old.kind self.old.root (λ t. (e : Entry) → entry_at key.now (entries t) ≡ Some e → e.value ≡ value.now → (P.blocks pages.new ≡ P.blocks pages.old) × (P.budget pages.new ≡ P.budget pages.old))) }
        ensures kind { self.new.kind ≡ self.old.kind }
        ensures root_kept { OnErr result (self.new.root ≡ self.old.root) }
        ensures no_block { IsErrOf result TreeNo.NoBlock → (P.budget pages.old).free ≡ 0 }
        ensures missing { IsErrOf result TreeNo.NoBlock → OfTree P.tells (P.blocks pages.old) self.old.kind self.old.root (λ t. entry_at key.now (entries t) ≡ None) }
        ensures too_much { IsErrOf result TreeNo.TooMuch → OfTree P.tells (P.blocks pages.old) self.old.kind self.old.root (λ t. TooFew t (P.budget pages.old)) }
        ensures few_left { IsErrOf result TreeNo.TooMuch → OfTree P.tells (P.blocks pages.old) self.old.kind self.old.root (λ t. TooFew t (P.budget pages.new)) }
        ensures steps { OfTree P.tells (P.blocks pages.old) self.old.kind self.old.root (λ t. StepsAtMost 16 16 t steps.old steps.new) }
        ensures staged { OnOk result (OfTree P.tells (P.blocks pages.old) self.old.kind self.old.root (λ t. StagesAtMost 4 8 t (P.budget pages.old) (P.budget pages.new))) }
        ensures few { OnOk result (OfTree P.tells (P.blocks pages.old) self.old.kind self.old.root (λ t. entry_at key.now (entries t) ≡ None → StagesAtEnd 6 key.now t (P.budget pages.old) (P.budget pages.new))) }
        ensures one { OnOk result (OfTree P.tells (P.blocks pages.old) self.old.kind self.old.root (λ t. (e : Entry) → entry_at key.now (entries t) ≡ Some e → IsSpent 1 256 (P.budget pages.old) (P.budget pages.new))) }
        ensures takes { OnOk result (OfTree P.tells (P.blocks pages.old) self.old.kind self.old.root (λ t. (P.budget pages.new).free + put_blocks (entry_at key.now (entries t)) ≡ (P.budget pages.old).free)) }
        ensures free { (P.budget pages.old).free ≤ (P.budget pages.new).free + 1 }
        ensures goes { Goes P.stopped P.count P.burns pages.old pages.new }
        ensures stopped { IsErrOf result TreeNo.Stopped → P.stopped pages.new ≡ true }
        ensures went_on { OnOk result (P.stopped pages.new ≡ P.stopped pages.old) }
    {
        let fresh = Fresh {
            kind: self.kind,
            block: None,
            pair: Pair {
                key: *key,
                value: *value,
            },
        };
        let whole = sub_at(pages, self.kind, self.root, steps)?;
        let grown = set_at(pages, &fresh, self.root, whole.height, steps)?;
        self.root = grown.root;
        Ok(())
    }

    /// Takes the pair at a key out of the tree, which has it, and gives its block back. After `TooMuch`
    /// the stage has to be dropped.
    ///
    /// # Errors
    ///
    /// Where the pages tell their blocks, `TooMuch` comes only where fewer than `16 * d + 32` ranges or 256
    /// times as many bytes are left to stage, with a number of pairs of `d` binary digits. After it no more are left.
    /// `Stopped` comes only where the pages answered it, and `NoBlock` never.
    pub fn remove<P: Pages, L: Ledger>(
        &mut self,
        pages: &mut P,
        key: &TreeKey,
        steps: &mut Steps<L>,
    ) -> Result<(), TreeNo>
        requires kind { IsKind self.old.kind }
        requires key { IsKey key.now }
        requires tree { HasTree P.tells (P.blocks pages.old) self.old.kind self.old.root (λ t. (e : Entry) × (entry_at key.now (entries t) ≡ Some e)) }
        ensures removed { OnOk result (OfTree P.tells (P.blocks pages.old) self.old.kind self.old.root (λ t. (e : Entry) → entry_at key.now (entries t) ≡ Some e → Removes (P.blocks pages.old) self.old.kind t key.now e (P.blocks pages.new) self.new.root)) }
        ensures kind { self.new.kind ≡ self.old.kind }
        ensures root_kept { OnErr result (self.new.root ≡ self.old.root) }
        ensures no_block { IsErrOf result TreeNo.NoBlock → ⊥ }
        ensures too_much { IsErrOf result TreeNo.TooMuch → OfTree P.tells (P.blocks pages.old) self.old.kind self.old.root (λ t. (e : Entry) → entry_at key.now (entries t) ≡ Some e → TooFew t (P.budget pages.old)) }
        ensures few_left { IsErrOf result TreeNo.TooMuch → OfTree P.tells (P.blocks pages.old) self.old.kind self.old.root (λ t. (e : Entry) → entry_at key.now (entries t) ≡ Some e → TooFew t (P.budget pages.new)) }
        ensures steps { OfTree P.tells (P.blocks pages.old) self.old.kind self.old.root (λ t. StepsAtMost 16 16 t steps.old steps.new) }
        ensures staged { OnOk result (OfTree P.tells (P.blocks pages.old) self.old.kind self.old.root (λ t. StagesAtMost 8 16 t (P.budget pages.old) (P.budget pages.new))) }
        ensures free { OnOk result (IsTrue P.tells → (P.budget pages.new).free ≡ (P.budget pages.old).free + 1) }
        ensures goes { Goes P.stopped P.count P.burns pages.old pages.new }
        ensures stopped { IsErrOf result TreeNo.Stopped → P.stopped pages.new ≡ true }
        ensures went_on { OnOk result (P.stopped pages.new ≡ P.stopped pages.old) }
    {
        let whole = sub_at(pages, self.kind, self.root, steps)?;
        let cut = remove_at(pages, self.kind, self.root, whole.height, key, steps)?;
        pages.give_block(cut.block)?;
        self.root = cut.rest.root;
        Ok(())
    }
}
