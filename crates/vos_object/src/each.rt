// Writes of objects are settled or pruned one after another, by their names.
ghost use Rattle.std.specs.Prelude.{◌≡◌, ◌≤◌, ◌+◌, true, ℕ, All, OnOk, IsErrOf, ⊤};
ghost use Rattle.base_types.specs.declared.entry.Settle.TheVariants.{Commit as commit_step};
ghost use Rattle.pmem_tree.specs.Calls.{IsShort};
ghost use Rattle.pmem_tree_base.specs.Calls.{Goes};
ghost use Rattle.pmem_tree_base.specs.declared.refusal.TreeNo.{TreeNo};
ghost use Rattle.vos_levels.specs.Calls.{HasThing, OfThing};
ghost use Rattle.vos_levels.specs.Levels.{hung_root};
ghost use Rattle.vos_path.specs.Objects.{objects_owner, objects_versions};
ghost use Rattle.vos_settle.specs.Costs.{Lacks, Spends, for_one};
ghost use Rattle.vos_settle.specs.Names.{IsNamed};
ghost use Rattle.vos_object.specs.Each.{PathsAreSmall, RemoveTurn, SettleTurn, Turned, each_cost, removed_blocks, settled_blocks};
ghost use Rattle.vos_object.specs.Settling.{decides, removed_each, settled_each};

use crate::object::Objects;
use base_types::entry::Settle;
use base_types::id::AttemptId;
use pmem_pages::pages::Pages;
use pmem_pages::steps::Steps;
use pmem_tree::TreeNo;
use std::sync::ledger::Ledger;
use vos_settle::name::WriteName;

impl Objects {
    /// Settles the writes of an attempt that these names name, one after another, each as `settle_write` does.
    ///
    /// # Errors
    ///
    /// As `settle_write`: `TooMuch` comes only where fewer ranges or bytes are left to stage than all of them
    /// and one change of the largest tree may want. After `TooMuch` fewer are left than one change of the
    /// largest tree may want.
    pub fn settle_each<P: Pages, L: Ledger>(
        &mut self,
        pages: &mut P,
        attempt: AttemptId,
        names: &[WriteName],
        step: Settle,
        steps: &mut Steps<L>,
    ) -> Result<(), TreeNo>
        requires step { decides step ≡ true }
        requires kind { self.old.tree.kind ≡ 1 }
        requires names { All IsNamed names.now }
        requires here { HasThing P.tells objects_owner hung_root (P.blocks pages.old) self.old.tree.root (λ g. ⊤) }
        ensures settled { OnOk result (OfThing P.tells objects_owner hung_root (P.blocks pages.old) self.old.tree.root (λ g. Turned (SettleTurn attempt step) (settled_each attempt step) names.now (P.blocks pages.old) g (P.blocks pages.new) self.new.tree.root)) }
        ensures kept { self.new ≡ self.old }
        ensures no_block { IsErrOf result TreeNo.NoBlock → ⊥ }
        ensures too_much { IsErrOf result TreeNo.TooMuch → OfThing P.tells objects_owner hung_root (P.blocks pages.old) self.old.tree.root (λ g. (d : ℕ) → PathsAreSmall d names.now g → Lacks (each_cost names.now (for_one d) 1) d (P.budget pages.old)) }
        ensures few_left { IsErrOf result TreeNo.TooMuch → OfThing P.tells objects_owner hung_root (P.blocks pages.old) self.old.tree.root (λ g. (d : ℕ) → PathsAreSmall d names.now g → IsShort d (P.budget pages.new)) }
        ensures staged { OnOk result (OfThing P.tells objects_owner hung_root (P.blocks pages.old) self.old.tree.root (λ g. (d : ℕ) → PathsAreSmall d names.now g → Spends (each_cost names.now (for_one d) 1) (P.budget pages.old) (P.budget pages.new))) }
        ensures committed { step ≡ commit_step → OnOk result (Spends (each_cost names.now 1 0) (P.budget pages.old) (P.budget pages.new)) }
        ensures gives { OnOk result (OfThing P.tells objects_owner hung_root (P.blocks pages.old) self.old.tree.root (λ g. (P.budget pages.old).free + settled_blocks attempt step names.now (objects_versions g) ≤ (P.budget pages.new).free)) }
        ensures goes { Goes P.stopped P.count P.burns pages.old pages.new }
        ensures stopped { IsErrOf result TreeNo.Stopped → P.stopped pages.new ≡ true }
        ensures went_on { OnOk result (P.stopped pages.new ≡ P.stopped pages.old) }
    {
        for name in names {
            self.settle_write(pages, attempt, name, step, steps)?;
        }
        Ok(())
    }

    /// Takes the done writes out that these names name, one after another, each as `remove_write` does.
    ///
    /// # Errors
    ///
    /// As `settle_each`.
    pub fn remove_each<P: Pages, L: Ledger>(
        &mut self,
        pages: &mut P,
        names: &[WriteName],
        steps: &mut Steps<L>,
    ) -> Result<(), TreeNo>
        requires kind { self.old.tree.kind ≡ 1 }
        requires names { All IsNamed names.now }
        requires here { HasThing P.tells objects_owner hung_root (P.blocks pages.old) self.old.tree.root (λ g. ⊤) }
        ensures removed { OnOk result (OfThing P.tells objects_owner hung_root (P.blocks pages.old) self.old.tree.root (λ g. Turned RemoveTurn removed_each names.now (P.blocks pages.old) g (P.blocks pages.new) self.new.tree.root)) }
        ensures kept { self.new ≡ self.old }
        ensures no_block { IsErrOf result TreeNo.NoBlock → ⊥ }
        ensures too_much { IsErrOf result TreeNo.TooMuch → OfThing P.tells objects_owner hung_root (P.blocks pages.old) self.old.tree.root (λ g. (d : ℕ) → PathsAreSmall d names.now g → Lacks (each_cost names.now (for_one d) 1) d (P.budget pages.old)) }
        ensures few_left { IsErrOf result TreeNo.TooMuch → OfThing P.tells objects_owner hung_root (P.blocks pages.old) self.old.tree.root (λ g. (d : ℕ) → PathsAreSmall d names.now g → IsShort d (P.budget pages.new)) }
        ensures staged { OnOk result (OfThing P.tells objects_owner hung_root (P.blocks pages.old) self.old.tree.root (λ g. (d : ℕ) → PathsAreSmall d names.now g → Spends (each_cost names.now (for_one d) 1) (P.budget pages.old) (P.budget pages.new))) }
        ensures gives { OnOk result (OfThing P.tells objects_owner hung_root (P.blocks pages.old) self.old.tree.root (λ g. (P.budget pages.old).free + removed_blocks names.now (objects_versions g) ≤ (P.budget pages.new).free)) }
        ensures goes { Goes P.stopped P.count P.burns pages.old pages.new }
        ensures stopped { IsErrOf result TreeNo.Stopped → P.stopped pages.new ≡ true }
        ensures went_on { OnOk result (P.stopped pages.new ≡ P.stopped pages.old) }
    {
        for name in names {
            self.remove_write(pages, name, steps)?;
        }
        Ok(())
    }
}
