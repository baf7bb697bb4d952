// The writes of some moments are settled or pruned, wherever they stand.
ghost use Rattle.std.specs.Prelude.{◌≡◌, ◌≤◌, ◌+◌, true, ℕ, OnOk, IsErrOf, IsTrue, ⊤};
ghost use Rattle.base_types.specs.declared.entry.Settle.TheVariants.{Commit as commit_step};
ghost use Rattle.pmem_tree.specs.Calls.{IsShort};
ghost use Rattle.pmem_tree_base.specs.Calls.{Goes};
ghost use Rattle.vos_levels.specs.Calls.{Becomes, HasThing, OfThing};
ghost use Rattle.vos_levels.specs.Levels.{hung_root};
ghost use Rattle.vos_path.specs.Objects.{objects_owner, objects_versions};
ghost use Rattle.vos_settle.specs.Costs.{Lacks, Spends, for_one};
ghost use Rattle.vos_object.specs.Each.{PathsAreSmall, RemoveTurn, SettleTurn, Turned, each_cost};
ghost use Rattle.vos_object.specs.Moments.{pruned_at, pruned_freed, pruned_names, settled_at, settled_freed, settled_names};
ghost use Rattle.vos_object.specs.Settling.{decides, removed_each, settled_each};
ghost use Rattle.vos_object.specs.declared.refusal.SettleNo.{SettleNo};

use crate::object::Objects;
use crate::refusal::SettleNo;
use crate::settle::change_of;
use base_types::entry::Settle;
use base_types::id::AttemptId;
use base_types::path::Path;
use pmem_pages::pages::Pages;
use pmem_pages::steps::Steps;
use std::alloc::Global;
use std::sync::ledger::Ledger;
use vos_gather::objects::list_names;
use vos_gather::wanted::Wanted;
use vos_levels::change::Change;
use vos_values::keys::Moment;

impl Objects {
    /// Settles the unsettled versions of an attempt that have these epochs and numbers, and no others, with the
    /// creations that the attempt has of them. They are looked for among all objects, and then settled one by
    /// one. Nothing is staged before all are found.
    ///
    /// # Errors
    ///
    /// `TooMuch` comes only where fewer ranges or bytes are left to stage than all of them and one change of the
    /// largest tree may want, and `Stopped` only where the pages answered it. After `TooMuch` fewer are left
    /// than one change of the largest tree may want. After these the stage has to be dropped. After `Memory`
    /// nothing is staged.
    pub fn settle<P: Pages, L: Ledger>(
        &mut self,
        pages: &mut P,
        alloc: Global,
        attempt: AttemptId,
        which: &[Moment],
        step: Settle,
        steps: &mut Steps<L>,
    ) -> Result<(), SettleNo>
        requires step { decides step ≡ true }
        requires kind { self.old.tree.kind ≡ 1 }
        requires here { HasThing P.tells objects_owner hung_root (P.blocks pages.old) self.old.tree.root (λ g. ⊤) }
        ensures settled { OnOk result (OfThing P.tells objects_owner hung_root (P.blocks pages.old) self.old.tree.root (λ g. Becomes objects_owner hung_root objects_versions (P.blocks pages.old) g (P.blocks pages.new) self.new.tree.root (λ vs ws. ws ≡ settled_at attempt which.now step vs))) }
        ensures turns { OnOk result (OfThing P.tells objects_owner hung_root (P.blocks pages.old) self.old.tree.root (λ g. Turned (SettleTurn attempt step) (settled_each attempt step) (settled_names attempt which.now step (objects_versions g)) (P.blocks pages.old) g (P.blocks pages.new) self.new.tree.root)) }
        ensures kept { self.new ≡ self.old }
        ensures too_much { IsErrOf result SettleNo.TooMuch → OfThing P.tells objects_owner hung_root (P.blocks pages.old) self.old.tree.root (λ g. (d : ℕ) → PathsAreSmall d (settled_names attempt which.now step (objects_versions g)) g → Lacks (each_cost (settled_names attempt which.now step (objects_versions g)) (for_one d) 1) d (P.budget pages.old)) }
        ensures few_left { IsErrOf result SettleNo.TooMuch → OfThing P.tells objects_owner hung_root (P.blocks pages.old) self.old.tree.root (λ g. (d : ℕ) → PathsAreSmall d (settled_names attempt which.now step (objects_versions g)) g → IsShort d (P.budget pages.new)) }
        ensures staged { OnOk result (OfThing P.tells objects_owner hung_root (P.blocks pages.old) self.old.tree.root (λ g. (d : ℕ) → PathsAreSmall d (settled_names attempt which.now step (objects_versions g)) g → Spends (each_cost (settled_names attempt which.now step (objects_versions g)) (for_one d) 1) (P.budget pages.old) (P.budget pages.new))) }
        ensures committed { step ≡ commit_step → OnOk result (OfThing P.tells objects_owner hung_root (P.blocks pages.old) self.old.tree.root (λ g. Spends (each_cost (settled_names attempt which.now step (objects_versions g)) 1 0) (P.budget pages.old) (P.budget pages.new))) }
        ensures gives { OnOk result (OfThing P.tells objects_owner hung_root (P.blocks pages.old) self.old.tree.root (λ g. (P.budget pages.old).free + settled_freed attempt which.now step (objects_versions g) ≤ (P.budget pages.new).free)) }
        ensures memory { IsErrOf result SettleNo.Memory → (IsTrue P.tells → P.blocks pages.new ≡ P.blocks pages.old) × (P.budget pages.new ≡ P.budget pages.old) }
        ensures goes { Goes P.stopped P.count P.burns pages.old pages.new }
        ensures stopped { IsErrOf result SettleNo.Stopped → P.stopped pages.new ≡ true }
        ensures went_on { OnOk result (P.stopped pages.new ≡ P.stopped pages.old) }
    {
        let wanted = Wanted {
            updates: true,
            change: Some(change_of(attempt, step)),
            moments: Some(which),
            under: None,
        };
        let names = list_names(self.tree, pages, alloc, &wanted, steps)?;
        Ok(self.settle_each(pages, attempt, &names, step, steps)?)
    }

    /// Takes the done versions under a path out that have these epochs and numbers, and no others, with the done
    /// creations that their attempts have of them. They are looked for among all objects, and then taken out one
    /// by one. Nothing is staged before all are found.
    ///
    /// # Errors
    ///
    /// As `settle`.
    pub fn prune<P: Pages, L: Ledger>(
        &mut self,
        pages: &mut P,
        alloc: Global,
        path: &Path,
        gone: &[Moment],
        steps: &mut Steps<L>,
    ) -> Result<(), SettleNo>
        requires kind { self.old.tree.kind ≡ 1 }
        requires here { HasThing P.tells objects_owner hung_root (P.blocks pages.old) self.old.tree.root (λ g. ⊤) }
        ensures pruned { OnOk result (OfThing P.tells objects_owner hung_root (P.blocks pages.old) self.old.tree.root (λ g. Becomes objects_owner hung_root objects_versions (P.blocks pages.old) g (P.blocks pages.new) self.new.tree.root (λ vs ws. ws ≡ pruned_at path.now gone.now vs))) }
        ensures turns { OnOk result (OfThing P.tells objects_owner hung_root (P.blocks pages.old) self.old.tree.root (λ g. Turned RemoveTurn removed_each (pruned_names path.now gone.now (objects_versions g)) (P.blocks pages.old) g (P.blocks pages.new) self.new.tree.root)) }
        ensures kept { self.new ≡ self.old }
        ensures too_much { IsErrOf result SettleNo.TooMuch → OfThing P.tells objects_owner hung_root (P.blocks pages.old) self.old.tree.root (λ g. (d : ℕ) → PathsAreSmall d (pruned_names path.now gone.now (objects_versions g)) g → Lacks (each_cost (pruned_names path.now gone.now (objects_versions g)) (for_one d) 1) d (P.budget pages.old)) }
        ensures few_left { IsErrOf result SettleNo.TooMuch → OfThing P.tells objects_owner hung_root (P.blocks pages.old) self.old.tree.root (λ g. (d : ℕ) → PathsAreSmall d (pruned_names path.now gone.now (objects_versions g)) g → IsShort d (P.budget pages.new)) }
        ensures staged { OnOk result (OfThing P.tells objects_owner hung_root (P.blocks pages.old) self.old.tree.root (λ g. (d : ℕ) → PathsAreSmall d (pruned_names path.now gone.now (objects_versions g)) g → Spends (each_cost (pruned_names path.now gone.now (objects_versions g)) (for_one d) 1) (P.budget pages.old) (P.budget pages.new))) }
        ensures gives { OnOk result (OfThing P.tells objects_owner hung_root (P.blocks pages.old) self.old.tree.root (λ g. (P.budget pages.old).free + pruned_freed path.now gone.now (objects_versions g) ≤ (P.budget pages.new).free)) }
        ensures memory { IsErrOf result SettleNo.Memory → (IsTrue P.tells → P.blocks pages.new ≡ P.blocks pages.old) × (P.budget pages.new ≡ P.budget pages.old) }
        ensures goes { Goes P.stopped P.count P.burns pages.old pages.new }
        ensures stopped { IsErrOf result SettleNo.Stopped → P.stopped pages.new ≡ true }
        ensures went_on { OnOk result (P.stopped pages.new ≡ P.stopped pages.old) }
    {
        let wanted = Wanted {
            updates: true,
            change: Some(Change::Prune),
            moments: Some(gone),
            under: Some(path),
        };
        let names = list_names(self.tree, pages, alloc, &wanted, steps)?;
        Ok(self.remove_each(pages, &names, steps)?)
    }
}
