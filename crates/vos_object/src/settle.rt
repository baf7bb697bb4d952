// Settling and pruning of objects, one write at a time.
ghost use Rattle.std.specs.Prelude.{◌≡◌, ◌≤◌, ◌+◌, true, ℕ, OnOk, IsErrOf, ⊤};
ghost use Rattle.base_types.specs.declared.entry.Settle.TheVariants.{Commit as commit_step};
ghost use Rattle.pmem_tree.specs.Calls.{IsShort};
ghost use Rattle.pmem_tree_base.specs.Calls.{Goes};
ghost use Rattle.pmem_tree_base.specs.declared.refusal.TreeNo.{TreeNo};
ghost use Rattle.vos_levels.specs.Calls.{HasThing, OfThing};
ghost use Rattle.vos_levels.specs.Levels.{hung_root};
ghost use Rattle.vos_path.specs.Objects.{objects_owner, objects_versions};
ghost use Rattle.vos_path.specs.Small.{PathIsSmall};
ghost use Rattle.vos_settle.specs.Costs.{Lacks, Spends, for_one, objects_cost};
ghost use Rattle.vos_settle.specs.Versions.{WriteTurn, versions_freed, write_freed};
ghost use Rattle.vos_prune.specs.Removals.{Removed, done_blocks, removed_freed};
ghost use Rattle.vos_prune.specs.Writers.{writer_of};
ghost use Rattle.vos_settle.specs.Names.{IsNamed, moment_of};
ghost use Rattle.vos_object.specs.Settling.{change_of, decides, settling};

use crate::object::Objects;
use base_types::entry::Settle;
use base_types::id::AttemptId;
use pmem_pages::pages::Pages;
use pmem_pages::steps::Steps;
use pmem_tree::TreeNo;
use std::sync::ledger::Ledger;
use vos_levels::change::Change;
use vos_prune::remove::remove_write;
use vos_settle::name::WriteName;
use vos_settle::task::Task;
use vos_settle::write::change_write;

/// What a step makes of the versions of an attempt.
pub(crate) fn change_of(attempt: AttemptId, step: Settle) -> Change
    ensures { result ≡ change_of attempt step }
{
    match step {
        Settle::Commit => Change::Commit(attempt),
        Settle::Abort | Settle::Confirm(_) | Settle::Forget => Change::Abort(attempt),
    }
}

impl Objects {
    /// Settles the version of one write of an attempt, where it is there and unsettled, and the unsettled
    /// creations that the attempt has of it: `Commit` makes them done, `Abort` takes them out, with the
    /// version's bytes. All other versions and entries stay, and so do objects, dkeys and akeys.
    ///
    /// # Errors
    ///
    /// `TooMuch` comes only where fewer ranges or bytes are left to stage than its entries and one change of
    /// the largest tree may want, `Stopped` only where the pages answered it, and `NoBlock` never. After `TooMuch`
    /// fewer are left than one change of the largest tree may want. After one the stage has to be
    /// dropped.
    pub fn settle_write<P: Pages, L: Ledger>(
        &mut self,
        pages: &mut P,
        attempt: AttemptId,
        name: &WriteName,
        step: Settle,
        steps: &mut Steps<L>,
    ) -> Result<(), TreeNo>
        requires step { decides step ≡ true }
        requires kind { self.old.tree.kind ≡ 1 }
        requires name { IsNamed name.now }
        requires here { HasThing P.tells objects_owner hung_root (P.blocks pages.old) self.old.tree.root (λ g. ⊤) }
        ensures settled { OnOk result (OfThing P.tells objects_owner hung_root (P.blocks pages.old) self.old.tree.root (λ g. WriteTurn (settling attempt name.now step) name.now.path (P.blocks pages.old) g (P.blocks pages.new) self.new.tree.root)) }
        ensures kept { self.new ≡ self.old }
        ensures no_block { IsErrOf result TreeNo.NoBlock → ⊥ }
        ensures too_much { IsErrOf result TreeNo.TooMuch → OfThing P.tells objects_owner hung_root (P.blocks pages.old) self.old.tree.root (λ g. (d : ℕ) → PathIsSmall d name.now.path g → Lacks (objects_cost name.now.kind name.now.path.dkey name.now.path.akey (for_one d) 1) d (P.budget pages.old)) }
        ensures few_left { IsErrOf result TreeNo.TooMuch → OfThing P.tells objects_owner hung_root (P.blocks pages.old) self.old.tree.root (λ g. (d : ℕ) → PathIsSmall d name.now.path g → IsShort d (P.budget pages.new)) }
        ensures staged { OnOk result (OfThing P.tells objects_owner hung_root (P.blocks pages.old) self.old.tree.root (λ g. (d : ℕ) → PathIsSmall d name.now.path g → Spends (objects_cost name.now.kind name.now.path.dkey name.now.path.akey (for_one d) 1) (P.budget pages.old) (P.budget pages.new))) }
        ensures committed { step ≡ commit_step → OnOk result (Spends (objects_cost name.now.kind name.now.path.dkey name.now.path.akey 1 0) (P.budget pages.old) (P.budget pages.new)) }
        ensures free { OnOk result (OfThing P.tells objects_owner hung_root (P.blocks pages.old) self.old.tree.root (λ g. (P.budget pages.new).free ≡ (P.budget pages.old).free + write_freed (settling attempt name.now step) name.now.path g)) }
        ensures gives { OnOk result (OfThing P.tells objects_owner hung_root (P.blocks pages.old) self.old.tree.root (λ g. (P.budget pages.old).free + versions_freed (settling attempt name.now step) name.now.path (objects_versions g) ≤ (P.budget pages.new).free)) }
        ensures goes { Goes P.stopped P.count P.burns pages.old pages.new }
        ensures stopped { IsErrOf result TreeNo.Stopped → P.stopped pages.new ≡ true }
        ensures went_on { OnOk result (P.stopped pages.new ≡ P.stopped pages.old) }
    {
        let task = Task {
            kind: name.kind,
            at: name.moment(),
            by: attempt,
            change: change_of(attempt, step),
        };
        change_write(&mut self.tree, pages, task, &name.path, steps)
    }

    /// Takes the done version of one write out, where it is there, with its bytes, and the done creations
    /// that its attempt has of it. All other versions and entries stay, and so do objects, dkeys and akeys.
    ///
    /// # Errors
    ///
    /// As `settle_write`.
    pub fn remove_write<P: Pages, L: Ledger>(
        &mut self,
        pages: &mut P,
        name: &WriteName,
        steps: &mut Steps<L>,
    ) -> Result<(), TreeNo>
        requires kind { self.old.tree.kind ≡ 1 }
        requires name { IsNamed name.now }
        requires here { HasThing P.tells objects_owner hung_root (P.blocks pages.old) self.old.tree.root (λ g. ⊤) }
        ensures removed { OnOk result (OfThing P.tells objects_owner hung_root (P.blocks pages.old) self.old.tree.root (λ g. Removed (writer_of name.now.path name.now.kind (moment_of name.now) (objects_versions g)) name.now.kind (moment_of name.now) name.now.path (P.blocks pages.old) g (P.blocks pages.new) self.new.tree.root)) }
        ensures kept { self.new ≡ self.old }
        ensures no_block { IsErrOf result TreeNo.NoBlock → ⊥ }
        ensures too_much { IsErrOf result TreeNo.TooMuch → OfThing P.tells objects_owner hung_root (P.blocks pages.old) self.old.tree.root (λ g. (d : ℕ) → PathIsSmall d name.now.path g → Lacks (objects_cost name.now.kind name.now.path.dkey name.now.path.akey (for_one d) 1) d (P.budget pages.old)) }
        ensures few_left { IsErrOf result TreeNo.TooMuch → OfThing P.tells objects_owner hung_root (P.blocks pages.old) self.old.tree.root (λ g. (d : ℕ) → PathIsSmall d name.now.path g → IsShort d (P.budget pages.new)) }
        ensures staged { OnOk result (OfThing P.tells objects_owner hung_root (P.blocks pages.old) self.old.tree.root (λ g. (d : ℕ) → PathIsSmall d name.now.path g → Spends (objects_cost name.now.kind name.now.path.dkey name.now.path.akey (for_one d) 1) (P.budget pages.old) (P.budget pages.new))) }
        ensures free { OnOk result (OfThing P.tells objects_owner hung_root (P.blocks pages.old) self.old.tree.root (λ g. (P.budget pages.new).free ≡ (P.budget pages.old).free + removed_freed (writer_of name.now.path name.now.kind (moment_of name.now) (objects_versions g)) name.now.kind (moment_of name.now) name.now.path g)) }
        ensures gives { OnOk result (OfThing P.tells objects_owner hung_root (P.blocks pages.old) self.old.tree.root (λ g. (P.budget pages.old).free + done_blocks name.now.path name.now.kind (moment_of name.now) (objects_versions g) ≤ (P.budget pages.new).free)) }
        ensures goes { Goes P.stopped P.count P.burns pages.old pages.new }
        ensures stopped { IsErrOf result TreeNo.Stopped → P.stopped pages.new ≡ true }
        ensures went_on { OnOk result (P.stopped pages.new ≡ P.stopped pages.old) }
    {
        let at = name.moment();
        remove_write(&mut self.tree, pages, &name.path, name.kind, at, steps)
    }
}
