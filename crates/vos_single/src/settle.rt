// Versions of a single value are settled or pruned by their moments.
ghost use Rattle.std.specs.Prelude.{◌≡◌, ◌<◌, ◌+◌, true, OnOk, OnErr, IfOk, IsErrOf, IsTrue, ⊤};
ghost use Rattle.std.specs.List.{list_any};
ghost use Rattle.base_types.specs.declared.entry.Settle.TheVariants.{Commit as commit_step};
ghost use Rattle.vos_moments.specs.pmem_tree.Calls.{TooFew};
ghost use Rattle.vos_moments.specs.pmem_tree_base.Calls.{Goes};
ghost use Rattle.vos_moments.specs.pmem_tree_base.declared.refusal.TreeNo.{TreeNo};
ghost use Rattle.vos_moments.specs.vos_levels.Calls.{Becomes, HasThing, OfThing};
ghost use Rattle.vos_moments.specs.vos_levels.Levels.{hung_root};
ghost use Rattle.vos_moments.specs.Steps.{decides};
ghost use Rattle.vos_moments.specs.Taking.{PutsAtMost, RemovesAtMost, TooFewToRemove, number_of};
ghost use Rattle.vos_single.specs.Singles.{is_taken, single_owner, versions};
ghost use Rattle.vos_single.specs.Settling.{TookVersions, is_pruned_at, is_settled_at, is_taken_at, pruned_at, pruned_freed, settled_at, settled_freed, takes_mark};

use crate::single::{Single, key_at};
use base_types::entry::Settle;
use base_types::id::AttemptId;
use pmem_pages::pages::Pages;
use pmem_pages::refusal::Stopped;
use pmem_pages::steps::Steps;
use std::sync::ledger::Ledger;
use vos_moments::below::levels::change::Change;
use vos_moments::below::tree::TreeNo;
use vos_moments::steps::change_of;
use vos_values::keys::Moment;
use vos_values::values::VersionMark;
use vos_versions::versions::find_mark;

// Whether a change takes what a version's mark says, if there is one.
fn takes_mark(change: Change, mark: Option<VersionMark>) -> bool
    ensures { result ≡ takes_mark change mark }
{
    match mark {
        Some(mark) => change.takes(mark.by, mark.done),
        None => false,
    }
}

impl Single {
    // Whether a change takes the version of a moment.
    fn takes_at<P: Pages, L: Ledger>(
        &self,
        pages: &mut P,
        at: Moment,
        change: Change,
        steps: &mut Steps<L>,
    ) -> Result<bool, Stopped>
        requires kind { self.now.tree.kind ≡ 5 }
        requires here { HasThing P.tells single_owner hung_root (P.blocks pages.old) self.now.tree.root (λ g. ⊤) }
        ensures found { IfOk result (λ b. OfThing P.tells single_owner hung_root (P.blocks pages.old) self.now.tree.root (λ g. b ≡ list_any (is_taken change at) (versions g))) }
        ensures minor { IfOk result (λ b. b ≡ true → at.minor < 64) }
        ensures kept { IsTrue P.tells → P.blocks pages.new ≡ P.blocks pages.old }
        ensures budget { P.budget pages.new ≡ P.budget pages.old }
        ensures goes { Goes P.stopped P.count P.burns pages.old pages.new }
        ensures stopped { OnErr result (P.stopped pages.new ≡ true) }
        ensures went_on { OnOk result (P.stopped pages.new ≡ P.stopped pages.old) }
    {
        if at.minor >= 64 {
            return Ok(false);
        }
        let key = key_at(at);
        let mark = find_mark(self.tree, pages, &key, steps)?;
        Ok(takes_mark(change, mark))
    }

    // Settles or prunes the version of a moment, if the change takes it.
    fn change_taken<P: Pages, L: Ledger>(
        &mut self,
        pages: &mut P,
        at: Moment,
        change: Change,
        steps: &mut Steps<L>,
    ) -> Result<(), TreeNo>
        requires kind { self.old.tree.kind ≡ 5 }
        requires here { HasThing P.tells single_owner hung_root (P.blocks pages.old) self.old.tree.root (λ g. ⊤) }
        ensures took { OnOk result (OfThing P.tells single_owner hung_root (P.blocks pages.old) self.old.tree.root (λ g. TookVersions change (is_taken change at) (P.blocks pages.old) g (P.budget pages.old) (P.blocks pages.new) self.new.tree.root (P.budget pages.new))) }
        ensures kind { self.new.tree.kind ≡ 5 }
        ensures no_block { IsErrOf result TreeNo.NoBlock → ⊥ }
        ensures too_much { IsErrOf result TreeNo.TooMuch → OfThing P.tells single_owner hung_root (P.blocks pages.old) self.old.tree.root (λ g. TooFew g.0 (P.budget pages.old)) }
        ensures few_left { IsErrOf result TreeNo.TooMuch → OfThing P.tells single_owner hung_root (P.blocks pages.old) self.old.tree.root (λ g. TooFew g.0 (P.budget pages.new)) }
        ensures goes { Goes P.stopped P.count P.burns pages.old pages.new }
        ensures stopped { IsErrOf result TreeNo.Stopped → P.stopped pages.new ≡ true }
        ensures went_on { OnOk result (P.stopped pages.new ≡ P.stopped pages.old) }
    {
        if !self.takes_at(pages, at, change, steps)? {
            return Ok(());
        }
        self.change_at(pages, at, change, steps)
    }

    // Settles or prunes the versions of some moments, one after another.
    fn change_those<P: Pages, L: Ledger>(
        &mut self,
        pages: &mut P,
        which: &[Moment],
        change: Change,
        steps: &mut Steps<L>,
    ) -> Result<(), TreeNo>
        requires kind { self.old.tree.kind ≡ 5 }
        requires here { HasThing P.tells single_owner hung_root (P.blocks pages.old) self.old.tree.root (λ g. ⊤) }
        ensures took { OnOk result (OfThing P.tells single_owner hung_root (P.blocks pages.old) self.old.tree.root (λ g. TookVersions change (is_taken_at change which.now) (P.blocks pages.old) g (P.budget pages.old) (P.blocks pages.new) self.new.tree.root (P.budget pages.new))) }
        ensures kind { self.new.tree.kind ≡ 5 }
        ensures no_block { IsErrOf result TreeNo.NoBlock → ⊥ }
        ensures too_much { IsErrOf result TreeNo.TooMuch → OfThing P.tells single_owner hung_root (P.blocks pages.old) self.old.tree.root (λ g. TooFewToRemove (number_of (is_taken_at change which.now) (versions g)) 5 g.0 (P.budget pages.old)) }
        ensures few_left { IsErrOf result TreeNo.TooMuch → OfThing P.tells single_owner hung_root (P.blocks pages.old) self.old.tree.root (λ g. TooFew g.0 (P.budget pages.new)) }
        ensures goes { Goes P.stopped P.count P.burns pages.old pages.new }
        ensures stopped { IsErrOf result TreeNo.Stopped → P.stopped pages.new ≡ true }
        ensures went_on { OnOk result (P.stopped pages.new ≡ P.stopped pages.old) }
    {
        for at in which {
            self.change_taken(pages, *at, change, steps)?;
        }
        Ok(())
    }

    /// Settles the unsettled versions of an attempt that have these epochs and numbers, and no others: `Commit`
    /// makes them done, `Abort` takes them out with their bytes.
    ///
    /// # Errors
    ///
    /// `TooMuch` comes only where fewer ranges or bytes are left to stage than these and one change of the tree
    /// may want, `Stopped` only where the pages answered it, and `NoBlock` never. After `TooMuch` fewer are left
    /// than one change of the tree may want. After one the stage has to be dropped.
    pub fn settle<P: Pages, L: Ledger>(
        &mut self,
        pages: &mut P,
        attempt: AttemptId,
        which: &[Moment],
        step: Settle,
        steps: &mut Steps<L>,
    ) -> Result<(), TreeNo>
        requires step { decides step ≡ true }
        requires kind { self.old.tree.kind ≡ 5 }
        requires here { HasThing P.tells single_owner hung_root (P.blocks pages.old) self.old.tree.root (λ g. ⊤) }
        ensures settled { OnOk result (OfThing P.tells single_owner hung_root (P.blocks pages.old) self.old.tree.root (λ g. Becomes single_owner hung_root versions (P.blocks pages.old) g (P.blocks pages.new) self.new.tree.root (λ vs ws. ws ≡ settled_at attempt which.now step vs))) }
        ensures kind { self.new.tree.kind ≡ 5 }
        ensures no_block { IsErrOf result TreeNo.NoBlock → ⊥ }
        ensures too_much { IsErrOf result TreeNo.TooMuch → OfThing P.tells single_owner hung_root (P.blocks pages.old) self.old.tree.root (λ g. TooFewToRemove (number_of (is_settled_at attempt which.now) (versions g)) 5 g.0 (P.budget pages.old)) }
        ensures few_left { IsErrOf result TreeNo.TooMuch → OfThing P.tells single_owner hung_root (P.blocks pages.old) self.old.tree.root (λ g. TooFew g.0 (P.budget pages.new)) }
        ensures staged { OnOk result (OfThing P.tells single_owner hung_root (P.blocks pages.old) self.old.tree.root (λ g. RemovesAtMost (number_of (is_settled_at attempt which.now) (versions g)) 5 g.0 (P.budget pages.old) (P.budget pages.new))) }
        ensures committed { step ≡ commit_step → OnOk result (OfThing P.tells single_owner hung_root (P.blocks pages.old) self.old.tree.root (λ g. PutsAtMost (number_of (is_settled_at attempt which.now) (versions g)) (P.budget pages.old) (P.budget pages.new))) }
        ensures root { step ≡ commit_step → OnOk result (IsTrue P.tells → self.new.tree.root ≡ self.old.tree.root) }
        ensures free { OnOk result (OfThing P.tells single_owner hung_root (P.blocks pages.old) self.old.tree.root (λ g. (P.budget pages.new).free ≡ (P.budget pages.old).free + settled_freed attempt which.now step (versions g))) }
        ensures goes { Goes P.stopped P.count P.burns pages.old pages.new }
        ensures stopped { IsErrOf result TreeNo.Stopped → P.stopped pages.new ≡ true }
        ensures went_on { OnOk result (P.stopped pages.new ≡ P.stopped pages.old) }
    {
        self.change_those(pages, which, change_of(attempt, step), steps)
    }

    /// Takes the done versions out that have these epochs and numbers, and no others, with their bytes.
    ///
    /// # Errors
    ///
    /// As `settle`.
    pub fn prune<P: Pages, L: Ledger>(
        &mut self,
        pages: &mut P,
        gone: &[Moment],
        steps: &mut Steps<L>,
    ) -> Result<(), TreeNo>
        requires kind { self.old.tree.kind ≡ 5 }
        requires here { HasThing P.tells single_owner hung_root (P.blocks pages.old) self.old.tree.root (λ g. ⊤) }
        ensures pruned { OnOk result (OfThing P.tells single_owner hung_root (P.blocks pages.old) self.old.tree.root (λ g. Becomes single_owner hung_root versions (P.blocks pages.old) g (P.blocks pages.new) self.new.tree.root (λ vs ws. ws ≡ pruned_at gone.now vs))) }
        ensures kind { self.new.tree.kind ≡ 5 }
        ensures no_block { IsErrOf result TreeNo.NoBlock → ⊥ }
        ensures too_much { IsErrOf result TreeNo.TooMuch → OfThing P.tells single_owner hung_root (P.blocks pages.old) self.old.tree.root (λ g. TooFewToRemove (number_of (is_pruned_at gone.now) (versions g)) 5 g.0 (P.budget pages.old)) }
        ensures few_left { IsErrOf result TreeNo.TooMuch → OfThing P.tells single_owner hung_root (P.blocks pages.old) self.old.tree.root (λ g. TooFew g.0 (P.budget pages.new)) }
        ensures staged { OnOk result (OfThing P.tells single_owner hung_root (P.blocks pages.old) self.old.tree.root (λ g. RemovesAtMost (number_of (is_pruned_at gone.now) (versions g)) 5 g.0 (P.budget pages.old) (P.budget pages.new))) }
        ensures free { OnOk result (OfThing P.tells single_owner hung_root (P.blocks pages.old) self.old.tree.root (λ g. (P.budget pages.new).free ≡ (P.budget pages.old).free + pruned_freed gone.now (versions g))) }
        ensures goes { Goes P.stopped P.count P.burns pages.old pages.new }
        ensures stopped { IsErrOf result TreeNo.Stopped → P.stopped pages.new ≡ true }
        ensures went_on { OnOk result (P.stopped pages.new ≡ P.stopped pages.old) }
    {
        self.change_those(pages, gone, Change::Prune, steps)
    }
}
