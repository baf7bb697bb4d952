// Extents are settled or pruned by their moments.
ghost use Rattle.std.specs.Prelude.{◌≡◌, ◌<◌, ◌+◌, true, OnOk, OnErr, IfOk, IsErrOf, IsTrue, ⊤};
ghost use Rattle.std.specs.List.{find};
ghost use Rattle.std.specs.Option.{option_map};
ghost use Rattle.base_types.specs.declared.entry.Settle.TheVariants.{Commit as commit_step};
ghost use Rattle.pmem_pages.specs.Node.{IsKey};
ghost use Rattle.vos_moments.specs.pmem_tree.Calls.{TooFew};
ghost use Rattle.vos_moments.specs.pmem_tree_base.Calls.{Goes};
ghost use Rattle.vos_moments.specs.pmem_tree_base.declared.refusal.TreeNo.{TreeNo};
ghost use Rattle.vos_moments.specs.vos_levels.Calls.{Becomes, HasThing, OfThing};
ghost use Rattle.vos_moments.specs.vos_levels.Levels.{hung_root};
ghost use Rattle.vos_moments.specs.Steps.{decides};
ghost use Rattle.vos_moments.specs.Taking.{PutsAtMost, RemovesAtMost, TooFewToRemove, number_of};
ghost use Rattle.vos_extent.specs.Extents.{extent_owner, extents, place_of};
ghost use Rattle.vos_extent.specs.Settling.{TookExtents, is_next_taken, is_over, is_pruned_at, is_settled_at, is_taken_at, is_wanted, pruned_at, pruned_freed, settled_at, settled_freed};

use crate::extent::Extents;
use crate::pieces::{Placed, key_at, start_key};
use base_types::entry::Settle;
use base_types::id::AttemptId;
use pmem_pages::pages::Pages;
use pmem_pages::steps::Steps;
use std::sync::ledger::Ledger;
use vos_moments::below::levels::change::Change;
use vos_moments::below::tree::{TreeKey, TreeNo};
use vos_moments::moments::has_moment;
use vos_moments::steps::change_of;
use vos_values::keys::{ExtentKey, Moment};

// There are no more block numbers, so no tree has more pairs.
const PAIRS: u64 = 1 << 32;

// Whether a change takes an extent, and its moment is among some.
fn is_wanted(change: Change, which: &[Moment], placed: &Placed) -> bool
    ensures { result ≡ is_wanted change which.now placed.now }
{
    let moment = Moment {
        epoch: placed.at.epoch,
        minor: placed.at.minor,
    };
    has_moment(which, moment) && change.takes(placed.mark.by, placed.mark.done)
}

impl Extents {
    // Settles or prunes the first extent above a key, if it is wanted, and says where it begins and when it was
    // written.
    fn change_next<P: Pages, L: Ledger>(
        &mut self,
        pages: &mut P,
        key: &TreeKey,
        which: &[Moment],
        change: Change,
        steps: &mut Steps<L>,
    ) -> Result<Option<ExtentKey>, TreeNo>
        requires kind { self.old.tree.kind ≡ 6 }
        requires key { IsKey key.now }
        requires here { HasThing P.tells extent_owner hung_root (P.blocks pages.old) self.old.tree.root (λ g. ⊤) }
        ensures next { IfOk result (λ o. OfThing P.tells extent_owner hung_root (P.blocks pages.old) self.old.tree.root (λ g. o ≡ option_map place_of (find (is_over key.now) (extents g)))) }
        ensures took { OnOk result (OfThing P.tells extent_owner hung_root (P.blocks pages.old) self.old.tree.root (λ g. TookExtents change (is_next_taken change which.now (find (is_over key.now) (extents g))) (P.blocks pages.old) g (P.budget pages.old) (P.blocks pages.new) self.new.tree.root (P.budget pages.new))) }
        ensures kind { self.new.tree.kind ≡ 6 }
        ensures no_block { IsErrOf result TreeNo.NoBlock → ⊥ }
        ensures too_much { IsErrOf result TreeNo.TooMuch → OfThing P.tells extent_owner hung_root (P.blocks pages.old) self.old.tree.root (λ g. TooFew g.0 (P.budget pages.old)) }
        ensures few_left { IsErrOf result TreeNo.TooMuch → OfThing P.tells extent_owner hung_root (P.blocks pages.old) self.old.tree.root (λ g. TooFew g.0 (P.budget pages.new)) }
        ensures goes { Goes P.stopped P.count P.burns pages.old pages.new }
        ensures stopped { IsErrOf result TreeNo.Stopped → P.stopped pages.new ≡ true }
        ensures went_on { OnOk result (P.stopped pages.new ≡ P.stopped pages.old) }
    {
        let Some(placed) = self.next_over(pages, key, steps)? else {
            return Ok(None);
        };
        if !is_wanted(change, which, &placed) {
            return Ok(Some(placed.at));
        }
        self.change_at(pages, placed.at, change, steps)?;
        Ok(Some(placed.at))
    }

    // Settles or prunes the extents of some moments, one after another.
    fn change_those<P: Pages, L: Ledger>(
        &mut self,
        pages: &mut P,
        which: &[Moment],
        change: Change,
        steps: &mut Steps<L>,
    ) -> Result<(), TreeNo>
        requires kind { self.old.tree.kind ≡ 6 }
        requires here { HasThing P.tells extent_owner hung_root (P.blocks pages.old) self.old.tree.root (λ g. ⊤) }
        ensures took { OnOk result (OfThing P.tells extent_owner hung_root (P.blocks pages.old) self.old.tree.root (λ g. TookExtents change (is_taken_at change which.now) (P.blocks pages.old) g (P.budget pages.old) (P.blocks pages.new) self.new.tree.root (P.budget pages.new))) }
        ensures kind { self.new.tree.kind ≡ 6 }
        ensures no_block { IsErrOf result TreeNo.NoBlock → ⊥ }
        ensures too_much { IsErrOf result TreeNo.TooMuch → OfThing P.tells extent_owner hung_root (P.blocks pages.old) self.old.tree.root (λ g. TooFewToRemove (number_of (is_taken_at change which.now) (extents g)) 5 g.0 (P.budget pages.old)) }
        ensures few_left { IsErrOf result TreeNo.TooMuch → OfThing P.tells extent_owner hung_root (P.blocks pages.old) self.old.tree.root (λ g. TooFew g.0 (P.budget pages.new)) }
        ensures goes { Goes P.stopped P.count P.burns pages.old pages.new }
        ensures stopped { IsErrOf result TreeNo.Stopped → P.stopped pages.new ≡ true }
        ensures went_on { OnOk result (P.stopped pages.new ≡ P.stopped pages.old) }
    {
        let mut key = start_key(0);
        for _ in 0..PAIRS {
            let Some(at) = self.change_next(pages, &key, which, change, steps)? else {
                return Ok(());
            };
            key = key_at(at);
        }
        Ok(())
    }

    /// Settles the unsettled extents of an attempt that have these epochs and numbers, and no others: `Commit`
    /// makes them done, `Abort` takes them out with their bytes. Several may
    /// have one moment, at different first indexes: so all extents are passed, and no memory is taken.
    ///
    /// # Errors
    ///
    /// `TooMuch` comes only where fewer ranges or bytes are left to stage than these and one change of the tree
    /// may want, `Stopped` only where the pages answered it, and `NoBlock` never. After `TooMuch` fewer are left
    /// than one change of the tree may want. After one the stage has to be dropped.
    pub fn settle<P: Pages, L: Ledger>(
        &mut self,
        pages: &mut P,
        attempt: AttemptId,
        which: &[Moment],
        step: Settle,
        steps: &mut Steps<L>,
    ) -> Result<(), TreeNo>
        requires step { decides step ≡ true }
        requires kind { self.old.tree.kind ≡ 6 }
        requires here { HasThing P.tells extent_owner hung_root (P.blocks pages.old) self.old.tree.root (λ g. ⊤) }
        ensures settled { OnOk result (OfThing P.tells extent_owner hung_root (P.blocks pages.old) self.old.tree.root (λ g. Becomes extent_owner hung_root extents (P.blocks pages.old) g (P.blocks pages.new) self.new.tree.root (λ vs ws. ws ≡ settled_at attempt which.now step vs))) }
        ensures kind { self.new.tree.kind ≡ 6 }
        ensures no_block { IsErrOf result TreeNo.NoBlock → ⊥ }
        ensures too_much { IsErrOf result TreeNo.TooMuch → OfThing P.tells extent_owner hung_root (P.blocks pages.old) self.old.tree.root (λ g. TooFewToRemove (number_of (is_settled_at attempt which.now) (extents g)) 5 g.0 (P.budget pages.old)) }
        ensures few_left { IsErrOf result TreeNo.TooMuch → OfThing P.tells extent_owner hung_root (P.blocks pages.old) self.old.tree.root (λ g. TooFew g.0 (P.budget pages.new)) }
        ensures staged { OnOk result (OfThing P.tells extent_owner hung_root (P.blocks pages.old) self.old.tree.root (λ g. RemovesAtMost (number_of (is_settled_at attempt which.now) (extents g)) 5 g.0 (P.budget pages.old) (P.budget pages.new))) }
        ensures committed { step ≡ commit_step → OnOk result (OfThing P.tells extent_owner hung_root (P.blocks pages.old) self.old.tree.root (λ g. PutsAtMost (number_of (is_settled_at attempt which.now) (extents g)) (P.budget pages.old) (P.budget pages.new))) }
        ensures root { step ≡ commit_step → OnOk result (IsTrue P.tells → self.new.tree.root ≡ self.old.tree.root) }
        ensures free { OnOk result (OfThing P.tells extent_owner hung_root (P.blocks pages.old) self.old.tree.root (λ g. (P.budget pages.new).free ≡ (P.budget pages.old).free + settled_freed attempt which.now step (extents g))) }
        ensures goes { Goes P.stopped P.count P.burns pages.old pages.new }
        ensures stopped { IsErrOf result TreeNo.Stopped → P.stopped pages.new ≡ true }
        ensures went_on { OnOk result (P.stopped pages.new ≡ P.stopped pages.old) }
    {
        self.change_those(pages, which, change_of(attempt, step), steps)
    }

    /// Takes the done extents out that have these epochs and numbers, and no others, with their bytes.
    ///
    /// # Errors
    ///
    /// As `settle`.
    pub fn prune<P: Pages, L: Ledger>(
        &mut self,
        pages: &mut P,
        gone: &[Moment],
        steps: &mut Steps<L>,
    ) -> Result<(), TreeNo>
        requires kind { self.old.tree.kind ≡ 6 }
        requires here { HasThing P.tells extent_owner hung_root (P.blocks pages.old) self.old.tree.root (λ g. ⊤) }
        ensures pruned { OnOk result (OfThing P.tells extent_owner hung_root (P.blocks pages.old) self.old.tree.root (λ g. Becomes extent_owner hung_root extents (P.blocks pages.old) g (P.blocks pages.new) self.new.tree.root (λ vs ws. ws ≡ pruned_at gone.now vs))) }
        ensures kind { self.new.tree.kind ≡ 6 }
        ensures no_block { IsErrOf result TreeNo.NoBlock → ⊥ }
        ensures too_much { IsErrOf result TreeNo.TooMuch → OfThing P.tells extent_owner hung_root (P.blocks pages.old) self.old.tree.root (λ g. TooFewToRemove (number_of (is_pruned_at gone.now) (extents g)) 5 g.0 (P.budget pages.old)) }
        ensures few_left { IsErrOf result TreeNo.TooMuch → OfThing P.tells extent_owner hung_root (P.blocks pages.old) self.old.tree.root (λ g. TooFew g.0 (P.budget pages.new)) }
        ensures staged { OnOk result (OfThing P.tells extent_owner hung_root (P.blocks pages.old) self.old.tree.root (λ g. RemovesAtMost (number_of (is_pruned_at gone.now) (extents g)) 5 g.0 (P.budget pages.old) (P.budget pages.new))) }
        ensures free { OnOk result (OfThing P.tells extent_owner hung_root (P.blocks pages.old) self.old.tree.root (λ g. (P.budget pages.new).free ≡ (P.budget pages.old).free + pruned_freed gone.now (extents g))) }
        ensures goes { Goes P.stopped P.count P.burns pages.old pages.new }
        ensures stopped { IsErrOf result TreeNo.Stopped → P.stopped pages.new ≡ true }
        ensures went_on { OnOk result (P.stopped pages.new ≡ P.stopped pages.old) }
    {
        self.change_those(pages, gone, Change::Prune, steps)
    }
}
