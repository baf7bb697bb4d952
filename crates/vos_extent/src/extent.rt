// The extents of an array, in a tree with a chain of bytes for each.
ghost use Rattle.std.specs.Prelude.{◌≡◌, ◌≤◌, ◌<◌, ◌+◌, true, false, OnOk, IsErrOf, ⊤, length};
ghost use Rattle.pmem_pages.specs.Blocks.{IsSpent};
ghost use Rattle.pmem_pages.specs.Node.{IsKey};
ghost use Rattle.vos_moments.specs.pmem_tree.Calls.{StepsAtMost, TooFew};
ghost use Rattle.vos_moments.specs.pmem_tree_base.Calls.{Goes};
ghost use Rattle.vos_moments.specs.pmem_tree_base.declared.refusal.TreeNo.{TreeNo};
ghost use Rattle.vos_values.specs.Keys.{IsExtentKey, extent_key};
ghost use Rattle.vos_moments.specs.vos_levels.Calls.{Becomes, HasThing, OfThing};
ghost use Rattle.vos_moments.specs.vos_levels.Changes.{keeps};
ghost use Rattle.vos_moments.specs.vos_levels.Levels.{HasMore, hung_root, things};
ghost use Rattle.vos_versions.specs.vos_chain.Made.{chain_blocks};
ghost use Rattle.vos_versions.specs.Marks.{StagesFor, StagesLess, TooFewFor};
ghost use Rattle.vos_extent.specs.Extents.{IsChangedAt, extent_owner, extents, freed_at, has_extent_at, new_extent};

use base_types::epoch::Epoch;
use base_types::id::AttemptId;
use base_types::items::Vec8;
use pmem_pages::pages::Pages;
use pmem_pages::steps::Steps;
use std::sync::ledger::Ledger;
use vos_moments::below::levels::change::Change;
use vos_moments::below::tree::tree::Tree;
use vos_moments::below::tree::{TreeKey, TreeNo};
use vos_values::keys::{ExtentKey, extent_key};
use vos_versions::versions::{add, change_at};

/// An extent: the index of its first record, when it was written, whose it is, whether it is done, and the
/// bytes of its records.
#[derive(Drop)]
pub struct ExtentVersion {
    pub low: u32,
    pub epoch: Epoch,
    pub minor: u8,
    pub by: AttemptId,
    pub done: bool,
    pub bytes: Vec8,
}

/// The extents of an array: a tree of the kind of extents.
#[derive(Clone, Copy)]
pub struct Extents {
    pub tree: Tree,
}

// The key of a place.
fn key_at(at: ExtentKey) -> TreeKey
    requires minor { at.minor < 64 }
    ensures key { result ≡ extent_key at }
    ensures is { IsKey result }
    ensures place { IsExtentKey at }
{
    extent_key(at)
}

impl Extents {
    /// Adds an unsettled extent, where there is none of its place: its first index, epoch and number.
    ///
    /// # Errors
    ///
    /// `NoBlock` comes only where fewer blocks are free than the bytes need and one more. `TooMuch` comes
    /// only where fewer ranges or bytes are left to stage than the chain and the tree may want, and
    /// `Stopped` only where the pages answered it. After `TooMuch` fewer are left than one change of
    /// the tree may want. After one the stage has to be dropped.
    pub fn add<P: Pages, L: Ledger>(
        &mut self,
        pages: &mut P,
        at: ExtentKey,
        by: AttemptId,
        bytes: &[u8],
        steps: &mut Steps<L>,
    ) -> Result<(), TreeNo>
        requires kind { self.old.tree.kind ≡ 6 }
        requires minor { at.minor < 64 }
        requires some { 1 ≤ length bytes.now }
        requires most { length bytes.now ≤ 1024 }
        requires here { HasThing P.tells extent_owner hung_root (P.blocks pages.old) self.old.tree.root (λ g. has_extent_at at (things g) ≡ false) }
        ensures added { OnOk result (OfThing P.tells extent_owner hung_root (P.blocks pages.old) self.old.tree.root (λ g. has_extent_at at (things g) ≡ false → Becomes extent_owner hung_root extents (P.blocks pages.old) g (P.blocks pages.new) self.new.tree.root (HasMore (new_extent at by bytes.now)))) }
        ensures kind { self.new.tree.kind ≡ 6 }
        ensures no_block { IsErrOf result TreeNo.NoBlock → (P.budget pages.old).free < chain_blocks (length bytes.now) + 1 }
        ensures too_much { IsErrOf result TreeNo.TooMuch → OfThing P.tells extent_owner hung_root (P.blocks pages.old) self.old.tree.root (λ g. has_extent_at at (things g) ≡ false → TooFewFor (chain_blocks (length bytes.now)) g.0 (P.budget pages.old)) }
        ensures few_left { IsErrOf result TreeNo.TooMuch → OfThing P.tells extent_owner hung_root (P.blocks pages.old) self.old.tree.root (λ g. has_extent_at at (things g) ≡ false → TooFew g.0 (P.budget pages.new)) }
        ensures steps { OfThing P.tells extent_owner hung_root (P.blocks pages.old) self.old.tree.root (λ g. StepsAtMost 16 16 g.0 steps.old steps.new) }
        ensures staged { OnOk result (OfThing P.tells extent_owner hung_root (P.blocks pages.old) self.old.tree.root (λ g. has_extent_at at (things g) ≡ false → StagesFor (chain_blocks (length bytes.now)) g.0 (P.budget pages.old) (P.budget pages.new))) }
        ensures free { OnOk result ((P.budget pages.new).free + (chain_blocks (length bytes.now) + 1) ≡ (P.budget pages.old).free) }
        ensures goes { Goes P.stopped P.count P.burns pages.old pages.new }
        ensures stopped { IsErrOf result TreeNo.Stopped → P.stopped pages.new ≡ true }
        ensures went_on { OnOk result (P.stopped pages.new ≡ P.stopped pages.old) }
    {
        let key = key_at(at);
        add(&mut self.tree, pages, &key, by, bytes, steps)
    }

    /// Settles or prunes the extent of a place: a commit makes it done, where it is an unsettled one of the
    /// attempt; an abort removes such a one, and a prune one that is done. Any other extent stays.
    ///
    /// # Errors
    ///
    /// `TooMuch` comes only where fewer ranges or bytes are left to stage than the tree may want, `Stopped`
    /// only where the pages answered it, and `NoBlock` never. After `TooMuch` fewer are left than one
    /// change of the tree may want. After one the stage has to be dropped.
    pub fn change_at<P: Pages, L: Ledger>(
        &mut self,
        pages: &mut P,
        at: ExtentKey,
        change: Change,
        steps: &mut Steps<L>,
    ) -> Result<(), TreeNo>
        requires kind { self.old.tree.kind ≡ 6 }
        requires minor { at.minor < 64 }
        requires here { HasThing P.tells extent_owner hung_root (P.blocks pages.old) self.old.tree.root (λ g. ⊤) }
        ensures changed { OnOk result (OfThing P.tells extent_owner hung_root (P.blocks pages.old) self.old.tree.root (λ g. Becomes extent_owner hung_root extents (P.blocks pages.old) g (P.blocks pages.new) self.new.tree.root (IsChangedAt change at))) }
        ensures kind { self.new.tree.kind ≡ 6 }
        ensures no_block { IsErrOf result TreeNo.NoBlock → ⊥ }
        ensures too_much { IsErrOf result TreeNo.TooMuch → OfThing P.tells extent_owner hung_root (P.blocks pages.old) self.old.tree.root (λ g. TooFew g.0 (P.budget pages.old)) }
        ensures few_left { IsErrOf result TreeNo.TooMuch → OfThing P.tells extent_owner hung_root (P.blocks pages.old) self.old.tree.root (λ g. TooFew g.0 (P.budget pages.new)) }
        ensures steps { OfThing P.tells extent_owner hung_root (P.blocks pages.old) self.old.tree.root (λ g. StepsAtMost 18 21 g.0 steps.old steps.new) }
        ensures staged { OnOk result (OfThing P.tells extent_owner hung_root (P.blocks pages.old) self.old.tree.root (λ g. StagesLess g.0 (P.budget pages.old) (P.budget pages.new))) }
        ensures root { keeps change ≡ true → self.new.tree.root ≡ self.old.tree.root }
        ensures committed { keeps change ≡ true → IsSpent 1 256 (P.budget pages.old) (P.budget pages.new) }
        ensures free { OnOk result (OfThing P.tells extent_owner hung_root (P.blocks pages.old) self.old.tree.root (λ g. (P.budget pages.new).free ≡ (P.budget pages.old).free + freed_at change at (extents g))) }
        ensures goes { Goes P.stopped P.count P.burns pages.old pages.new }
        ensures stopped { IsErrOf result TreeNo.Stopped → P.stopped pages.new ≡ true }
        ensures went_on { OnOk result (P.stopped pages.new ≡ P.stopped pages.old) }
    {
        let key = key_at(at);
        change_at(&mut self.tree, pages, &key, change, steps)
    }
}
