// The versions of a single value, in a tree with a chain of bytes for each.
ghost use Rattle.std.specs.Prelude.{◌≡◌, ◌≤◌, ◌<◌, ◌+◌, true, false, IfOk, OnOk, OnErr, IsErrOf, IsTrue, IfSome, ⊤, length};
ghost use Rattle.std.specs.Option.{option_and_then, option_map};
ghost use Rattle.pmem_pages.specs.Blocks.{IsSpent};
ghost use Rattle.pmem_pages.specs.Node.{IsKey};
ghost use Rattle.pmem_pages.specs.Shape.{entries, first_above};
ghost use Rattle.vos_moments.specs.pmem_tree.Calls.{StepsAtMost, TooFew};
ghost use Rattle.vos_moments.specs.pmem_tree_base.Calls.{Goes};
ghost use Rattle.vos_moments.specs.pmem_tree_base.Find.{pair_of};
ghost use Rattle.vos_moments.specs.pmem_tree_base.declared.refusal.TreeNo.{TreeNo};
ghost use Rattle.vos_values.specs.Keys.{IsMoment, moment_key};
ghost use Rattle.vos_moments.specs.vos_levels.Calls.{Becomes, HasThing, OfThing};
ghost use Rattle.vos_moments.specs.vos_levels.Changes.{keeps};
ghost use Rattle.vos_moments.specs.vos_levels.Levels.{HasMore, find_last, hung_root, things};
ghost use Rattle.vos_versions.specs.vos_chain.Made.{chain_blocks};
ghost use Rattle.vos_versions.specs.vos_chain.declared.refusal.PiecesNo.TheVariants.{Stopped as stopped_no};
ghost use Rattle.vos_versions.specs.Marks.{StagesFor, StagesLess, TooFewFor};
ghost use Rattle.vos_single.specs.Reading.{blocks_read};
ghost use Rattle.vos_single.specs.Singles.{IsChangedAt, freed_at, has_version_at, is_under, new_version, placed_in_pair, placed_of, single_owner, start_of, version_of, versions};

use base_types::epoch::Epoch;
use base_types::id::AttemptId;
use base_types::items::Vec8;
use pmem_pages::pages::Pages;
use pmem_pages::refusal::Stopped;
use pmem_pages::steps::Steps;
use std::alloc::Global;
use std::sync::ledger::Ledger;
use vos_moments::below::levels::change::Change;
use vos_moments::below::tree::tree::Tree;
use vos_moments::below::tree::{Pair, TreeKey, TreeNo};
use vos_values::keys::{Moment, moment_key, read_moment};
use vos_values::values::{VersionMark, read_version};
use vos_versions::below::chain::chain::read_chain;
use vos_versions::below::chain::refusal::PiecesNo;
use vos_versions::versions::{add, change_at};

/// A version of a single value: when it was written, whose it is, whether it is done, and its bytes.
#[derive(Drop)]
pub struct SingleVersion {
    pub epoch: Epoch,
    pub minor: u8,
    pub by: AttemptId,
    pub done: bool,
    pub bytes: Vec8,
}

/// When a version was written, and what the tree says of it.
#[derive(Clone, Copy)]
pub struct Placed {
    pub moment: Moment,
    pub mark: VersionMark,
}

/// The versions of a single value: a tree of the kind of single versions.
#[derive(Clone, Copy)]
pub struct Single {
    pub tree: Tree,
}

/// The key of a moment.
pub fn key_at(at: Moment) -> TreeKey
    requires minor { at.minor < 64 }
    ensures key { result ≡ moment_key at }
    ensures is { IsKey result }
    ensures moment { IsMoment at }
{
    moment_key(at)
}

// The first moment of an epoch.
fn start_of(epoch: Epoch) -> Moment
    ensures { result ≡ start_of epoch }
{
    Moment { epoch, minor: 0 }
}

// What a key and a value say, if they say something.
fn placed_of(pair: &Pair) -> Option<Placed>
    ensures placed { result ≡ placed_in_pair pair.now }
    ensures short { IfSome result (λ p. p.mark.length ≤ 1024) }
    ensures minor { IfSome result (λ p. p.moment.minor < 64) }
{
    let moment = read_moment(&pair.key)?;
    let mark = read_version(&pair.value)?;
    Some(Placed { moment, mark })
}

// What a pair says, if there is one and it says something.
fn placed_in(pair: Option<Pair>) -> Option<Placed>
    ensures placed { result ≡ option_and_then placed_in_pair pair }
    ensures short { IfSome result (λ p. p.mark.length ≤ 1024) }
    ensures minor { IfSome result (λ p. p.moment.minor < 64) }
{
    match pair {
        Some(pair) => placed_of(&pair),
        None => None,
    }
}

impl Single {
    /// What the tree says of the first version above a key.
    ///
    /// # Errors
    ///
    /// `Stopped` comes only where the pages answered it.
    pub fn next_over<P: Pages, L: Ledger>(
        &self,
        pages: &mut P,
        key: &TreeKey,
        steps: &mut Steps<L>,
    ) -> Result<Option<Placed>, Stopped>
        requires kind { self.now.tree.kind ≡ 5 }
        requires key { IsKey key.now }
        requires here { HasThing P.tells single_owner hung_root (P.blocks pages.old) self.now.tree.root (λ g. ⊤) }
        ensures found { IfOk result (λ v. OfThing P.tells single_owner hung_root (P.blocks pages.old) self.now.tree.root (λ g. v ≡ option_and_then placed_in_pair (pair_of (first_above key.now (entries g.0))))) }
        ensures minor { IfOk result (λ v. IfSome v (λ p. p.moment.minor < 64)) }
        ensures steps { OfThing P.tells single_owner hung_root (P.blocks pages.old) self.now.tree.root (λ g. StepsAtMost 2 0 g.0 steps.old steps.new) }
        ensures kept { IsTrue P.tells → P.blocks pages.new ≡ P.blocks pages.old }
        ensures budget { P.budget pages.new ≡ P.budget pages.old }
        ensures goes { Goes P.stopped P.count P.burns pages.old pages.new }
        ensures stopped { OnErr result (P.stopped pages.new ≡ true) }
        ensures went_on { OnOk result (P.stopped pages.new ≡ P.stopped pages.old) }
    {
        Ok(placed_in(self.tree.next_after(pages, key, steps)?))
    }

    // What the tree says of the last version before a moment.
    fn last_under<P: Pages, L: Ledger>(
        &self,
        pages: &mut P,
        at: Moment,
        steps: &mut Steps<L>,
    ) -> Result<Option<Placed>, Stopped>
        requires kind { self.now.tree.kind ≡ 5 }
        requires at { at.minor < 64 }
        requires here { HasThing P.tells single_owner hung_root (P.blocks pages.old) self.now.tree.root (λ g. ⊤) }
        ensures found { IfOk result (λ v. OfThing P.tells single_owner hung_root (P.blocks pages.old) self.now.tree.root (λ g. v ≡ option_map placed_of (find_last (is_under at) (things g)))) }
        ensures short { IfOk result (λ v. IfSome v (λ p. p.mark.length ≤ 1024)) }
        ensures steps { OfThing P.tells single_owner hung_root (P.blocks pages.old) self.now.tree.root (λ g. StepsAtMost 2 0 g.0 steps.old steps.new) }
        ensures kept { IsTrue P.tells → P.blocks pages.new ≡ P.blocks pages.old }
        ensures budget { P.budget pages.new ≡ P.budget pages.old }
        ensures goes { Goes P.stopped P.count P.burns pages.old pages.new }
        ensures stopped { OnErr result (P.stopped pages.new ≡ true) }
        ensures went_on { OnOk result (P.stopped pages.new ≡ P.stopped pages.old) }
    {
        let key = key_at(at);
        Ok(placed_in(self.tree.last_below(pages, &key, steps)?))
    }

    /// The version with the greatest epoch and number below an epoch. Looking for it reads at most two nodes for each
    /// binary digit of the number of versions. Beside these the blocks of its bytes are read, at most five, and of no
    /// other version any.
    ///
    /// # Errors
    ///
    /// `Stopped` comes only where the pages answered it.
    pub fn newest<P: Pages, L: Ledger>(
        &self,
        pages: &mut P,
        alloc: Global,
        below: Epoch,
        steps: &mut Steps<L>,
    ) -> Result<Option<SingleVersion>, PiecesNo>
        requires kind { self.now.tree.kind ≡ 5 }
        requires here { HasThing P.tells single_owner hung_root (P.blocks pages.old) self.now.tree.root (λ g. ⊤) }
        ensures found { IfOk result (λ v. OfThing P.tells single_owner hung_root (P.blocks pages.old) self.now.tree.root (λ g. v ≡ option_map version_of (find_last (is_under (start_of below)) (things g)))) }
        ensures steps { OfThing P.tells single_owner hung_root (P.blocks pages.old) self.now.tree.root (λ g. StepsAtMost 2 5 g.0 steps.old steps.new) }
        ensures reads { IfOk result (λ v. OfThing P.tells single_owner hung_root (P.blocks pages.old) self.now.tree.root (λ g. StepsAtMost 2 (blocks_read v) g.0 steps.old steps.new)) }
        ensures kept { IsTrue P.tells → P.blocks pages.new ≡ P.blocks pages.old }
        ensures budget { P.budget pages.new ≡ P.budget pages.old }
        ensures goes { Goes P.stopped P.count P.burns pages.old pages.new }
        ensures stopped { IsErrOf result stopped_no → P.stopped pages.new ≡ true }
        ensures went_on { OnOk result (P.stopped pages.new ≡ P.stopped pages.old) }
    {
        let at = start_of(below);
        let Some(placed) = self.last_under(pages, at, steps)? else {
            return Ok(None);
        };
        let bytes = read_chain(pages, alloc, placed.mark.chain, placed.mark.length, steps)?;
        Ok(Some(SingleVersion {
            epoch: placed.moment.epoch,
            minor: placed.moment.minor,
            by: placed.mark.by,
            done: placed.mark.done,
            bytes,
        }))
    }

    /// Adds an unsettled version, where there is none of its moment.
    ///
    /// # Errors
    ///
    /// `NoBlock` comes only where fewer blocks are free than the bytes need and one more. `TooMuch` comes
    /// only where fewer ranges or bytes are left to stage than the chain and the tree may want, and
    /// `Stopped` only where the pages answered it. After `TooMuch` fewer are left than one change of
    /// the tree may want. After one the stage has to be dropped.
    pub fn add<P: Pages, L: Ledger>(
        &mut self,
        pages: &mut P,
        at: Moment,
        by: AttemptId,
        bytes: &[u8],
        steps: &mut Steps<L>,
    ) -> Result<(), TreeNo>
        requires kind { self.old.tree.kind ≡ 5 }
        requires minor { at.minor < 64 }
        requires some { 1 ≤ length bytes.now }
        requires most { length bytes.now ≤ 1024 }
        requires here { HasThing P.tells single_owner hung_root (P.blocks pages.old) self.old.tree.root (λ g. has_version_at at (things g) ≡ false) }
        ensures added { OnOk result (OfThing P.tells single_owner hung_root (P.blocks pages.old) self.old.tree.root (λ g. has_version_at at (things g) ≡ false → Becomes single_owner hung_root versions (P.blocks pages.old) g (P.blocks pages.new) self.new.tree.root (HasMore (new_version at by bytes.now)))) }
        ensures kind { self.new.tree.kind ≡ 5 }
        ensures no_block { IsErrOf result TreeNo.NoBlock → (P.budget pages.old).free < chain_blocks (length bytes.now) + 1 }
        ensures too_much { IsErrOf result TreeNo.TooMuch → OfThing P.tells single_owner hung_root (P.blocks pages.old) self.old.tree.root (λ g. has_version_at at (things g) ≡ false → TooFewFor (chain_blocks (length bytes.now)) g.0 (P.budget pages.old)) }
        ensures few_left { IsErrOf result TreeNo.TooMuch → OfThing P.tells single_owner hung_root (P.blocks pages.old) self.old.tree.root (λ g. has_version_at at (things g) ≡ false → TooFew g.0 (P.budget pages.new)) }
        ensures steps { OfThing P.tells single_owner hung_root (P.blocks pages.old) self.old.tree.root (λ g. StepsAtMost 16 16 g.0 steps.old steps.new) }
        ensures staged { OnOk result (OfThing P.tells single_owner hung_root (P.blocks pages.old) self.old.tree.root (λ g. has_version_at at (things g) ≡ false → StagesFor (chain_blocks (length bytes.now)) g.0 (P.budget pages.old) (P.budget pages.new))) }
        ensures free { OnOk result ((P.budget pages.new).free + (chain_blocks (length bytes.now) + 1) ≡ (P.budget pages.old).free) }
        ensures goes { Goes P.stopped P.count P.burns pages.old pages.new }
        ensures stopped { IsErrOf result TreeNo.Stopped → P.stopped pages.new ≡ true }
        ensures went_on { OnOk result (P.stopped pages.new ≡ P.stopped pages.old) }
    {
        let key = key_at(at);
        add(&mut self.tree, pages, &key, by, bytes, steps)
    }

    /// Settles or prunes the version of a moment: a commit makes it done, where it is an unsettled one of
    /// the attempt; an abort removes such a one, and a prune one that is done. Any other version stays.
    ///
    /// # Errors
    ///
    /// `TooMuch` comes only where fewer ranges or bytes are left to stage than the tree may want, `Stopped`
    /// only where the pages answered it, and `NoBlock` never. After `TooMuch` fewer are left than one
    /// change of the tree may want. After one the stage has to be dropped.
    pub fn change_at<P: Pages, L: Ledger>(
        &mut self,
        pages: &mut P,
        at: Moment,
        change: Change,
        steps: &mut Steps<L>,
    ) -> Result<(), TreeNo>
        requires kind { self.old.tree.kind ≡ 5 }
        requires minor { at.minor < 64 }
        requires here { HasThing P.tells single_owner hung_root (P.blocks pages.old) self.old.tree.root (λ g. ⊤) }
        ensures changed { OnOk result (OfThing P.tells single_owner hung_root (P.blocks pages.old) self.old.tree.root (λ g. Becomes single_owner hung_root versions (P.blocks pages.old) g (P.blocks pages.new) self.new.tree.root (IsChangedAt change at))) }
        ensures kind { self.new.tree.kind ≡ 5 }
        ensures no_block { IsErrOf result TreeNo.NoBlock → ⊥ }
        ensures too_much { IsErrOf result TreeNo.TooMuch → OfThing P.tells single_owner hung_root (P.blocks pages.old) self.old.tree.root (λ g. TooFew g.0 (P.budget pages.old)) }
        ensures few_left { IsErrOf result TreeNo.TooMuch → OfThing P.tells single_owner hung_root (P.blocks pages.old) self.old.tree.root (λ g. TooFew g.0 (P.budget pages.new)) }
        ensures steps { OfThing P.tells single_owner hung_root (P.blocks pages.old) self.old.tree.root (λ g. StepsAtMost 18 21 g.0 steps.old steps.new) }
        ensures staged { OnOk result (OfThing P.tells single_owner hung_root (P.blocks pages.old) self.old.tree.root (λ g. StagesLess g.0 (P.budget pages.old) (P.budget pages.new))) }
        ensures root { keeps change ≡ true → self.new.tree.root ≡ self.old.tree.root }
        ensures committed { keeps change ≡ true → IsSpent 1 256 (P.budget pages.old) (P.budget pages.new) }
        ensures free { OnOk result (OfThing P.tells single_owner hung_root (P.blocks pages.old) self.old.tree.root (λ g. (P.budget pages.new).free ≡ (P.budget pages.old).free + freed_at change at (versions g))) }
        ensures goes { Goes P.stopped P.count P.burns pages.old pages.new }
        ensures stopped { IsErrOf result TreeNo.Stopped → P.stopped pages.new ≡ true }
        ensures went_on { OnOk result (P.stopped pages.new ≡ P.stopped pages.old) }
    {
        let key = key_at(at);
        change_at(&mut self.tree, pages, &key, change, steps)
    }
}
