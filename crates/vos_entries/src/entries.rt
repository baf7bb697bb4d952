// The entries of a target, in a tree with a list of nodes for each prepared one.
ghost use Rattle.std.specs.Prelude.{◌≡◌, ◌⊎◌, ◌≤◌, ◌<◌, ◌+◌, ◌*◌, ◌^◌, bit_or, true, false, Some, IfOk, OnOk, OnErr, IsErrOf, IsTrue, ⊤, length};
ghost use Rattle.std.specs.List.{find};
ghost use Rattle.std.specs.Option.{option_and_then, option_map};
ghost use Rattle.pmem_pages.specs.Blocks.{IsSpent};
ghost use Rattle.pmem_pages.specs.Node.{IsKey};
ghost use Rattle.pmem_pages.specs.Shape.{Entry as Pair, entries, entry_at};
ghost use Rattle.vos_versions.specs.pmem_tree.Calls.{HasTree, OfTree, StepsAtMost};
ghost use Rattle.vos_versions.specs.pmem_tree.Changes.{Puts};
ghost use Rattle.vos_versions.specs.pmem_tree_base.Calls.{Goes};
ghost use Rattle.vos_versions.specs.pmem_tree_base.declared.refusal.TreeNo.{TreeNo};
ghost use Rattle.vos_values.specs.Keys.{IsAttempt, attempt_key};
ghost use Rattle.vos_values.specs.Values.{IsEntryMark, entry_in, entry_value};
ghost use Rattle.vos_versions.specs.vos_levels.Calls.{Becomes, HasThing, OfThing};
ghost use Rattle.vos_versions.specs.vos_levels.Levels.{HasMore, hung_root, things};
ghost use Rattle.vos_versions.specs.vos_chain.Made.{chain_blocks};
ghost use Rattle.vos_versions.specs.Marks.{StagesFor, TooFewFor};
ghost use Rattle.vos_entries.specs.Entries.{AreListed, IsCommittedAt, IsConfirmedAt, IsEndedAt, IsGoneAt, IsUnlistedAt, confirmed_mark, ended_mark, entries_owner, entry_blocks_at, has_entry_at, is_at, list_blocks_at, listings, mark_of, mark_with};
ghost use Rattle.vos_entries.specs.Lists.{FewerThan, FewerToRemove, StagesToRemove};

use crate::list::{give_list, write_list};
use base_types::entry::Entry;
use base_types::epoch::TargetId;
use base_types::id::AttemptId;
use pmem_pages::pages::Pages;
use pmem_pages::refusal::Stopped;
use pmem_pages::steps::Steps;
use std::sync::ledger::Ledger;
use vos_values::keys::attempt_key;
use vos_values::values::{EntryMark, entry_value, read_entry};
use vos_versions::below::tree::tree::Tree;
use vos_versions::below::tree::{TreeKey, TreeNo, Value};

/// The entries of a target: a tree of the kind of entries.
#[derive(Clone, Copy)]
pub struct EntryTree {
    pub tree: Tree,
}

// The key of an attempt.
fn key_at(attempt: AttemptId) -> TreeKey
    ensures key { result ≡ attempt_key attempt }
    ensures is { IsKey result }
    ensures attempt { IsAttempt attempt }
{
    attempt_key(attempt)
}

// What the tree says of a prepared entry whose list begins at a block.
fn mark_with(entry: Entry, chain: u32) -> EntryMark
    requires prepared { entry.committed ≡ false }
    ensures mark { result ≡ mark_with entry chain }
    ensures is { IsEntryMark result }
{
    EntryMark {
        committed: entry.committed,
        leader: entry.leader,
        members: entry.members,
        confirmed: entry.confirmed,
        epoch: entry.epoch,
        chain,
    }
}

// Without its list, and committed, or as committed as it was.
fn ended_mark(mark: EntryMark, commits: bool) -> EntryMark
    ensures { result ≡ ended_mark commits mark }
{
    EntryMark {
        committed: commits || mark.committed,
        leader: mark.leader,
        members: mark.members,
        confirmed: mark.confirmed,
        epoch: mark.epoch,
        chain: 0,
    }
}

// Members and one more.
fn with_member(members: u64, target: u8) -> u64
    requires { target < 64 }
    ensures { result ≡ bit_or members (2 ^ target) }
{
    members | (1u64 << target)
}

// With one more confirmed member.
fn confirmed_mark(mark: EntryMark, target: TargetId) -> EntryMark
    requires { target < 64 }
    ensures mark { result ≡ confirmed_mark target mark }
    ensures low { result.confirmed < 2 ^ 64 }
{
    EntryMark {
        committed: mark.committed,
        leader: mark.leader,
        members: mark.members,
        confirmed: with_member(mark.confirmed, target),
        epoch: mark.epoch,
        chain: mark.chain,
    }
}

// What a value says, if there is one and it is that of an entry.
fn mark_in(value: Option<Value>) -> Option<EntryMark>
    ensures { result ≡ option_and_then entry_in value }
{
    match value {
        Some(value) => read_entry(&value),
        None => None,
    }
}

impl EntryTree {
    // What the tree says of the entry of an attempt, if there is one.
    fn find<P: Pages, L: Ledger>(
        &self,
        pages: &mut P,
        attempt: AttemptId,
        steps: &mut Steps<L>,
    ) -> Result<Option<EntryMark>, Stopped>
        requires kind { self.now.tree.kind ≡ 7 }
        requires here { HasThing P.tells entries_owner hung_root (P.blocks pages.old) self.now.tree.root (λ g. ⊤) }
        ensures found { IfOk result (λ o. OfThing P.tells entries_owner hung_root (P.blocks pages.old) self.now.tree.root (λ g. o ≡ option_map mark_of (find (is_at attempt) (things g)))) }
        ensures attempt { IsAttempt attempt }
        ensures steps { OfThing P.tells entries_owner hung_root (P.blocks pages.old) self.now.tree.root (λ g. StepsAtMost 2 0 g.0 steps.old steps.new) }
        ensures kept { IsTrue P.tells → P.blocks pages.new ≡ P.blocks pages.old }
        ensures budget { P.budget pages.new ≡ P.budget pages.old }
        ensures goes { Goes P.stopped P.count P.burns pages.old pages.new }
        ensures stopped { OnErr result (P.stopped pages.new ≡ true) }
        ensures went_on { OnOk result (P.stopped pages.new ≡ P.stopped pages.old) }
    {
        let key = key_at(attempt);
        Ok(mark_in(self.tree.get(pages, &key, steps)?))
    }

    // Puts what the tree says of an attempt that it has.
    fn put_mark<P: Pages, L: Ledger>(
        &mut self,
        pages: &mut P,
        attempt: AttemptId,
        mark: EntryMark,
        steps: &mut Steps<L>,
    ) -> Result<(), TreeNo>
        requires kind { self.old.tree.kind ≡ 7 }
        requires tree { HasTree P.tells (P.blocks pages.old) 7 self.old.tree.root (λ t. (e : Pair) × (entry_at (attempt_key attempt) (entries t) ≡ Some e)) }
        ensures put { OnOk result (OfTree P.tells (P.blocks pages.old) 7 self.old.tree.root (λ t. (e : Pair) → entry_at (attempt_key attempt) (entries t) ≡ Some e → Puts (P.blocks pages.old) 7 t (attempt_key attempt) (entry_value mark) (P.blocks pages.new) self.new.tree.root)) }
        ensures kept { self.new ≡ self.old }
        ensures attempt { IsAttempt attempt }
        ensures no_block { IsErrOf result TreeNo.NoBlock → ⊥ }
        ensures too_much { IsErrOf result TreeNo.TooMuch → ((P.budget pages.old).ranges < 1) ⊎ ((P.budget pages.old).bytes < 256) }
        ensures steps { OfTree P.tells (P.blocks pages.old) 7 self.old.tree.root (λ t. StepsAtMost 16 16 t steps.old steps.new) }
        ensures staged { IsSpent 1 256 (P.budget pages.old) (P.budget pages.new) }
        ensures free { (P.budget pages.new).free ≡ (P.budget pages.old).free }
        ensures goes { Goes P.stopped P.count P.burns pages.old pages.new }
        ensures stopped { IsErrOf result TreeNo.Stopped → P.stopped pages.new ≡ true }
        ensures went_on { OnOk result (P.stopped pages.new ≡ P.stopped pages.old) }
    {
        let key = key_at(attempt);
        let value = entry_value(mark);
        self.tree.put_value(pages, &key, &value, steps)
    }

    /// Adds a prepared entry that lists these nodes, at most 256, where its attempt has none.
    ///
    /// # Errors
    ///
    /// `NoBlock` comes only where fewer blocks are free than the list needs and one more. `TooMuch` comes
    /// only where fewer ranges or bytes are left to stage than the list and the tree may want, and
    /// `Stopped` only where the pages answered it. After one the stage has to be dropped.
    pub fn add<P: Pages, L: Ledger>(
        &mut self,
        pages: &mut P,
        entry: Entry,
        nodes: &[u32],
        steps: &mut Steps<L>,
    ) -> Result<(), TreeNo>
        requires kind { self.old.tree.kind ≡ 7 }
        requires prepared { entry.committed ≡ false }
        requires few { length nodes.now ≤ 256 }
        requires listed { AreListed nodes.now }
        requires here { HasThing P.tells entries_owner hung_root (P.blocks pages.old) self.old.tree.root (λ g. has_entry_at entry.attempt (things g) ≡ false) }
        ensures added { OnOk result (OfThing P.tells entries_owner hung_root (P.blocks pages.old) self.old.tree.root (λ g. has_entry_at entry.attempt (things g) ≡ false → Becomes entries_owner hung_root listings (P.blocks pages.old) g (P.blocks pages.new) self.new.tree.root (HasMore (record { entry = entry; nodes = nodes.now })))) }
        ensures kind { self.new.tree.kind ≡ 7 }
        ensures no_block { IsErrOf result TreeNo.NoBlock → (P.budget pages.old).free < chain_blocks (4 * length nodes.now) + 1 }
        ensures too_much { IsErrOf result TreeNo.TooMuch → OfThing P.tells entries_owner hung_root (P.blocks pages.old) self.old.tree.root (λ g. has_entry_at entry.attempt (things g) ≡ false → TooFewFor (chain_blocks (4 * length nodes.now)) g.0 (P.budget pages.old)) }
        ensures steps { OfThing P.tells entries_owner hung_root (P.blocks pages.old) self.old.tree.root (λ g. StepsAtMost 16 16 g.0 steps.old steps.new) }
        ensures staged { OnOk result (OfThing P.tells entries_owner hung_root (P.blocks pages.old) self.old.tree.root (λ g. has_entry_at entry.attempt (things g) ≡ false → StagesFor (chain_blocks (4 * length nodes.now)) g.0 (P.budget pages.old) (P.budget pages.new))) }
        ensures free { OnOk result ((P.budget pages.new).free + (chain_blocks (4 * length nodes.now) + 1) ≡ (P.budget pages.old).free) }
        ensures goes { Goes P.stopped P.count P.burns pages.old pages.new }
        ensures stopped { IsErrOf result TreeNo.Stopped → P.stopped pages.new ≡ true }
        ensures went_on { OnOk result (P.stopped pages.new ≡ P.stopped pages.old) }
    {
        let key = key_at(entry.attempt);
        let chain = write_list(pages, nodes)?;
        let value = entry_value(mark_with(entry, chain));
        self.tree.insert(pages, &key, &value, steps)
    }

    /// Confirms a member of the entry of an attempt, where there is one.
    ///
    /// # Errors
    ///
    /// `TooMuch` comes only where no range or fewer than 256 bytes are left to stage, `Stopped` only where
    /// the pages answered it, and `NoBlock` never.
    pub fn confirm<P: Pages, L: Ledger>(
        &mut self,
        pages: &mut P,
        attempt: AttemptId,
        target: TargetId,
        steps: &mut Steps<L>,
    ) -> Result<(), TreeNo>
        requires kind { self.old.tree.kind ≡ 7 }
        requires target { target < 64 }
        requires here { HasThing P.tells entries_owner hung_root (P.blocks pages.old) self.old.tree.root (λ g. ⊤) }
        ensures confirmed { OnOk result (OfThing P.tells entries_owner hung_root (P.blocks pages.old) self.old.tree.root (λ g. Becomes entries_owner hung_root listings (P.blocks pages.old) g (P.blocks pages.new) self.new.tree.root (IsConfirmedAt attempt target))) }
        ensures kept { self.new ≡ self.old }
        ensures no_block { IsErrOf result TreeNo.NoBlock → ⊥ }
        ensures too_much { IsErrOf result TreeNo.TooMuch → ((P.budget pages.old).ranges < 1) ⊎ ((P.budget pages.old).bytes < 256) }
        ensures staged { IsSpent 1 256 (P.budget pages.old) (P.budget pages.new) }
        ensures free { (P.budget pages.new).free ≡ (P.budget pages.old).free }
        ensures goes { Goes P.stopped P.count P.burns pages.old pages.new }
        ensures stopped { IsErrOf result TreeNo.Stopped → P.stopped pages.new ≡ true }
        ensures went_on { OnOk result (P.stopped pages.new ≡ P.stopped pages.old) }
    {
        let Some(mark) = self.find(pages, attempt, steps)? else {
            return Ok(());
        };
        self.put_mark(pages, attempt, confirmed_mark(mark, target), steps)
    }

    // Gives back the list of an attempt's entry, where there is one, which becomes committed, or is as committed as it was.
    fn end_list<P: Pages, L: Ledger>(
        &mut self,
        pages: &mut P,
        attempt: AttemptId,
        commits: bool,
        steps: &mut Steps<L>,
    ) -> Result<(), TreeNo>
        requires kind { self.old.tree.kind ≡ 7 }
        requires here { HasThing P.tells entries_owner hung_root (P.blocks pages.old) self.old.tree.root (λ g. ⊤) }
        ensures ended { OnOk result (OfThing P.tells entries_owner hung_root (P.blocks pages.old) self.old.tree.root (λ g. Becomes entries_owner hung_root listings (P.blocks pages.old) g (P.blocks pages.new) self.new.tree.root (IsEndedAt commits attempt))) }
        ensures kept { self.new ≡ self.old }
        ensures no_block { IsErrOf result TreeNo.NoBlock → ⊥ }
        ensures too_much { IsErrOf result TreeNo.TooMuch → OfThing P.tells entries_owner hung_root (P.blocks pages.old) self.old.tree.root (λ g. FewerThan (list_blocks_at attempt (things g)) (P.budget pages.old)) }
        ensures staged { OnOk result (OfThing P.tells entries_owner hung_root (P.blocks pages.old) self.old.tree.root (λ g. IsSpent (list_blocks_at attempt (things g) + 1) (list_blocks_at attempt (things g) + 256) (P.budget pages.old) (P.budget pages.new))) }
        ensures free { OnOk result (OfThing P.tells entries_owner hung_root (P.blocks pages.old) self.old.tree.root (λ g. (P.budget pages.new).free ≡ (P.budget pages.old).free + list_blocks_at attempt (things g))) }
        ensures goes { Goes P.stopped P.count P.burns pages.old pages.new }
        ensures stopped { IsErrOf result TreeNo.Stopped → P.stopped pages.new ≡ true }
        ensures went_on { OnOk result (P.stopped pages.new ≡ P.stopped pages.old) }
    {
        let Some(mark) = self.find(pages, attempt, steps)? else {
            return Ok(());
        };
        give_list(pages, mark.chain, steps)?;
        self.put_mark(pages, attempt, ended_mark(mark, commits), steps)
    }

    /// Commits the entry of an attempt, where there is one: its list is given back.
    ///
    /// # Errors
    ///
    /// `TooMuch` comes only where fewer ranges or bytes are left to stage than the list has blocks, and one
    /// range of 256 bytes besides; `Stopped` only where the pages answered it, and `NoBlock` never. After one
    /// the stage has to be dropped.
    pub fn commit<P: Pages, L: Ledger>(
        &mut self,
        pages: &mut P,
        attempt: AttemptId,
        steps: &mut Steps<L>,
    ) -> Result<(), TreeNo>
        requires kind { self.old.tree.kind ≡ 7 }
        requires here { HasThing P.tells entries_owner hung_root (P.blocks pages.old) self.old.tree.root (λ g. ⊤) }
        ensures committed { OnOk result (OfThing P.tells entries_owner hung_root (P.blocks pages.old) self.old.tree.root (λ g. Becomes entries_owner hung_root listings (P.blocks pages.old) g (P.blocks pages.new) self.new.tree.root (IsCommittedAt attempt))) }
        ensures kept { self.new ≡ self.old }
        ensures no_block { IsErrOf result TreeNo.NoBlock → ⊥ }
        ensures too_much { IsErrOf result TreeNo.TooMuch → OfThing P.tells entries_owner hung_root (P.blocks pages.old) self.old.tree.root (λ g. FewerThan (list_blocks_at attempt (things g)) (P.budget pages.old)) }
        ensures staged { OnOk result (OfThing P.tells entries_owner hung_root (P.blocks pages.old) self.old.tree.root (λ g. IsSpent (list_blocks_at attempt (things g) + 1) (list_blocks_at attempt (things g) + 256) (P.budget pages.old) (P.budget pages.new))) }
        ensures free { OnOk result (OfThing P.tells entries_owner hung_root (P.blocks pages.old) self.old.tree.root (λ g. (P.budget pages.new).free ≡ (P.budget pages.old).free + list_blocks_at attempt (things g))) }
        ensures goes { Goes P.stopped P.count P.burns pages.old pages.new }
        ensures stopped { IsErrOf result TreeNo.Stopped → P.stopped pages.new ≡ true }
        ensures went_on { OnOk result (P.stopped pages.new ≡ P.stopped pages.old) }
    {
        self.end_list(pages, attempt, true, steps)
    }

    /// Gives back the list of the entry of an attempt, where there is one. The entry stays.
    ///
    /// # Errors
    ///
    /// `TooMuch` comes only where fewer ranges or bytes are left to stage than the list has blocks, and one
    /// range of 256 bytes besides; `Stopped` only where the pages answered it, and `NoBlock` never. After one
    /// the stage has to be dropped.
    pub fn unlist<P: Pages, L: Ledger>(
        &mut self,
        pages: &mut P,
        attempt: AttemptId,
        steps: &mut Steps<L>,
    ) -> Result<(), TreeNo>
        requires kind { self.old.tree.kind ≡ 7 }
        requires here { HasThing P.tells entries_owner hung_root (P.blocks pages.old) self.old.tree.root (λ g. ⊤) }
        ensures unlisted { OnOk result (OfThing P.tells entries_owner hung_root (P.blocks pages.old) self.old.tree.root (λ g. Becomes entries_owner hung_root listings (P.blocks pages.old) g (P.blocks pages.new) self.new.tree.root (IsUnlistedAt attempt))) }
        ensures kept { self.new ≡ self.old }
        ensures no_block { IsErrOf result TreeNo.NoBlock → ⊥ }
        ensures too_much { IsErrOf result TreeNo.TooMuch → OfThing P.tells entries_owner hung_root (P.blocks pages.old) self.old.tree.root (λ g. FewerThan (list_blocks_at attempt (things g)) (P.budget pages.old)) }
        ensures staged { OnOk result (OfThing P.tells entries_owner hung_root (P.blocks pages.old) self.old.tree.root (λ g. IsSpent (list_blocks_at attempt (things g) + 1) (list_blocks_at attempt (things g) + 256) (P.budget pages.old) (P.budget pages.new))) }
        ensures free { OnOk result (OfThing P.tells entries_owner hung_root (P.blocks pages.old) self.old.tree.root (λ g. (P.budget pages.new).free ≡ (P.budget pages.old).free + list_blocks_at attempt (things g))) }
        ensures goes { Goes P.stopped P.count P.burns pages.old pages.new }
        ensures stopped { IsErrOf result TreeNo.Stopped → P.stopped pages.new ≡ true }
        ensures went_on { OnOk result (P.stopped pages.new ≡ P.stopped pages.old) }
    {
        self.end_list(pages, attempt, false, steps)
    }

    /// Removes the entry of an attempt with its list, where there is one: it was aborted, or is forgotten.
    ///
    /// # Errors
    ///
    /// `TooMuch` comes only where fewer ranges or bytes are left to stage than the tree may want and the list
    /// has blocks; `Stopped` only where the pages answered it, and `NoBlock` never. After one the stage has to
    /// be dropped.
    pub fn remove<P: Pages, L: Ledger>(
        &mut self,
        pages: &mut P,
        attempt: AttemptId,
        steps: &mut Steps<L>,
    ) -> Result<(), TreeNo>
        requires kind { self.old.tree.kind ≡ 7 }
        requires here { HasThing P.tells entries_owner hung_root (P.blocks pages.old) self.old.tree.root (λ g. ⊤) }
        ensures removed { OnOk result (OfThing P.tells entries_owner hung_root (P.blocks pages.old) self.old.tree.root (λ g. Becomes entries_owner hung_root listings (P.blocks pages.old) g (P.blocks pages.new) self.new.tree.root (IsGoneAt attempt))) }
        ensures kind { self.new.tree.kind ≡ 7 }
        ensures no_block { IsErrOf result TreeNo.NoBlock → ⊥ }
        ensures too_much { IsErrOf result TreeNo.TooMuch → OfThing P.tells entries_owner hung_root (P.blocks pages.old) self.old.tree.root (λ g. FewerToRemove (list_blocks_at attempt (things g)) g.0 (P.budget pages.old)) }
        ensures staged { OnOk result (OfThing P.tells entries_owner hung_root (P.blocks pages.old) self.old.tree.root (λ g. StagesToRemove (list_blocks_at attempt (things g)) g.0 (P.budget pages.old) (P.budget pages.new))) }
        ensures free { OnOk result (OfThing P.tells entries_owner hung_root (P.blocks pages.old) self.old.tree.root (λ g. (P.budget pages.new).free ≡ (P.budget pages.old).free + entry_blocks_at attempt (things g))) }
        ensures goes { Goes P.stopped P.count P.burns pages.old pages.new }
        ensures stopped { IsErrOf result TreeNo.Stopped → P.stopped pages.new ≡ true }
        ensures went_on { OnOk result (P.stopped pages.new ≡ P.stopped pages.old) }
    {
        let Some(mark) = self.find(pages, attempt, steps)? else {
            return Ok(());
        };
        let key = key_at(attempt);
        self.tree.remove(pages, &key, steps)?;
        give_list(pages, mark.chain, steps)
    }
}
