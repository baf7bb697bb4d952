// A log of creations and punches, in a tree.
ghost use Rattle.std.specs.Prelude.{◌≡◌, ◌↔◌, ◌⊎◌, ◌<◌, ◌+◌, true, false, Some, None, IfOk, OnOk, OnErr, IsErr, IsErrOf, IsTrue, IfSome, ⊤, length};
ghost use Rattle.std.specs.List.{find};
ghost use Rattle.std.specs.Option.{option_and_then, option_map};
ghost use Rattle.pmem_pages.specs.Blocks.{IsSpent};
ghost use Rattle.pmem_pages.specs.Node.{IsKey, IsValue};
ghost use Rattle.pmem_pages.specs.Shape.{entries, first_above};
ghost use Rattle.vos_moments.specs.pmem_tree.Calls.{StagesAtMost, StepsAtMost, TooFew};
ghost use Rattle.vos_moments.specs.pmem_tree_base.Calls.{Goes};
ghost use Rattle.vos_moments.specs.pmem_tree_base.Find.{pair_of};
ghost use Rattle.vos_moments.specs.pmem_tree_base.declared.refusal.TreeNo.{TreeNo};
ghost use Rattle.vos_values.specs.Keys.{IsAttempt, IsMoment, moment_key};
ghost use Rattle.vos_values.specs.Values.{log_in};
ghost use Rattle.vos_moments.specs.vos_levels.Calls.{Becomes, HasThing, OfThing};
ghost use Rattle.vos_moments.specs.vos_levels.Changes.{keeps};
ghost use Rattle.vos_moments.specs.vos_levels.Levels.{HasMore, find_last, hung_root, things};
ghost use Rattle.vos_ilog.specs.Logs.{IsChangedAt, IsDoneAt, IsGoneAt, IsLogEntry, Log as LogOf, SaysAt, StepsDown, entry_in_pair, freed_at, has_entry_at, is_at, is_punch_below, is_under, mark_of, start_of, key_of_entry, log_owner, moment_of, value_of_entry};

use base_types::epoch::Epoch;
use base_types::id::AttemptId;
use pmem_pages::pages::Pages;
use pmem_pages::refusal::Stopped;
use pmem_pages::steps::Steps;
use std::sync::ledger::Ledger;
use vos_moments::below::levels::change::Change;
use vos_moments::below::tree::tree::Tree;
use vos_moments::below::tree::{Pair, TreeKey, TreeNo, Value};
use vos_values::keys::{Moment, moment_key, read_moment};
use vos_values::values::{LogMark, log_value, read_log};

// There are no more block numbers, so no tree has more pairs.
const PAIRS: u64 = 1 << 32;

/// An entry of a log: when it was written, whether it is a punch or a creation, whose it is, and whether
/// it is done.
#[derive(Clone, Copy)]
pub struct LogEntry {
    pub epoch: Epoch,
    pub minor: u8,
    pub punch: bool,
    pub by: AttemptId,
    pub done: bool,
}

/// The log of an object, a dkey or an akey: a tree of the kind of logs.
#[derive(Clone, Copy)]
pub struct Ilog {
    pub tree: Tree,
}

/// The key of an entry.
pub fn key_of(entry: LogEntry) -> TreeKey
    requires minor { entry.minor < 64 }
    ensures key { result ≡ key_of_entry entry }
    ensures is { IsKey result }
    ensures moment { IsMoment (moment_of entry) }
{
    moment_key(Moment {
        epoch: entry.epoch,
        minor: entry.minor,
    })
}

// The value of an entry.
fn value_of(entry: LogEntry) -> Value
    ensures value { result ≡ value_of_entry entry }
    ensures is { IsValue 4 result }
    ensures by { IsAttempt entry.by }
{
    log_value(LogMark {
        punch: entry.punch,
        done: entry.done,
        by: entry.by,
    })
}

// The key of a moment.
pub(crate) fn key_at(at: Moment) -> TreeKey
    requires minor { at.minor < 64 }
    ensures key { result ≡ moment_key at }
    ensures is { IsKey result }
    ensures moment { IsMoment at }
{
    moment_key(at)
}

// The first moment of an epoch.
fn start_of(epoch: Epoch) -> Moment
    ensures { result ≡ start_of epoch }
{
    Moment { epoch, minor: 0 }
}

// What a value says, if there is one and it is that of an entry.
fn mark_in(value: Option<Value>) -> Option<LogMark>
    ensures { result ≡ option_and_then log_in value }
{
    match value {
        Some(value) => read_log(&value),
        None => None,
    }
}

// The entry that a key and a value say, if they say one.
fn entry_of(pair: &Pair) -> Option<LogEntry>
    ensures entry { result ≡ entry_in_pair pair.now }
    ensures minor { IfSome result (λ e. e.minor < 64) }
{
    let moment = read_moment(&pair.key)?;
    let mark = read_log(&pair.value)?;
    Some(LogEntry {
        epoch: moment.epoch,
        minor: moment.minor,
        punch: mark.punch,
        by: mark.by,
        done: mark.done,
    })
}

// The entry that a pair says, if there is one and it says one.
fn entry_in(pair: Option<Pair>) -> Option<LogEntry>
    ensures entry { result ≡ option_and_then entry_in_pair pair }
    ensures minor { IfSome result (λ e. e.minor < 64) }
{
    match pair {
        Some(pair) => entry_of(&pair),
        None => None,
    }
}

impl Ilog {
    /// The first entry above a key.
    ///
    /// # Errors
    ///
    /// `Stopped` comes only where the pages answered it.
    pub fn next_over<P: Pages, L: Ledger>(
        &self,
        pages: &mut P,
        key: &TreeKey,
        steps: &mut Steps<L>,
    ) -> Result<Option<LogEntry>, Stopped>
        requires kind { self.now.tree.kind ≡ 4 }
        requires key { IsKey key.now }
        requires here { HasThing P.tells log_owner hung_root (P.blocks pages.old) self.now.tree.root (λ g. ⊤) }
        ensures found { IfOk result (λ e. OfThing P.tells log_owner hung_root (P.blocks pages.old) self.now.tree.root (λ g. e ≡ option_and_then entry_in_pair (pair_of (first_above key.now (entries g.0))))) }
        ensures minor { IfOk result (λ e. IfSome e (λ x. x.minor < 64)) }
        ensures steps { OfThing P.tells log_owner hung_root (P.blocks pages.old) self.now.tree.root (λ g. StepsAtMost 2 0 g.0 steps.old steps.new) }
        ensures kept { IsTrue P.tells → P.blocks pages.new ≡ P.blocks pages.old }
        ensures budget { P.budget pages.new ≡ P.budget pages.old }
        ensures goes { Goes P.stopped P.count P.burns pages.old pages.new }
        ensures stopped { OnErr result (P.stopped pages.new ≡ true) }
        ensures went_on { OnOk result (P.stopped pages.new ≡ P.stopped pages.old) }
    {
        Ok(entry_in(self.tree.next_after(pages, key, steps)?))
    }

    /// Adds an entry, where there is none of its moment.
    ///
    /// # Errors
    ///
    /// `NoBlock` comes exactly where no block is free. `TooMuch` comes only where fewer ranges or bytes are
    /// left to stage than the tree may want, and `Stopped` only where the pages answered it. After `TooMuch`
    /// fewer are left than one change of the tree may want. After one the stage has to be dropped.
    pub fn add<P: Pages, L: Ledger>(
        &mut self,
        pages: &mut P,
        entry: LogEntry,
        steps: &mut Steps<L>,
    ) -> Result<(), TreeNo>
        requires kind { self.old.tree.kind ≡ 4 }
        requires minor { entry.minor < 64 }
        requires log { HasThing P.tells log_owner hung_root (P.blocks pages.old) self.old.tree.root (λ g. has_entry_at (moment_of entry) (things g) ≡ false) }
        ensures added { OnOk result (OfThing P.tells log_owner hung_root (P.blocks pages.old) self.old.tree.root (λ g. has_entry_at (moment_of entry) (things g) ≡ false → Becomes log_owner hung_root things (P.blocks pages.old) g (P.blocks pages.new) self.new.tree.root (HasMore entry))) }
        ensures kind { self.new.tree.kind ≡ 4 }
        ensures root_kept { OnErr result (self.new.tree.root ≡ self.old.tree.root) }
        ensures no_block { IsErrOf result TreeNo.NoBlock ↔ ((P.budget pages.old).free ≡ 0) }
        ensures too_much { IsErrOf result TreeNo.TooMuch → OfThing P.tells log_owner hung_root (P.blocks pages.old) self.old.tree.root (λ g. has_entry_at (moment_of entry) (things g) ≡ false → TooFew g.0 (P.budget pages.old)) }
        ensures few_left { IsErrOf result TreeNo.TooMuch → OfThing P.tells log_owner hung_root (P.blocks pages.old) self.old.tree.root (λ g. has_entry_at (moment_of entry) (things g) ≡ false → TooFew g.0 (P.budget pages.new)) }
        ensures steps { OfThing P.tells log_owner hung_root (P.blocks pages.old) self.old.tree.root (λ g. StepsAtMost 16 16 g.0 steps.old steps.new) }
        ensures staged { OnOk result (OfThing P.tells log_owner hung_root (P.blocks pages.old) self.old.tree.root (λ g. has_entry_at (moment_of entry) (things g) ≡ false → StagesAtMost 4 8 g.0 (P.budget pages.old) (P.budget pages.new))) }
        ensures free { OnOk result ((P.budget pages.new).free + 1 ≡ (P.budget pages.old).free) }
        ensures goes { Goes P.stopped P.count P.burns pages.old pages.new }
        ensures stopped { IsErrOf result TreeNo.Stopped → P.stopped pages.new ≡ true }
        ensures went_on { OnOk result (P.stopped pages.new ≡ P.stopped pages.old) }
    {
        self.tree
            .insert(pages, &key_of(entry), &value_of(entry), steps)
    }

    // What the entry of a moment says, if there is one.
    pub(crate) fn find_mark<P: Pages, L: Ledger>(
        &self,
        pages: &mut P,
        key: &TreeKey,
        at: Moment,
        steps: &mut Steps<L>,
    ) -> Result<Option<LogMark>, Stopped>
        requires kind { self.now.tree.kind ≡ 4 }
        requires key { IsKey key.now }
        requires key_is { key.now ≡ moment_key at }
        requires at { IsMoment at }
        requires log { HasThing P.tells log_owner hung_root (P.blocks pages.old) self.now.tree.root (λ g. ⊤) }
        ensures found { IfOk result (λ o. OfThing P.tells log_owner hung_root (P.blocks pages.old) self.now.tree.root (λ g. o ≡ option_map mark_of (find (is_at at) (things g)))) }
        ensures steps { OfThing P.tells log_owner hung_root (P.blocks pages.old) self.now.tree.root (λ g. StepsAtMost 2 0 g.0 steps.old steps.new) }
        ensures kept { IsTrue P.tells → P.blocks pages.new ≡ P.blocks pages.old }
        ensures budget { P.budget pages.new ≡ P.budget pages.old }
        ensures goes { Goes P.stopped P.count P.burns pages.old pages.new }
        ensures stopped { OnErr result (P.stopped pages.new ≡ true) }
        ensures went_on { OnOk result (P.stopped pages.new ≡ P.stopped pages.old) }
    {
        Ok(mark_in(self.tree.get(pages, key, steps)?))
    }

    /// The punch with the greatest epoch and number below an epoch.
    ///
    /// # Errors
    ///
    /// `Stopped` comes only where the pages answered it.
    pub fn covering_punch<P: Pages, L: Ledger>(
        &self,
        pages: &mut P,
        below: Epoch,
        steps: &mut Steps<L>,
    ) -> Result<Option<LogEntry>, Stopped>
        requires kind { self.now.tree.kind ≡ 4 }
        requires log { HasThing P.tells log_owner hung_root (P.blocks pages.old) self.now.tree.root (λ g. ⊤) }
        ensures found { IfOk result (λ v. OfThing P.tells log_owner hung_root (P.blocks pages.old) self.now.tree.root (λ g. v ≡ find_last (is_punch_below (start_of below)) (things g))) }
        ensures steps { OfThing P.tells log_owner hung_root (P.blocks pages.old) self.now.tree.root (λ g. StepsDown g steps.old steps.new) }
        ensures kept { IsTrue P.tells → P.blocks pages.new ≡ P.blocks pages.old }
        ensures budget { P.budget pages.new ≡ P.budget pages.old }
        ensures goes { Goes P.stopped P.count P.burns pages.old pages.new }
        ensures stopped { OnErr result (P.stopped pages.new ≡ true) }
        ensures went_on { OnOk result (P.stopped pages.new ≡ P.stopped pages.old) }
    {
        let mut at = start_of(below);
        for _ in 0..PAIRS {
            let Some(entry) = self.last_under(pages, at, steps)? else {
                return Ok(None);
            };
            if entry.punch {
                return Ok(Some(entry));
            }
            at = Moment {
                epoch: entry.epoch,
                minor: entry.minor,
            };
        }
        Ok(None)
    }

    // The last entry before a moment.
    fn last_under<P: Pages, L: Ledger>(
        &self,
        pages: &mut P,
        at: Moment,
        steps: &mut Steps<L>,
    ) -> Result<Option<LogEntry>, Stopped>
        requires kind { self.now.tree.kind ≡ 4 }
        requires at { at.minor < 64 }
        requires log { HasThing P.tells log_owner hung_root (P.blocks pages.old) self.now.tree.root (λ g. ⊤) }
        ensures found { IfOk result (λ v. OfThing P.tells log_owner hung_root (P.blocks pages.old) self.now.tree.root (λ g. v ≡ find_last (is_under at) (things g))) }
        ensures minor { IfOk result (λ v. IfSome v (λ e. e.minor < 64)) }
        ensures moment { IsMoment at }
        ensures steps { OfThing P.tells log_owner hung_root (P.blocks pages.old) self.now.tree.root (λ g. StepsAtMost 2 0 g.0 steps.old steps.new) }
        ensures kept { IsTrue P.tells → P.blocks pages.new ≡ P.blocks pages.old }
        ensures budget { P.budget pages.new ≡ P.budget pages.old }
        ensures goes { Goes P.stopped P.count P.burns pages.old pages.new }
        ensures stopped { OnErr result (P.stopped pages.new ≡ true) }
        ensures went_on { OnOk result (P.stopped pages.new ≡ P.stopped pages.old) }
    {
        let key = key_at(at);
        Ok(entry_in(self.tree.last_below(pages, &key, steps)?))
    }

    // The entry of a moment becomes done.
    fn put_done<P: Pages, L: Ledger>(
        &mut self,
        pages: &mut P,
        key: &TreeKey,
        at: Moment,
        mark: LogMark,
        steps: &mut Steps<L>,
    ) -> Result<(), TreeNo>
        requires kind { self.old.tree.kind ≡ 4 }
        requires key { IsKey key.now }
        requires key_is { key.now ≡ moment_key at }
        requires at { IsMoment at }
        requires log { HasThing P.tells log_owner hung_root (P.blocks pages.old) self.old.tree.root (λ g. SaysAt at mark (things g)) }
        ensures put { OnOk result (OfThing P.tells log_owner hung_root (P.blocks pages.old) self.old.tree.root (λ g. SaysAt at mark (things g) → Becomes log_owner hung_root things (P.blocks pages.old) g (P.blocks pages.new) self.new.tree.root (IsDoneAt at))) }
        ensures kept { self.new ≡ self.old }
        ensures no_block { IsErrOf result TreeNo.NoBlock → ⊥ }
        ensures too_much { IsErrOf result TreeNo.TooMuch → ((P.budget pages.old).ranges < 1) ⊎ ((P.budget pages.old).bytes < 256) }
        ensures few_left { IsErrOf result TreeNo.TooMuch → ((P.budget pages.new).ranges < 1) ⊎ ((P.budget pages.new).bytes < 256) }
        ensures steps { OfThing P.tells log_owner hung_root (P.blocks pages.old) self.old.tree.root (λ g. StepsAtMost 16 16 g.0 steps.old steps.new) }
        ensures staged { IsSpent 1 256 (P.budget pages.old) (P.budget pages.new) }
        ensures free { (P.budget pages.new).free ≡ (P.budget pages.old).free }
        ensures goes { Goes P.stopped P.count P.burns pages.old pages.new }
        ensures stopped { IsErrOf result TreeNo.Stopped → P.stopped pages.new ≡ true }
        ensures went_on { OnOk result (P.stopped pages.new ≡ P.stopped pages.old) }
    {
        let value = log_value(LogMark {
            punch: mark.punch,
            done: true,
            by: mark.by,
        });
        self.tree.put_value(pages, key, &value, steps)
    }

    // The entry of a moment goes.
    fn remove_at<P: Pages, L: Ledger>(
        &mut self,
        pages: &mut P,
        key: &TreeKey,
        at: Moment,
        mark: LogMark,
        steps: &mut Steps<L>,
    ) -> Result<(), TreeNo>
        requires kind { self.old.tree.kind ≡ 4 }
        requires key { IsKey key.now }
        requires key_is { key.now ≡ moment_key at }
        requires at { IsMoment at }
        requires log { HasThing P.tells log_owner hung_root (P.blocks pages.old) self.old.tree.root (λ g. SaysAt at mark (things g)) }
        ensures removed { OnOk result (OfThing P.tells log_owner hung_root (P.blocks pages.old) self.old.tree.root (λ g. SaysAt at mark (things g) → Becomes log_owner hung_root things (P.blocks pages.old) g (P.blocks pages.new) self.new.tree.root (IsGoneAt at))) }
        ensures kind { self.new.tree.kind ≡ 4 }
        ensures no_block { IsErrOf result TreeNo.NoBlock → ⊥ }
        ensures too_much { IsErrOf result TreeNo.TooMuch → OfThing P.tells log_owner hung_root (P.blocks pages.old) self.old.tree.root (λ g. SaysAt at mark (things g) → TooFew g.0 (P.budget pages.old)) }
        ensures few_left { IsErrOf result TreeNo.TooMuch → OfThing P.tells log_owner hung_root (P.blocks pages.old) self.old.tree.root (λ g. SaysAt at mark (things g) → TooFew g.0 (P.budget pages.new)) }
        ensures steps { OfThing P.tells log_owner hung_root (P.blocks pages.old) self.old.tree.root (λ g. StepsAtMost 16 16 g.0 steps.old steps.new) }
        ensures staged { OnOk result (OfThing P.tells log_owner hung_root (P.blocks pages.old) self.old.tree.root (λ g. StagesAtMost 8 16 g.0 (P.budget pages.old) (P.budget pages.new))) }
        ensures free { OnOk result (IsTrue P.tells → (P.budget pages.new).free ≡ (P.budget pages.old).free + 1) }
        ensures goes { Goes P.stopped P.count P.burns pages.old pages.new }
        ensures stopped { IsErrOf result TreeNo.Stopped → P.stopped pages.new ≡ true }
        ensures went_on { OnOk result (P.stopped pages.new ≡ P.stopped pages.old) }
    {
        self.tree.remove(pages, key, steps)
    }

    /// Settles or prunes the entry of a moment: a commit makes it done, where it is an unsettled one of the
    /// attempt; an abort removes such a one, and a prune one that is done. Any other entry stays.
    ///
    /// # Errors
    ///
    /// `TooMuch` comes only where fewer ranges or bytes are left to stage than the tree may want, `Stopped`
    /// only where the pages answered it, and `NoBlock` never. After `TooMuch` fewer are left than one
    /// change of the tree may want. After one the stage has to be dropped.
    pub fn change_at<P: Pages, L: Ledger>(
        &mut self,
        pages: &mut P,
        at: Moment,
        change: Change,
        steps: &mut Steps<L>,
    ) -> Result<(), TreeNo>
        requires kind { self.old.tree.kind ≡ 4 }
        requires minor { at.minor < 64 }
        requires log { HasThing P.tells log_owner hung_root (P.blocks pages.old) self.old.tree.root (λ g. ⊤) }
        ensures changed { OnOk result (OfThing P.tells log_owner hung_root (P.blocks pages.old) self.old.tree.root (λ g. Becomes log_owner hung_root things (P.blocks pages.old) g (P.blocks pages.new) self.new.tree.root (IsChangedAt change at))) }
        ensures kind { self.new.tree.kind ≡ 4 }
        ensures no_block { IsErrOf result TreeNo.NoBlock → ⊥ }
        ensures too_much { IsErrOf result TreeNo.TooMuch → OfThing P.tells log_owner hung_root (P.blocks pages.old) self.old.tree.root (λ g. TooFew g.0 (P.budget pages.old)) }
        ensures few_left { IsErrOf result TreeNo.TooMuch → OfThing P.tells log_owner hung_root (P.blocks pages.old) self.old.tree.root (λ g. TooFew g.0 (P.budget pages.new)) }
        ensures steps { OfThing P.tells log_owner hung_root (P.blocks pages.old) self.old.tree.root (λ g. StepsAtMost 18 16 g.0 steps.old steps.new) }
        ensures staged { OnOk result (OfThing P.tells log_owner hung_root (P.blocks pages.old) self.old.tree.root (λ g. StagesAtMost 8 16 g.0 (P.budget pages.old) (P.budget pages.new))) }
        ensures root { keeps change ≡ true → self.new.tree.root ≡ self.old.tree.root }
        ensures committed { keeps change ≡ true → IsSpent 1 256 (P.budget pages.old) (P.budget pages.new) }
        ensures free { OnOk result (OfThing P.tells log_owner hung_root (P.blocks pages.old) self.old.tree.root (λ g. (P.budget pages.new).free ≡ (P.budget pages.old).free + freed_at change at (things g))) }
        ensures goes { Goes P.stopped P.count P.burns pages.old pages.new }
        ensures stopped { IsErrOf result TreeNo.Stopped → P.stopped pages.new ≡ true }
        ensures went_on { OnOk result (P.stopped pages.new ≡ P.stopped pages.old) }
    {
        let key = key_at(at);
        let Some(mark) = self.find_mark(pages, &key, at, steps)? else {
            return Ok(());
        };
        if !change.takes(mark.by, mark.done) {
            return Ok(());
        }
        if change.keeps() {
            self.put_done(pages, &key, at, mark, steps)
        } else {
            self.remove_at(pages, &key, at, mark, steps)
        }
    }
}
