// What is known of the first versions of a row.
ghost use Rattle.std.specs.Prelude.{◌≡◌, ◌+◌, ◌∷◌, ◌++◌, ◌<◌, ◌≤◌, [], false, true, length, take, List, IfOk, OnErr, OnOk, if◌then◌else◌};
ghost use Rattle.std.specs.List.{list_any};
ghost use Rattle.std.specs.Option.{option_copied};
ghost use Rattle.daos_model.specs.declared.durable.Version.{Version};
ghost use Rattle.daos_model.specs.Prunes.{is_punch};
ghost use Rattle.vos_scan.specs.Indexed.{IsIndexOf, same_dkey, stands_for, update_same, updated};

use crate::chains::Chains;
use crate::places::{dkey_place, place_of};
use base_types::items::Memory;
use base_types::operation::Write;
use base_types::path::{Path, same_keys, same_objects};
use daos_model::durable::Version;
use std::alloc::Global;

/// An index of the first rows, so many, which are done: the places of those that make a dkey which none before them
/// makes, and of punches, and chains of those of one akey's number. So reads don't go through all rows. Hints say where a
/// row of a dkey may stand; nothing rests on them.
#[derive(Drop)]
pub struct ReadIndex {
    pub covered: usize,
    pub firsts: Vec<usize>,
    pub hints: Vec<usize>,
    pub chains: Chains,
}

// The path of an update.
fn updated(write: &Write) -> Option<&Path>
    ensures { option_copied result ≡ updated write.now }
{
    match write {
        Write::Single(path, _) | Write::Extent(path, _, _) => Some(path),
        Write::PunchObject(_) | Write::PunchDkey(_) | Write::PunchAkey(_) => None,
    }
}

// Whether two paths name the same dkey.
fn is_same_dkey(one: &Path, other: &Path) -> bool
    ensures { result ≡ same_dkey one.now other.now }
{
    one.cont.0 == other.cont.0
        && same_objects(one.obj, other.obj)
        && same_keys(&one.dkey, &other.dkey)
}

// Whether two writes are updates of the same dkey.
fn update_same(one: &Write, other: &Write) -> bool
    ensures { result ≡ update_same one.now other.now }
{
    match (updated(one), updated(other)) {
        (Some(one), Some(other)) => is_same_dkey(one, other),
        _ => false,
    }
}

// Whether a row is done and makes the dkey that another one makes, wherever that is seen.
fn stands_for(one: &Version, other: &Version) -> bool
    ensures { result ≡ stands_for other.now one.now }
{
    one.done && one.epoch.0 <= other.epoch.0 && update_same(&one.write, &other.write)
}

// Whether a hint says where a row stands, of the first ones, that makes the dkey that this one makes.
fn is_known(rows: &[Version], covered: usize, hint: usize, row: &Version) -> bool
    requires { covered ≤ length rows.now }
    ensures known { result ≡ true → list_any (stands_for row.now) (take covered rows.now) ≡ true }
    ensures update { result ≡ true → is_punch row.now.write ≡ false }
{
    hint < covered && stands_for(&rows[hint], row)
}

// The hint at a place.
fn hint_at(hints: &[usize], place: usize) -> usize {
    match hints.get(place) {
        Some(hint) => *hint,
        None => 0,
    }
}

// Sets the hint at a place.
fn set_hint(hints: &mut Vec<usize>, place: usize, hint: usize) {
    if place < hints.len() {
        hints[place] = hint;
    }
}

// Adds a place, unless its row's dkey is known.
fn add_first(firsts: &mut Vec<usize>, at: usize, known: bool) -> Result<(), Memory>
    ensures ok { OnOk result (firsts.new.items ≡ (if known then firsts.old.items else firsts.old.items ++ at ∷ [])) }
    ensures err { OnErr result (firsts.new.items ≡ firsts.old.items) }
{
    if !known {
        firsts.push(at)?;
    }
    Ok(())
}

impl ReadIndex {
    /// An index of no row.
    ///
    /// # Errors
    ///
    /// For want of memory.
    pub fn new(alloc: Global) -> Result<ReadIndex, Memory>
        ensures { IfOk result (λ index. (rows : List Version) → IsIndexOf index rows) }
    {
        let mut hints = Vec::with_capacity(alloc, 1024)?;
        for _ in 0..1024 {
            hints.push(0)?;
        }
        Ok(ReadIndex {
            covered: 0,
            firsts: Vec::new(alloc),
            hints,
            chains: Chains::new(alloc)?,
        })
    }

    /// Forgets all rows.
    pub fn forget(&mut self)
        ensures { (rows : List Version) → IsIndexOf self.new rows }
    {
        self.covered = 0;
        self.firsts.clear();
        self.chains.forget();
    }

    /// Forgets all rows, unless those that it has are among the first, so many, that stayed as they were.
    pub fn keep(&mut self, same: usize)
        ensures { (before after : List Version) → IsIndexOf self.old before → take same before ≡ take same after → same ≤ length after → IsIndexOf self.new after }
    {
        if same < self.covered {
            self.forget();
        }
    }

    // Takes up the row after those that it has, if that is done, and tells whether it is.
    fn take_up(&mut self, rows: &[Version]) -> Result<bool, Memory>
        requires index { IsIndexOf self.old rows.now }
        requires more { self.old.covered < length rows.now }
        ensures index { IsIndexOf self.new rows.now }
        ensures forth { IfOk result (λ more. more ≡ true → self.new.covered ≡ self.old.covered + 1) }
    {
        let at = self.covered;
        let row = &rows[at];
        if !row.done {
            return Ok(false);
        }
        self.chains.reserve()?;
        let place = dkey_place(row.write.path());
        let known = is_known(rows, at, hint_at(&self.hints, place), row);
        add_first(&mut self.firsts, at, known)?;
        self.chains.add(place_of(&row.write));
        self.covered = at + 1;
        set_hint(&mut self.hints, place, at);
        Ok(true)
    }

    /// Takes up rows that are done, but none of the last 64: others may still come among these.
    ///
    /// # Errors
    ///
    /// For want of memory.
    pub fn extend(&mut self, rows: &[Version]) -> Result<(), Memory>
        requires { IsIndexOf self.old rows.now }
        ensures { IsIndexOf self.new rows.now }
    {
        while self.covered < rows.len().saturating_sub(64) {
            if !self.take_up(rows)? {
                return Ok(());
            }
        }
        Ok(())
    }
}
