// A table of entries.
ghost use Rattle.std.specs.Prelude.{◌≡◌, [], true, filter, find, IfOk, OnErr, OnOk};
ghost use Rattle.base_types.specs.declared.entry.Entry.{Entry};
ghost use Rattle.daos_model.specs.Durables.{entry_key, is_entry_of};
ghost use Rattle.daos_model.specs.Ordered.{put};
ghost use Rattle.dtx_entries.specs.Owing.{is_owing};
ghost use Rattle.dtx_entries.specs.Places.{IsAlike};
ghost use Rattle.dtx_entries.specs.Settling.{IsStep, entries_settled};

use crate::owing::find_owing;
use crate::{halves, loops, owing};
use base_types::entry::{Entry, Settle};
use base_types::epoch::TargetId;
use base_types::id::AttemptId;
use base_types::items::Memory;
use std::alloc::Global;
use std::marker::Model;

/// Entries, in the order of attempts where no attempt has two, found by halves; and, apart, those that
/// a target leads, where it is known which one asks, and that are committed and not surely confirmed by
/// all other members. It keeps other lists too, slowly.
#[derive(Drop)]
pub struct EntryTable {
    rows: Vec<Entry>,
    owing: Vec<Entry>,
    me: Option<TargetId>,
    rises: bool,
}

impl Model for EntryTable {
    ghost use Rattle.std.specs.Prelude.{◌&&◌, nat_lt, vec_len, vec_capacity};
    ghost use Rattle.dtx_entries.specs.Tables.{IsTable, Kept};

    ghost Value = { Kept };

    ghost view = { λ t. record { items = t.rows.items; room = nat_lt (vec_len t.rows) (vec_capacity t.rows) && nat_lt (vec_len t.rows) (vec_capacity t.owing) } };

    ghost invariant = { λ t. IsTable t.me t.rows.items t.owing.items (vec_capacity t.owing) t.rises };
}

impl EntryTable {
    /// A table without entries, which knows no target.
    pub fn new(alloc: Global) -> EntryTable
        ensures { result.items ≡ [] }
    {
        EntryTable {
            rows: Vec::new(alloc),
            owing: Vec::new(alloc),
            me: None,
            rises: true,
        }
    }

    /// The table of these entries, which a target keeps.
    ///
    /// # Errors
    ///
    /// For want of memory.
    pub fn of_rows(alloc: Global, me: TargetId, rows: Vec<Entry>) -> Result<EntryTable, Memory>
        ensures { IfOk result (λ table. table.items ≡ rows.items) }
    {
        let me = Some(me);
        let mut owing = Vec::with_capacity(alloc, rows.len())?;
        find_owing(me, &mut owing, &rows);
        let rises = loops::is_rising(&rows);
        Ok(EntryTable {
            rows,
            owing,
            me,
            rises,
        })
    }

    /// The entries.
    pub fn rows(&self) -> &[Entry]
        ensures { result.now ≡ self.now.items }
    {
        &self.rows
    }

    /// Entries among which stand all that a target owes, in the same order: those alone, where the table is
    /// this target's.
    pub fn owing(&self, me: TargetId) -> &[Entry]
        ensures { filter (is_owing (Some me)) result.now ≡ filter (is_owing (Some me)) self.now.items }
    {
        if let Some(mine) = self.me {
            if mine == me {
                return &self.owing;
            }
        }
        &self.rows
    }

    /// The first entry of an attempt, if there is one.
    pub fn find(&self, attempt: AttemptId) -> Option<Entry>
        ensures { result ≡ find (is_entry_of attempt) self.now.items }
    {
        if self.rises {
            return halves::find(&self.rows, attempt);
        }
        loops::find(&self.rows, attempt)
    }

    /// Entries among which whatever is sought of an attempt is found as among all: its own one alone, where
    /// no attempt has two.
    pub fn of_attempt(&self, attempt: AttemptId) -> &[Entry]
        ensures { IsAlike attempt result.now self.now.items }
    {
        if self.rises {
            return halves::rows_of(&self.rows, attempt);
        }
        &self.rows
    }

    /// Makes room for one entry more.
    ///
    /// # Errors
    ///
    /// For want of memory.
    pub fn reserve(&mut self) -> Result<(), Memory>
        ensures items { self.new.items ≡ self.old.items }
        ensures room { OnOk result (self.new.room ≡ true) }
    {
        self.rows.reserve(1)?;
        let lacking = self.rows.len() - self.owing.len() + 1;
        self.owing.reserve(lacking)?;
        Ok(())
    }

    /// Puts an entry in its place, for which there is room.
    pub fn put(&mut self, entry: Entry)
        requires { self.old.room ≡ true }
        ensures { self.new.items ≡ put entry_key entry self.old.items }
    {
        if self.rises && halves::row_at(&self.rows, entry.attempt).is_none() {
            owing::put(self.me, &mut self.rows, &mut self.owing, entry);
        } else {
            owing::put_anywhere(self.me, &mut self.rows, &mut self.owing, entry);
            self.rises = false;
        }
    }

    /// Adds an entry in its place.
    ///
    /// # Errors
    ///
    /// For want of memory; the entries are then as they were.
    pub fn add(&mut self, entry: Entry) -> Result<(), Memory>
        ensures ok { OnOk result (self.new.items ≡ put entry_key entry self.old.items) }
        ensures err { OnErr result (self.new.items ≡ self.old.items) }
    {
        self.reserve()?;
        self.put(entry);
        Ok(())
    }

    /// A step of an attempt, as a store makes it of the entries that it keeps. A member that confirms is
    /// below 64.
    pub fn settle(&mut self, attempt: AttemptId, step: Settle)
        requires { IsStep step }
        ensures { self.new.items ≡ entries_settled attempt step self.old.items }
    {
        if self.rises {
            owing::settle(self.me, &mut self.rows, &mut self.owing, attempt, step);
        } else {
            owing::settle_anywhere(self.me, &mut self.rows, &mut self.owing, attempt, step);
        }
    }
}
