// Entries by attempt.
ghost use Rattle.std.specs.Prelude.{◌≡◌, [], true, OnErr, OnOk, IfOk};
ghost use Rattle.base_types.specs.declared.entry.Entry.{Entry};
ghost use Rattle.daos_model.specs.Durables.{entry_key};
ghost use Rattle.daos_model.specs.Ordered.{is_rising, put};
ghost use Rattle.dtx_table.specs.Tables.{IsStep, entry_in, entries_settled};

use crate::rows::{find, put};
use base_types::entry::{Entry, Settle};
use base_types::id::AttemptId;
use base_types::items::Memory;
use dtx_entries::loops::settle_rows;
use std::alloc::Global;
use std::marker::Model;

/// Entries in the order of their attempts.
#[derive(Drop)]
pub struct Table {
    rows: Vec<Entry>,
}

impl Model for Table {
    ghost use Rattle.std.specs.Prelude.{List};
    ghost use Rattle.base_types.specs.declared.entry.Entry.{Entry};

    ghost Value = { List Entry };

    ghost view = { λ t. t.rows.items };
}

impl Table {
    /// A table without entries.
    ///
    /// # Errors
    ///
    /// None so far: it takes no memory.
    pub fn new(alloc: Global) -> Result<Table, Memory>
        ensures { IfOk result (λ table. table ≡ []) }
    {
        Ok(Table {
            rows: Vec::new(alloc),
        })
    }

    /// The table of these entries, which stand in the order of attempts.
    pub fn of_rows(rows: Vec<Entry>) -> Table
        requires { is_rising entry_key rows.items ≡ true }
        ensures { result ≡ rows.items }
    {
        Table { rows }
    }

    /// The entries, in the order of attempts.
    pub fn entries(&self) -> &[Entry]
        ensures { result.now ≡ self.now }
    {
        &self.rows
    }

    /// Adds the entry of an attempt that has none.
    ///
    /// # Errors
    ///
    /// For want of memory; the table is then as it was.
    pub fn add(&mut self, entry: Entry) -> Result<(), Memory>
        ensures ok { OnOk result (self.new ≡ put entry_key entry self.old) }
        ensures err { OnErr result (self.new ≡ self.old) }
    {
        self.rows.reserve(1)?;
        put(&mut self.rows, entry);
        Ok(())
    }

    /// The entry of an attempt, if there is one.
    pub fn state(&self, attempt: AttemptId) -> Option<Entry>
        ensures { result ≡ entry_in self.now attempt }
    {
        find(&self.rows, attempt)
    }

    /// A step of an attempt, as a store makes it of the entries that it keeps. A member that
    /// confirms is below 64.
    pub fn settle(&mut self, attempt: AttemptId, step: Settle)
        requires { IsStep step }
        ensures { self.new ≡ entries_settled attempt step self.old }
    {
        settle_rows(&mut self.rows, attempt, step)
    }
}
