// Entries in a table for each client, so that one that comes in moves none of other clients.
ghost use Rattle.std.specs.Prelude.{◌≡◌, ◌≤◌, ◌++◌, [], true, length, IfOk, OnOk};
ghost use Rattle.daos_model.specs.Durables.{entry_key};
ghost use Rattle.daos_model.specs.Ordered.{put};
ghost use Rattle.dtx_entries.specs.Settling.{IsStep, entries_settled};
ghost use Rattle.vos_contents.specs.Clients.{are_by_client, entries_in, has_room_for};

use base_types::entry::{Entry, Settle};
use base_types::id::AttemptId;
use base_types::items::Memory;
use dtx_entries::table::EntryTable;
use std::alloc::Global;
use std::marker::Model;

/// Entries in the order of attempts, in a table for each client from 0 on.
#[derive(Drop)]
pub struct ClientTables {
    tables: Vec<EntryTable>,
}

impl Model for ClientTables {
    ghost use Rattle.std.specs.Prelude.{◌≡◌, true, map};
    ghost use Rattle.vos_contents.specs.Clients.{Kept, are_by_client, entries_in, has_room};

    ghost Value = { Kept };

    ghost view = { λ t. record { items = entries_in t.tables.items; rooms = map has_room t.tables.items } };

    ghost invariant = { λ t. are_by_client 0 t.tables.items ≡ true };
}

// Adds empty tables until there are so many.
fn add_tables(alloc: Global, tables: &mut Vec<EntryTable>, count: usize) -> Result<(), Memory>
    requires { are_by_client 0 tables.old.items ≡ true }
    ensures items { entries_in tables.new.items ≡ entries_in tables.old.items }
    ensures clients { are_by_client 0 tables.new.items ≡ true }
    ensures many { OnOk result (count ≤ length tables.new.items) }
{
    while tables.len() < count {
        tables.push(EntryTable::new(alloc))?;
    }
    Ok(())
}

// Adds the entries of tables, one table after another.
fn add_rows(rows: &mut Vec<Entry>, tables: &[EntryTable]) -> Result<(), Memory>
    ensures { OnOk result (rows.new.items ≡ rows.old.items ++ entries_in tables.now) }
{
    for table in tables {
        rows.extend_from_slice(table.rows())?;
    }
    Ok(())
}

// How many entries tables have.
fn count_of(tables: &[EntryTable], limit: u32) -> u32
    requires { length (entries_in tables.now) ≤ limit }
    ensures { result ≡ length (entries_in tables.now) }
{
    let mut count = 0;
    for table in tables {
        count += table.rows().len() as u32;
    }
    count
}

impl ClientTables {
    /// No entries.
    pub fn new(alloc: Global) -> ClientTables
        ensures { result.items ≡ [] }
    {
        ClientTables {
            tables: Vec::new(alloc),
        }
    }

    /// A copy of the entries.
    ///
    /// # Errors
    ///
    /// For want of memory.
    pub fn copied(&self, alloc: Global) -> Result<Vec<Entry>, Memory>
        ensures { IfOk result (λ rows. rows.items ≡ self.now.items) }
    {
        let mut rows = Vec::new(alloc);
        add_rows(&mut rows, &self.tables)?;
        Ok(rows)
    }

    /// How many entries there are, which are at most so many.
    pub fn count(&self, limit: u32) -> u32
        requires { length self.now.items ≤ limit }
        ensures { result ≡ length self.now.items }
    {
        count_of(&self.tables, limit)
    }

    /// Makes room for one entry more of a client.
    ///
    /// # Errors
    ///
    /// For want of memory.
    pub fn reserve(&mut self, alloc: Global, client: u16) -> Result<(), Memory>
        ensures items { self.new.items ≡ self.old.items }
        ensures room { OnOk result (has_room_for client self.new ≡ true) }
    {
        let at = usize::from(client);
        add_tables(alloc, &mut self.tables, at + 1)?;
        self.tables[at].reserve()
    }

    /// Puts an entry in its place, for which there is room.
    pub fn put(&mut self, entry: Entry)
        requires { has_room_for entry.attempt.client self.old ≡ true }
        ensures { self.new.items ≡ put entry_key entry self.old.items }
    {
        self.tables[usize::from(entry.attempt.client)].put(entry);
    }

    /// A step of an attempt, as a store makes it of the entries that it keeps. A member that confirms is
    /// below 64.
    pub fn settle(&mut self, attempt: AttemptId, step: Settle)
        requires { IsStep step }
        ensures { self.new.items ≡ entries_settled attempt step self.old.items }
    {
        let at = usize::from(attempt.client);
        if at < self.tables.len() {
            self.tables[at].settle(attempt, step);
        }
    }
}
