// The fixed places of a pool, as it remembers them.
ghost use Rattle.std.specs.Prelude.{◌≡◌, None, IfOk, replicate};
ghost use Rattle.vos_places.specs.Laws.{counted};
ghost use Rattle.vos_tables.specs.Changes.{AllFit, Fits, all_changed, changed};
ghost use Rattle.vos_tables.specs.Seats.{FindsCont, FindsSnap, FindsUnused};
ghost use Rattle.vos_tables.specs.Tables.{AreNext, IsTable, empty_table, raised, table_of};

use crate::change::Change;
use crate::identity::Identity;
use crate::seats::{cont_at, free_snap, snap_at};
use base_types::epoch::Epoch;
use base_types::id::ContId;
use base_types::items::Memory;
use base_types::snapshot::Snap;
use daos_model::durable::ContRow;
use std::alloc::Global;
use std::marker::Model;
use vos_places::codec::Counters;
use vos_values::keys::Layout;

/// The fixed places of a pool: what its image says of itself, and what each place of a container and
/// of a snapshot holds. No container and no snapshot is there twice, each snapshot is of a container
/// that is there, and the lease covers the epochs.
#[derive(Drop)]
pub struct Tables {
    pub(crate) identity: Identity,
    pub(crate) counters: Counters,
    pub(crate) conts: Vec<Option<ContRow>>,
    pub(crate) snaps: Vec<Option<Snap>>,
}

impl Model for Tables {
    ghost use Rattle.vos_places.specs.Tables.{Table};
    ghost use Rattle.vos_tables.specs.Tables.{IsTable, table_of};

    ghost Value = { Table };

    ghost view = { λ t. table_of t.identity t.counters t.conts.items t.snaps.items };

    ghost invariant = { λ t. IsTable (table_of t.identity t.counters t.conts.items t.snaps.items) };
}

// The places of containers, none of them used.
fn unused_conts(alloc: Global) -> Result<Vec<Option<ContRow>>, Memory>
    ensures { IfOk result (λ places. places.items ≡ replicate 256 None) }
{
    let mut places = Vec::with_capacity(alloc, 256)?;
    while places.len() < 256 {
        places.push(None)?;
    }
    Ok(places)
}

// The places of snapshots, none of them used.
fn unused_snaps(alloc: Global) -> Result<Vec<Option<Snap>>, Memory>
    ensures { IfOk result (λ places. places.items ≡ replicate 256 None) }
{
    let mut places = Vec::with_capacity(alloc, 256)?;
    while places.len() < 256 {
        places.push(None)?;
    }
    Ok(places)
}

impl Tables {
    /// These places, 256 of containers and 256 of snapshots.
    pub fn of(
        identity: Identity,
        counters: Counters,
        conts: Vec<Option<ContRow>>,
        snaps: Vec<Option<Snap>>,
    ) -> Tables
        requires { IsTable (table_of identity counters conts.items snaps.items) }
        ensures { result ≡ table_of identity counters conts.items snaps.items }
    {
        Tables {
            identity,
            counters,
            conts,
            snaps,
        }
    }

    /// Places of which none is used, in the first incarnation, with no lease and no roots.
    ///
    /// # Errors
    ///
    /// For want of memory.
    pub fn empty(alloc: Global, identity: Identity) -> Result<Tables, Memory>
        ensures { IfOk result (λ tables. tables ≡ empty_table identity) }
    {
        Ok(Tables {
            identity,
            counters: Counters {
                incarnation: 1,
                lease: 0,
                objects: 0,
                entries: 0,
            },
            conts: unused_conts(alloc)?,
            snaps: unused_snaps(alloc)?,
        })
    }

    // A container, with its place.
    pub(crate) fn cont_at(&self, cont: ContId) -> Option<(usize, ContRow)>
        ensures table { IsTable self.now }
        ensures found { FindsCont cont self.now.conts result }
    {
        cont_at(&self.conts, cont)
    }

    // A snapshot, with its place.
    pub(crate) fn snap_at(&self, cont: ContId, s: Epoch) -> Option<(usize, Snap)>
        ensures table { IsTable self.now }
        ensures found { FindsSnap cont s self.now.snaps result }
    {
        snap_at(&self.snaps, cont, s)
    }

    // A place that no snapshot has.
    pub(crate) fn free_snap(&self) -> Option<usize>
        ensures { FindsUnused self.now.snaps result }
    {
        free_snap(&self.snaps)
    }

    /// The lease, in ticks.
    pub fn lease(&self) -> u64
        ensures { result ≡ self.now.header.lease }
    {
        self.counters.lease
    }

    /// How often the pool was opened.
    pub fn incarnation(&self) -> u64
        ensures { result ≡ self.now.header.incarnation }
    {
        self.counters.incarnation
    }

    /// The root of the objects, 0 for none.
    pub fn objects(&self) -> u32
        ensures { result ≡ self.now.header.objects }
    {
        self.counters.objects
    }

    /// The root of the entries, 0 for none.
    pub fn entries(&self) -> u32
        ensures { result ≡ self.now.header.entries }
    {
        self.counters.entries
    }

    /// Makes a change that it can take. Takes no memory.
    pub fn apply(&mut self, change: Change)
        requires { Fits self.old change }
        ensures { self.new ≡ changed change self.old }
    {
        match change {
            Change::Cont(at, row) => self.conts[usize::from(at)] = Some(row),
            Change::Snapshot(at, snap) => self.snaps[usize::from(at)] = Some(snap),
            Change::Unused(at) => self.snaps[usize::from(at)] = None,
        }
    }

    /// Makes changes, each of which it can take where those before it are made. Takes no memory.
    pub fn apply_all(&mut self, changes: &[Change])
        requires { AllFit self.old changes.now }
        ensures { self.new ≡ all_changed changes.now self.old }
    {
        for change in changes {
            self.apply(*change);
        }
    }

    /// Sets the counters. Takes no memory.
    pub fn count(&mut self, counters: Counters)
        requires { AreNext self.old counters }
        ensures { self.new ≡ counted counters self.old }
    {
        self.counters = counters;
    }

    /// Says that the image is of the second layout. Takes no memory.
    pub fn raise(&mut self)
        ensures { self.new ≡ raised self.old }
    {
        self.identity.layout = Layout::Two;
    }
}
