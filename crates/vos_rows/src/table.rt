// A table of versions.
ghost use Rattle.std.specs.Prelude.{◌≡◌, ◌≤◌, [], true, filter, length, map, take, OnErr, OnOk};
ghost use Rattle.std.specs.Option.{option_copied};
ghost use Rattle.daos_model.specs.Changes.{is_out_of_range};
ghost use Rattle.daos_model.specs.Durables.{version_key};
ghost use Rattle.daos_model.specs.Ordered.{is_in_order, puts};
ghost use Rattle.daos_model.specs.Versions.{done_by, first_between, first_blocking, is_not_pending};
ghost use Rattle.vos_rows.specs.Sweeps.{unmarked};

use crate::open::{first_blocking, next_open, settle_from};
use crate::places::{first_between, put_all};
use crate::sweeps::{remove_pending, remove_range, sweep};
use base_types::epoch::Epoch;
use base_types::id::{AttemptId, ContId};
use base_types::items::Memory;
use base_types::path::Path;
use daos_model::durable::Version;
use std::alloc::Global;
use std::marker::Model;

/// Versions, and those that are to come, for which there is memory. How many of the first are done is
/// known, so that what isn't settled is looked for behind them.
#[derive(Drop)]
pub struct VersionTable {
    rows: Vec<Version>,
    coming: Vec<Version>,
    settled: usize,
}

impl Model for VersionTable {
    ghost use Rattle.std.specs.Prelude.{vec_capacity};
    ghost use Rattle.vos_rows.specs.Tables.{IsTable, Kept};

    ghost Value = { Kept };

    ghost view = { λ t. record { items = t.rows.items; coming = t.coming.items } };

    ghost invariant = { λ t. IsTable t.rows.items t.coming.items t.settled (vec_capacity t.rows) };
}

impl VersionTable {
    /// A table without versions.
    pub fn new(alloc: Global) -> VersionTable
        ensures items { result.items ≡ [] }
    {
        VersionTable {
            rows: Vec::new(alloc),
            coming: Vec::new(alloc),
            settled: 0,
        }
    }

    /// The versions.
    pub fn rows(&self) -> &[Version]
        ensures { result.now ≡ self.now.items }
    {
        &self.rows
    }

    /// The versions that are to come.
    pub fn coming(&self) -> &[Version]
        ensures { result.now ≡ self.now.coming }
    {
        &self.coming
    }

    /// Takes the memory for versions that are to come, in place of those that were.
    ///
    /// # Errors
    ///
    /// For want of memory.
    pub fn expect(&mut self, coming: Vec<Version>) -> Result<(), Memory>
        ensures items { self.new.items ≡ self.old.items }
        ensures coming { OnOk result (self.new.coming ≡ coming.items) }
    {
        self.coming.clear();
        self.rows.reserve(coming.len())?;
        self.coming = coming;
        Ok(())
    }

    /// Puts the versions that are to come among those that are there, which are in order, and tells how
    /// many of the first surely stay as they were.
    pub fn put_coming(&mut self) -> usize
        requires order { is_in_order version_key self.old.items ≡ true }
        ensures items { self.new.items ≡ puts version_key self.old.coming self.old.items }
        ensures within { result ≤ length self.new.items }
        ensures same { take result self.new.items ≡ take result self.old.items }
    {
        self.settled = put_all(&mut self.rows, self.settled, &mut self.coming);
        self.settled
    }

    /// Makes the versions of an attempt done.
    pub fn settle(&mut self, attempt: AttemptId)
        ensures { self.new.items ≡ map (done_by attempt) self.old.items }
    {
        settle_from(&mut self.rows, self.settled, attempt);
        self.settled = next_open(&self.rows, self.settled);
    }

    /// Removes the versions of an attempt that aren't settled.
    pub fn remove_pending(&mut self, attempt: AttemptId)
        ensures { self.new.items ≡ filter (is_not_pending attempt) self.old.items }
    {
        remove_pending(&mut self.rows, attempt);
        self.settled = next_open(&self.rows, 0);
    }

    /// Removes the versions of a container in a range of epochs.
    pub fn remove_range(&mut self, cont: ContId, lo: Epoch, hi: Epoch)
        ensures { self.new.items ≡ filter (is_out_of_range cont lo hi) self.old.items }
    {
        remove_range(&mut self.rows, cont, lo, hi);
        self.settled = next_open(&self.rows, 0);
    }

    /// Removes the versions that are marked; each has a mark.
    pub fn sweep(&mut self, marks: &[bool])
        requires { length marks.now ≡ length self.old.items }
        ensures { self.new.items ≡ unmarked marks.now self.old.items }
    {
        sweep(&mut self.rows, marks);
        self.settled = next_open(&self.rows, 0);
    }

    /// The first version that keeps a read below an epoch from its answer.
    pub fn first_blocking(&self, path: &Path, below: Epoch) -> Option<&Version>
        ensures { option_copied result ≡ first_blocking path.now below.0 self.now.items }
    {
        first_blocking(&self.rows, self.settled, path, below)
    }

    /// The first version on a path, above one epoch and up to another. The versions are in order.
    pub fn first_between(&self, path: &Path, above: Epoch, upto: Epoch) -> Option<&Version>
        requires { is_in_order version_key self.now.items ≡ true }
        ensures { option_copied result ≡ first_between path.now above.0 upto.0 self.now.items }
    {
        first_between(&self.rows, path, above, upto)
    }
}
