// What a pool answers from its fixed places.
ghost use Rattle.std.specs.Prelude.{◌≡◌, IfOk};
ghost use Rattle.daos_model.specs.Durables.{is_enlisted, is_frozen, row_of};
ghost use Rattle.vos_places.specs.Tables.{those};
ghost use Rattle.vos_store.specs.Answers.{IsFloorShown, enlisted_in, floor_of};
ghost use Rattle.vos_tables.specs.Kept.{OfKept};
ghost use Rattle.vos_tables.specs.Tables.{IsKeptFloor};

use crate::enlisting::new_row;
use crate::rows::{conts_in_order, snaps_in_order, used};
use crate::table::Tables;
use base_types::epoch::Epoch;
use base_types::id::ContId;
use base_types::items::{Items, Memory};
use base_types::outcome::FloorWhy;
use base_types::snapshot::{Snap, Snaps};
use daos_model::durable::ContRow;
use std::alloc::Global;
use vos_store::listed::ContIds;

impl Tables {
    /// What is kept of a container; of one that isn't there, what is kept of one that is new.
    pub fn row(&self, cont: ContId) -> ContRow
        ensures row { OfKept self.now (λ d. result ≡ row_of d cont) }
        ensures why { IsKeptFloor result }
    {
        match self.cont_at(cont) {
            Some((_, row)) => row,
            None => new_row(cont),
        }
    }

    /// Whether a container is there.
    pub fn has_cont(&self, cont: ContId) -> bool
        ensures { OfKept self.now (λ d. result ≡ is_enlisted d cont) }
    {
        self.cont_at(cont).is_some()
    }

    /// Whether a snapshot is frozen, created or not.
    pub fn has_snap(&self, cont: ContId, s: Epoch) -> bool
        ensures { OfKept self.now (λ d. result ≡ is_frozen d cont s) }
    {
        self.snap_at(cont, s).is_some()
    }

    /// The floor of a container, with what set it: the stored one, or this one of the last opening
    /// where it isn't below.
    pub fn floor(&self, opening: (Epoch, FloorWhy), cont: ContId) -> (Epoch, FloorWhy)
        ensures floor { OfKept self.now (λ d. result ≡ floor_of opening d cont) }
        ensures why { IsFloorShown opening result }
    {
        let row = self.row(cont);
        if opening.0.0 < row.floor.0 {
            (row.floor, row.why)
        } else {
            opening
        }
    }

    /// The containers, in order.
    pub fn conts(&self, alloc: Global) -> Result<ContIds, Memory>
        ensures { IfOk result (λ conts. OfKept self.now (λ d. conts ≡ enlisted_in d)) }
    {
        Ok(Items::from_vec(conts_in_order(alloc, &self.conts)?))
    }

    /// The snapshots, in the order of containers and epochs.
    pub fn snaps(&self, alloc: Global) -> Result<Snaps, Memory>
        ensures { IfOk result (λ snaps. OfKept self.now (λ d. snaps ≡ d.snaps)) }
    {
        Ok(Items::from_vec(snaps_in_order(alloc, &self.snaps)?))
    }
    /// What is kept of each container, in the order of places.
    pub fn cont_rows(&self, alloc: Global) -> Result<Vec<ContRow>, Memory>
        ensures { IfOk result (λ rows. rows.items ≡ those self.now.conts) }
    {
        used(alloc, &self.conts)
    }

    /// Each snapshot, in the order of places.
    pub fn snap_rows(&self, alloc: Global) -> Result<Vec<Snap>, Memory>
        ensures { IfOk result (λ rows. rows.items ≡ those self.now.snaps) }
    {
        used(alloc, &self.snaps)
    }
}
