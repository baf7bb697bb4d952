// What a store answers of what it keeps, without stops.
ghost use Rattle.std.specs.Prelude.{◌≡◌, true, IfErr, IfOk, length};
ghost use Rattle.std.specs.Option.{option_copied};
ghost use Rattle.daos_model.specs.Answers.{answer};
ghost use Rattle.std.specs.List.{list_all};
ghost use Rattle.daos_model.specs.Durables.{is_version_in_form, row_or_new};
ghost use Rattle.daos_model.specs.Versions.{map_below};
ghost use Rattle.vos_scan.specs.Indexed.{IsIndexOf};
ghost use Rattle.vos_store.specs.Answers.{shown_or_none};

use crate::contents::Contents;
use crate::objects::objects_of;
use crate::rows::first_open_in;
use crate::tables::{conts_of, copied, has_snap, new_row, row_of};
use base_types::answer::Answer;
use base_types::entry::Entries;
use base_types::epoch::Epoch;
use base_types::id::ContId;
use base_types::items::{Items, Memory};
use base_types::operation::Read;
use base_types::outcome::FloorWhy;
use base_types::path::Path;
use base_types::shown::Shown;
use base_types::snapshot::Snaps;
use daos_model::durable::{ContRow, Version};
use std::alloc::Global;
use vos_scan::index::ReadIndex;
use vos_scan::reads::answer_indexed;
use vos_store::listed::{ContIds, ObjIds};
use vos_store::refusal::{DiscardNo, FetchNo, FreezeNo};

// A version as it is shown.
fn shown(version: Option<&Version>) -> Result<Option<Shown>, Memory>
    ensures { IfOk result (λ shown. shown ≡ shown_or_none (option_copied version.entry)) }
{
    match version {
        Some(version) => Ok(Some(Shown {
            by: version.by,
            epoch: version.epoch,
            path: version.write.path().copy()?,
        })),
        None => Ok(None),
    }
}

// The row of a container, or a new one.
fn row_or_new(cont: ContId, row: Option<&ContRow>) -> ContRow
    ensures { result ≡ row_or_new cont (option_copied row.entry) }
{
    match row {
        Some(row) => *row,
        None => new_row(cont),
    }
}

// The answer of a read on the versions below an epoch.
fn answered(
    alloc: Global,
    rows: &[Version],
    index: &ReadIndex,
    read: &Read,
    below: Epoch,
) -> Result<Answer, FetchNo>
    requires form { list_all is_version_in_form rows.now ≡ true }
    requires index { IsIndexOf index.now rows.now }
    ensures answer { IfOk result (λ a. a ≡ answer read.now (map_below rows.now below.0)) }
    ensures memory { IfErr result (λ e. e ≡ FetchNo.Memory) }
{
    match answer_indexed(alloc, rows, index, read, below) {
        Ok(answer) => Ok(answer),
        Err(_) => Err(FetchNo::Memory),
    }
}

impl Contents {
    ghost use Rattle.std.specs.Prelude.{◌<◌, false, IfSome, OnOk};
    ghost use Rattle.daos_model.specs.Durables.{is_frozen, row_of};
    ghost use Rattle.daos_model.specs.Forms.{is_path_in_form, is_read_in_form};
    ghost use Rattle.daos_model.specs.Kinds.{is_of_kind};
    ghost use Rattle.vos_store.specs.Answers.{IsFloorShown, discards, enlisted_in, fetched, floor_of, freezes, is_past, later_write, objects_in, open_below};
    ghost use Rattle.vos_store.specs.Refusals.{discard_stop, fetch_open, fetch_stop, freeze_stop, says};
    ghost use Rattle.base_types.specs.Epochs.{restart_floor};
    ghost use Rattle.vos_contents.specs.Contents.{contents_of};

    /// What is kept of a container.
    #[tactic(auto, unfolding(daos_model::specs::Durables::row_of))]
    pub fn row(&self, cont: ContId) -> ContRow
        ensures { result ≡ row_of (contents_of self.now) cont }
    {
        row_or_new(cont, row_of(&self.conts, cont))
    }

    /// Whether a snapshot is frozen.
    #[tactic(auto, unfolding(daos_model::specs::Durables::is_frozen))]
    pub fn is_frozen(&self, cont: ContId, epoch: Epoch) -> bool
        ensures { result ≡ is_frozen (contents_of self.now) cont epoch }
    {
        has_snap(&self.snaps, cont, epoch)
    }

    // Whether the versions that a read below an epoch asks for were aggregated.
    #[tactic(auto, unfolding(vos_store::specs::Answers::is_past))]
    fn is_past(&self, cont: ContId, epoch: Epoch) -> bool
        ensures { result ≡ is_past cont epoch (contents_of self.now) }
    {
        epoch.0 <= self.row(cont).aggregated.0 && !self.is_frozen(cont, epoch)
    }

    /// Whether a freeze is refused.
    #[tactic(auto, unfolding(vos_store::specs::Answers::freezes))]
    pub fn can_freeze(&self, cont: ContId, s: Epoch) -> Result<(), FreezeNo>
        ensures answer { result ≡ freezes cont s (contents_of self.now) }
        ensures runs { says freeze_stop result ≡ false }
        ensures place { OnOk result (is_frozen (contents_of self.now) cont s ≡ false → length (contents_of self.now).snaps < 256) }
    {
        let row = self.row(cont);
        if s.0 <= row.aggregated.0 {
            return Err(FreezeNo::Below(row.aggregated, row.number));
        }
        if !self.is_frozen(cont, s) && self.snaps.len() >= 256 {
            return Err(FreezeNo::NoPlace);
        }
        Ok(())
    }

    /// Whether a discard is refused.
    #[tactic(auto, unfolding(vos_store::specs::Answers::discards))]
    pub fn can_discard(&self, cont: ContId, lo: Epoch, hi: Epoch) -> Result<(), DiscardNo>
        ensures answer { result ≡ discards cont lo hi (contents_of self.now) }
        ensures runs { says discard_stop result ≡ false }
    {
        match first_open_in(self.rows.rows(), cont, lo, hi) {
            Some(version) => Err(DiscardNo::Unsettled(version.by)),
            None => Ok(()),
        }
    }

    /// The least epoch of a container's versions at or below an epoch that aren't settled.
    #[tactic(auto, unfolding(vos_store::specs::Answers::open_below))]
    pub fn open_below(&self, cont: ContId, upto: Epoch) -> Option<Epoch>
        ensures { result ≡ open_below cont upto (contents_of self.now) }
    {
        first_open_in(self.rows.rows(), cont, Epoch(0), upto).map(|version| version.epoch)
    }

    /// The answer of a read below an epoch. It is of the kind that the read asks for.
    #[tactic(auto, unfolding(vos_store::specs::Answers::fetched))]
    pub fn fetch(&mut self, read: &Read, below: Epoch) -> Result<Answer, FetchNo>
        ensures answer { says fetch_open result ≡ false → result ≡ fetched read.now below (contents_of self.old) }
        ensures kind { is_read_in_form read.now ≡ true → IfOk result (λ answer. is_of_kind read.now answer ≡ true) }
        ensures runs { says fetch_stop result ≡ false }
        ensures kept { contents_of self.new ≡ contents_of self.old }
        ensures lease { self.new.lease ≡ self.old.lease }
    {
        let path = read.path();
        if self.is_past(path.cont, below) {
            let row = self.row(path.cont);
            return Err(FetchNo::Aggregated(row.aggregated, row.number));
        }
        if let Some(version) = self.rows.first_blocking(path, below) {
            return Err(FetchNo::Unsettled(version.by));
        }
        if self.index.extend(self.rows.rows()).is_err() {
            return Err(FetchNo::Memory);
        }
        answered(self.alloc, self.rows.rows(), &self.index, read, below)
    }

    /// The write on a path, above one epoch and up to another, that is shown. Its path is in form.
    #[tactic(auto, unfolding(vos_store::specs::Answers::later_write))]
    pub fn later_write(
        &self,
        path: &Path,
        above: Epoch,
        upto: Epoch,
    ) -> Result<Option<Shown>, Memory>
        ensures answer { IfOk result (λ shown. shown ≡ later_write path.now above upto (contents_of self.now)) }
        ensures shown { IfOk result (λ shown. IfSome shown (λ x. is_path_in_form x.path ≡ true)) }
    {
        shown(self.rows.first_between(path, above, upto))
    }

    /// The entries.
    pub fn entries(&self) -> Result<Entries, Memory>
        ensures { IfOk result (λ entries. entries ≡ (contents_of self.now).entries) }
    {
        Ok(Items::from_vec(self.entries.copied(self.alloc)?))
    }

    /// The objects of a container that have a version.
    pub fn objects(&self, cont: ContId) -> Result<ObjIds, Memory>
        ensures { IfOk result (λ objects. objects ≡ objects_in cont (contents_of self.now)) }
    {
        Ok(Items::from_vec(objects_of(self.alloc, self.rows.rows(), cont)?))
    }

    /// The containers that are enlisted.
    pub fn enlisted(&self) -> Result<ContIds, Memory>
        ensures { IfOk result (λ conts. conts ≡ enlisted_in (contents_of self.now)) }
    {
        Ok(Items::from_vec(conts_of(self.alloc, &self.conts)?))
    }

    /// The snapshots.
    pub fn snaps(&self) -> Result<Snaps, Memory>
        ensures { IfOk result (λ snaps. snaps ≡ (contents_of self.now).snaps) }
    {
        Ok(Items::from_vec(copied(self.alloc, &self.snaps)?))
    }

    /// The versions, in order.
    pub fn versions(&self) -> &[Version]
        ensures { result.now ≡ (contents_of self.now).versions }
    {
        self.rows.rows()
    }

    /// The floor of a container, and what set it: the stored one, or that of the last opening where it isn't below.
    #[tactic(auto, unfolding(vos_store::specs::Answers::floor_of))]
    pub fn floor(&self, opening: (Epoch, FloorWhy), cont: ContId) -> (Epoch, FloorWhy)
        ensures floor { result ≡ floor_of opening (contents_of self.now) cont }
        ensures why { IsFloorShown opening result }
    {
        let row = self.row(cont);
        if opening.0.0 < row.floor.0 {
            (row.floor, row.why)
        } else {
            opening
        }
    }

    /// The floor that an opening sets.
    pub fn restart_floor(&self) -> Epoch
        ensures { result.0 ≡ restart_floor (contents_of self.now).lease }
    {
        let lease = self.lease;
        Epoch(lease * 256 + 255)
    }
}
