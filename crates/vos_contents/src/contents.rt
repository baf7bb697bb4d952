// What a store keeps, in memory, and each change of it, without stops.
ghost use Rattle.std.specs.Prelude.{◌≤◌, length, vec_capacity};
ghost use Rattle.daos_model.specs.Durables.{IsInForm};
ghost use Rattle.vos_scan.specs.Indexed.{IsIndexOf};

use crate::client_tables::ClientTables;
use base_types::snapshot::Snap;
use daos_model::durable::ContRow;
use std::alloc::Global;
use vos_aggregate::planner::Planner;
use vos_rows::table::VersionTable;
use vos_scan::index::ReadIndex;

/// What a store keeps: its parts in order, memory for plans of prunes of all its versions, an index of
/// the first of them for reads, and places for 256 snapshots.
#[derive(Drop)]
pub struct Contents {
    pub alloc: Global,
    pub rows: VersionTable,
    pub planner: Planner,
    pub index: ReadIndex,
    pub entries: ClientTables,
    pub conts: Vec<ContRow>,
    pub snaps: Vec<Snap>,
    pub lease: u64,
    pub incarnation: u64,
    ghost formed: { IsInForm (record { versions = rows.items; entries = entries.items; conts = conts.items; snaps = snaps.items; lease = lease; incarnation = incarnation }) },
    ghost indexed: { IsIndexOf index rows.items },
    ghost planned: { length rows.items ≤ planner.room },
    ghost places: { 256 ≤ vec_capacity snaps },
}
