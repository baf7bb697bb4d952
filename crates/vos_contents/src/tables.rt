// Rows of entries, containers and snapshots.
ghost use Rattle.std.specs.Prelude.{◌≡◌, ◌<◌, find, map, IfOk, OnOk, vec_capacity};
ghost use Rattle.std.specs.List.{list_any};
ghost use Rattle.std.specs.Option.{option_copied};
ghost use Rattle.base_types.specs.declared.outcome.FloorWhy.{FloorWhy};
ghost use Rattle.daos_model.specs.Changes.{aggregated_to, committed_at, confirmed_at, created_at, marked_at, raised, raised_at, with_cont, with_conts};
ghost use Rattle.vos_store.specs.Answers.{row_cont};
ghost use Rattle.daos_model.specs.Durables.{is_entry_of, is_row_of, is_snap_at, new_row};

use crate::keyed::put_in;
use base_types::entry::Entry;
use base_types::epoch::{Epoch, TargetId};
use base_types::id::{AttemptId, ContId};
use base_types::items::Memory;
use base_types::outcome::FloorWhy;
use base_types::snapshot::Snap;
use daos_model::durable::{ContRow, is_same_attempt};
use std::alloc::Global;

/// Whether an entry is that of an attempt.
pub fn is_entry_of(row: &Entry, attempt: AttemptId) -> bool
    ensures { result ≡ is_entry_of attempt row.now }
{
    is_same_attempt(row.attempt, attempt)
}

/// Whether a row is that of a container.
pub fn is_row_of(row: &ContRow, cont: ContId) -> bool
    ensures { result ≡ is_row_of cont row.now }
{
    row.cont.0 == cont.0
}

/// Whether a snapshot is that of a container at an epoch.
pub fn is_snap_at(row: &Snap, cont: ContId, epoch: Epoch) -> bool
    ensures { result ≡ is_snap_at cont epoch row.now }
{
    row.cont.0 == cont.0 && row.epoch.0 == epoch.0
}

/// A container that is new.
pub fn new_row(cont: ContId) -> ContRow
    ensures { result ≡ new_row cont }
{
    ContRow {
        cont,
        floor: Epoch(0),
        why: FloorWhy::Opening,
        aggregated: Epoch(0),
        number: 0,
    }
}

/// The row of a container, if it is there.
pub fn row_of(rows: &[ContRow], cont: ContId) -> Option<&ContRow>
    ensures { option_copied result ≡ find (is_row_of cont) rows.now }
{
    rows.iter().find(|row| is_row_of(row, cont))
}

/// Whether a container is there.
pub fn has_row(rows: &[ContRow], cont: ContId) -> bool
    ensures { result ≡ list_any (is_row_of cont) rows.now }
{
    rows.iter().any(|row| is_row_of(row, cont))
}

/// Whether a snapshot is there.
pub fn has_snap(rows: &[Snap], cont: ContId, epoch: Epoch) -> bool
    ensures { result ≡ list_any (is_snap_at cont epoch) rows.now }
{
    rows.iter().any(|row| is_snap_at(row, cont, epoch))
}

fn commit_among(rows: &mut [Entry], attempt: AttemptId)
    ensures { rows.new ≡ map (committed_at attempt) rows.old }
{
    for row in rows.iter_mut() {
        if is_entry_of(row, attempt) {
            row.committed = true;
        }
    }
}

/// Makes the entry of an attempt committed.
pub fn commit(rows: &mut Vec<Entry>, attempt: AttemptId)
    ensures { rows.new.items ≡ map (committed_at attempt) rows.old.items }
{
    commit_among(rows, attempt)
}

fn confirm_among(rows: &mut [Entry], attempt: AttemptId, member: TargetId)
    requires { member < 64 }
    ensures { rows.new ≡ map (confirmed_at attempt member) rows.old }
{
    for row in rows.iter_mut() {
        if is_entry_of(row, attempt) {
            row.confirmed |= 1u64 << member;
        }
    }
}

/// Adds a member to those that have confirmed an attempt's commit.
pub fn confirm(rows: &mut Vec<Entry>, attempt: AttemptId, member: TargetId)
    requires { member < 64 }
    ensures { rows.new.items ≡ map (confirmed_at attempt member) rows.old.items }
{
    confirm_among(rows, attempt, member)
}

fn raise_among(rows: &mut [ContRow], cont: ContId, epoch: Epoch, why: FloorWhy)
    ensures { rows.new ≡ map (raised_at cont epoch why) rows.old }
{
    for row in rows.iter_mut() {
        if is_row_of(row, cont) && row.floor.0 < epoch.0 {
            row.floor = epoch;
            row.why = why;
        }
    }
}

/// Raises the floor of a container.
pub fn raise(rows: &mut Vec<ContRow>, cont: ContId, epoch: Epoch, why: FloorWhy)
    ensures { rows.new.items ≡ map (raised_at cont epoch why) rows.old.items }
{
    raise_among(rows, cont, epoch, why)
}

// Raises the aggregated-to epoch of a container, and its floor.
fn marked(row: ContRow, upto: Epoch, number: u32) -> ContRow
    ensures { result ≡ raised upto (FloorWhy.Aggregate number) (aggregated_to upto number row) }
{
    let mut row = row;
    if row.aggregated.0 < upto.0 {
        row.aggregated = upto;
        row.number = number;
    }
    if row.floor.0 < upto.0 {
        row.floor = upto;
        row.why = FloorWhy::Aggregate(number);
    }
    row
}

fn mark_among(rows: &mut [ContRow], cont: ContId, upto: Epoch, number: u32)
    ensures { rows.new ≡ map (marked_at cont upto number) rows.old }
{
    for row in rows.iter_mut() {
        if is_row_of(row, cont) {
            *row = marked(*row, upto, number);
        }
    }
}

/// Raises the aggregated-to epoch of a container, and its floor.
pub fn mark(rows: &mut Vec<ContRow>, cont: ContId, upto: Epoch, number: u32)
    ensures { rows.new.items ≡ map (marked_at cont upto number) rows.old.items }
{
    mark_among(rows, cont, upto, number)
}

fn create_among(rows: &mut [Snap], cont: ContId, epoch: Epoch)
    ensures { rows.new ≡ map (created_at cont epoch) rows.old }
{
    for row in rows.iter_mut() {
        if is_snap_at(row, cont, epoch) {
            row.created = true;
        }
    }
}

/// Notes that a snapshot is created.
pub fn create(rows: &mut Vec<Snap>, cont: ContId, epoch: Epoch)
    ensures items { rows.new.items ≡ map (created_at cont epoch) rows.old.items }
    ensures capacity { vec_capacity rows.new ≡ vec_capacity rows.old }
{
    create_among(rows, cont, epoch)
}

// Adds a container, unless it is there.
fn add_cont(rows: &mut Vec<ContRow>, cont: ContId) -> Result<(), Memory>
    ensures { OnOk result (rows.new.items ≡ with_cont cont rows.old.items) }
{
    if has_row(rows, cont) {
        return Ok(());
    }
    rows.reserve(1)?;
    put_in(rows, new_row(cont));
    Ok(())
}

/// The rows with those of the containers that aren't there.
pub fn with_conts(alloc: Global, rows: &[ContRow], conts: &[ContId]) -> Result<Vec<ContRow>, Memory>
    ensures { IfOk result (λ all. all.items ≡ with_conts conts.now rows.now) }
{
    let mut all = copied(alloc, rows)?;
    for cont in conts {
        add_cont(&mut all, *cont)?;
    }
    Ok(all)
}

/// The containers of rows.
pub fn conts_of(alloc: Global, rows: &[ContRow]) -> Result<Vec<ContId>, Memory>
    ensures { IfOk result (λ conts. conts.items ≡ map row_cont rows.now) }
{
    rows.iter().map(|row| row.cont).collect(alloc)
}

/// The same rows again.
pub fn copied<T: Copy>(alloc: Global, rows: &[T]) -> Result<Vec<T>, Memory>
    ensures { IfOk result (λ again. again.items ≡ rows.now) }
{
    let mut again = Vec::with_capacity(alloc, rows.len())?;
    for row in rows {
        again.push(*row)?;
    }
    Ok(again)
}
