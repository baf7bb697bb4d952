// What a stretch of an array holds: the versions that say it, newest first.
ghost use Rattle.std.specs.Prelude.{◌≡◌, ◌+◌, ◌*◌, ◌∷◌, ◌++◌, ◌≤◌, [], true, find, filter, length, map, reverse, IfOk, IfSome, OnOk, take, drop};
ghost use Rattle.std.specs.Option.{option_copied};
ghost use Rattle.daos_model.specs.Answers.{pieces};
ghost use Rattle.daos_model.specs.Versions.{map_below};
ghost use Rattle.vos_scan.specs.Chains.{AreChained, version_place};
ghost use Rattle.vos_scan.specs.Indexed.{IsIndexOf};
ghost use Rattle.vos_scan.specs.Layers.{covers, covers_at, is_about, is_layer, lent, meets, record_by};

use crate::chains::Chains;
use crate::index::ReadIndex;
use crate::paths::{leads_to, same};
use crate::pieces::add_index;
use base_types::answer::Piece;
use base_types::epoch::Epoch;
use base_types::items::Memory;
use base_types::operation::Write;
use base_types::path::Path;
use daos_model::durable::Version;
use daos_model::prunes::is_seen;
use daos_model::records::{count_records, record_size};
use std::alloc::Global;

// Whether so many indexes from one on, and so many from another on, have one in common.
fn meets(at: u32, count: usize, low: u32, len: u32) -> bool
    ensures { result ≡ meets at count low len }
{
    u128::from(low) < u128::from(at) + count as u128
        && u64::from(at) < u64::from(low) + u64::from(len)
}

// Whether a write says what an index of a stretch of an array holds.
fn is_about(write: &Write, path: &Path, low: u32, len: u32) -> bool
    ensures { result ≡ is_about path.now low len write.now }
{
    match write {
        Write::Single(_, _) => false,
        Write::Extent(at, first, bytes) => {
            meets(*first, count_records(at, bytes.len()), low, len) && same(at, path)
        }
        Write::PunchObject(at) | Write::PunchDkey(at) | Write::PunchAkey(at) => leads_to(at, path),
    }
}

// Whether a version below an epoch says it.
fn is_layer(row: &Version, path: &Path, low: u32, len: u32, below: Epoch) -> bool
    ensures { result ≡ is_layer path.now low len below.0 row.now }
{
    is_seen(row, u128::from(below.0)) && is_about(&row.write, path, low, len)
}

// Adds the versions below an epoch that say it, newest first.
fn add_layers<'a>(
    layers: &mut Vec<&'a Version>,
    rows: &'a [Version],
    path: &Path,
    low: u32,
    len: u32,
    below: Epoch,
) -> Result<(), Memory>
    ensures { OnOk result (lent layers.new.items ≡ lent layers.old.items ++ filter (is_layer path.now low len below.0) (reverse rows.now)) }
{
    let mut i = rows.len();
    while i > 0 {
        i -= 1;
        let row = &rows[i];
        if is_layer(row, path, low, len, below) {
            layers.push(row)?;
        }
    }
    Ok(())
}

// Adds a version, if it says it.
fn add_layer<'a>(
    layers: &mut Vec<&'a Version>,
    row: &'a Version,
    path: &Path,
    low: u32,
    len: u32,
    below: Epoch,
) -> Result<(), Memory>
    ensures { OnOk result (lent layers.new.items ≡ lent layers.old.items ++ filter (is_layer path.now low len below.0) (row.now ∷ [])) }
{
    if is_layer(row, path, low, len, below) {
        layers.push(row)?;
    }
    Ok(())
}

// Adds those of rows in chains.
fn add_chained<'a>(
    layers: &mut Vec<&'a Version>,
    rows: &'a [Version],
    chains: &Chains,
    path: &Path,
    low: u32,
    len: u32,
    below: Epoch,
) -> Result<(), Memory>
    requires { AreChained (map version_place rows.now) chains.now.lasts.items chains.now.links.items }
    ensures { OnOk result (lent layers.new.items ≡ lent layers.old.items ++ filter (is_layer path.now low len below.0) (reverse rows.now)) }
{
    let mut walk = chains.walk(path);
    let mut left = walk.left();
    while left > 0 {
        add_layer(layers, &rows[left - 1], path, low, len, below)?;
        walk = chains.back(walk);
        left = walk.left();
    }
    Ok(())
}

// The versions below an epoch that say it, newest first, by an index of them if there is one.
fn layers<'a>(
    alloc: Global,
    rows: &'a [Version],
    index: Option<&ReadIndex>,
    path: &Path,
    low: u32,
    len: u32,
    below: Epoch,
) -> Result<Vec<&'a Version>, Memory>
    requires { IfSome (option_copied index) (λ index. IsIndexOf index rows.now) }
    ensures { IfOk result (λ layers. lent layers.items ≡ filter (is_layer path.now low len below.0) (reverse rows.now)) }
{
    let mut layers = Vec::new(alloc);
    match index {
        None => add_layers(&mut layers, rows, path, low, len, below)?,
        Some(index) => {
            let (old, late) = rows.split_at(index.covered);
            add_layers(&mut layers, late, path, low, len, below)?;
            add_chained(&mut layers, old, &index.chains, path, low, len, below)?;
        }
    }
    Ok(layers)
}

// Whether one of them says what an index holds.
fn covers(write: &Write, index: u64) -> bool
    ensures { result ≡ covers index write.now }
{
    match write {
        Write::Single(_, _) => false,
        Write::Extent(at, first, bytes) => {
            let first = u64::from(*first);
            first <= index && ((index - first) as usize) < count_records(at, bytes.len())
        }
        Write::PunchObject(_) | Write::PunchDkey(_) | Write::PunchAkey(_) => true,
    }
}

// The newest of them that says what an index holds.
fn newest_at<'a>(layers: &[&'a Version], index: u64) -> Option<&'a Version>
    ensures { option_copied result ≡ find (covers_at index) (lent layers.now) }
{
    for layer in layers {
        if covers(&layer.write, index) {
            return Some(*layer);
        }
    }
    None
}

// A record among bytes, by its number from 0.
fn nth_record(bytes: &[u8], size: usize, number: usize) -> &[u8]
    requires { (number + 1) * size ≤ length bytes.now }
    ensures { result.now ≡ take size (drop (number * size) bytes.now) }
{
    let from = number * size;
    &bytes[from..from + size]
}

// The record that it leaves there, if it leaves one.
fn record_by<'a>(layer: Option<&'a Version>, index: u64) -> Option<&'a [u8]>
    requires { IfSome (option_copied layer) (λ v. covers_at index v ≡ true) }
    ensures { option_copied result ≡ record_by index (option_copied layer.entry) }
{
    match &layer?.write {
        Write::Extent(at, first, bytes) => {
            let number = (index - u64::from(*first)) as usize;
            Some(nth_record(bytes.as_slice(), usize::from(record_size(at)), number))
        }
        _ => None,
    }
}

/// The pieces of so many indexes of an array, from one on, on the versions below an epoch, by an index of them if there is one.
pub fn pieces_below(
    alloc: Global,
    rows: &[Version],
    index: Option<&ReadIndex>,
    path: &Path,
    low: u32,
    len: u32,
    below: Epoch,
) -> Result<Vec<Piece>, Memory>
    requires { IfSome (option_copied index) (λ index. IsIndexOf index rows.now) }
    ensures { IfOk result (λ made. made.items ≡ pieces path.now low len (map_below rows.now below.0)) }
{
    let layers = layers(alloc, rows, index, path, low, len, below)?;
    let mut pieces = Vec::new(alloc);
    for k in 0..len {
        let index = u64::from(low) + u64::from(k);
        add_index(
            alloc,
            &mut pieces,
            record_by(newest_at(&layers, index), index),
        )?;
    }
    Ok(pieces)
}
