// What objects on trees show of values, arrays and names.
ghost use Rattle.std.specs.Prelude.{◌≡◌, ◌≤◌, true, IfSome};
ghost use Rattle.base_types.specs.Operations.{read_path};
ghost use Rattle.base_types.specs.Paths.{record_size};
ghost use Rattle.daos_model.specs.Forms.{ends_at_akey, is_read_in_form};
ghost use Rattle.vos_object.specs.Updates.{is_value_read, listing};
ghost use Rattle.vos_path.specs.Writes.{NamesAreKeys};

use crate::lines::INDEXES;
use crate::place::{Place, akey_path, dkey_path, object_path, path};
use crate::store::Store;
use base_types::answer::{Answer, Piece};
use base_types::epoch::Epoch;
use base_types::operation::Read;
use base_types::path::Path;
use pmem_pages::steps::Steps;
use std::alloc::Global;
use std::sync::ledger::Ledger;
use vos_punches::punches::Punches;

// The first byte of each record of a run of an array, or 0 for each that is missing.
fn push_records(bytes: &mut Vec<u8>, unit: u8, piece: &Piece) -> Option<()>
    requires { 1 ≤ unit }
{
    let unit = usize::from(unit);
    match piece {
        Piece::Bytes(found) => {
            for record in 0..found.len() / unit {
                let byte = found.as_slice().get(record.saturating_mul(unit))?;
                bytes.push(*byte).ok()?;
            }
        }
        Piece::Hole(len) => {
            for _ in 0..*len {
                bytes.push(0).ok()?;
            }
        }
    }
    Some(())
}

// The first byte of each record of an answer.
fn records_of(alloc: Global, unit: u8, answer: &Answer) -> Option<Vec<u8>>
    requires { 1 ≤ unit }
{
    let mut bytes = Vec::new(alloc);
    if let Answer::Parts(pieces) = answer {
        for piece in pieces.as_slice() {
            push_records(&mut bytes, unit, piece)?;
        }
    }
    Some(bytes)
}

// The path of an akey.
fn path_of(alloc: Global, unit: u8, place: Place) -> Option<Path>
    requires some { 1 ≤ unit }
    requires few { unit ≤ 64 }
    ensures ends { IfSome result (λ p. ends_at_akey p ≡ true) }
    ensures size { IfSome result (λ p. record_size p ≡ unit) }
    ensures names { IfSome result NamesAreKeys }
{
    let Place::Akey(object, dkey, akey) = place else {
        return None;
    };
    akey_path(alloc, unit, object, dkey, akey)
}

// The read of the first records of the array of an akey.
fn array(alloc: Global, unit: u8, place: Place) -> Option<Read>
    requires some { 1 ≤ unit }
    requires few { unit ≤ 64 }
    ensures form { IfSome result (λ r. is_read_in_form r ≡ true) }
    ensures value { IfSome result (λ r. is_value_read r ≡ true) }
    ensures size { IfSome result (λ r. record_size (read_path r) ≡ unit) }
    ensures names { IfSome result (λ r. NamesAreKeys (read_path r)) }
{
    let path = path_of(alloc, unit, place)?;
    Some(Read::Extent(path, 0, INDEXES))
}

/// The first byte of each of the first records of the array of an akey below an epoch, or 0.
pub(crate) fn records<L: Ledger>(
    store: &mut Store,
    alloc: Global,
    unit: u8,
    place: Place,
    below: Epoch,
    punches: &Punches,
    steps: &mut Steps<L>,
) -> Option<Vec<u8>>
    requires some { 1 ≤ unit }
    requires few { unit ≤ 64 }
{
    let read = array(alloc, unit, place)?;
    let objects = store.objects();
    let found = objects.fetch(&mut store.pages, alloc, &read, below, punches, steps);
    records_of(alloc, unit, &found.ok()?)
}

/// The first byte of the single value of an akey below an epoch, or 0.
#[tactic(auto, unfolding(daos_model::specs::Forms::is_read_in_form))]
pub(crate) fn value<L: Ledger>(
    store: &mut Store,
    alloc: Global,
    unit: u8,
    place: Place,
    below: Epoch,
    punches: &Punches,
    steps: &mut Steps<L>,
) -> Option<u8>
    requires some { 1 ≤ unit }
    requires few { unit ≤ 64 }
{
    let read = Read::Single(path_of(alloc, unit, place)?);
    let objects = store.objects();
    let found = objects.fetch(&mut store.pages, alloc, &read, below, punches, steps);
    match found.ok()? {
        Answer::Bytes(bytes) => bytes.as_slice().first().copied(),
        _ => Some(0),
    }
}

/// Whether there is a cell below a place, below an epoch.
#[tactic(auto, unfolding(daos_model::specs::Forms::is_read_in_form))]
pub(crate) fn exists<L: Ledger>(
    store: &mut Store,
    alloc: Global,
    unit: u8,
    place: Place,
    below: Epoch,
    punches: &Punches,
    steps: &mut Steps<L>,
) -> Option<bool>
    requires some { 1 ≤ unit }
    requires few { unit ≤ 64 }
{
    let read = Read::Exists(path(alloc, unit, place)?);
    let objects = store.objects();
    let found = objects.fetch(&mut store.pages, alloc, &read, below, punches, steps);
    Some(matches!(found.ok()?, Answer::Yes))
}

// The path of a place whose dkeys or akeys are listed.
#[tactic(auto, unfolding(daos_model::specs::Forms::is_read_in_form))]
fn listed(alloc: Global, unit: u8, place: Place) -> Option<Path>
    requires some { 1 ≤ unit }
    requires few { unit ≤ 64 }
    ensures form { IfSome result (λ p. is_read_in_form (listing p) ≡ true) }
    ensures size { IfSome result (λ p. record_size p ≡ unit) }
    ensures names { IfSome result NamesAreKeys }
{
    match place {
        Place::Object(object) => Some(object_path(unit, object)),
        Place::Dkey(object, dkey) => dkey_path(alloc, unit, object, dkey),
        _ => None,
    }
}

/// How many dkeys of an object, or akeys of a dkey, are listed below an epoch.
pub(crate) fn count<L: Ledger>(
    store: &mut Store,
    alloc: Global,
    unit: u8,
    place: Place,
    below: Epoch,
    punches: &Punches,
    steps: &mut Steps<L>,
) -> Option<usize>
    requires some { 1 ≤ unit }
    requires few { unit ≤ 64 }
{
    let path = listed(alloc, unit, place)?;
    let objects = store.objects();
    let names = objects.list(&mut store.pages, alloc, &path, below, punches, steps);
    Some(names.ok()?.len())
}
