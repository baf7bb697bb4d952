// Reads of arrays with records of several sizes, told by hand.
ghost use Rattle.std.specs.Prelude.{◌≡◌, ◌≤◌, ◌<◌, ◌+◌, ◌*◌, true, IfSome, length};
ghost use Rattle.base_types.specs.Paths.{record_size};
ghost use Rattle.daos_model.specs.Forms.{ends_at_akey, is_read_in_form, is_write_in_form};
ghost use Rattle.vos_path.specs.Writes.{NamesAreKeys, is_update};
ghost use Rattle.vos_object.specs.Updates.{is_value_read};
ghost use Rattle.base_types.specs.Operations.{read_path, write_path};

use crate::store::Store;
use base_types::answer::{Answer, Piece};
use base_types::epoch::Epoch;
use base_types::id::{Class, ContId, ObjId};
use base_types::items::{Items, Vec8};
use base_types::key::Key;
use base_types::operation::{MinorWrite, Read, Write};
use base_types::path::Path;
use pmem_pages::steps::Steps;
use std::alloc::Global;
use std::marker::Brand;
use std::sync::ledger::{Blank, Ledger};

// The path of an akey of an object with records of a size.
fn path(alloc: Global, unit: u8) -> Option<Path>
    ensures ends { IfSome result (λ p. ends_at_akey p ≡ true) }
    ensures size { IfSome result (λ p. record_size p ≡ unit) }
    ensures names { IfSome result NamesAreKeys }
{
    Some(Path {
        cont: ContId(5),
        obj: Some(ObjId {
            class: Class::S1,
            number: 9,
            unit,
        }),
        dkey: Some(Key::new(alloc, b"d").ok()?),
        akey: Some(Key::new(alloc, b"a").ok()?),
    })
}

// So many bytes, each one more than the one before.
fn bytes(alloc: Global, len: usize, from: u8) -> Option<Vec8>
    ensures { IfSome result (λ b. length b ≡ len) }
{
    let mut bytes = Items::new(alloc);
    let mut byte = from;
    for _ in 0..len {
        bytes.push(byte).ok()?;
        byte = byte.wrapping_add(1);
    }
    Some(bytes)
}

// The write of so many records of the array from an index on.
fn records(alloc: Global, unit: u8, low: u32, count: u8, from: u8) -> Option<Write>
    requires some { 1 ≤ unit }
    requires few { unit ≤ 64 }
    requires one { 1 ≤ count }
    requires most { count ≤ 16 }
    requires low { low ≤ 1000 }
    ensures form { IfSome result (λ w. is_write_in_form w ≡ true) }
    ensures size { IfSome result (λ w. record_size (write_path w) ≡ unit) }
    ensures names { IfSome result (λ w. NamesAreKeys (write_path w)) }
    ensures update { IfSome result (λ w. is_update w ≡ true) }
{
    let path = path(alloc, unit)?;
    let bytes = bytes(alloc, usize::from(unit) * usize::from(count), from)?;
    Some(Write::Extent(path, low, bytes))
}

// Writes so many records of the array from an index on, with an epoch that is greater than those before.
fn write<L: Ledger>(
    store: &mut Store,
    alloc: Global,
    unit: u8,
    epoch: u64,
    low: u32,
    count: u8,
    from: u8,
    steps: &mut Steps<L>,
) -> Option<()>
    requires some { 1 ≤ unit }
    requires few { unit ≤ 64 }
    requires one { 1 ≤ count }
    requires most { count ≤ 16 }
    requires low { low ≤ 1000 }
{
    let write = records(alloc, unit, low, count, from)?;
    store.update(epoch, &MinorWrite { minor: 0, write }, steps)
}

// Punches the akey, with an epoch that is greater than those before.
#[tactic(auto, unfolding(daos_model::specs::Forms::is_write_in_form))]
fn punch_akey<L: Ledger>(
    store: &mut Store,
    alloc: Global,
    unit: u8,
    epoch: u64,
    steps: &mut Steps<L>,
) -> Option<()>
    requires some { 1 ≤ unit }
    requires few { unit ≤ 64 }
{
    let path = path(alloc, unit)?;
    let write = Write::PunchAkey(path);
    store.punch(alloc, epoch, &MinorWrite { minor: 0, write }, steps)
}

// Extents that lie over one another, and a punch.
fn fill<L: Ledger>(store: &mut Store, alloc: Global, unit: u8, steps: &mut Steps<L>) -> Option<()>
    requires some { 1 ≤ unit }
    requires few { unit ≤ 64 }
{
    write(store, alloc, unit, 256, 2, 5, 0, steps)?;
    write(store, alloc, unit, 512, 4, 6, 50, steps)?;
    write(store, alloc, unit, 768, 1, 2, 100, steps)?;
    punch_akey(store, alloc, unit, 1024, steps)?;
    write(store, alloc, unit, 1280, 3, 1, 150, steps)
}

// The read of so many records of the array from an index on.
fn read(alloc: Global, unit: u8, low: u32, count: u8) -> Option<Read>
    requires some { 1 ≤ unit }
    requires few { unit ≤ 64 }
    requires one { 1 ≤ count }
    requires most { count ≤ 16 }
    requires low { low ≤ 1000 }
    ensures form { IfSome result (λ r. is_read_in_form r ≡ true) }
    ensures value { IfSome result (λ r. is_value_read r ≡ true) }
    ensures size { IfSome result (λ r. record_size (read_path r) ≡ unit) }
    ensures names { IfSome result (λ r. NamesAreKeys (read_path r)) }
{
    let path = path(alloc, unit)?;
    Some(Read::Extent(path, low, u32::from(count)))
}

// How many bytes there are in an answer, the first of them, and how many records are missing.
fn sizes(answer: &Answer) -> (usize, u8, u32) {
    let (mut bytes, mut first, mut holes) = (0usize, 0, 0u32);
    if let Answer::Parts(parts) = answer {
        for piece in parts.as_slice() {
            match piece {
                Piece::Bytes(found) => {
                    if bytes == 0 {
                        first = found.as_slice().first().copied().unwrap_or(0);
                    }
                    bytes = bytes.saturating_add(found.len());
                }
                Piece::Hole(len) => holes = holes.saturating_add(*len),
            }
        }
    }
    (bytes, first, holes)
}

// What the first twelve records are read as below an epoch.
fn read_below<L: Ledger>(
    store: &mut Store,
    alloc: Global,
    unit: u8,
    below: u64,
    steps: &mut Steps<L>,
) -> Option<(usize, u8, u32)>
    requires some { 1 ≤ unit }
    requires few { unit ≤ 64 }
{
    let read = read(alloc, unit, 0, 12)?;
    let objects = store.objects();
    let (pages, below) = (&mut store.pages, Epoch(below));
    let found = objects.fetch(pages, alloc, &read, below, &store.punches, steps);
    Some(sizes(&found.ok()?))
}

fn filled_below<L: Ledger>(
    alloc: Global,
    unit: u8,
    below: u64,
    blank: Blank,
) -> Option<(usize, u8, u32)>
    requires some { 1 ≤ unit }
    requires few { unit ≤ 64 }
    requires name { blank.name ≡ L.name }
    requires parts { blank.parts ≡ L.parts }
    requires one { 0 < blank.parts }
{
    let mut steps = Steps::<L>::new(blank);
    let mut store = Store::empty(alloc, 400)?;
    fill(&mut store, alloc, unit, &mut steps)?;
    read_below(&mut store, alloc, unit, below, &mut steps)
}

// Whether so many records are read below an epoch, with this byte first.
fn is_read(alloc: Global, unit: u8, below: u64, count: usize, first: u8) -> bool
    requires some { 1 ≤ unit }
    requires few { unit ≤ 64 }
    requires most { count ≤ 12 }
{
    let bytes = count * usize::from(unit);
    let holes = 12 - count as u32;
    filled_below::<Brand>(alloc, unit, below, Blank::new(1)) == Some((bytes, first, holes))
}

// Whether it is so below each epoch.
fn is_always_so(alloc: Global, unit: u8) -> bool
    requires some { 1 ≤ unit }
    requires few { unit ≤ 64 }
{
    is_read(alloc, unit, 256, 0, 0)
        && is_read(alloc, unit, 512, 5, 0)
        && is_read(alloc, unit, 600, 8, 0)
        && is_read(alloc, unit, 1000, 9, 100)
        && is_read(alloc, unit, 1100, 0, 0)
        && is_read(alloc, unit, 1300, 1, 150)
}

#[test]
fn arrays_are_read_below_an_epoch(rt: HostRuntime) {
    let alloc = rt.alloc();
    assert!(rt; is_always_so(alloc, 1));
    assert!(rt; is_always_so(alloc, 2));
    assert!(rt; is_always_so(alloc, 7));
    assert!(rt; is_always_so(alloc, 64));
}
