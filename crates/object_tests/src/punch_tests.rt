// Values and punches of objects, dkeys and akeys, drawn by numbers, beside a plain list of them.
ghost use Rattle.std.specs.Prelude.{◌≡◌, ◌<◌, true, false, IfSome, is_some};
ghost use Rattle.base_types.specs.Operations.{write_path};
ghost use Rattle.base_types.specs.Paths.{record_size};
ghost use Rattle.daos_model.specs.Forms.{ends_at_akey, ends_at_dkey, ends_at_object, is_path_in_form, is_read_in_form, is_unit, is_write_in_form};
ghost use Rattle.vos_path.specs.Writes.{NamesAreKeys, is_update};
ghost use Rattle.vos_settle.specs.Names.{IsNamed};
ghost use Rattle.vos_settle.specs.Versions.{fits_kind};

use crate::store::Store;
use base_random::draw::drawn;
use base_types::answer::Answer;
use base_types::epoch::Epoch;
use base_types::id::{Class, ContId, ObjId};
use base_types::items::bytes_of;
use base_types::key::Key;
use base_types::operation::{MinorWrite, Read, Write};
use base_types::path::Path;
use pmem_pages::steps::Steps;
use std::alloc::Global;
use std::marker::Brand;
use std::sync::ledger::{Blank, Ledger};
use vos_settle::name::WriteName;
use vos_settle::task::WriteKind;

/// Where something is: all of the container, one of its objects, a dkey, or an akey.
#[derive(Clone, Copy)]
enum Place {
    Cont,
    Object(u8),
    Dkey(u8, u8),
    Akey(u8, u8, u8),
}

/// A write: where and when, the byte that it sets, or 0 where it is a punch, and whether it is committed.
#[derive(Clone, Copy)]
struct Line {
    place: Place,
    epoch: u64,
    byte: u8,
    commits: bool,
}

const CALLS: u64 = 23;

const SEEDS: [u64; 4] = [
    88172645463325252,
    1442695040888963407,
    6364136223846793005,
    2862933555777941757,
];

// The path of an object or of something below it. The first object has records of one byte, and a key of 25
// bytes; the second has records of two, and a key of 26.
fn below(object: u8, dkey: Option<Key>, akey: Option<Key>) -> Path
    ensures obj { is_some result.obj ≡ true }
    ensures dkey { result.dkey ≡ dkey }
    ensures akey { result.akey ≡ akey }
    ensures size { is_unit (record_size result) ≡ true }
{
    Path {
        cont: ContId(5),
        obj: Some(ObjId {
            class: Class::RP2G1,
            number: 9,
            unit: if object == 0 { 1 } else { 2 },
        }),
        dkey,
        akey,
    }
}

// The path of the container.
fn cont_path() -> Path
    ensures form { is_path_in_form result ≡ true }
    ensures size { is_unit (record_size result) ≡ true }
    ensures names { NamesAreKeys result }
{
    Path {
        cont: ContId(5),
        obj: None,
        dkey: None,
        akey: None,
    }
}

// The path of an object.
fn object_path(object: u8) -> Path
    ensures ends { ends_at_object result ≡ true }
    ensures form { is_path_in_form result ≡ true }
    ensures object { is_some result.obj ≡ true }
    ensures size { is_unit (record_size result) ≡ true }
    ensures names { NamesAreKeys result }
{
    below(object, None, None)
}

// The path of a dkey.
fn dkey_path(alloc: Global, object: u8, dkey: u8) -> Option<Path>
    ensures ends { IfSome result (λ p. ends_at_dkey p ≡ true) }
    ensures form { IfSome result (λ p. is_path_in_form p ≡ true) }
    ensures object { IfSome result (λ p. is_some p.obj ≡ true) }
    ensures size { IfSome result (λ p. is_unit (record_size p) ≡ true) }
    ensures names { IfSome result NamesAreKeys }
{
    let dkey = Key::new(alloc, &[dkey]).ok()?;
    Some(below(object, Some(dkey), None))
}

// The path of an akey.
fn akey_path(alloc: Global, object: u8, dkey: u8, akey: u8) -> Option<Path>
    ensures ends { IfSome result (λ p. ends_at_akey p ≡ true) }
    ensures form { IfSome result (λ p. is_path_in_form p ≡ true) }
    ensures object { IfSome result (λ p. is_some p.obj ≡ true) }
    ensures size { IfSome result (λ p. is_unit (record_size p) ≡ true) }
    ensures names { IfSome result NamesAreKeys }
{
    let dkey = Key::new(alloc, &[dkey]).ok()?;
    let akey = Key::new(alloc, &[akey]).ok()?;
    Some(below(object, Some(dkey), Some(akey)))
}

// The path of a place.
fn path(alloc: Global, place: Place) -> Option<Path>
    ensures form { IfSome result (λ p. is_path_in_form p ≡ true) }
    ensures size { IfSome result (λ p. is_unit (record_size p) ≡ true) }
    ensures names { IfSome result NamesAreKeys }
{
    match place {
        Place::Cont => Some(cont_path()),
        Place::Object(object) => Some(object_path(object)),
        Place::Dkey(object, dkey) => dkey_path(alloc, object, dkey),
        Place::Akey(object, dkey, akey) => akey_path(alloc, object, dkey, akey),
    }
}

// The punch of a place in the container.
#[tactic(auto, unfolding(daos_model::specs::Forms::is_write_in_form))]
fn punch(alloc: Global, place: Place) -> Option<Write>
    ensures form { IfSome result (λ w. is_write_in_form w ≡ true) }
    ensures size { IfSome result (λ w. is_unit (record_size (write_path w)) ≡ true) }
    ensures names { IfSome result (λ w. NamesAreKeys (write_path w)) }
    ensures punch { IfSome result (λ w. is_update w ≡ false) }
{
    match place {
        Place::Cont => None,
        Place::Object(object) => Some(Write::PunchObject(object_path(object))),
        Place::Dkey(object, dkey) => {
            let path = dkey_path(alloc, object, dkey)?;
            Some(Write::PunchDkey(path))
        }
        Place::Akey(object, dkey, akey) => {
            let path = akey_path(alloc, object, dkey, akey)?;
            Some(Write::PunchAkey(path))
        }
    }
}

// The update of an akey.
#[tactic(auto, unfolding(daos_model::specs::Forms::is_write_in_form))]
fn update(alloc: Global, place: Place, byte: u8) -> Option<Write>
    ensures form { IfSome result (λ w. is_write_in_form w ≡ true) }
    ensures size { IfSome result (λ w. is_unit (record_size (write_path w)) ≡ true) }
    ensures names { IfSome result (λ w. NamesAreKeys (write_path w)) }
    ensures update { IfSome result (λ w. is_update w ≡ true) }
{
    let Place::Akey(object, dkey, akey) = place else {
        return None;
    };
    let path = akey_path(alloc, object, dkey, akey)?;
    let bytes = bytes_of(alloc, &[byte; 3]).ok()?;
    Some(Write::Single(path, bytes))
}

// The name of a write of a path.
fn named(path: Path, kind: WriteKind, epoch: u64) -> WriteName
    requires fits { fits_kind kind path ≡ true }
    requires size { is_unit (record_size path) ≡ true }
    requires names { NamesAreKeys path }
    ensures { IsNamed result }
{
    WriteName {
        path,
        kind,
        epoch: Epoch(epoch),
        minor: 0,
    }
}

// The name of a write.
fn name(alloc: Global, line: Line) -> Option<WriteName>
    ensures { IfSome result IsNamed }
{
    match line.place {
        Place::Cont => None,
        Place::Object(object) => Some(named(object_path(object), WriteKind::Punch, line.epoch)),
        Place::Dkey(object, dkey) => {
            let path = dkey_path(alloc, object, dkey)?;
            Some(named(path, WriteKind::Punch, line.epoch))
        }
        Place::Akey(object, dkey, akey) => {
            let path = akey_path(alloc, object, dkey, akey)?;
            if line.byte == 0 {
                Some(named(path, WriteKind::Punch, line.epoch))
            } else {
                Some(named(path, WriteKind::Single, line.epoch))
            }
        }
    }
}

// A write on the trees, which is settled at once.
fn make<L: Ledger>(
    store: &mut Store,
    alloc: Global,
    line: Line,
    steps: &mut Steps<L>,
) -> Option<()> {
    if line.byte == 0 {
        let write = punch(alloc, line.place)?;
        store.punch(alloc, line.epoch, &MinorWrite { minor: 0, write }, steps)?;
    } else {
        let write = update(alloc, line.place, line.byte)?;
        store.update(line.epoch, &MinorWrite { minor: 0, write }, steps)?;
    }
    let name = name(alloc, line)?;
    store.settle(&name, line.commits, steps)
}

// Whether a place is another one or lies above it.
fn leads(one: Place, other: Place) -> bool {
    match (one, other) {
        (Place::Cont, _) => true,
        (Place::Object(a), Place::Object(x) | Place::Dkey(x, _) | Place::Akey(x, _, _)) => a == x,
        (Place::Dkey(a, b), Place::Dkey(x, y) | Place::Akey(x, y, _)) => a == x && b == y,
        (Place::Akey(a, b, c), Place::Akey(x, y, z)) => a == x && b == y && c == z,
        _ => false,
    }
}

// What the list has at an akey below an epoch: the byte of the last write that was committed there or above, or 0.
fn last(lines: &[Line], akey: Place, below: u64) -> u8 {
    let (mut epoch, mut byte) = (0, 0);
    for line in lines {
        let counts = line.commits && line.epoch < below && line.epoch >= epoch;
        if counts && leads(line.place, akey) {
            epoch = line.epoch;
            byte = line.byte;
        }
    }
    byte
}

// The akey of a number below 8.
fn akey(number: u8) -> Place {
    let (object, dkey, akey) = (number / 4 % 2, number / 2 % 2, number % 2);
    Place::Akey(object, b'd' + dkey, b'a' + akey)
}

// Whether the list has a value at or below a place.
fn has_value(lines: &[Line], place: Place, below: u64) -> bool {
    for number in 0..8 {
        let akey = akey(number);
        if leads(place, akey) && last(lines, akey, below) > 0 {
            return true;
        }
    }
    false
}

// When the list's last punch below an epoch was made that an akey lies under, or 0.
fn last_punch(lines: &[Line], akey: Place, below: u64) -> u64 {
    let mut epoch = 0;
    for line in lines {
        let counts = line.commits && line.byte == 0 && line.epoch < below && line.epoch > epoch;
        if counts && leads(line.place, akey) {
            epoch = line.epoch;
        }
    }
    epoch
}

// The first byte of the value of an akey below an epoch, or 0.
#[tactic(auto, unfolding(daos_model::specs::Forms::is_read_in_form))]
fn value<L: Ledger>(
    store: &mut Store,
    alloc: Global,
    number: u8,
    below: u64,
    steps: &mut Steps<L>,
) -> Option<u8> {
    let (object, dkey, akey) = (number / 4 % 2, number / 2 % 2, number % 2);
    let read = Read::Single(akey_path(alloc, object, b'd' + dkey, b'a' + akey)?);
    let objects = store.objects();
    let (pages, below) = (&mut store.pages, Epoch(below));
    let found = objects.fetch(pages, alloc, &read, below, &store.punches, steps);
    match found.ok()? {
        Answer::Bytes(bytes) => bytes.as_slice().first().copied(),
        _ => Some(0),
    }
}

// Whether there is a cell at or below a place, below an epoch.
#[tactic(auto, unfolding(daos_model::specs::Forms::is_read_in_form))]
fn exists<L: Ledger>(
    store: &mut Store,
    alloc: Global,
    place: Place,
    below: u64,
    steps: &mut Steps<L>,
) -> Option<bool> {
    let read = Read::Exists(path(alloc, place)?);
    let objects = store.objects();
    let (pages, below) = (&mut store.pages, Epoch(below));
    let found = objects.fetch(pages, alloc, &read, below, &store.punches, steps);
    match found.ok()? {
        Answer::Yes => Some(true),
        _ => Some(false),
    }
}

// When the last punch below an epoch was made that an akey lies under, or 0.
fn punched(store: &Store, alloc: Global, akey: Place, below: u64) -> Option<u64> {
    let path = path(alloc, akey)?;
    match store.punches.covering(&path, Epoch(below)) {
        Some(moment) => Some(moment.epoch.0),
        None => Some(0),
    }
}

// Whether trees and list answer the same of a place.
fn exist_alike<L: Ledger>(
    store: &mut Store,
    alloc: Global,
    lines: &[Line],
    place: Place,
    below: u64,
    steps: &mut Steps<L>,
) -> Option<bool> {
    let exists = exists(store, alloc, place, below, steps)?;
    Some(exists == has_value(lines, place, below))
}

// Whether they show the same of an akey.
fn akeys_alike<L: Ledger>(
    store: &mut Store,
    alloc: Global,
    lines: &[Line],
    number: u8,
    below: u64,
    steps: &mut Steps<L>,
) -> Option<bool> {
    let akey = akey(number);
    let value = value(store, alloc, number, below, steps)?;
    let punch = punched(store, alloc, akey, below)?;
    let same = value == last(lines, akey, below) && punch == last_punch(lines, akey, below);
    Some(same && exist_alike(store, alloc, lines, akey, below, steps)?)
}

// The place of a number below 7: the container, an object, or a dkey.
fn place_drawn(number: u8) -> Place {
    match number {
        0 => Place::Cont,
        1 | 2 => Place::Object(number % 2),
        _ => Place::Dkey(number % 2, b'd' + number / 2 % 2),
    }
}

// Whether they show the same below an epoch.
fn alike<L: Ledger>(
    store: &mut Store,
    alloc: Global,
    lines: &[Line],
    below: u64,
    steps: &mut Steps<L>,
) -> Option<bool> {
    let mut same = true;
    for number in 0..8 {
        same = same && akeys_alike(store, alloc, lines, number, below, steps)?;
    }
    for number in 0..7 {
        same = same && exist_alike(store, alloc, lines, place_drawn(number), below, steps)?;
    }
    Some(same)
}

// The write that a number draws: of eight, five are updates, and a punch is of an object, a dkey or an akey.
fn line_of(number: u64, epoch: u64) -> Line {
    let bits = number >> 33;
    let commits = bits / 64 % 4 > 0;
    let number = (bits % 8) as u8;
    let (object, dkey) = (number / 4 % 2, b'd' + number / 2 % 2);
    let (place, byte) = match bits / 8 % 8 {
        0 => (Place::Object(object), 0),
        1 => (Place::Dkey(object, dkey), 0),
        2 => (akey(number), 0),
        _ => (akey(number), (epoch % 200) as u8 + 1),
    };
    Line {
        place,
        epoch,
        byte,
        commits,
    }
}

// Whether trees and list show the same below each epoch.
fn all_alike<L: Ledger>(
    store: &mut Store,
    alloc: Global,
    lines: &[Line],
    steps: &mut Steps<L>,
) -> Option<bool> {
    let mut same = true;
    for below in 0..CALLS + 2 {
        same = same && alike(store, alloc, lines, below, steps)?;
    }
    Some(same)
}

// Makes the writes that a seed draws, at epochs in no order, and whether trees and list show the same below some epoch
// after each, with the punches that were kept, and below all after the last, with those that the trees have.
fn makes<L: Ledger>(
    store: &mut Store,
    alloc: Global,
    seed: u64,
    steps: &mut Steps<L>,
) -> Option<bool> {
    let mut lines: Vec<Line> = Vec::new(alloc);
    let (mut number, mut same) = (drawn(seed), true);
    for call in 0..CALLS {
        let line = line_of(number, call * 7 % CALLS + 1);
        make(store, alloc, line, steps)?;
        lines.push(line).ok()?;
        same = same && alike(store, alloc, &lines, call * 5 % CALLS + 2, steps)?;
        number = drawn(number);
    }
    store.gather(alloc, steps)?;
    Some(same && all_alike(store, alloc, &lines, steps)?)
}

fn runs<L: Ledger>(alloc: Global, seed: u64, blank: Blank) -> Option<bool>
    requires name { blank.name ≡ L.name }
    requires parts { blank.parts ≡ L.parts }
    requires some { 0 < blank.parts }
{
    let mut steps = Steps::<L>::new(blank);
    let mut store = Store::empty(alloc, 400)?;
    makes(&mut store, alloc, seed, &mut steps)
}

// Whether they do, over a ledger of their own.
fn agrees(alloc: Global, seed: u64) -> bool {
    runs::<Brand>(alloc, seed, Blank::new(1)) == Some(true)
}

#[test]
fn punches_hide_what_they_hide_in_a_list(rt: HostRuntime) {
    let alloc = rt.alloc();
    for seed in SEEDS {
        assert!(rt; agrees(alloc, seed));
    }
}
