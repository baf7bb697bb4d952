// Objects in memory whose keys in their tree are told byte by byte.
ghost use Rattle.std.specs.Prelude.{◌≡◌, ◌≤◌, ◌<◌, true, length};
ghost use Rattle.daos_model.specs.Forms.{is_unit};

use crate::settle_tests::{BLOCKS, Step, make, shown};
use crate::store::Store;
use pmem_pages::steps::Steps;
use pmem_tree::tree::Tree;
use std::alloc::Global;
use std::marker::Brand;
use std::sync::ledger::{Blank, Ledger};
use vos_values::keys::name_key;
use vos_values::values::{read_roots, roots_value};

// The object 9 of the class RP2G1, whose number is 5, in the container 5: with records of one byte, as all objects of
// the first layout, and with records of seven.
const SHORT: [u8; 25] = [
    0, 0, 0, 0, 0, 0, 0, 0, 0, 0, 0, 0, 0, 0, 0, 5, 5, 0, 0, 0, 0, 0, 0, 0, 9,
];

const LONG: [u8; 26] = [
    0, 0, 0, 0, 0, 0, 0, 0, 0, 0, 0, 0, 0, 0, 0, 5, 5, 0, 0, 0, 0, 0, 0, 0, 9, 7,
];

// What stands at a key goes into a tree of its own, at a key of the same bytes.
fn set_apart<L: Ledger>(store: &mut Store, bytes: &[u8], steps: &mut Steps<L>) -> Option<()>
    requires { length bytes.now ≤ 64 }
{
    let key = name_key(bytes);
    let all = store.objects().tree;
    let value = all.get(&mut store.pages, &key, steps).ok()??;
    let value = roots_value(read_roots(&value)?);
    let mut one = Tree { kind: 1, root: 0 };
    store.pages.grant(1024, 256000);
    one.insert(&mut store.pages, &key, &value, steps).ok()?;
    store.root = one.root;
    Some(())
}

// The first byte of a value that is read of an object by a key that was made of these bytes.
fn read_by<L: Ledger>(alloc: Global, unit: u8, bytes: &[u8], blank: Blank) -> Option<u8>
    requires unit { is_unit unit ≡ true }
    requires short { length bytes.now ≤ 64 }
    requires name { blank.name ≡ L.name }
    requires parts { blank.parts ≡ L.parts }
    requires some { 0 < blank.parts }
{
    let mut steps = Steps::<L>::new(blank);
    let mut store = Store::empty(alloc, BLOCKS)?;
    make(
        &mut store,
        alloc,
        unit,
        (Step::Write, b'a', 512),
        &mut steps,
    )?;
    make(
        &mut store,
        alloc,
        unit,
        (Step::Commit, b'a', 512),
        &mut steps,
    )?;
    set_apart(&mut store, bytes, &mut steps)?;
    shown(&mut store, alloc, unit, b'a', 600, &mut steps)
}

// The value of the epoch 512 is filled with the byte 2.
fn is_read(alloc: Global, unit: u8, bytes: &[u8]) -> bool
    requires unit { is_unit unit ≡ true }
    requires short { length bytes.now ≤ 64 }
{
    read_by::<Brand>(alloc, unit, bytes, Blank::new(1)) == Some(2)
}

#[test]
fn objects_are_read_by_the_bytes_of_their_keys(rt: HostRuntime) {
    let alloc = rt.alloc();
    assert!(rt; is_read(alloc, 1, &SHORT));
    assert!(rt; is_read(alloc, 7, &LONG));
    assert!(rt; !is_read(alloc, 7, &SHORT));
}
