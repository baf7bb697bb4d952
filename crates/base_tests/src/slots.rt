// Slots and groups of paths, and the targets of groups, as another program computed them.
use base_types::id::{Class, ContId, ObjId};
use base_types::key::Key;
use base_types::path::{Level, Path};
use daos_class::class::Placed;
use daos_class::place::{leader_of, members};
use std::alloc::Global;

fn object(class: Class, number: u64, unit: u8) -> ObjId {
    ObjId {
        class,
        number,
        unit,
    }
}

fn path(alloc: Global, obj: ObjId, dkey: &[u8], akey: &[u8]) -> Option<Path> {
    let dkey = Key::new(alloc, dkey).ok()?;
    let akey = Key::new(alloc, akey).ok()?;
    Some(Path {
        cont: ContId(1),
        obj: Some(obj),
        dkey: Some(dkey),
        akey: Some(akey),
    })
}

// The slots of the container, the object, the dkey and the akey.
fn slots(alloc: Global, obj: ObjId, dkey: &[u8], akey: &[u8]) -> Option<(u16, u16, u16, u16)> {
    let path = path(alloc, obj, dkey, akey)?;
    Some((
        path.slot_at(Level::Cont),
        path.slot_at(Level::Obj),
        path.slot_at(Level::Dkey),
        path.slot_at(Level::Akey),
    ))
}

// Whether the slots are as they were computed.
fn have_slots(alloc: Global) -> Option<bool> {
    let first = object(Class::S1, 0, 1);
    let (cont, obj, dkey, akey) = slots(alloc, first, b"d", b"a")?;
    let second = object(Class::RP2GX, 258, 1);
    let (_, _, _, narrow) = slots(alloc, second, b"day1", b"moves")?;
    let third = object(Class::RP2GX, 258, 64);
    let (_, _, _, wide) = slots(alloc, third, b"day1", b"moves")?;
    let ends = narrow == 2227 && wide == 1364;
    Some(ends && cont == 690 && obj == 1272 && dkey == 1300 && akey == 2759)
}

// Whether two dkeys of which one shares a slot with a third are near to it.
fn are_near(alloc: Global) -> Option<(bool, bool)> {
    let obj = object(Class::S1, 0, 1);
    let mut one = path(alloc, obj, b"k39", b"a")?;
    one.akey = None;
    let two = path(alloc, obj, b"k204", b"b")?;
    let near = one.near(&two);
    let three = path(alloc, obj, b"k45", b"a")?;
    Some((near, one.near(&three)))
}

// The group of a dkey among those that a class has on four targets.
fn group(alloc: Global, class: Class, dkey: &[u8]) -> Option<u8> {
    let key = Key::new(alloc, dkey).ok()?;
    Some(class.group_of(&key, 4))
}

fn have_groups(alloc: Global) -> Option<bool> {
    let first = group(alloc, Class::RP2GX, b"a")? == 0;
    let second = group(alloc, Class::RP2GX, b"b")? == 1;
    let third = group(alloc, Class::RP2GX, b"pears")? == 0;
    Some(first && second && third && group(alloc, Class::SX, b"d2")? == 3)
}

// Whether the second group of an object lies on the last target of five and the first.
fn has_members(alloc: Global) -> Option<bool> {
    let obj = ObjId {
        class: Class::RP2GX,
        number: 7,
        unit: 1,
    };
    let targets = members(alloc, obj, 1, 5).ok()?;
    Some(targets.as_slice() == [4, 0].as_slice())
}

// The leader of the first group of the last object on four targets.
fn last_leader() -> u8 {
    let obj = ObjId {
        class: Class::RP2GX,
        number: u64::MAX,
        unit: 1,
    };
    leader_of(obj, 0, 4)
}

#[test]
fn slots_and_groups_as_computed_elsewhere(rt: HostRuntime) {
    let alloc = rt.alloc();
    assert!(rt; have_slots(alloc) == Some(true));
    assert!(rt; are_near(alloc) == Some((true, false)));
    assert!(rt; have_groups(alloc) == Some(true));
    assert!(rt; has_members(alloc) == Some(true));
    assert!(rt; last_leader() == 3);
}
