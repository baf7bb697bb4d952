// Later reads, as the worked examples of restarts have them, and slots that entities share.
ghost use Rattle.std.specs.Prelude.{◌≡◌, true, IfSome};
ghost use Rattle.daos_model.specs.Forms.{is_path_in_form};

use base_types::epoch::Epoch;
use base_types::id::{AttemptId, Class, ContId, ObjId};
use base_types::key::Key;
use base_types::path::{Level, Path};
use std::alloc::Global;
use vos_stamp::stamps::Stamps;

const READER: AttemptId = AttemptId {
    client: 1,
    command: 0,
    attempt: 0,
};

const OBJECT: ObjId = ObjId {
    class: Class::S1,
    number: 0,
    unit: 1,
};

// The object.
fn object() -> Path
    ensures { is_path_in_form result ≡ true }
{
    Path {
        cont: ContId(1),
        obj: Some(OBJECT),
        dkey: None,
        akey: None,
    }
}

// A dkey of it.
fn dkey(alloc: Global) -> Option<Path>
    ensures { IfSome result (λ path. is_path_in_form path ≡ true) }
{
    let dkey = Key::new(alloc, b"d").ok()?;
    Some(Path {
        cont: ContId(1),
        obj: Some(OBJECT),
        dkey: Some(dkey),
        akey: None,
    })
}

// An akey of it.
fn akey(alloc: Global, dkey: &[u8], akey: &[u8]) -> Option<Path>
    ensures { IfSome result (λ path. is_path_in_form path ≡ true) }
{
    let dkey = Key::new(alloc, dkey).ok()?;
    let akey = Key::new(alloc, akey).ok()?;
    Some(Path {
        cont: ContId(1),
        obj: Some(OBJECT),
        dkey: Some(dkey),
        akey: Some(akey),
    })
}

// The akey of a number, under the dkey `d`.
fn numbered(alloc: Global, number: u32) -> Option<Path>
    ensures { IfSome result (λ path. is_path_in_form path ≡ true) }
{
    let name = format!(in alloc; "a{number}").ok()?;
    akey(alloc, b"d", name.as_bytes())
}

// An akey under the dkey of a number.
fn elsewhere(alloc: Global, number: u32) -> Option<Path>
    ensures { IfSome result (λ path. is_path_in_form path ≡ true) }
{
    let name = format!(in alloc; "k{number}").ok()?;
    akey(alloc, name.as_bytes(), b"a")
}

// The timestamps of one read, at 512.
fn with_a_read(alloc: Global, path: &Path) -> Option<Stamps>
    requires { is_path_in_form path.now ≡ true }
{
    let mut stamps = Stamps::new(alloc).ok()?;
    stamps.read(path, Epoch(512), READER).ok()?;
    Some(stamps)
}

// The epoch of the read that a write is shown, or 0 if it is shown none.
fn told(stamps: &Stamps, write: &Path, epoch: u64) -> u64
    requires { is_path_in_form write.now ≡ true }
{
    match stamps.later_read(write, Epoch(epoch)) {
        Some(read) => read.epoch.0,
        None => 0,
    }
}

// What a write at an epoch is told of a read at 512.
fn told_of(alloc: Global, read: &Path, write: &Path, epoch: u64) -> Option<u64>
    requires read { is_path_in_form read.now ≡ true }
    requires write { is_path_in_form write.now ≡ true }
{
    let stamps = with_a_read(alloc, read)?;
    Some(told(&stamps, write, epoch))
}

// What writes of an akey are told of a read of it, below its epoch and at it, and of a read of another akey.
fn told_beside(alloc: Global) -> Option<[u64; 3]> {
    let akey = numbered(alloc, 0)?;
    let other = numbered(alloc, 1)?;
    let later = told_of(alloc, &akey, &akey, 511)?;
    let same = told_of(alloc, &akey, &akey, 512)?;
    let beside = told_of(alloc, &akey, &other, 256)?;
    Some([later, same, beside])
}

// What is told of a read above an akey, and of one of the akey by a write above it.
fn told_across(alloc: Global, above: &Path) -> Option<[u64; 2]>
    requires { is_path_in_form above.now ≡ true }
{
    let akey = numbered(alloc, 0)?;
    let below = told_of(alloc, above, &akey, 256)?;
    let over = told_of(alloc, &akey, above, 256)?;
    Some([below, over])
}

fn told_of_dkeys(alloc: Global) -> Option<[u64; 2]> {
    let dkey = dkey(alloc)?;
    told_across(alloc, &dkey)
}

#[test]
fn a_later_read_is_shown_where_paths_overlap(rt: HostRuntime) {
    let alloc = rt.alloc();
    assert!(rt; told_beside(alloc) == Some([512, 0, 0]));
    assert!(rt; told_across(alloc, &object()) == Some([512, 512]));
    assert!(rt; told_of_dkeys(alloc) == Some([512, 512]));
}

// The slot of the akey of a number.
fn slot(alloc: Global, number: u32) -> Option<u16> {
    let path = numbered(alloc, number)?;
    Some(path.slot_at(Level::Akey))
}

// The first akey behind that of 188 which shares its slot.
fn shares_with_188(alloc: Global) -> Option<u32> {
    let first = slot(alloc, 188)?;
    for number in 189..1000 {
        if slot(alloc, number)? == first {
            return Some(number);
        }
    }
    None
}

// Which akeys share a slot another program told.
#[test]
fn two_akeys_share_a_slot(rt: HostRuntime) {
    assert!(rt; shares_with_188(rt.alloc()) == Some(294));
}

// Reads of akeys of so many other dkeys, each at one epoch.
fn read_elsewhere(alloc: Global, stamps: &mut Stamps, many: u32) -> Option<()> {
    for number in 0..many {
        let path = elsewhere(alloc, number)?;
        stamps.read(&path, Epoch(300), READER).ok()?;
    }
    Some(())
}

// Reads of so many keys, one after another, each at a later epoch.
fn read_many(alloc: Global, stamps: &mut Stamps, many: u32) -> Option<()> {
    for number in 0..many {
        let path = elsewhere(alloc, number)?;
        let epoch = Epoch(512 + u64::from(number));
        stamps.read(&path, epoch, READER).ok()?;
    }
    Some(())
}

// The timestamps of a read at 512, and then of so many reads of akeys of other dkeys at 300.
fn with_others(alloc: Global, path: &Path, others: u32) -> Option<Stamps>
    requires { is_path_in_form path.now ≡ true }
{
    let mut stamps = with_a_read(alloc, path)?;
    read_elsewhere(alloc, &mut stamps, others)?;
    Some(stamps)
}

// What writes of two paths at 256 are told after these reads, the first of which is of the first path, and how many
// entities are held then.
fn told_of_both(alloc: Global, first: &Path, second: &Path, others: u32) -> Option<(u64, u64, u32)>
    requires first { is_path_in_form first.now ≡ true }
    requires second { is_path_in_form second.now ≡ true }
{
    let stamps = with_others(alloc, first, others)?;
    let (one, two) = (told(&stamps, first, 256), told(&stamps, second, 256));
    Some((one, two, stamps.held()))
}

// The same of the two akeys that share a slot.
fn told_after(alloc: Global, others: u32) -> Option<(u64, u64, u32)> {
    let first = numbered(alloc, 188)?;
    let second = numbered(alloc, 294)?;
    told_of_both(alloc, &first, &second, others)
}

// How many entities are held, and what is told, another program told.
#[test]
fn an_entity_that_goes_out_leaves_its_read_to_its_slot(rt: HostRuntime) {
    let alloc = rt.alloc();
    assert!(rt; told_after(alloc, 0) == Some((512, 0, 4)));
    assert!(rt; told_after(alloc, 1024) == Some((512, 512, 2050)));
}

// Whether the read of a key, or a later one that is near it, is shown to a write just below it.
fn is_remembered(alloc: Global, stamps: &Stamps, number: u32) -> Option<bool> {
    let write = elsewhere(alloc, number)?;
    let below = 511 + u64::from(number);
    match stamps.later_read(&write, Epoch(below)) {
        Some(read) => Some(below < read.epoch.0 && read.path.near(&write)),
        None => Some(false),
    }
}

// The first of so many reads that is forgotten, or how many there are.
fn first_forgotten(alloc: Global, stamps: &Stamps, many: u32) -> Option<u32> {
    for number in 0..many {
        if !is_remembered(alloc, stamps, number)? {
            return Some(number);
        }
    }
    Some(many)
}

// How many entities are held after so many reads, each at a later epoch, and the first read that is forgotten.
fn many_read(alloc: Global, many: u32) -> Option<(u32, u32)> {
    let mut stamps = Stamps::new(alloc).ok()?;
    read_many(alloc, &mut stamps, many)?;
    let forgotten = first_forgotten(alloc, &stamps, many)?;
    Some((stamps.held(), forgotten))
}

// Every read is remembered, by itself or by a later one that shares its slot.
#[test]
fn so_many_reads_have_a_bound(rt: HostRuntime) {
    assert!(rt; many_read(rt.alloc(), 100_000) == Some((2050, 100_000)));
}
