// Writes of objects in memory are settled, pruned, read and listed, beside a plain list of them.
ghost use Rattle.std.specs.Prelude.{◌≡◌, ◌<◌, true, IfSome};
ghost use Rattle.base_types.specs.Paths.{record_size};
ghost use Rattle.daos_model.specs.Forms.{ends_at_akey, is_read_in_form, is_unit};
ghost use Rattle.vos_path.specs.Writes.{NamesAreKeys, is_update};
ghost use Rattle.vos_settle.specs.Names.{IsNamed};
ghost use Rattle.vos_object.specs.Settling.{decides};
ghost use Rattle.vos_object.specs.Updates.{IsWritable, listing};

use crate::store::{BY, Store};
use base_types::answer::Answer;
use base_types::entry::Settle;
use base_types::epoch::Epoch;
use base_types::id::{AttemptId, Class, ContId, ObjId};
use base_types::items::bytes_of;
use base_types::key::Key;
use base_types::operation::{MinorWrite, Read, Write};
use base_types::path::Path;
use pmem_pages::steps::Steps;
use pmem_tree::tree::Tree;
use std::alloc::Global;
use std::marker::Brand;
use std::sync::ledger::{Blank, Ledger};
use vos_prune::remove::find_writer;
use vos_settle::name::WriteName;
use vos_settle::task::WriteKind;
use vos_values::keys::Moment;

const OTHER: AttemptId = AttemptId {
    client: 1,
    command: 2,
    attempt: 4,
};

// So many blocks there are, and a value has two.
pub(crate) const BLOCKS: u32 = 200;

const LENGTH: usize = 300;

/// What is done with the value of one akey of one epoch, and whose turn it is.
#[derive(Clone, Copy)]
pub(crate) enum Step {
    Write,
    Commit,
    CommitOther,
    Abort,
    AbortOther,
    Remove,
}

/// A value that stands: its akey, its epoch, and whether it is done.
#[derive(Clone, Copy)]
struct Line {
    akey: u8,
    epoch: u64,
    done: bool,
}

// The path of an akey.
fn path(alloc: Global, unit: u8, akey: u8) -> Option<Path>
    ensures form { IfSome result (λ p. ends_at_akey p ≡ true) }
    ensures size { IfSome result (λ p. record_size p ≡ unit) }
    ensures names { IfSome result NamesAreKeys }
{
    Some(Path {
        cont: ContId(5),
        obj: Some(ObjId {
            class: Class::RP2G1,
            number: 9,
            unit,
        }),
        dkey: Some(Key::new(alloc, b"d").ok()?),
        akey: Some(Key::new(alloc, &[akey]).ok()?),
    })
}

// The path of the dkey.
#[tactic(auto, unfolding(daos_model::specs::Forms::is_read_in_form))]
fn dkey_path(alloc: Global, unit: u8) -> Option<Path>
    ensures form { IfSome result (λ p. is_read_in_form (listing p) ≡ true) }
    ensures size { IfSome result (λ p. record_size p ≡ unit) }
    ensures names { IfSome result NamesAreKeys }
{
    let dkey = Key::new(alloc, b"d").ok()?;
    Some(Path {
        cont: ContId(5),
        obj: Some(ObjId {
            class: Class::RP2G1,
            number: 9,
            unit,
        }),
        dkey: Some(dkey),
        akey: None,
    })
}

// The byte that fills the value of an epoch.
fn fill(epoch: u64) -> u8 {
    (epoch / 256 % 256) as u8
}

// The number of a write of an akey in its transaction: each has its own.
fn minor(akey: u8) -> u8
    ensures { result < 64 }
{
    akey % 2
}

// The update of an akey at an epoch.
#[tactic(auto, unfolding(daos_model::specs::Forms::is_write_in_form))]
fn update(alloc: Global, unit: u8, akey: u8, epoch: u64) -> Option<MinorWrite>
    requires unit { is_unit unit ≡ true }
    ensures write { IfSome result IsWritable }
    ensures update { IfSome result (λ w. is_update w.write ≡ true) }
{
    let path = path(alloc, unit, akey)?;
    let bytes = bytes_of(alloc, &[fill(epoch); LENGTH]).ok()?;
    Some(MinorWrite {
        minor: minor(akey),
        write: Write::Single(path, bytes),
    })
}

// Its name.
fn name(alloc: Global, unit: u8, akey: u8, epoch: u64) -> Option<WriteName>
    requires unit { is_unit unit ≡ true }
    ensures { IfSome result IsNamed }
{
    let path = path(alloc, unit, akey)?;
    Some(WriteName {
        path,
        kind: WriteKind::Single,
        epoch: Epoch(epoch),
        minor: minor(akey),
    })
}

// How a step settles a write.
fn settles(step: Step) -> (AttemptId, Settle)
    ensures { decides result.1 ≡ true }
{
    match step {
        Step::CommitOther => (OTHER, Settle::Commit),
        Step::Abort => (BY, Settle::Abort),
        Step::AbortOther => (OTHER, Settle::Abort),
        _ => (BY, Settle::Commit),
    }
}

// Settles or removes a write.
fn change<L: Ledger>(
    store: &mut Store,
    name: &WriteName,
    step: Step,
    steps: &mut Steps<L>,
) -> Option<()>
    requires { IsNamed name.now }
{
    let mut objects = store.objects();
    if matches!(step, Step::Remove) {
        return objects.remove_write(&mut store.pages, name, steps).ok();
    }
    let (attempt, end) = settles(step);
    objects
        .settle_write(&mut store.pages, attempt, name, end, steps)
        .ok()
}

// A step on the trees.
pub(crate) fn make<L: Ledger>(
    store: &mut Store,
    alloc: Global,
    unit: u8,
    call: (Step, u8, u64),
    steps: &mut Steps<L>,
) -> Option<()>
    requires unit { is_unit unit ≡ true }
{
    let (step, akey, epoch) = call;
    if matches!(step, Step::Write) {
        let write = update(alloc, unit, akey, epoch)?;
        return store.update(epoch, &write, steps);
    }
    let name = name(alloc, unit, akey, epoch)?;
    store.pages.grant(1024, 256000);
    change(store, &name, step, steps)
}

// The first byte of what an akey holds below an epoch, or 0 where it holds nothing.
#[tactic(auto, unfolding(daos_model::specs::Forms::is_read_in_form))]
pub(crate) fn shown<L: Ledger>(
    store: &mut Store,
    alloc: Global,
    unit: u8,
    akey: u8,
    below: u64,
    steps: &mut Steps<L>,
) -> Option<u8>
    requires unit { is_unit unit ≡ true }
{
    let objects = store.objects();
    let read = Read::Single(path(alloc, unit, akey)?);
    let (pages, below) = (&mut store.pages, Epoch(below));
    let found = objects.fetch(pages, alloc, &read, below, &store.punches, steps);
    match found.ok()? {
        Answer::Bytes(bytes) => bytes.as_slice().first().copied(),
        _ => Some(0),
    }
}

// Whether the value of an epoch is there and done.
fn is_done<L: Ledger>(
    store: &mut Store,
    alloc: Global,
    unit: u8,
    akey: u8,
    epoch: u64,
    steps: &mut Steps<L>,
) -> Option<bool>
    requires unit { is_unit unit ≡ true }
{
    let at = Moment {
        epoch: Epoch(epoch),
        minor: minor(akey),
    };
    let tree = Tree {
        kind: 1,
        root: store.root,
    };
    let path = path(alloc, unit, akey)?;
    let found = find_writer(tree, &mut store.pages, &path, WriteKind::Single, at, steps);
    Some(found.ok()?.is_some())
}

// How many akeys are listed below an epoch.
fn count<L: Ledger>(
    store: &mut Store,
    alloc: Global,
    unit: u8,
    below: u64,
    steps: &mut Steps<L>,
) -> Option<usize>
    requires unit { is_unit unit ≡ true }
{
    let objects = store.objects();
    let path = dkey_path(alloc, unit)?;
    let (pages, below) = (&mut store.pages, Epoch(below));
    let names = objects.list(pages, alloc, &path, below, &store.punches, steps);
    Some(names.ok()?.len())
}

// A step on the list.
fn listed(
    alloc: Global,
    lines: &[Line],
    (step, akey, epoch): (Step, u8, u64),
) -> Option<Vec<Line>> {
    let mut after = Vec::new(alloc);
    for line in lines {
        let mut line = *line;
        let named = line.akey == akey && line.epoch == epoch;
        let goes = match step {
            Step::Abort => !line.done,
            Step::Remove => line.done,
            _ => false,
        };
        if named && goes {
            continue;
        }
        if named && matches!(step, Step::Commit) {
            line.done = true;
        }
        after.push(line).ok()?;
    }
    if matches!(step, Step::Write) {
        after
            .push(Line {
                akey,
                epoch,
                done: false,
            })
            .ok()?;
    }
    Some(after)
}

// What the list shows of an akey below an epoch.
fn newest(lines: &[Line], akey: u8, below: u64) -> u8 {
    let mut newest = 0;
    for line in lines {
        if line.akey == akey && line.epoch < below && line.epoch >= newest {
            newest = line.epoch;
        }
    }
    fill(newest)
}

// Whether the list has a done value.
fn has_done(lines: &[Line], akey: u8, epoch: u64) -> bool {
    for line in lines {
        if line.akey == akey && line.epoch == epoch && line.done {
            return true;
        }
    }
    false
}

const EPOCHS: [u64; 4] = [256, 512, 768, 1024];

// How many blocks are free beside the values of the list: a value has two blocks, its pair and three creations; and
// four blocks name the object, the dkey and both akeys.
fn free_beside(lines: &[Line]) -> Option<u32> {
    let taken = u32::try_from(lines.len()).ok()?.checked_mul(6)?;
    BLOCKS.checked_sub(taken.checked_add(4)?)
}

// Whether trees and list show the same of an akey at an epoch and below the next one.
fn agree_at<L: Ledger>(
    store: &mut Store,
    alloc: Global,
    unit: u8,
    lines: &[Line],
    place: (u8, u64),
    steps: &mut Steps<L>,
) -> Option<bool>
    requires unit { is_unit unit ≡ true }
{
    let (akey, epoch) = place;
    let below = epoch.checked_add(1)?;
    let shown = shown(store, alloc, unit, akey, below, steps)?;
    let done = is_done(store, alloc, unit, akey, epoch, steps)?;
    Some(shown == newest(lines, akey, below) && done == has_done(lines, akey, epoch))
}

// Whether as many akeys are listed below an epoch as have a value there.
fn names_agree<L: Ledger>(
    store: &mut Store,
    alloc: Global,
    unit: u8,
    lines: &[Line],
    below: u64,
    steps: &mut Steps<L>,
) -> Option<bool>
    requires unit { is_unit unit ≡ true }
{
    let count = count(store, alloc, unit, below, steps)?;
    let (a, b) = (newest(lines, b'a', below), newest(lines, b'b', below));
    Some(count == usize::from(a > 0) + usize::from(b > 0))
}

// Whether trees and list show the same.
fn agree<L: Ledger>(
    store: &mut Store,
    alloc: Global,
    unit: u8,
    lines: &[Line],
    steps: &mut Steps<L>,
) -> Option<bool>
    requires unit { is_unit unit ≡ true }
{
    if store.pages.free() != free_beside(lines)? {
        return Some(false);
    }
    for epoch in EPOCHS {
        let same = agree_at(store, alloc, unit, lines, (b'a', epoch), steps)?
            && agree_at(store, alloc, unit, lines, (b'b', epoch), steps)?;
        if !same || !names_agree(store, alloc, unit, lines, epoch, steps)? {
            return Some(false);
        }
    }
    Some(true)
}

// Both akeys are written first, so that their names are there.
const SCRIPT: [(Step, u8, u64); 23] = [
    (Step::Write, b'a', 256),
    (Step::Write, b'b', 256),
    (Step::Write, b'a', 512),
    (Step::CommitOther, b'a', 256),
    (Step::AbortOther, b'a', 256),
    (Step::Remove, b'a', 256),
    (Step::Commit, b'a', 256),
    (Step::Commit, b'a', 256),
    (Step::Abort, b'a', 256),
    (Step::Write, b'a', 768),
    (Step::Abort, b'a', 512),
    (Step::Commit, b'b', 256),
    (Step::Write, b'b', 1024),
    (Step::Remove, b'b', 1024),
    (Step::Commit, b'b', 1024),
    (Step::Remove, b'b', 256),
    (Step::Commit, b'a', 512),
    (Step::Commit, b'a', 768),
    (Step::Remove, b'a', 256),
    (Step::Remove, b'a', 256),
    (Step::Remove, b'a', 768),
    (Step::Write, b'a', 512),
    (Step::Abort, b'a', 512),
];

// Whether trees and list show the same after each step of the script, from the second on.
fn agree_after<L: Ledger>(
    store: &mut Store,
    alloc: Global,
    unit: u8,
    steps: &mut Steps<L>,
) -> Option<bool>
    requires unit { is_unit unit ≡ true }
{
    let mut lines: Vec<Line> = Vec::new(alloc);
    let mut has_names = false;
    for step in SCRIPT {
        make(store, alloc, unit, step, steps)?;
        lines = listed(alloc, &lines, step)?;
        if has_names && !agree(store, alloc, unit, &lines, steps)? {
            return Some(false);
        }
        has_names = true;
    }
    Some(true)
}

fn runs<L: Ledger>(alloc: Global, unit: u8, blank: Blank) -> Option<bool>
    requires unit { is_unit unit ≡ true }
    requires name { blank.name ≡ L.name }
    requires parts { blank.parts ≡ L.parts }
    requires some { 0 < blank.parts }
{
    let mut steps = Steps::<L>::new(blank);
    let mut store = Store::empty(alloc, BLOCKS)?;
    agree_after(&mut store, alloc, unit, &mut steps)
}

// How many ranges a step on a value stages that was just written.
fn staged<L: Ledger>(alloc: Global, step: Step, blank: Blank) -> Option<u32>
    requires name { blank.name ≡ L.name }
    requires parts { blank.parts ≡ L.parts }
    requires some { 0 < blank.parts }
{
    let mut steps = Steps::<L>::new(blank);
    let mut store = Store::empty(alloc, BLOCKS)?;
    make(&mut store, alloc, 1, (Step::Write, b'a', 256), &mut steps)?;
    make(&mut store, alloc, 1, (step, b'a', 256), &mut steps)?;
    1024u32.checked_sub(store.pages.ranges())
}

// What they answer over a ledger of their own.
fn agrees(alloc: Global, unit: u8) -> bool
    requires unit { is_unit unit ≡ true }
{
    runs::<Brand>(alloc, unit, Blank::new(1)) == Some(true)
}

fn stages(alloc: Global, step: Step, ranges: u32) -> bool {
    staged::<Brand>(alloc, step, Blank::new(1)) == Some(ranges)
}

#[test]
fn objects_are_settled_as_a_list_is(rt: HostRuntime) {
    let alloc = rt.alloc();
    assert!(rt; agrees(alloc, 1));
    assert!(rt; agrees(alloc, 2));
    assert!(rt; agrees(alloc, 7));
    assert!(rt; agrees(alloc, 64));
}

// The version and three creations.
#[test]
fn a_commit_stages_a_range_for_each_entry(rt: HostRuntime) {
    let alloc = rt.alloc();
    assert!(rt; stages(alloc, Step::Commit, 4));
    assert!(rt; stages(alloc, Step::CommitOther, 0));
}
