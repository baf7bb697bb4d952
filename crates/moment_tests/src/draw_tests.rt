// Writes are made, settled and pruned by moments that numbers draw, and trees show what a plain list shows.
ghost use Rattle.std.specs.Prelude.{◌≡◌, ◌≤◌, ◌<◌};

use crate::draw::{Call, LAST, attempt, call_of, moments};
use crate::lines::{INDEXES, Line, blocks, has_cell, prune, settle, settled_below, shown};
use crate::place::{Place, akey, path, place_of};
use crate::store::Store;
use crate::views::{count, exists, records, value};
use base_random::draw::drawn;
use base_types::epoch::Epoch;
use pmem_pages::steps::Steps;
use std::alloc::Global;
use std::marker::Brand;
use std::sync::ledger::{Blank, Ledger};
use vos_levels::change::Change;
use vos_punches::punches::Punches;
use vos_settle::name::WriteName;
use vos_settle::task::WriteKind;
use vos_values::keys::Moment;

const CALLS: u64 = 64;

const BLOCKS: u32 = 600;

// A call on the trees and on the list.
fn make<L: Ledger>(
    store: &mut Store,
    alloc: Global,
    unit: u8,
    lines: &mut Vec<Line>,
    call: Call,
    steps: &mut Steps<L>,
) -> Option<()>
    requires some { 1 ≤ unit }
    requires few { unit ≤ 64 }
{
    match call {
        Call::Write(line) => {
            store.write(alloc, unit, line, steps)?;
            lines.push(line).ok()
        }
        Call::Settle(by, commits, number) => {
            let which = moments(alloc, Some(number))?;
            store.settle(alloc, by, &which, commits, steps)?;
            settle(lines, by, &which, commits);
            Some(())
        }
        Call::Prune(place, number) => {
            let gone = moments(alloc, Some(number))?;
            let path = path(alloc, unit, place)?;
            store.prune(alloc, &path, &gone, steps)?;
            prune(lines, place, &gone);
            Some(())
        }
    }
}

// Whether names are those of lines.
fn are_named(alloc: Global, unit: u8, names: &[WriteName], lines: &[Line]) -> Option<bool>
    requires some { 1 ≤ unit }
    requires few { unit ≤ 64 }
{
    let mut same = names.len() == lines.len();
    for line in lines {
        let path = path(alloc, unit, line.place)?;
        same = same && names.iter().any(|name| line.is_named(&path, name));
    }
    Some(same)
}

// The lines that are done.
fn done(alloc: Global, lines: &[Line]) -> Option<Vec<Line>> {
    let mut done = Vec::new(alloc);
    for line in lines {
        if line.done {
            done.push(*line).ok()?;
        }
    }
    Some(done)
}

// Whether the versions of the trees, and the done ones among them, are those of the list, and take as many blocks.
fn stand_alike<L: Ledger>(
    store: &mut Store,
    alloc: Global,
    unit: u8,
    lines: &[Line],
    free: u32,
    steps: &mut Steps<L>,
) -> Option<bool>
    requires some { 1 ≤ unit }
    requires few { unit ≤ 64 }
{
    let names = store.names(alloc, None, steps)?;
    let all = are_named(alloc, unit, &names, lines)?;
    let names = store.names(alloc, Some(Change::Prune), steps)?;
    let done = are_named(alloc, unit, &names, &done(alloc, lines)?)?;
    let left = free.checked_sub(blocks(lines))?;
    Some(all && done && store.pages.free() == left)
}

// Whether they show the same of an akey.
fn akeys_alike<L: Ledger>(
    store: &mut Store,
    alloc: Global,
    unit: u8,
    lines: &[Line],
    view: (Place, Epoch),
    punches: &Punches,
    steps: &mut Steps<L>,
) -> Option<bool>
    requires some { 1 ≤ unit }
    requires few { unit ≤ 64 }
{
    let (akey, below) = view;
    let byte = value(store, alloc, unit, akey, below, punches, steps)?;
    let bytes = records(store, alloc, unit, akey, below, punches, steps)?;
    let mut same = byte == shown(lines, akey, None, below);
    for index in 0..INDEXES {
        let there = bytes.get(index as usize).copied();
        same = same && there == Some(shown(lines, akey, Some(index), below));
    }
    Some(same)
}

// Whether there is a cell below a place in the trees where there is one in the list.
fn exist_alike<L: Ledger>(
    store: &mut Store,
    alloc: Global,
    unit: u8,
    lines: &[Line],
    view: (Place, Epoch),
    punches: &Punches,
    steps: &mut Steps<L>,
) -> Option<bool>
    requires some { 1 ≤ unit }
    requires few { unit ≤ 64 }
{
    let (place, below) = view;
    let there = exists(store, alloc, unit, place, below, punches, steps)?;
    Some(there == has_cell(lines, place, below))
}

// How many of two places have a cell in the list.
fn having(lines: &[Line], one: Place, other: Place, below: Epoch) -> usize {
    usize::from(has_cell(lines, one, below)) + usize::from(has_cell(lines, other, below))
}

// Whether as many akeys of a dkey are listed as have a cell in the list, and so of the dkeys of its object.
fn lists_alike<L: Ledger>(
    store: &mut Store,
    alloc: Global,
    unit: u8,
    lines: &[Line],
    view: (u8, Epoch),
    punches: &Punches,
    steps: &mut Steps<L>,
) -> Option<bool>
    requires some { 1 ≤ unit }
    requires few { unit ≤ 64 }
{
    let (number, below) = view;
    let akeys = having(
        lines,
        place_of(number / 2 * 2, 3),
        place_of(number / 2 * 2 + 1, 3),
        below,
    );
    let dkeys = having(
        lines,
        place_of(number / 4 * 4, 2),
        place_of(number / 4 * 4 + 2, 2),
        below,
    );
    let dkey = count(
        store,
        alloc,
        unit,
        place_of(number, 2),
        below,
        punches,
        steps,
    )?;
    let object = count(
        store,
        alloc,
        unit,
        place_of(number, 1),
        below,
        punches,
        steps,
    )?;
    Some(dkey == akeys && object == dkeys)
}

// Whether they show the same below the first epoch of what isn't settled.
fn shown_alike<L: Ledger>(
    store: &mut Store,
    alloc: Global,
    unit: u8,
    lines: &[Line],
    steps: &mut Steps<L>,
) -> Option<bool>
    requires some { 1 ≤ unit }
    requires few { unit ≤ 64 }
{
    let below = settled_below(lines, Epoch(LAST));
    let objects = store.objects();
    let punches = objects.punches(&mut store.pages, alloc, steps).ok()?;
    let mut same = true;
    for number in 0..8 {
        let akey = akey(number);
        same = same && akeys_alike(store, alloc, unit, lines, (akey, below), &punches, steps)?;
        let view = (place_of(number, number % 4), below);
        same = same && exist_alike(store, alloc, unit, lines, view, &punches, steps)?;
        if number % 2 == 0 {
            same = same
                && lists_alike(store, alloc, unit, lines, (number, below), &punches, steps)?;
        }
    }
    Some(same)
}

// Settles all versions, those of one attempt so and those of the other otherwise, and prunes them.
fn empty<L: Ledger>(store: &mut Store, alloc: Global, unit: u8, steps: &mut Steps<L>) -> Option<()>
    requires some { 1 ≤ unit }
    requires few { unit ≤ 64 }
{
    let all = moments(alloc, None)?;
    store.settle(alloc, attempt(0), &all, true, steps)?;
    store.settle(alloc, attempt(1), &all, false, steps)?;
    let path = path(alloc, unit, Place::Cont)?;
    store.prune(alloc, &path, &all, steps)
}

// Writes each akey and prunes what was written, so that all names are there.
fn name_all<L: Ledger>(
    store: &mut Store,
    alloc: Global,
    unit: u8,
    steps: &mut Steps<L>,
) -> Option<()>
    requires some { 1 ≤ unit }
    requires few { unit ≤ 64 }
{
    for number in 0..8 {
        let line = Line {
            place: akey(number),
            kind: WriteKind::Single,
            at: Moment {
                epoch: Epoch(u64::from(number)),
                minor: 0,
            },
            by: attempt(0),
            byte: 1,
            done: false,
        };
        store.write(alloc, unit, line, steps)?;
    }
    empty(store, alloc, unit, steps)
}

// Makes the calls that a seed draws, and whether all is alike after each, and as many blocks are free in the end,
// where all was pruned, as in the beginning.
fn makes<L: Ledger>(
    store: &mut Store,
    alloc: Global,
    unit: u8,
    seed: u64,
    steps: &mut Steps<L>,
) -> Option<bool>
    requires some { 1 ≤ unit }
    requires few { unit ≤ 64 }
{
    let free = store.pages.free();
    let mut lines: Vec<Line> = Vec::new(alloc);
    let (mut number, mut writes, mut same) = (drawn(seed), 0u64, true);
    for turn in 0..CALLS {
        let call = call_of(number, writes);
        if matches!(call, Call::Write(_)) {
            writes = writes.wrapping_add(1);
        }
        make(store, alloc, unit, &mut lines, call, steps)?;
        same = same && stand_alike(store, alloc, unit, &lines, free, steps)?;
        if turn % 4 == 0 {
            same = same && shown_alike(store, alloc, unit, &lines, steps)?;
        }
        number = drawn(number);
    }
    empty(store, alloc, unit, steps)?;
    Some(same && store.pages.free() == free && store.names(alloc, None, steps)?.is_empty())
}

fn runs<L: Ledger>(alloc: Global, unit: u8, seed: u64, blank: Blank) -> Option<bool>
    requires some { 1 ≤ unit }
    requires few { unit ≤ 64 }
    requires name { blank.name ≡ L.name }
    requires parts { blank.parts ≡ L.parts }
    requires one { 0 < blank.parts }
{
    let mut steps = Steps::<L>::new(blank);
    let mut store = Store::empty(alloc, BLOCKS)?;
    name_all(&mut store, alloc, unit, &mut steps)?;
    makes(&mut store, alloc, unit, seed, &mut steps)
}

// Whether they do, over a ledger of their own.
fn agrees(alloc: Global, unit: u8, seed: u64) -> bool
    requires some { 1 ≤ unit }
    requires few { unit ≤ 64 }
{
    runs::<Brand>(alloc, unit, seed, Blank::new(1)) == Some(true)
}

// With records of one byte the objects' keys are those of the first layout.
#[test]
fn moments_are_settled_and_pruned_as_in_a_list(rt: HostRuntime) {
    let alloc = rt.alloc();
    assert!(rt; agrees(alloc, 1, 88172645463325252));
    assert!(rt; agrees(alloc, 1, 1442695040888963407));
    assert!(rt; agrees(alloc, 2, 6364136223846793005));
    assert!(rt; agrees(alloc, 7, 2862933555777941757));
    assert!(rt; agrees(alloc, 64, 3935559000370003845));
}
