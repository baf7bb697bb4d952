// Extents in memory, and what indexes hold by them.
ghost use Rattle.std.specs.Prelude.{◌≡◌, ◌<◌, ◌≤◌, IfSome, length};

use base_types::answer::Piece;
use base_types::epoch::Epoch;
use base_types::id::AttemptId;
use pmem_memory::mem_pages::MemPages;
use pmem_pages::steps::Steps;
use pmem_tree::tree::Tree;
use std::alloc::Global;
use std::marker::Brand;
use std::sync::ledger::{Blank, Ledger};
use vos_extent::extent::Extents;
use vos_levels::change::Change;
use vos_values::keys::{ExtentKey, Moment};

const BY: AttemptId = AttemptId {
    client: 1,
    command: 2,
    attempt: 3,
};

// A place in an array, with the number 0.
fn place(low: u32, epoch: u64) -> ExtentKey
    ensures { result.minor ≡ 0 }
{
    ExtentKey {
        low,
        epoch: Epoch(epoch),
        minor: 0,
    }
}

// Adds an extent.
fn add<L: Ledger>(
    pages: &mut MemPages,
    extents: Extents,
    at: ExtentKey,
    bytes: &[u8],
    steps: &mut Steps<L>,
) -> Option<Extents>
    requires kind { extents.tree.kind ≡ 6 }
    requires minor { at.minor < 64 }
    requires some { 1 ≤ length bytes.now }
    requires most { length bytes.now ≤ 1024 }
    ensures { IfSome result (λ e. e.tree.kind ≡ 6) }
{
    pages.grant(1024, 256000);
    let mut extents = extents;
    extents.add(pages, at, BY, bytes, steps).ok()?;
    Some(extents)
}

// `xy` at 1 with one epoch, and `pq` at 2 with a later one.
fn two<L: Ledger>(pages: &mut MemPages, steps: &mut Steps<L>) -> Option<Extents>
    ensures { IfSome result (λ e. e.tree.kind ≡ 6) }
{
    let none = Extents {
        tree: Tree { kind: 6, root: 0 },
    };
    let one = add(pages, none, place(1, 256), b"xy", steps)?;
    add(pages, one, place(2, 512), b"pq", steps)
}

// A piece as text: its bytes, or `~` for each record that is missing.
fn add_piece(text: &mut Vec<u8>, piece: &Piece) -> Option<()> {
    match piece {
        Piece::Bytes(bytes) => text.extend_from_slice(bytes.as_slice()).ok(),
        Piece::Hole(len) => {
            for _ in 0..*len {
                text.push(b'~').ok()?;
            }
            Some(())
        }
    }
}

// Pieces as text.
fn text_of(alloc: Global, pieces: &[Piece]) -> Option<Vec<u8>> {
    let mut text = Vec::new(alloc);
    for piece in pieces {
        add_piece(&mut text, piece)?;
    }
    Some(text)
}

// What the indexes from 0 to 4 hold below an epoch and a punch.
fn shown<L: Ledger>(
    alloc: Global,
    below: u64,
    punched: Option<Moment>,
    blank: Blank,
) -> Option<Vec<u8>>
    requires name { blank.name ≡ L.name }
    requires parts { blank.parts ≡ L.parts }
    requires some { 0 < blank.parts }
{
    let mut steps = Steps::<L>::new(blank);
    let mut pages = MemPages::new(alloc, 8).ok()?;
    let extents = two(&mut pages, &mut steps)?;
    let pieces = extents
        .pieces(
            1,
            &mut pages,
            alloc,
            0,
            5,
            Epoch(below),
            punched,
            &mut steps,
        )
        .ok()?;
    text_of(alloc, pieces.as_slice())
}

// Whether that is this text.
fn shows(alloc: Global, below: u64, punched: Option<Moment>, text: &[u8]) -> bool {
    match shown::<Brand>(alloc, below, punched, Blank::new(1)) {
        Some(found) => found.as_slice() == text,
        None => false,
    }
}

#[test]
fn pieces_below_an_epoch_and_a_punch(rt: HostRuntime) {
    let alloc = rt.alloc();
    assert!(rt; shows(alloc, 600, None, b"~xpq~"));
    assert!(rt; shows(alloc, 300, None, b"~xy~~"));
    assert!(rt; shows(alloc, 100, None, b"~~~~~"));
    let punch = Moment {
        epoch: Epoch(300),
        minor: 0,
    };
    assert!(rt; shows(alloc, 600, Some(punch), b"~~pq~"));
}

// Commits and prunes one of two extents, and aborts the other.
fn clear<L: Ledger>(pages: &mut MemPages, extents: Extents, steps: &mut Steps<L>) -> Option<()>
    requires { extents.tree.kind ≡ 6 }
{
    let mut extents = extents;
    pages.grant(1024, 256000);
    extents
        .change_at(pages, place(1, 256), Change::Commit(BY), steps)
        .ok()?;
    extents
        .change_at(pages, place(1, 256), Change::Prune, steps)
        .ok()?;
    extents
        .change_at(pages, place(2, 512), Change::Abort(BY), steps)
        .ok()
}

// How many blocks are free then.
fn left<L: Ledger>(alloc: Global, blank: Blank) -> Option<u32>
    requires name { blank.name ≡ L.name }
    requires parts { blank.parts ≡ L.parts }
    requires some { 0 < blank.parts }
{
    let mut steps = Steps::<L>::new(blank);
    let mut pages = MemPages::new(alloc, 8).ok()?;
    let extents = two(&mut pages, &mut steps)?;
    clear(&mut pages, extents, &mut steps)?;
    Some(pages.free())
}

// Whether all are.
fn are_left(alloc: Global) -> bool {
    left::<Brand>(alloc, Blank::new(1)) == Some(8)
}

#[test]
fn what_is_pruned_gives_its_blocks_back(rt: HostRuntime) {
    assert!(rt; are_left(rt.alloc()));
}
