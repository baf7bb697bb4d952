// Regions in memory, and commits that are cut at each of their writes.
use base_outside::rack::Rack;
use base_outside::region::Region;
use daos_regions::fused::Fused;
use daos_regions::keep::Keep;
use daos_regions::mem_rack::MemRack;
use daos_regions::mem_region::MemRegion;
use pmem_undo::undo_region::UndoRegion;
use std::alloc::Global;

// The least size of a region with an undo log.
pub(crate) const SIZE: u64 = 323584;

// A place of content.
const PLACE: u64 = 4096;

// Stages three bytes and commits them. None where there was no room, and else whether it went well.
pub(crate) fn commit<R: Region>(undo: &mut UndoRegion<R>, bytes: &[u8; 3]) -> Option<bool> {
    if undo.size() != SIZE || undo.stage(PLACE, bytes).is_err() {
        return None;
    }
    Some(undo.commit().is_ok())
}

// The three bytes that stand there after the region was opened anew and attached to.
pub(crate) fn bytes_after<R: Region + Drop>(alloc: Global, undo: UndoRegion<R>) -> Option<[u8; 3]> {
    let mut region = undo.into_region();
    if region.size() != SIZE || region.reopen().is_err() {
        return None;
    }
    match UndoRegion::attach(alloc, region) {
        Ok(undo) => {
            let mut undo = undo;
            let mut bytes = [0; 3];
            let read = undo.size() == SIZE && undo.read(PLACE, &mut bytes).is_ok();
            let _region = undo.into_region();
            if read { Some(bytes) } else { None }
        }
        Err(no) => {
            let _region = no.region;
            None
        }
    }
}

// Commits `old`, then `new`, whose commit begins with the sixth write, and opens the region anew: whether
// the second commit was made, and whether the bytes are these.
fn row(alloc: Global, fails: &[u32], keep: Keep, fuse: u32, left: &[u8]) -> Option<(bool, bool)> {
    let mut region = match MemRegion::new(alloc, SIZE, fails, keep) {
        Ok(region) => Fused::new(region),
        Err(_) => return None,
    };
    region.fuse(fuse);
    match UndoRegion::format(alloc, region) {
        Ok(undo) => {
            let mut undo = undo;
            let first = commit(&mut undo, b"old");
            let second = commit(&mut undo, b"new");
            let bytes = bytes_after(alloc, undo)?;
            match (first, second) {
                (Some(true), Some(done)) => Some((done, bytes.as_slice() == left)),
                _ => None,
            }
        }
        Err(_) => None,
    }
}

// Whether a row commits, or doesn't, and leaves these bytes.
fn leaves(
    alloc: Global,
    fails: &[u32],
    keep: Keep,
    fuse: u32,
    committed: bool,
    left: &[u8],
) -> bool {
    match row(alloc, fails, keep, fuse, left) {
        Some((done, same)) => done == committed && same,
        None => false,
    }
}

#[test]
fn a_cut_commit_leaves_the_old_bytes_or_the_new(rt: HostRuntime) {
    let alloc = rt.alloc();
    assert!(rt; leaves(alloc, &[], Keep::All, 0, true, b"new"));
    for fuse in 6..10 {
        assert!(rt;
            leaves(alloc, &[], Keep::All, fuse, false, b"old"),
            "{fuse}"
        );
    }
    // The flush after the gate was closed, which is the twentieth call.
    assert!(rt; leaves(alloc, &[20], Keep::All, 0, false, b"new"));
    assert!(rt; leaves(alloc, &[20], Keep::None, 0, false, b"old"));
    assert!(rt; leaves(alloc, &[20], Keep::Second, 0, false, b"old"));
    // The flush after the ranges were written.
    assert!(rt; leaves(alloc, &[18], Keep::All, 0, false, b"old"));
}

// Commits with a fuse that is set through the log: whether it went well, and how often the fuse and the
// outside failed the region.
fn fused(alloc: Global, fuse: u32) -> Option<(bool, u64, u64)> {
    let region = MemRegion::new(alloc, SIZE, &[], Keep::All).ok()?;
    let mut undo = UndoRegion::format(alloc, Fused::new(region)).ok()?;
    undo.set_fuse(fuse);
    let done = commit(&mut undo, b"new")?;
    Some((done, undo.region().burnt(), undo.region().faults()))
}

#[test]
fn a_fuse_cuts_the_first_four_writes(rt: HostRuntime) {
    let alloc = rt.alloc();
    assert!(rt; fused(alloc, 0) == Some((true, 0, 0)));
    assert!(rt; fused(alloc, 1) == Some((false, 1, 0)));
    assert!(rt; fused(alloc, 4) == Some((false, 1, 0)));
    assert!(rt; fused(alloc, 5) == Some((true, 0, 0)));
}

// Two writes, a flush, and two writes more, and what an opening leaves of them.
fn opened(region: &mut MemRegion) -> Option<[u8; 4]> {
    if region.size() != 4 {
        return None;
    }
    region.write(0, b"a").ok()?;
    region.write(1, b"b").ok()?;
    region.flush().ok()?;
    region.write(2, b"c").ok()?;
    region.write(3, b"d").ok()?;
    region.reopen().ok()?;
    let mut bytes = [0; 4];
    region.read(0, &mut bytes).ok()?;
    Some(bytes)
}

fn keeps(alloc: Global, keep: Keep, left: &[u8]) -> bool {
    match MemRegion::new(alloc, 4, &[], keep) {
        Ok(region) => {
            let mut region = region;
            opened(&mut region).is_some_and(|bytes| bytes.as_slice() == left)
        }
        Err(_) => false,
    }
}

#[test]
fn an_opening_keeps_what_was_flushed(rt: HostRuntime) {
    let alloc = rt.alloc();
    assert!(rt; keeps(alloc, Keep::All, b"abcd"));
    assert!(rt; keeps(alloc, Keep::None, b"ab\0\0"));
    assert!(rt; keeps(alloc, Keep::Second, b"ab\0d"));
}

// Which calls are answered of a region whose second call fails, and how often it failed.
fn answered(region: &mut MemRegion) -> Option<([bool; 5], u64)> {
    if region.size() != 4 {
        return None;
    }
    let calls = [
        region.write(0, b"a").is_ok(),
        region.flush().is_ok(),
        region.write(1, b"b").is_ok(),
        region.reopen().is_ok(),
        region.write(1, b"b").is_ok(),
    ];
    Some((calls, region.faults()))
}

fn fails_on(alloc: Global) -> Option<([bool; 5], u64)> {
    let mut region = MemRegion::new(alloc, 4, &[2], Keep::All).ok()?;
    answered(&mut region)
}

// A byte is written into a region of a rack whose second call fails, which is given back; the rack fails, and hands
// it out again: the byte, and how often the rack failed.
fn handed_out(rack: &mut MemRack) -> Option<(u8, u64)> {
    let mut region = rack.region(0, 4).ok()?;
    let written = region.size() == 4 && region.write(0, b"a").is_ok();
    rack.take_back(0, region);
    if !written || rack.region(1, 4).is_ok() {
        return None;
    }
    let mut region = rack.region(0, 4).ok()?;
    let mut byte = [0];
    if region.size() != 4 || region.read(0, &mut byte).is_err() {
        return None;
    }
    Some((byte[0], rack.faults()))
}

fn fails_by_its_list(alloc: Global) -> Option<(u8, u64)> {
    let mut rack = MemRack::new(alloc, 2, 4, &[2]).ok()?;
    handed_out(&mut rack)
}

#[test]
fn after_a_failure_all_fails_until_an_opening(rt: HostRuntime) {
    let alloc = rt.alloc();
    let calls = [true, false, false, true, true];
    assert!(rt; fails_on(alloc) == Some((calls, 2)));
    assert!(rt; fails_by_its_list(alloc) == Some((b'a', 1)));
}
