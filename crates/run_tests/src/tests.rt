use crate::lone::{LoneNo, reopen, report_of, spent_parts};
use crate::two_runs::{Case, agreeing};
use base_outside::count_clock::CountClock;
use std::alloc::{AllocError, Global};
use std::sync::Wait;
use std::thread::Threads;

const FIRST: &[u8] = b"cont c 00000000-0000-0000-0000-000000000001\n\
    obj o c S1 0\n\
    obj q c S1 1\n\
    client\n\
    put o d a =hello\n\
    get o d a\n";

const SECOND: &[u8] = b"cont c 00000000-0000-0000-0000-000000000001\n\
    obj o c S1 0\n\
    obj q c S1 1\n\
    client\n\
    put o d a =two\n";

const IS_ABOVE_THE_LEASE: &[u8] = b"daos 1 targets 1\n\
    try 0 0 0 256 committed\n\
    try 0 1 0 512 committed\n\
    got 0 value =hello\n\
    end 0\n\
    lease 65536\n\
    daos 1 targets 1\n\
    try 0 0 0 16777472 committed\n\
    end 0\n\
    lease 131072\n";

// Epochs of a second run lie above the lease that the first one left.
#[test]
fn a_second_run_issues_above_the_lease(rt: HostRuntime) {
    let cases = [Case {
        plan: &[],
        first: FIRST,
        second: SECOND,
        told: IS_ABOVE_THE_LEASE,
    }];
    assert!(rt; agreeing(&rt, rt.alloc(), &cases) == 1);
}

const THIRD: &[u8] = b"cont c 00000000-0000-0000-0000-000000000001\n\
    obj o c S1 0\n\
    obj q c S1 1\n\
    client\n\
    put o d a =v\n";

// The lease that is left, and the report of a run over it, where it is at its end.
fn spent<R: Threads + Wait + Sync>(rt: &R, alloc: Global) -> Result<(u64, Vec<u8>), LoneNo> {
    let mut parts = spent_parts(alloc, CountClock::new())?;
    let lease = reopen(&mut parts)?;
    let report = report_of(rt, alloc, &mut parts, THIRD)?;
    Ok((lease, report))
}

// Whether no epoch is left to issue then.
fn is_spent<R: Threads + Wait + Sync>(rt: &R, alloc: Global) -> bool {
    let wanted = b"daos 1 targets 1\n\
        try 0 0 0 - spent\n\
        end 0\n";
    match spent(rt, alloc) {
        Ok((lease, report)) => {
            lease == 72_057_594_037_927_935 && report.as_slice() == wanted.as_slice()
        }
        Err(_) => false,
    }
}

#[test]
fn a_lease_at_its_end_is_spent(rt: HostRuntime) {
    assert!(rt; is_spent(&rt, rt.alloc()));
}

// A write, in which the target stops at the first change of its store, which is the lease; at the entry; or
// at the commit.
const STOPS_BEFORE_THE_LEASE: &[u8] = b"cont c 00000000-0000-0000-0000-000000000001\n\
    obj o c S1 0\n\
    stop 0 1\n\
    client\n\
    put o d a =v\n";

const STOPS_BEHIND_THE_ENTRY: &[u8] = b"cont c 00000000-0000-0000-0000-000000000001\n\
    obj o c S1 0\n\
    stop 0 2\n\
    client\n\
    put o d a =v\n";

const STOPS_BEFORE_THE_COMMIT: &[u8] = b"cont c 00000000-0000-0000-0000-000000000001\n\
    obj o c S1 0\n\
    stop 0 3\n\
    client\n\
    put o d a =v\n";

const READS_AND_WRITES: &[u8] = b"cont c 00000000-0000-0000-0000-000000000001\n\
    obj o c S1 0\n\
    client\n\
    get o d a\n\
    put o d a =w\n";

// What is told in each case: the value that the first run wrote is there in the second.
const WAS_SENT_AGAIN: &[u8] = b"daos 1 targets 1\n\
    stop 0 0\n\
    restart 0 0 2 255\n\
    try 0 0 0 - restart unresolved 0 0 0\n\
    try 0 0 1 256 committed\n\
    end 0\n\
    lease 65536\n\
    daos 1 targets 1\n\
    try 0 0 0 16777472 committed\n\
    got 0 value =v\n\
    try 0 1 0 16777728 committed\n\
    end 0\n\
    lease 131072\n";

const WAS_RESOLVED: &[u8] = b"daos 1 targets 1\n\
    stop 0 0\n\
    restart 0 0 2 16777471\n\
    try 0 0 0 256 committed\n\
    end 0\n\
    lease 65536\n\
    daos 1 targets 1\n\
    try 0 0 0 16777472 committed\n\
    got 0 value =v\n\
    try 0 1 0 16777728 committed\n\
    end 0\n\
    lease 131072\n";

const WAS_ANSWERED: &[u8] = b"daos 1 targets 1\n\
    try 0 0 0 256 committed\n\
    stop 0 0\n\
    restart 0 0 2 16777471\n\
    end 0\n\
    lease 65536\n\
    daos 1 targets 1\n\
    try 0 0 0 16777472 committed\n\
    got 0 value =v\n\
    try 0 1 0 16777728 committed\n\
    end 0\n\
    lease 131072\n";

#[test]
fn a_write_is_there_at_whose_changes_the_target_stopped(rt: HostRuntime) {
    let cases = [
        Case {
            plan: &[],
            first: STOPS_BEFORE_THE_LEASE,
            second: READS_AND_WRITES,
            told: WAS_SENT_AGAIN,
        },
        Case {
            plan: &[],
            first: STOPS_BEHIND_THE_ENTRY,
            second: READS_AND_WRITES,
            told: WAS_RESOLVED,
        },
        Case {
            plan: &[],
            first: STOPS_BEFORE_THE_COMMIT,
            second: READS_AND_WRITES,
            told: WAS_ANSWERED,
        },
    ];
    let count = agreeing(&rt, rt.alloc(), &cases);
    assert!(rt; count == 3, "case {count}");
}

// 256 containers, which are all that a store has room for.
fn many_conts(alloc: Global) -> Result<Vec<u8>, AllocError> {
    let mut text = Vec::new(alloc);
    for number in 1..=256u32 {
        text.extend_from_slice(format!(in alloc; "cont c{number} {number:032x}\n")?.as_bytes())?;
    }
    Ok(text)
}

const ONE_OF_THEM: &[u8] = b"cont c 00000000-0000-0000-0000-000000000001\n";

const ONE_MORE: &[u8] = b"cont c ffffffff-ffff-ffff-ffff-ffffffffffff\n";

const HAS_ROOM: &[u8] = b"daos 1 targets 1\n\
    end 0\n\
    lease 0\n\
    daos 1 targets 1\n\
    end 0\n\
    lease 0\n";

const HAS_NONE: &[u8] = b"daos 1 targets 1\n\
    end 0\n\
    lease 0\n\
    257 containers of 256\n";

// The containers of a second run count together with those that the store has: how many of two cases come out so.
fn counted<R: Threads + Wait + Sync>(rt: &R, alloc: Global) -> Option<usize> {
    let many = many_conts(alloc).ok()?;
    let cases = [
        Case {
            plan: &[],
            first: &many,
            second: ONE_OF_THEM,
            told: HAS_ROOM,
        },
        Case {
            plan: &[],
            first: &many,
            second: ONE_MORE,
            told: HAS_NONE,
        },
    ];
    Some(agreeing(rt, alloc, &cases))
}

#[test]
fn a_store_has_room_for_so_many_containers(rt: HostRuntime) {
    assert!(rt; counted(&rt, rt.alloc()) == Some(2));
}
