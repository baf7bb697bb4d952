// Snapshots that a run makes are there in the next one, until a script drops them.
use crate::two_runs::{Case, agreeing};
use std::alloc::Global;
use std::sync::Wait;
use std::thread::Threads;

const MAKES_ONE: &[u8] = b"cont c 00000000-0000-0000-0000-000000000001\n\
    obj o c S1 0\n\
    obj q c S1 1\n\
    client\n\
    put o d a =one\n\
    snap s c\n\
    put o d a =two\n\
    punch o d a\n\
    aggregate c\n\
    at s get o d a\n\
    get o d a\n";

const READS_IT: &[u8] = b"cont c 00000000-0000-0000-0000-000000000001\n\
    obj o c S1 0\n\
    obj q c S1 1\n\
    old s c 512\n\
    client\n\
    at s get o d a\n\
    get o d a\n\
    aggregate c\n\
    at s get o d a\n";

const IS_READ: &[u8] = b"daos 1 targets 1\n\
    try 0 0 0 256 committed\n\
    freeze 0 c 512\n\
    snapshot s c 512\n\
    try 0 1 0 512 committed\n\
    try 0 2 0 768 committed\n\
    try 0 3 0 1024 committed\n\
    aggregate 0 0 c 1280\n\
    try 0 4 0 1280 committed\n\
    try 0 5 0 512 committed\n\
    got 0 value =one\n\
    try 0 6 0 1536 committed\n\
    got 0 absent\n\
    end 0\n\
    lease 65536\n\
    daos 1 targets 1\n\
    try 0 0 0 512 committed\n\
    got 0 value =one\n\
    try 0 1 0 16777472 committed\n\
    got 0 absent\n\
    aggregate 0 0 c 16777728\n\
    try 0 2 0 16777728 committed\n\
    try 0 3 0 512 committed\n\
    got 0 value =one\n\
    end 0\n\
    lease 131072\n";

const DROPS_IT: &[u8] = b"cont c 00000000-0000-0000-0000-000000000001\n\
    obj o c S1 0\n\
    obj q c S1 1\n\
    old s c 512\n\
    drop s\n\
    client\n\
    aggregate c\n\
    at s get o d a\n";

const IS_GONE: &[u8] = b"daos 1 targets 1\n\
    try 0 0 0 256 committed\n\
    freeze 0 c 512\n\
    snapshot s c 512\n\
    try 0 1 0 512 committed\n\
    try 0 2 0 768 committed\n\
    try 0 3 0 1024 committed\n\
    aggregate 0 0 c 1280\n\
    try 0 4 0 1280 committed\n\
    try 0 5 0 512 committed\n\
    got 0 value =one\n\
    try 0 6 0 1536 committed\n\
    got 0 absent\n\
    end 0\n\
    lease 65536\n\
    daos 1 targets 1\n\
    aggregate 0 0 c 16777472\n\
    try 0 0 0 16777472 committed\n\
    try 0 1 0 - nosnap\n\
    end 0\n\
    lease 131072\n";

// How many of the two runs over it come out so.
fn agreed<R: Threads + Wait + Sync>(rt: &R, alloc: Global) -> usize {
    let cases = [
        Case {
            plan: &[],
            first: MAKES_ONE,
            second: READS_IT,
            told: IS_READ,
        },
        Case {
            plan: &[],
            first: MAKES_ONE,
            second: DROPS_IT,
            told: IS_GONE,
        },
    ];
    agreeing(rt, alloc, &cases)
}

#[test]
fn a_snapshot_stays_until_it_is_dropped(rt: HostRuntime) {
    assert!(rt; agreed(&rt, rt.alloc()) == 2);
}
