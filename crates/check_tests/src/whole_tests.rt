// What is found of images.
use crate::image::{Seen, blank, fresh, look, put};
use std::alloc::Global;

// What is found of a fresh image with bytes written over it.
fn with(alloc: Global, pieces: &[(u64, &[u8])]) -> Seen {
    match fresh(alloc) {
        Some(region) => {
            let mut region = region;
            for (at, bytes) in pieces {
                put(&mut region, *at, bytes);
            }
            look(alloc, region)
        }
        None => Seen::Nothing,
    }
}

// A prepared entry of attempt 1.2.3 at epoch 300 in block 1264, its root, the lease 2, and four taken blocks.
const LEASE: (u64, &[u8]) = (39, &[2]);

const ROOT: (u64, &[u8]) = (46, &[4, 240]);

const FOUR: (u64, &[u8]) = (307358, &[15]);

const NODE: (u64, &[u8]) = (323584, &[7, 1, 0, 7]);

const KEY: (u64, &[u8]) = (323596, &[0, 1, 0, 0, 0, 2, 3]);

const VALUE: (u64, &[u8]) = (
    323660,
    &[
        1, 1, 0, 0, 0, 0, 0, 0, 0, 6, 0, 0, 0, 0, 0, 0, 0, 0, 0, 0, 0, 0, 0, 0, 1, 44,
    ],
);

// Its list begins in block 1265, and has one number.
const CHAIN: (u64, &[u8]) = (323688, &[4, 241]);

const LIST: (u64, &[u8]) = (323840, &[8]);

const NUMBER: (u64, &[u8]) = (323850, &[4, 243]);

// An object of class 1 in block 1266, whose log has one node in block 1267: a creation of the attempt at epoch 300.
const OBJECTS: (u64, &[u8]) = (42, &[4, 242]);

const OBJECT: (u64, &[u8]) = (324096, &[1, 1, 0, 25]);

const CLASS: (u64, &[u8]) = (324124, &[1]);

const LOG: (u64, &[u8]) = (324174, &[4, 243]);

const CREATION: (u64, &[u8]) = (324352, &[4, 1, 0, 9]);

const MOMENT: (u64, &[u8]) = (324370, &[1, 44]);

const MARK: (u64, &[u8]) = (324428, &[1, 1, 0, 1, 0, 0, 0, 2, 3]);

#[test]
fn zeros_are_blank(rt: HostRuntime) {
    let alloc = rt.alloc();
    match blank(alloc) {
        Some(region) => assert!(rt; look(alloc, region) == Seen::Blank),
        None => assert!(rt; false),
    }
}

#[test]
fn a_fresh_image_is_empty(rt: HostRuntime) {
    let alloc = rt.alloc();
    assert!(rt; with(alloc, &[]) == Seen::Entries(0, 0));
    assert!(rt; with(alloc, &[(7, &[50])]) == Seen::Foreign(7, 50));
    assert!(rt; with(alloc, &[(12, &[2])]) == Seen::Foreign(12, 2));
    assert!(rt; with(alloc, &[(36864, &[1, 2, 3])]) == Seen::Entries(0, 0));
}

#[test]
fn an_entry_without_a_list_is_found(rt: HostRuntime) {
    let alloc = rt.alloc();
    assert!(rt; with(alloc, &[LEASE, ROOT, FOUR, NODE, KEY, VALUE]) == Seen::Entries(1, 0));
    assert!(rt; with(alloc, &[ROOT, FOUR, NODE, KEY, VALUE]) == Seen::Foreign(323678, 0));
}

#[test]
fn a_list_names_nodes_of_its_attempt(rt: HostRuntime) {
    let alloc = rt.alloc();
    let entry = [LEASE, ROOT, FOUR, NODE, KEY, VALUE, CHAIN, LIST, NUMBER];
    assert!(rt; with(alloc, &entry) == Seen::Foreign(323848, 0));
    let all = [
        LEASE, ROOT, FOUR, NODE, KEY, VALUE, CHAIN, LIST, NUMBER, OBJECTS, OBJECT, CLASS, LOG,
        CREATION, MOMENT, MARK,
    ];
    assert!(rt; with(alloc, &all) == Seen::Entries(1, 1));
}

#[test]
fn a_number_is_listed_once(rt: HostRuntime) {
    let alloc = rt.alloc();
    let twice = [
        LEASE,
        ROOT,
        FOUR,
        NODE,
        KEY,
        VALUE,
        CHAIN,
        LIST,
        (323850, &[4, 243, 0, 0, 4, 243]),
        OBJECTS,
        OBJECT,
        CLASS,
        LOG,
        CREATION,
        MOMENT,
        MARK,
    ];
    assert!(rt; with(alloc, &twice) == Seen::Foreign(323852, 0));
}

#[test]
fn a_log_that_is_not_well_formed_is_refused(rt: HostRuntime) {
    let alloc = rt.alloc();
    let open = (32768, [1].as_slice());
    assert!(rt; with(alloc, &[open]) == Seen::Entries(0, 0));
    assert!(rt; with(alloc, &[open, (36866, &[4, 1])]) == Seen::Foreign(36864, 0));
    assert!(rt; with(alloc, &[open, (36871, &[1])]) == Seen::Foreign(36868, 0));
    assert!(rt;
        with(
            alloc,
            &[
                open,
                (36867, &[1]),
                (36871, &[9]),
                (36872, &[255, 0, 0, 0, 0, 0, 0, 1])
            ]
        ) == Seen::Foreign(36872, 255)
    );
    assert!(rt;
        with(alloc, &[open, (36867, &[1]), (36871, &[9]), (36879, &[2])]) == Seen::Foreign(36876, 0)
    );
    assert!(rt; with(alloc, &[open, (36871, &[1]), (1, &[9])]) == Seen::Foreign(1, 9));
}
