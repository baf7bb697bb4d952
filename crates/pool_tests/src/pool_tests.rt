// What opening regions in memory comes to.
use crate::pool::{Opening, begun_with, opened_with, with_container, zeros};
use base_types::id::ContId;

const CONT: ContId = ContId(7);

const OTHER: ContId = ContId(9);

#[test]
fn zeros_are_formatted(rt: HostRuntime) {
    let alloc = rt.alloc();
    let empty = Opening::Open {
        free: 6928,
        has: false,
    };
    assert!(rt; opened_with(alloc, zeros(alloc), 3, CONT) == empty);
}

#[test]
fn a_container_is_found_again(rt: HostRuntime) {
    let alloc = rt.alloc();
    let there = Opening::Open {
        free: 6928,
        has: true,
    };
    let absent = Opening::Open {
        free: 6928,
        has: false,
    };
    assert!(rt; opened_with(alloc, with_container(alloc, CONT), 3, CONT) == there);
    assert!(rt; opened_with(alloc, with_container(alloc, CONT), 3, OTHER) == absent);
}

#[test]
fn another_number_of_targets_is_told(rt: HostRuntime) {
    let alloc = rt.alloc();
    let told = Opening::Shape { found: 3, asked: 4 };
    assert!(rt; opened_with(alloc, with_container(alloc, CONT), 4, CONT) == told);
}

#[test]
fn a_foreign_first_byte_is_shown(rt: HostRuntime) {
    let alloc = rt.alloc();
    let shown = Opening::Foreign { at: 0, byte: 255 };
    assert!(rt; opened_with(alloc, begun_with(alloc, 255), 3, CONT) == shown);
}
