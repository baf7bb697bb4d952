// Entries of a table, settled.
use base_types::entry::{Entry, Settle};
use base_types::epoch::Epoch;
use base_types::id::AttemptId;
use dtx_table::table::Table;
use std::alloc::Global;

fn entry(command: u32) -> Entry {
    Entry {
        attempt: AttemptId {
            client: 0,
            command,
            attempt: 0,
        },
        epoch: Epoch(256),
        leader: 0,
        members: 5,
        confirmed: 0,
        committed: false,
    }
}

// The command of an entry, whether it is committed, and who confirmed that.
fn told(entry: &Entry) -> (u32, bool, u64) {
    (entry.attempt.command, entry.committed, entry.confirmed)
}

// Settles entries that are there.
fn settle(table: &mut Table) -> Option<()> {
    for command in [2, 0, 1] {
        table.add(entry(command)).ok()?;
    }
    table.settle(entry(1).attempt, Settle::Commit);
    table.settle(entry(1).attempt, Settle::Confirm(2));
    table.settle(entry(2).attempt, Settle::Abort);
    Some(())
}

// Whether entries are in order, and settled as they were told.
fn are_settled(alloc: Global) -> Option<bool> {
    let mut table = Table::new(alloc).ok()?;
    settle(&mut table)?;
    match table.entries() {
        [first, second] => Some(told(first) == (0, false, 0) && told(second) == (1, true, 4)),
        _ => None,
    }
}

#[test]
fn entries_are_settled(rt: HostRuntime) {
    assert!(rt; are_settled(rt.alloc()) == Some(true));
}
