// Rows over stores, with what they show.
use crate::rows::{Seen, discard_over, prune_over, read_around};
use crate::steps::{CONT, attempt};
use base_types::answer::{Answer, Piece};
use base_types::id::{AttemptId, Class};
use base_types::shown::Shown;
use std::alloc::Global;
use vos_plain::store::PlainStore;
use vos_store::refusal::{DiscardNo, FetchNo};

// Whether a hole of one record, the two records, and a hole of one are read.
fn are_parts(parts: &Result<Answer, FetchNo>) -> bool {
    let Ok(Answer::Parts(parts)) = parts else {
        return false;
    };
    match parts.as_slice() {
        [Piece::Hole(before), Piece::Bytes(bytes), Piece::Hole(after)] => {
            *before == 1 && *after == 1 && bytes.as_slice() == b"abcdwxyz".as_slice()
        }
        _ => false,
    }
}

// Whether one object of one container is named.
fn are_named(seen: &Seen) -> bool {
    match (seen.objects.as_slice(), seen.conts.as_slice()) {
        ([obj], [cont]) => {
            let class = obj.class.number() == Class::S1.number();
            class && obj.number == 0 && obj.unit == 4 && cont.0 == CONT.0
        }
        _ => false,
    }
}

// Whether the records lie between holes, and whether their object is named.
fn shown(alloc: Global) -> Option<(bool, bool)> {
    let mut store = PlainStore::new(alloc, 2, &[]).ok()?;
    let seen = read_around(alloc, &mut store).ok()?;
    Some((are_parts(&seen.parts), are_named(&seen)))
}

#[test]
fn records_lie_between_holes(rt: HostRuntime) {
    assert!(rt; shown(rt.alloc()) == Some((true, true)));
}

// The attempt that a discard names.
fn named(alloc: Global) -> Option<AttemptId> {
    let mut store = PlainStore::new(alloc, 2, &[]).ok()?;
    match discard_over(alloc, &mut store).ok()? {
        Err(DiscardNo::Unsettled(by)) => Some(by),
        _ => None,
    }
}

#[test]
fn a_discard_names_the_unsettled_attempt(rt: HostRuntime) {
    assert!(rt; named(rt.alloc()) == Some(attempt(7)));
}

// Whether a value is answered.
fn is_value(answer: &Result<Answer, FetchNo>, wanted: &[u8]) -> bool {
    match answer {
        Ok(Answer::Bytes(bytes)) => bytes.as_slice() == wanted,
        _ => false,
    }
}

// Whether a read is refused below what was aggregated up to 600 by the line 0.
fn is_aggregated(answer: &Result<Answer, FetchNo>) -> bool {
    match answer {
        Err(FetchNo::Aggregated(epoch, number)) => epoch.0 == 600 && *number == 0,
        _ => false,
    }
}

// Whether the write of the second attempt at 512 is shown.
fn is_second(later: &Option<Shown>) -> bool {
    match later {
        Some(shown) => shown.by == attempt(1) && shown.epoch.0 == 512,
        None => false,
    }
}

// Whether the later write is shown, the read below is refused, and the one above answers the later value.
fn pruned(alloc: Global) -> Option<(bool, bool, bool)> {
    let mut store = PlainStore::new(alloc, 2, &[]).ok()?;
    let seen = prune_over(alloc, &mut store).ok()?;
    let shown = is_second(&seen.later);
    Some((
        shown,
        is_aggregated(&seen.below),
        is_value(&seen.above, b"two"),
    ))
}

#[test]
fn a_prune_leaves_what_is_read_above_it(rt: HostRuntime) {
    assert!(rt; pruned(rt.alloc()) == Some((true, true, true)));
}
