// Calls that numbers draw.
use crate::lines::Line;
use crate::place::{Place, akey, place_of};
use base_random::draw::drawn;
use base_types::epoch::Epoch;
use base_types::id::AttemptId;
use std::alloc::Global;
use vos_settle::task::WriteKind;
use vos_values::keys::Moment;

/// One past the last epoch of all.
pub(crate) const LAST: u64 = 18;

/// A call: a write, or the settling or pruning of what a number draws.
#[derive(Clone, Copy)]
pub(crate) enum Call {
    Write(Line),
    Settle(AttemptId, bool, u64),
    Prune(Place, u64),
}

/// One of two attempts.
pub(crate) fn attempt(number: u64) -> AttemptId {
    AttemptId {
        client: 1,
        command: 2,
        attempt: (number % 2) as u8,
    }
}

/// Some moments that a number draws, three of four, or all where there is none.
pub(crate) fn moments(alloc: Global, number: Option<u64>) -> Option<Vec<Moment>> {
    let mut moments = Vec::new(alloc);
    for place in 0..2 * LAST {
        let is_drawn = match number {
            Some(number) => drawn(number.wrapping_add(place)) >> 33 & 3 > 0,
            None => true,
        };
        if is_drawn {
            moments
                .push(Moment {
                    epoch: Epoch(place / 2),
                    minor: (place % 2) as u8,
                })
                .ok()?;
        }
    }
    Some(moments)
}

/// The write of a number: four of them have an epoch together, of two objects and two numbers. Of eight, one is a
/// punch, four are single values, and three are extents.
pub(crate) fn line_of(bits: u64, number: u64) -> Line {
    let (object, of_object) = ((number % 2) as u8, (bits % 4) as u8);
    let akey_number = 4 * object + of_object;
    let byte = (number % 200) as u8 + 1;
    let (place, kind, byte) = match bits / 4 % 8 {
        0 => (
            place_of(akey_number, (bits / 32 % 3) as u8 + 1),
            WriteKind::Punch,
            0,
        ),
        1..=4 => (akey(akey_number), WriteKind::Single, byte),
        _ => (
            akey(akey_number),
            WriteKind::Extent((bits / 32 % 4) as u32),
            byte,
        ),
    };
    Line {
        place,
        kind,
        at: Moment {
            epoch: Epoch(number / 4 + 1),
            minor: (number / 2 % 2) as u8,
        },
        by: attempt(bits / 128),
        byte,
        done: false,
    }
}

/// The call that a number draws, after so many writes: of eight, five are writes, and two settle.
pub(crate) fn call_of(number: u64, writes: u64) -> Call {
    let bits = number >> 33;
    match bits % 8 {
        0 => Call::Prune(
            place_of((bits / 8 % 8) as u8, (bits / 64 % 4) as u8),
            number,
        ),
        1 | 2 => Call::Settle(attempt(bits / 8), bits / 16 % 4 > 0, number),
        _ => Call::Write(line_of(bits / 8, writes)),
    }
}
