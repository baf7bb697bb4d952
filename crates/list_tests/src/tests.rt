// A run that is told truly is accepted; where one thing is changed, it is refused at the first event that tells it.
use crate::own_attempt;
use crate::tables::{TURNS, Told};
use crate::worlds::{begin, go_on, no_events};
use std::alloc::Global;
use std::test::Fail;
use world_check::check::check_list;
use world_list::events::Events;

// The first turn at which the list so far is no run, or 0.
fn refused_in(alloc: Global, told: &Told, events: &mut Events) -> Option<usize> {
    begin(alloc, told, events)?;
    for turn in 1..=TURNS {
        go_on(alloc, told, events, turn)?;
        if !check_list(alloc, events).ok()? {
            return Some(turn);
        }
    }
    Some(0)
}

// The first turn at which a run is refused that is told so, or 0.
fn refused_at(alloc: Global, told: &Told) -> Option<usize> {
    let mut events = no_events(alloc, 1);
    refused_in(alloc, told, &mut events)
}

#[test]
fn a_write_below_a_later_read(rt: HostRuntime) -> Result<(), Fail> {
    let alloc = rt.alloc();
    // What is told, and the turn at which it is refused, or 0.
    let rows = [
        (512, false, 512, 15_109, 0, "as it was"),
        (
            1_280,
            false,
            1_280,
            15_109,
            0,
            "a later reading of the clock",
        ),
        (512, false, 512, 15_115, 0, "fewer blocks taken"),
        (513, false, 513, 15_109, 5, "an epoch of another target"),
        (
            256,
            false,
            256,
            15_109,
            5,
            "an epoch that was issued before",
        ),
        (512, true, 512, 15_109, 5, "another answer"),
        (512, false, 256, 15_109, 7, "another cause"),
        (512, false, 512, 15_108, 11, "more blocks taken"),
    ];
    for (read, yes, cause, free, turn, what) in rows {
        let told = Told {
            read,
            yes,
            cause,
            free,
            without: 0,
        };
        assert_eq!(rt; refused_at(alloc, &told), Some(turn), "{what}");
    }
    Ok(())
}

// The first turn that may be left out, or 0: where one is, the one after it is refused.
fn left_out(alloc: Global) -> Option<usize> {
    for without in 1..TURNS {
        let told = Told {
            read: 512,
            yes: false,
            cause: 512,
            free: 15_109,
            without,
        };
        if refused_at(alloc, &told)? != without + 1 {
            return Some(without);
        }
    }
    Some(0)
}

#[test]
fn no_turn_is_left_out(rt: HostRuntime) -> Result<(), Fail> {
    assert_eq!(rt; left_out(rt.alloc()), Some(0));
    Ok(())
}

#[test]
fn a_leader_settles_what_it_is_told_of_its_own_attempt(rt: HostRuntime) -> Result<(), Fail> {
    let alloc = rt.alloc();
    // Whether a Mark is heard or else a Verdict, whether it tells of a commit or else of an abort, whether the
    // attempt is then settled, whether the leader then waits for it no more; and whether that is a turn.
    let rows = [
        (true, true, true, true, true),
        (true, false, true, true, true),
        (false, true, true, true, true),
        (false, false, true, true, true),
        (true, true, false, true, false),
        (false, false, false, true, false),
        (true, true, true, false, false),
        (false, false, false, false, false),
    ];
    for (marks, commits, settles, forgets, accepted) in rows {
        let told = own_attempt::Told {
            marks,
            commits,
            settles,
            forgets,
        };
        assert_eq!(rt;
            own_attempt::is_turn(alloc, &told),
            Some(accepted),
            "{marks} {commits}"
        );
    }
    Ok(())
}
