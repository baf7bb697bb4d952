// Epochs issued and heard.
use base_types::epoch::Epoch;
use daos_hlc::clock::{Hlc, LAST_TICKS};

// Readings of the outside, what was heard of, and the epochs that the fourth target issues.
const ISSUED: [(u64, u64, u64); 4] = [
    (0, 0, 259),
    (10, 0, 2_563),
    (5, 10_240, 10_499),
    (1 << 60, 0, 9_223_372_036_854_775_811),
];

// The first epoch that is another, or 0.
fn wrong_epoch() -> u64 {
    let mut clock = Hlc::new(3, 0);
    for (reading, tracker, epoch) in ISSUED {
        match clock.issue(reading, Epoch(tracker)) {
            Ok(issued) if issued.0 == epoch => {}
            _ => return epoch,
        }
    }
    0
}

// Whether a clock that heard of the last epoch but one issues one more and is spent.
fn is_spent() -> bool {
    let mut clock = Hlc::new(0, 7);
    clock.hear(Epoch(u64::MAX - 256));
    let before = clock.ticks();
    let last = match clock.issue(0, Epoch(0)) {
        Ok(epoch) => epoch.0,
        Err(_) => 0,
    };
    before == LAST_TICKS - 1 && last == u64::MAX - 255 && clock.issue(0, Epoch(0)).is_err()
}

#[test]
fn epochs_are_issued_in_order_until_they_are_spent(rt: HostRuntime) {
    let wrong = wrong_epoch();
    assert!(rt; wrong == 0, "{wrong}");
    assert!(rt; is_spent());
}
