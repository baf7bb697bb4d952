// Limits of numbers in words, and of leases.
use base_text::number::number_in;
use daos_hlc::clock::LAST_TICKS;
use daos_hlc::lease::lease_for;

const WORDS: [(&[u8], Option<u64>); 10] = [
    (b"0", Some(0)),
    (b"7", Some(7)),
    (b"65535", Some(65_535)),
    (b"18446744073709551615", Some(u64::MAX)),
    (b"18446744073709551616", None),
    (b"", None),
    (b"00", None),
    (b"07", None),
    (b"+7", None),
    (b"7a", None),
];

const LEASES: [(u64, Option<u64>); 5] = [
    (1, Some(65_536)),
    (65_536, Some(65_536)),
    (65_537, Some(131_072)),
    (LAST_TICKS, Some(LAST_TICKS)),
    (LAST_TICKS + 1, None),
];

// The first word that is read otherwise, or none.
fn wrong_word() -> Option<&'static [u8]> {
    for (word, number) in WORDS {
        if number_in(0, u64::MAX, word) != number {
            return Some(word);
        }
    }
    None
}

// The first ticks that have another lease, or 0.
fn wrong_lease() -> u64 {
    for (ticks, lease) in LEASES {
        if lease_for(ticks) != lease {
            return ticks;
        }
    }
    0
}

#[test]
fn numbers_and_leases_have_limits(rt: HostRuntime) {
    assert!(rt; wrong_word().is_none());
    assert!(rt; number_in(1, 64, b"64") == Some(64));
    assert!(rt; number_in(1, 64, b"65").is_none());
    assert!(rt; wrong_lease() == 0);
}
