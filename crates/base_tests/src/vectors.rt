// Hashes and draws, as they are published.
use base_random::draw::drawn;
use base_types::hash::fnv1a;

const HASHES: [(&[u8], u64); 3] = [
    (b"", 0xcbf2_9ce4_8422_2325),
    (b"a", 0xaf63_dc4c_8601_ec8c),
    (b"foobar", 0x8594_4171_f739_67e8),
];

// The first two are those of the published generator with these moves, from 1.
const DRAWS: [(u64, u64); 2] = [
    (1, 1_082_269_761),
    (1_082_269_761, 1_152_992_998_833_853_505),
];

// The first value that differs, or 0.
fn first_wrong() -> u64 {
    for (bytes, hash) in HASHES {
        if fnv1a(bytes) != hash {
            return hash;
        }
    }
    for (before, after) in DRAWS {
        if drawn(before) != after {
            return after;
        }
    }
    0
}

#[test]
fn hashes_and_draws_as_published(rt: HostRuntime) {
    let wrong = first_wrong();
    assert!(rt; wrong == 0, "{wrong}");
}
