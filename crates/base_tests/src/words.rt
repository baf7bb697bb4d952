// Words of classes, what is no key, and how texts are cut.
use base_text::parts::Parts;
use base_types::id::Class;
use base_types::key::Key;
use daos_class::class::Placed;
use std::alloc::Global;

const CLASSES: [(&[u8], u8); 11] = [
    (b"S1", 1),
    (b"S2", 2),
    (b"S4", 3),
    (b"SX", 4),
    (b"RP_2G1", 5),
    (b"RP_2GX", 6),
    (b"RP_3G1", 7),
    (b"RP_3GX", 8),
    (b"S3", 0),
    (b"rp_3gx", 0),
    (b"", 0),
];

// The number of the class that a word names, or 0.
fn class_number(word: &[u8]) -> u8 {
    match Class::read(word) {
        Ok(class) => class.number(),
        Err(_) => 0,
    }
}

// The first word that names another class.
fn wrong_class() -> Option<&'static [u8]> {
    for (word, number) in CLASSES {
        if class_number(word) != number {
            return Some(word);
        }
    }
    None
}

// Why bytes are no key.
fn fault(alloc: Global, bytes: &[u8]) -> Option<String> {
    match Key::new(alloc, bytes) {
        Ok(_) => None,
        Err(found) => format!(in alloc; "{found}").ok(),
    }
}

// The faults of bytes that are no keys, as text.
fn faults(alloc: Global) -> Option<String> {
    let mut text = String::new(alloc);
    for bytes in [b"".as_slice(), &[b'k'; 65], b"a/b", b"day 1"] {
        text.push_str(&fault(alloc, bytes)?).ok()?;
        text.push_str("; ").ok()?;
    }
    Some(text)
}

// How many parts there are, and how many bytes in the last but one.
fn cut(parts: Parts<'_>) -> (u64, usize) {
    let mut parts = parts;
    let mut count = 0u64;
    let mut sizes = (0, 0);
    for _ in 0..100 {
        match parts.take_part() {
            Some(part) => {
                count = count.saturating_add(1);
                sizes = (sizes.1, part.len());
            }
            None => return (count, sizes.0),
        }
    }
    (count, sizes.0)
}

#[test]
fn classes_are_read(rt: HostRuntime) {
    assert!(rt; wrong_class().is_none());
}

#[test]
fn what_is_no_key_is_told(rt: HostRuntime) {
    let told = faults(rt.alloc());
    let wanted = "empty; too long; bad byte at 1; bad byte at 3; ";
    assert!(rt; told.is_some_and(|text| text.as_str() == wanted));
}

#[test]
fn texts_are_cut_at_spaces_and_line_ends(rt: HostRuntime) {
    assert!(rt; cut(Parts::new(b' ', b"put a  b ")) == (5, 1));
    assert!(rt; cut(Parts::ended(b'\n', b"client\n\nend")) == (3, 0));
    assert!(rt; cut(Parts::ended(b'\n', b"client\n\nend\n")) == (3, 0));
    assert!(rt; cut(Parts::ended(b'\n', b"")) == (0, 0));
    assert!(rt; cut(Parts::ended(b'\n', b"\n")) == (1, 0));
}
