// Keys and names: 1 to 64 letters, digits, dots, underscores and dashes.
ghost use Rattle.std.specs.Prelude.{◌≡◌, ◌<◌, length, IfOk, IfSome, IfNone, IsOkUnless, Err};
ghost use Rattle.std.specs.Cmp.Lexicographic.{pointwise};
ghost use Rattle.base_types.specs.Keys.{first_bad_byte, is_key_byte, key_fault, same_key};
ghost use Rattle.base_types.specs.declared.key.KeyNo.TheVariants.{Memory as NoMemory};

use crate::items::{Memory, TryCopy, Vec8, bytes_of};
use std::alloc::{AllocError, Global};
use std::marker::Model;
use thiserror::Error;

/// The most bytes that a key has.
pub const KEY_MAX: usize = 64;

/// Why bytes are no key: there are none, there are more than 64, or the first bad one stands at
/// the place given, counted from 0.
#[derive(Clone, Copy, Debug, Error)]
pub enum KeyNo {
    #[error("empty")]
    Empty,
    #[error("too long")]
    TooLong,
    #[error("bad byte at {0}")]
    BadByte(u8),
    #[error("out of memory")]
    Memory,
}

impl From<AllocError> for KeyNo {
    ghost from_gives = { λ _ e. e ≡ NoMemory };

    fn from(_error: AllocError) -> KeyNo {
        KeyNo::Memory
    }
}

/// Whether a byte may stand in a key: a letter, a digit, `.`, `_` or `-`.
pub fn is_key_byte(byte: u8) -> bool
    ensures { result ≡ is_key_byte byte }
{
    matches!(byte, b'a'..=b'z' | b'A'..=b'Z' | b'0'..=b'9' | b'.' | b'_' | b'-')
}

// The place of the first byte that may not stand in a key.
fn first_bad_byte(bytes: &[u8]) -> Option<usize>
    ensures first { result ≡ first_bad_byte bytes.now }
    ensures within { IfSome result (λ place. place < length bytes.now) }
{
    bytes.iter().position(|byte| !is_key_byte(*byte))
}

/// A dkey, an akey, or a name in a script: 1 to 64 letters, digits, `.`, `_` or `-`.
#[derive(Drop)]
pub struct Key {
    bytes: Vec8,
}

impl Model for Key {
    ghost use Rattle.std.specs.Prelude.{List, ℕ};
    ghost use Rattle.base_types.specs.Keys.{IsKey};

    ghost Value = { List ℕ };

    ghost view = { λ a. a.bytes };

    ghost invariant = { λ a. IsKey a.bytes };
}

impl Key {
    /// The key of these bytes, or the first of these faults: none at all, more than 64, a bad byte.
    pub fn new(alloc: Global, bytes: &[u8]) -> Result<Key, KeyNo>
        ensures refused { IfSome (key_fault bytes.now) (λ fault. result ≡ Err fault) }
        ensures made { IfNone (key_fault bytes.now) (IsOkUnless result KeyNo.Memory) }
        ensures bytes { IfOk result (λ key. key ≡ bytes.now) }
    {
        if bytes.is_empty() {
            return Err(KeyNo::Empty);
        }
        if bytes.len() > KEY_MAX {
            return Err(KeyNo::TooLong);
        }
        if let Some(place) = first_bad_byte(bytes) {
            return Err(KeyNo::BadByte(place as u8));
        }
        Ok(Key {
            bytes: bytes_of(alloc, bytes)?,
        })
    }

    /// The bytes of the key.
    pub fn bytes(&self) -> &[u8]
        ensures { result.now ≡ self.now }
    {
        self.bytes.as_slice()
    }

    /// The same key again.
    pub fn copy(&self) -> Result<Key, Memory>
        ensures { IfOk result (λ key. key ≡ self.now) }
    {
        Ok(Key {
            bytes: self.bytes.copy()?,
        })
    }

    /// Whether two keys have the same bytes.
    pub fn same(&self, other: &Key) -> bool
        ensures { result ≡ same_key self.now other.now }
    {
        self.bytes() == other.bytes()
    }
}

impl TryCopy for Key {
    fn copy(&self) -> Result<Key, Memory> {
        Key::copy(self)
    }
}
