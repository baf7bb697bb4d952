// What names containers, objects and attempts.
ghost use Rattle.std.specs.Prelude.{◌≡◌};
ghost use Rattle.base_types.specs.Paths.{class_number, same_object};

use crate::items::{Memory, TryCopy};

/// A container, by its UUID as a number.
#[derive(Clone, Copy, Debug)]
pub struct ContId(pub u128);

/// An attempt to run a command. Clients, a client's commands and a command's attempts are each
/// numbered from 0.
#[derive(Clone, Copy, Debug, PartialEq, Eq)]
pub struct AttemptId {
    pub client: u16,
    pub command: u32,
    pub attempt: u8,
}

impl TryCopy for AttemptId {
    fn copy(&self) -> Result<AttemptId, Memory> {
        Ok(*self)
    }
}

impl TryCopy for (AttemptId, bool) {
    fn copy(&self) -> Result<(AttemptId, bool), Memory> {
        Ok(*self)
    }
}

/// How an object is spread over targets: S classes keep one replica in 1, 2, 4 or all groups; RP
/// classes keep 2 or 3 replicas in one or all groups.
#[derive(Clone, Copy)]
pub enum Class {
    S1,
    S2,
    S4,
    SX,
    RP2G1,
    RP2GX,
    RP3G1,
    RP3GX,
}

impl Class {
    /// The number that stands for the class, from 1 to 8.
    pub fn number(self) -> u8
        ensures { result ≡ class_number self }
    {
        match self {
            Class::S1 => 1,
            Class::S2 => 2,
            Class::S4 => 3,
            Class::SX => 4,
            Class::RP2G1 => 5,
            Class::RP2GX => 6,
            Class::RP3G1 => 7,
            Class::RP3GX => 8,
        }
    }
}

/// An object of a container: its class, its number, and its record size in bytes, 1 to 64: each
/// array of the object has records of that size, and offsets, lengths and holes count them.
#[derive(Clone, Copy)]
pub struct ObjId {
    pub class: Class,
    pub number: u64,
    pub unit: u8,
}

impl ObjId {
    /// Whether two objects of one container are the same.
    pub fn same(self, other: ObjId) -> bool
        ensures { result ≡ same_object self other }
    {
        self.class.number() == other.class.number()
            && self.number == other.number
            && self.unit == other.unit
    }
}
