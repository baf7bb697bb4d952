// What a class says: its word, its replicas, its groups.
ghost use Rattle.std.specs.Prelude.{ℕ, List, ◌≡◌, ◌≢◌, ◌<◌, IfOk, OnErr, OnOk, IfErr};
ghost use Rattle.base_types.specs.declared.id.Class.{Class};
ghost use Rattle.base_types.specs.Placement.{ClassFits, group_of, groups, replicas, targets_needed};
ghost use Rattle.daos_class.specs.Words.{class_word};

use base_types::hash::fnv1a;
use base_types::id::Class;
use base_types::key::Key;
use thiserror::Error;

/// The bytes are no class word.
#[derive(Clone, Copy, Debug, Error)]
#[error("unknown class")]
pub struct UnknownClass;

/// There are fewer targets than the class needs.
#[derive(Clone, Copy, Debug, Error)]
#[error("{have} targets, and the class needs {need}")]
pub struct TooFewTargets {
    pub need: u8,
    pub have: u8,
}

/// A class that places objects on targets, of which there are 1 to 64.
pub trait Placed: Sized {
    ghost class: { Self → Class };

    /// The class of a word: S1, S2, S4, SX, RP_2G1, RP_2GX, RP_3G1 or RP_3GX.
    fn read(word: &[u8]) -> Result<Self, UnknownClass>
        ensures word { IfOk result (λ c. class_word (class c) ≡ word.now) }
        ensures unknown { OnErr result ((c : Class) → class_word c ≢ word.now) };

    /// How many replicas a group has, 1 to 3.
    fn replicas(self) -> u8
        ensures { result ≡ replicas (class self) };

    /// Whether there are targets enough. It is refused exactly where there are fewer than the
    /// class needs: replicas times groups, and for X the replicas.
    fn fits(self, n: u8) -> Result<(), TooFewTargets>
        ensures fits { OnOk result (ClassFits (class self) n) }
        ensures need { IfErr result (λ no. no.need ≡ targets_needed (class self)) }
        ensures have { IfErr result (λ no. no.have ≡ n) }
        ensures few { IfErr result (λ no. no.have < no.need) };

    /// How many groups an object has.
    fn groups(self, n: u8) -> u8
        requires { ClassFits (class self) n }
        ensures exact { result ≡ groups (class self) n }
        ensures some { 0 < result };

    /// The group of a dkey.
    fn group_of(self, dkey: &Key, n: u8) -> u8
        requires { ClassFits (class self) n }
        ensures exact { result ≡ group_of (class self) dkey.now n }
        ensures within { result < groups (class self) n };
}

// How many targets a class needs.
fn targets_needed(class: Class) -> u8
    ensures { result ≡ targets_needed class }
{
    match class {
        Class::S1 | Class::SX => 1,
        Class::S2 | Class::RP2G1 | Class::RP2GX => 2,
        Class::RP3G1 | Class::RP3GX => 3,
        Class::S4 => 4,
    }
}

impl Placed for Class {
    ghost class = { λ c. c };

    fn read(word: &[u8]) -> Result<Class, UnknownClass> {
        match word {
            b"S1" => Ok(Class::S1),
            b"S2" => Ok(Class::S2),
            b"S4" => Ok(Class::S4),
            b"SX" => Ok(Class::SX),
            b"RP_2G1" => Ok(Class::RP2G1),
            b"RP_2GX" => Ok(Class::RP2GX),
            b"RP_3G1" => Ok(Class::RP3G1),
            b"RP_3GX" => Ok(Class::RP3GX),
            _ => Err(UnknownClass),
        }
    }

    fn replicas(self) -> u8 {
        match self {
            Class::S1 | Class::S2 | Class::S4 | Class::SX => 1,
            Class::RP2G1 | Class::RP2GX => 2,
            Class::RP3G1 | Class::RP3GX => 3,
        }
    }

    fn fits(self, n: u8) -> Result<(), TooFewTargets> {
        let need = targets_needed(self);
        if n < need {
            return Err(TooFewTargets { need, have: n });
        }
        Ok(())
    }

    fn groups(self, n: u8) -> u8 {
        match self {
            Class::S1 | Class::RP2G1 | Class::RP3G1 => 1,
            Class::S2 => 2,
            Class::S4 => 4,
            Class::SX => n,
            Class::RP2GX => n / 2,
            Class::RP3GX => n / 3,
        }
    }

    #[tactic(auto, unfolding(base_types::specs::Placement::group_of))]
    fn group_of(self, dkey: &Key, n: u8) -> u8 {
        let groups = self.groups(n);
        (fnv1a(dkey.bytes()) % u64::from(groups)) as u8
    }
}
