// The reads that an entity, or a slot, remembers.
ghost use Rattle.std.specs.Prelude.{◌≡◌, None, IfOk};
ghost use Rattle.std.specs.Option.{option_copied};
ghost use Rattle.vos_stamp.specs.Marks.{above, joined, later, no_marks, side};

use base_types::epoch::Epoch;
use base_types::items::Memory;
use base_types::shown::Shown;
use std::alloc::Global;
use std::marker::Model;
use std::sync::Arc;

/// A read that several marks share: a contract sees the read.
#[derive(Drop)]
pub(crate) struct Stamp {
    read: Arc<Shown>,
}

impl Model for Stamp {
    ghost use Rattle.base_types.specs.declared.shown.Shown.{Shown};

    ghost Value = { Shown };

    ghost view = { λ s. s.read.value };
}

impl Stamp {
    /// A stamp of a read.
    pub(crate) fn new(alloc: Global, read: Shown) -> Result<Stamp, Memory>
        ensures { IfOk result (λ stamp. stamp ≡ read) }
    {
        Ok(Stamp {
            read: Arc::new(alloc, read)?,
        })
    }

    /// The same stamp again.
    pub(crate) fn copy(&self) -> Result<Stamp, Memory>
        ensures { IfOk result (λ stamp. stamp ≡ self.now) }
    {
        Ok(Stamp {
            read: self.read.clone()?,
        })
    }

    /// The read.
    pub(crate) fn read(&self) -> &Shown
        ensures { result.now ≡ self.now }
    {
        &self.read
    }
}

/// The greatest reads at an entity: `low` of its whole subtree, `high` of some node of it.
#[derive(Drop)]
pub(crate) struct Marks {
    pub(crate) low: Option<Stamp>,
    pub(crate) high: Option<Stamp>,
}

/// Marks to be raised at an entity, which is known by a number of 64 bits.
#[derive(Drop)]
pub(crate) struct Raise {
    pub(crate) entity: u64,
    pub(crate) marks: Marks,
}

// The later one of two reads, if there are any; the first where they have one epoch.
fn later(one: Option<Stamp>, other: Option<Stamp>) -> Option<Stamp>
    ensures { result ≡ later one other }
{
    match (one, other) {
        (None, other) => other,
        (Some(one), None) => Some(one),
        (Some(one), Some(other)) => {
            if one.read().epoch.0 < other.read().epoch.0 {
                Some(other)
            } else {
                Some(one)
            }
        }
    }
}

// The read of a mark, where its epoch is above this one.
fn above(mark: &Option<Stamp>, epoch: Epoch) -> Option<&Shown>
    ensures { option_copied result ≡ above epoch.0 mark.now }
{
    match mark {
        Some(stamp) if epoch.0 < stamp.read().epoch.0 => Some(stamp.read()),
        _ => None,
    }
}

impl Marks {
    /// No read.
    pub(crate) fn none() -> Marks
        ensures { result ≡ no_marks }
    {
        Marks {
            low: None,
            high: None,
        }
    }

    /// Takes other marks in: the later read of each kind stays.
    pub(crate) fn join(&mut self, other: Marks)
        ensures { self.new ≡ joined self.old other }
    {
        let Marks { low, high } = other;
        self.low = later(self.low.take(), low);
        self.high = later(self.high.take(), high);
    }

    /// The read of the whole subtree, or that of some node of it, where its epoch is above this one.
    pub(crate) fn above(&self, low: bool, epoch: Epoch) -> Option<&Shown>
        ensures { option_copied result ≡ above epoch.0 (side low self.now) }
    {
        if low {
            above(&self.low, epoch)
        } else {
            above(&self.high, epoch)
        }
    }
}
