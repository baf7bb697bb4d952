// The marks of a level: of the entities used last each has its own, and all others share slots.
ghost use Rattle.std.specs.Prelude.{◌≡◌, ◌≤◌, ◌%◌, ℕ, nat_eq, [], ◌∷◌, ◌++◌, length, IfOk};
ghost use Rattle.std.specs.Option.{option_copied};
ghost use Rattle.std.specs.Map.{lookup};
ghost use Rattle.vos_stamp.specs.Entities.{listed};
ghost use Rattle.vos_stamp.specs.Marks.{above, no_marks};
ghost use Rattle.vos_stamp.specs.Raised.{AnswersAt, RaisesOwn, own_mark, slot_marks};

use crate::entity::SLOTS;
use crate::history::History;
use crate::marks::{Marks, Raise};
use base_types::epoch::Epoch;
use base_types::items::Memory;
use base_types::shown::Shown;
use lru::LruCache;
use std::alloc::Global;
use std::marker::Model;
use std::num::NonZeroUsize;

/// The most entities of a level that have marks of their own.
const OWN: usize = 1024;

/// The marks of a level. A contract sees all that was raised at it, also what the greater marks of a
/// slot have replaced, and how many entities have marks of their own.
#[derive(Drop)]
pub(crate) struct Table {
    own: LruCache<u64, Marks>,
    slots: Vec<Marks>,
    history: History,
}

impl Model for Table {
    ghost use Rattle.std.specs.Prelude.{◌≡◌, length};
    ghost use Rattle.vos_stamp.specs.Raised.{Marked};

    ghost Value = { Marked };

    ghost use Rattle.vos_stamp.specs.Raised.{StandsFor};

    ghost view = { λ t. record { raises = t.history.raises; held = length t.own.entries } };

    ghost invariant = { λ t. (t.own.cap ≡ 1024) × StandsFor t.own.entries t.slots.items t.history.raises };
}

// Raises marks at an entity among those that have their own. What comes back goes to a slot: the
// marks of the entity that made room, or these where there is no memory for them.
fn raise_own(own: &mut LruCache<u64, Marks>, entity: u64, marks: Marks) -> Option<(u64, Marks)>
    ensures raises { RaisesOwn own.old.entries own.old.cap entity marks own.new.entries result }
    ensures capacity { own.new.cap ≡ own.old.cap }
{
    if let Some(held) = own.get_mut(&entity) {
        held.join(marks);
        return None;
    }
    match own.push(entity, marks) {
        Ok(dropped) => dropped,
        Err(failed) => Some(failed.value),
    }
}

// The place of an entity's slot.
fn place(entity: u64) -> usize
    ensures { result ≡ entity % SLOTS }
{
    (entity % SLOTS) as usize
}

// The read of an entity's own marks, where its epoch is above this one.
fn own_above(own: &LruCache<u64, Marks>, low: bool, entity: u64, epoch: Epoch) -> Option<&Shown>
    ensures { option_copied result ≡ above epoch.0 (own_mark low (lookup (nat_eq entity) own.now.entries)) }
{
    match own.peek(&entity) {
        Some(marks) => marks.above(low, epoch),
        None => None,
    }
}

// Slots without any read.
fn empty_slots(alloc: Global) -> Result<Vec<Marks>, Memory>
    ensures sized { IfOk result (λ slots. length slots.items ≡ SLOTS) }
    ensures empty { IfOk result (λ slots. (i : ℕ) → slot_marks slots.items i ≡ no_marks) }
{
    let mut slots = Vec::with_capacity(alloc, SLOTS as usize)?;
    for _ in 0..SLOTS {
        slots.push(Marks::none())?;
    }
    Ok(slots)
}

impl Table {
    /// Nothing was raised.
    pub(crate) fn new(alloc: Global) -> Result<Table, Memory>
        ensures { IfOk result (λ table. table ≡ record { raises = []; held = 0 }) }
    {
        let Some(most) = NonZeroUsize::new(OWN) else {
            unreachable!()
        };
        Ok(Table {
            own: LruCache::new(alloc, most)?,
            slots: empty_slots(alloc)?,
            history: History::new(),
        })
    }

    /// Raises marks at an entity. It takes memory for an entity that has no marks yet, but where there
    /// is none its slot takes them.
    pub(crate) fn raise(&mut self, raise: Raise)
        ensures raises { self.new.raises ≡ self.old.raises ++ raise ∷ [] }
        ensures bounded { self.new.held ≤ OWN }
    {
        self.history = History::with(&self.history, &raise);
        let Raise { entity, marks } = raise;
        if let Some((dropped, marks)) = raise_own(&mut self.own, entity, marks) {
            let slot = &mut self.slots[place(dropped)];
            slot.join(marks);
        }
    }

    /// Raises marks at an entity, if there are any.
    pub(crate) fn raise_some(&mut self, raise: Option<Raise>)
        ensures raises { self.new.raises ≡ self.old.raises ++ listed raise }
        ensures bounded { self.old.held ≤ OWN → self.new.held ≤ OWN }
    {
        if let Some(raise) = raise {
            self.raise(raise);
        }
    }

    /// A read above an epoch that was raised at an entity, or at one that shares its slot: there is one
    /// wherever one was raised at the entity. It looks at the entity and at its slot.
    pub(crate) fn raised_above(&self, low: bool, entity: u64, epoch: Epoch) -> Option<&Shown>
        ensures { AnswersAt self.now.raises low entity epoch.0 (option_copied result) }
    {
        match own_above(&self.own, low, entity, epoch) {
            Some(read) => Some(read),
            None => self.slots[place(entity)].above(low, epoch),
        }
    }

    /// How many entities have marks of their own: at most 1,024.
    pub(crate) fn held(&self) -> u32
        ensures exact { result ≡ self.now.held }
        ensures bounded { result ≤ OWN }
    {
        self.own.len() as u32
    }
}
