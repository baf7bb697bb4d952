// Containers that come: a place for each that isn't there.
ghost use Rattle.std.specs.Prelude.{◌≡◌, ◌≤◌, ◌<◌, ℕ, false, IfErr, IfOk, OnOk, length};
ghost use Rattle.daos_model.specs.Changes.{enlisted, with_cont, with_conts};
ghost use Rattle.daos_model.specs.Durables.{cont_key, new_row};
ghost use Rattle.daos_model.specs.Ordered.{in_order};
ghost use Rattle.vos_places.specs.Codec.{IsContUnder};
ghost use Rattle.vos_places.specs.Tables.{those};
ghost use Rattle.vos_store.specs.Answers.{IsManyShown, enlists};
ghost use Rattle.vos_store.specs.Refusals.{enlist_open, enlist_stop, says};
ghost use Rattle.vos_tables.specs.Changes.{AllFit, all_changed};
ghost use Rattle.vos_tables.specs.Kept.{Makes, OfKept, answer_of};
ghost use Rattle.vos_tables.specs.Seats.{AreSeated};

use crate::change::Change;
use crate::seats::{cont_at, free_cont};
use crate::table::Tables;
use base_types::epoch::Epoch;
use base_types::id::ContId;
use base_types::items::Memory;
use base_types::outcome::FloorWhy;
use daos_model::durable::ContRow;
use std::alloc::Global;
use vos_places::laws::tables_stay_apart;
use vos_store::refusal::EnlistNo;

// Places of containers with those that come, and the changes that give them their places. Those for
// which there is no place stand behind the places.
#[derive(Drop)]
struct Seating {
    seats: Vec<Option<ContRow>>,
    changes: Vec<Change>,
}

// A container that is new.
pub(crate) fn new_row(cont: ContId) -> ContRow
    ensures row { result ≡ new_row cont }
    ensures fits { (covered : ℕ) → IsContUnder covered result }
{
    ContRow {
        cont,
        floor: Epoch(0),
        why: FloorWhy::Opening,
        aggregated: Epoch(0),
        number: 0,
    }
}

// The same places again.
fn copied(alloc: Global, places: &[Option<ContRow>]) -> Result<Vec<Option<ContRow>>, Memory>
    ensures { IfOk result (λ again. again.items ≡ places.now) }
{
    let mut again = Vec::with_capacity(alloc, places.len())?;
    for place in places {
        again.push(*place)?;
    }
    Ok(again)
}

impl Tables {
    // No container has come yet.
    fn unseated(&self, alloc: Global) -> Result<Seating, Memory>
        ensures seated { IfOk result (λ s. AreSeated self.now s.seats.items s.changes.items) }
        ensures same { IfOk result (λ s. s.seats.items ≡ self.now.conts) }
    {
        Ok(Seating {
            seats: copied(alloc, &self.conts)?,
            changes: Vec::new(alloc),
        })
    }

    // Gives a container a place, unless it has one.
    fn seat(&self, seating: &mut Seating, cont: ContId) -> Result<(), Memory>
        requires { AreSeated self.now seating.old.seats.items seating.old.changes.items }
        ensures seated { OnOk result
            (AreSeated self.now seating.new.seats.items seating.new.changes.items) }
        ensures one { OnOk result (in_order cont_key (those seating.new.seats.items)
            ≡ with_cont cont (in_order cont_key (those seating.old.seats.items))) }
    {
        tables_stay_apart();
        if cont_at(&seating.seats, cont).is_some() {
            return Ok(());
        }
        let row = new_row(cont);
        match free_cont(&seating.seats) {
            Some(at) => {
                seating.changes.push(Change::Cont(at as u8, row))?;
                seating.seats[at] = Some(row);
            }
            None => seating.seats.push(Some(row))?,
        }
        Ok(())
    }

    // Gives each of several containers a place.
    fn seat_all(&self, alloc: Global, conts: &[ContId]) -> Result<Seating, Memory>
        ensures seated { IfOk result (λ s. AreSeated self.now s.seats.items s.changes.items) }
        ensures rows { IfOk result (λ s. in_order cont_key (those s.seats.items)
            ≡ with_conts conts.now (in_order cont_key (those self.now.conts))) }
    {
        let mut seating = self.unseated(alloc)?;
        for cont in conts {
            self.seat(&mut seating, *cont)?;
        }
        Ok(seating)
    }

    /// What adds the containers that aren't there, by at most 256 changes.
    ///
    /// # Errors
    ///
    /// `TooMany` exactly where the containers together are more than 256, with their number.
    pub fn plan_enlist(&self, alloc: Global, conts: &[ContId]) -> Result<Vec<Change>, EnlistNo>
        ensures fits { IfOk result (λ changes. AllFit self.now changes.items) }
        ensures few { IfOk result (λ changes. length changes.items ≤ 256) }
        ensures answer { OfKept self.now (λ d.
            says enlist_open result ≡ false → answer_of result ≡ enlists conts.now d) }
        ensures many { IfErr result IsManyShown }
        ensures running { says enlist_stop result ≡ false }
        ensures enlisted { IfOk result (λ changes.
            Makes (enlisted conts.now) self.now (all_changed changes.items self.now)) }
    {
        let Ok(Seating { seats, changes }) = self.seat_all(alloc, conts) else {
            return Err(EnlistNo::Memory);
        };
        if seats.len() <= 256 {
            return Ok(changes);
        }
        match u32::try_from(seats.len()) {
            Ok(together) => Err(EnlistNo::TooMany { together }),
            Err(_) => Err(EnlistNo::Memory),
        }
    }
}
