// Places of containers: 256 of 64 bytes from 4096 on.
ghost use Rattle.std.specs.Prelude.{◌≡◌, ℕ, ◌+◌, ◌^◌, ◌<◌, ◌≤◌, ◌==◌, ◌||◌, not, nat_lt, true, length, List, [], ◌∷◌, IfOk, IfErr};
ghost use Rattle.std.specs.List.{list_any};
ghost use Rattle.base_outside.specs.Images.{Image};
ghost use Rattle.daos_model.specs.Durables.{is_row_of};
ghost use Rattle.vos_image.specs.Content.{Content};
ghost use Rattle.vos_image.specs.Places.{cont_in, floor_of, is_why, read_cont, why_of};
ghost use Rattle.vos_places.specs.Tables.{AreNewConts, HoldConts, HoldsCont, is_cont_at, those};
ghost use Rattle.vos_check_places.specs.Parts.{conts_reading};
ghost use Rattle.vos_check_places.specs.Shown.{AreContFields, IsShown, StopsAt};

use crate::fault::Fault;
use crate::fields::{eight_at, sixteen_at, zeros_at};
use crate::judge::{Rule, judge};
use base_types::epoch::Epoch;
use base_types::id::ContId;
use base_types::outcome::FloorWhy;
use daos_model::durable::ContRow;
use std::alloc::Global;

// Numbers of aggregations are below this.
const NUMBERS: u64 = 1 << 32;

// The fields of a place as they stand there: whether it is in use, the reason of the floor, the floor, the
// reason's epoch or number, the aggregated-to epoch and its number, and the uuid.
#[derive(Clone, Copy)]
struct ContFields {
    used: u8,
    why: u8,
    floor: u64,
    reason: u64,
    aggregated: u64,
    number: u64,
    uuid: u128,
}

fn fields_at(fixed: &[u8], p: usize) -> ContFields
    requires { p + 64 ≤ length fixed.now }
    ensures { (f : Image) → IsShown f fixed.now p (p + 64) → AreContFields f p result }
{
    ContFields {
        used: fixed[p],
        why: fixed[p + 1],
        floor: eight_at(fixed, p + 8),
        reason: eight_at(fixed, p + 16),
        aggregated: eight_at(fixed, p + 24),
        number: eight_at(fixed, p + 32),
        uuid: sixteen_at(fixed, p + 48),
    }
}

// Whether a byte names the reason of a floor.
fn is_why(why: u8) -> bool
    ensures { result ≡ is_why why }
{
    why == 0 || (why == 2 || why == 3)
}

// Whether the number of an aggregation is none that is too great.
fn is_reason(why: u8, reason: u64) -> bool
    ensures { result ≡ (not (why == 3) || nat_lt reason (2 ^ 32)) }
{
    why != 3 || reason < NUMBERS
}

// The reason of a floor.
fn why_of(why: u8, reason: u64) -> FloorWhy
    requires { (not (why == 3) || nat_lt reason (2 ^ 32)) ≡ true }
    ensures { result ≡ why_of why reason }
{
    match why {
        2 => FloorWhy::Snapshot(Epoch(reason)),
        3 => FloorWhy::Aggregate(reason as u32),
        _ => FloorWhy::Opening,
    }
}

// The floor, where there is a reason for it.
fn floor_of(why: u8, floor: u64) -> u64
    ensures { result ≡ floor_of why floor }
{
    if why == 0 { 0 } else { floor }
}

// What fields say of a container.
fn row_of(fields: ContFields) -> ContRow
    requires reason { (not (fields.why == 3) || nat_lt fields.reason (2 ^ 32)) ≡ true }
    requires number { fields.number < 2 ^ 32 }
    ensures row { (f : Image) (p : ℕ) → AreContFields f p fields → result ≡ cont_in f p }
    ensures uuid { result.cont ≡ record { 0 = fields.uuid } }
{
    ContRow {
        cont: ContId(fields.uuid),
        floor: Epoch(floor_of(fields.why, fields.floor)),
        why: why_of(fields.why, fields.reason),
        aggregated: Epoch(fields.aggregated),
        number: fields.number as u32,
    }
}

// Whether a place has a container.
fn is_cont_at(place: &Option<ContRow>, cont: ContId) -> bool
    ensures { result ≡ is_cont_at cont place.now }
{
    match place {
        None => false,
        Some(row) => row.cont.0 == cont.0,
    }
}

fn has_cont(rows: &[Option<ContRow>], cont: ContId) -> bool
    ensures { result ≡ list_any (is_cont_at cont) rows.now }
{
    rows.iter().any(|row| is_cont_at(row, cont))
}

/// Whether one of some places has a container.
#[tactic(auto, using(crate::proofs::ContPlaces::any_there))]
pub(crate) fn is_there(rows: &[Option<ContRow>], cont: ContId) -> bool
    ensures { result ≡ list_any (is_row_of cont) (those rows.now) }
{
    has_cont(rows, cont)
}

// Whether a place is unused, or its container is in none of the places before it.
fn is_new(fields: ContFields, rows: &[Option<ContRow>]) -> bool
    ensures { result ≡ ((fields.used == 0) || not (list_any (is_row_of (record { 0 = fields.uuid })) (those rows.now))) }
{
    fields.used == 0 || !is_there(rows, ContId(fields.uuid))
}

// What a place holds, after some others.
fn read_cont(
    fixed: &[u8],
    p: usize,
    covered: u64,
    rows: &[Option<ContRow>],
) -> Result<Option<ContRow>, Fault>
    requires { p + 64 ≤ length fixed.now }
    ensures held { IfOk result (λ o. (c : Content) → IsShown c.bytes fixed.now p (p + 64) → c.covered ≡ covered → HoldsCont c p o) }
    ensures new { IfOk result (λ o. AreNewConts (those rows.now) (those (o ∷ []))) }
    ensures foreign { IfErr result (λ e. (c : Content) → IsShown c.bytes fixed.now p (p + 64) → c.covered ≡ covered → (led : List ℕ) → StopsAt (read_cont c p (those rows.now) led) c.bytes e) }
{
    let x = fields_at(fixed, p);
    let rules = [
        Rule(p, x.used <= 1),
        Rule(p + 1, is_why(x.why)),
        zeros_at(fixed, p + 2, 6),
        Rule(p + 8, x.floor <= covered),
        Rule(p + 16, is_reason(x.why, x.reason)),
        Rule(p + 24, x.aggregated <= covered),
        Rule(p + 32, x.number < NUMBERS),
        zeros_at(fixed, p + 40, 8),
        Rule(p + 48, is_new(x, rows)),
    ];
    judge(fixed, &rules)?;
    if x.used == 0 {
        return Ok(None);
    }
    Ok(Some(row_of(x)))
}

/// What each place holds.
pub(crate) fn read_conts(
    alloc: Global,
    fixed: &[u8],
    covered: u64,
) -> Result<Vec<Option<ContRow>>, Fault>
    requires { 20480 ≤ length fixed.now }
    ensures held { IfOk result (λ rows. (c : Content) → IsShown c.bytes fixed.now 4096 20480 → c.covered ≡ covered → HoldConts c 4096 rows.items) }
    ensures many { IfOk result (λ rows. length rows.items ≡ 256) }
    ensures new { IfOk result (λ rows. AreNewConts [] (those rows.items)) }
    ensures foreign { IfErr result (λ e. (c : Content) → IsShown c.bytes fixed.now 4096 20480 → c.covered ≡ covered → (led : List ℕ) → StopsAt (conts_reading c led) c.bytes e) }
{
    let mut rows = Vec::new(alloc);
    for i in 0..256 {
        let row = read_cont(fixed, 4096 + 64 * i, covered, &rows)?;
        rows.push(row)?;
    }
    Ok(rows)
}
