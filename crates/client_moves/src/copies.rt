// A client's state again, so that a turn for which memory is wanting leaves the client as it was.
ghost use Rattle.std.specs.Prelude.{◌≡◌, IfOk};

use base_types::answer::Answer;
use base_types::items::{Items, Memory};
use base_types::report::{Conds, Gots};
use std::alloc::Global;
use world_base::client::{ClientState, KnownSnap, KnownSnaps, Present};

// The same conditions again.
fn copy_conds(alloc: Global, conds: &Conds) -> Result<Conds, Memory>
    ensures { IfOk result (λ copied. copied ≡ conds.now) }
{
    let mut copied = Vec::with_capacity(alloc, conds.len())?;
    for cond in conds.as_slice() {
        copied.push(*cond)?;
    }
    Ok(Items::from_vec(copied))
}

// The same reads again.
fn copy_gots(alloc: Global, gots: &Gots) -> Result<Gots, Memory>
    ensures { IfOk result (λ copied. copied ≡ gots.now) }
{
    let mut copied = Vec::with_capacity(alloc, gots.len())?;
    for got in gots.as_slice() {
        copied.push((got.0, got.1.copy()?))?;
    }
    Ok(Items::from_vec(copied))
}

// The same snapshots again.
fn copy_known(alloc: Global, known: &KnownSnaps) -> Result<KnownSnaps, Memory>
    ensures { IfOk result (λ copied. copied ≡ known.now) }
{
    let mut copied = Vec::with_capacity(alloc, known.len())?;
    for snap in known.as_slice() {
        copied.push(KnownSnap {
            name: snap.name.copy()?,
            epoch: snap.epoch,
        })?;
    }
    Ok(Items::from_vec(copied))
}

// The same answer again, if there is one.
fn copy_found(found: &Option<Answer>) -> Result<Option<Answer>, Memory>
    ensures { IfOk result (λ copied. copied ≡ found.now) }
{
    match found {
        None => Ok(None),
        Some(answer) => Ok(Some(answer.copy()?)),
    }
}

// The same attempt again.
fn copy_attempt(alloc: Global, present: &Present) -> Result<Present, Memory>
    ensures { IfOk result (λ copied. copied ≡ present.now) }
{
    Ok(Present {
        attempt: present.attempt,
        first: present.first,
        epoch: present.epoch,
        op: present.op,
        stage: present.stage,
        group: present.group,
        found: copy_found(&present.found)?,
        conds: copy_conds(alloc, &present.conds)?,
        gots: copy_gots(alloc, &present.gots)?,
        waits: present.waits,
    })
}

/// The same attempt again, if there is one.
pub fn copy_present(alloc: Global, present: &Option<Present>) -> Result<Option<Present>, Memory>
    ensures { IfOk result (λ copied. copied ≡ present.now) }
{
    match present {
        None => Ok(None),
        Some(present) => Ok(Some(copy_attempt(alloc, present)?)),
    }
}

/// The same state again.
pub fn copy_state(alloc: Global, state: &ClientState) -> Result<ClientState, Memory>
    ensures { IfOk result (λ copied. copied ≡ state.now) }
{
    Ok(ClientState {
        place: state.place,
        command: state.command,
        tracker: state.tracker,
        skip: state.skip,
        present: copy_present(alloc, &state.present)?,
        known: copy_known(alloc, &state.known)?,
    })
}
