// A run begins: the stores of all targets are opened for its script, and the clients are made.
ghost use Rattle.std.specs.Prelude.{◌≡◌, ◌≤◌, ◌<◌, ◌^◌, ℕ, List, false, IfErr, IfOk};
ghost use Rattle.base_types.specs.Epochs.{restart_floor};
ghost use Rattle.base_types.specs.Scripts.{IsInForm};
ghost use Rattle.daos_model.specs.declared.durable.Durable.{Durable};
ghost use Rattle.daos_run.specs.Opens.{AreFirst};
ghost use Rattle.daos_run.specs.Slots.{AreSet, EachStore, stores_in};
ghost use Rattle.daos_run.specs.Stops.{ArePartsCalled, MayStop, stopped_by};
ghost use Rattle.run_starts.specs.run_opening.All.{AreKept, MayBeFound};
ghost use Rattle.run_starts.specs.run_opening.Left.{IsLeftOf};
ghost use Rattle.run_starts.specs.Starts.{AreOpened, CanOpen, MayOpenAgain};
ghost use Rattle.run_targets.specs.Ends.{declared_conts};

use crate::apart::{set_back, take_all};
use crate::parts::Parts;
use crate::stop::{Part, RunStop};
use base_outside::clock::Clock;
use base_types::epoch::Epoch;
use base_types::items::Memory;
use base_types::script::Script;
use base_types::snapshot::Snaps;
use client_core::client::Client;
use run_starts::opening::open_stores;
use run_starts::stop::StartStop;
use std::alloc::Global;
use vos_store::store::Store;

// Why a run gives no report whose stores aren't opened.
fn stop_of(stop: StartStop) -> RunStop
    ensures { result ≡ stopped_by stop }
{
    match stop {
        StartStop::TooMany { target, together } => RunStop::Shape {
            target,
            what: Part::Containers,
            found: u64::from(together),
            asked: 256,
        },
        StartStop::Stopped(target) => RunStop::RackFault { target },
        StartStop::Memory => RunStop::Memory,
    }
}

/// The stores of all targets are opened for a run of a script; each is in its place again, with its clock,
/// at every ending. The epoch is the greatest that a lease of theirs covers, and the snapshots are those that
/// target 0 holds. Whatever their next openings find, also where this one is cut, is sound, and stands for the
/// same; it may be opened for any script, and no snapshot lasts then where none would have lasted before.
///
/// # Errors
///
/// `RackFault` where a store stopped; `Shape` where it has no place for the containers; and `Memory`.
pub fn open_parts<S: Store, C: Clock>(
    alloc: Global,
    script: &Script,
    parts: &mut Parts<S, C>,
    targets: u8,
) -> Result<(Epoch, Snaps), RunStop>
    requires some { 1 ≤ targets }
    requires few { targets ≤ 64 }
    requires set { AreSet targets parts.old }
    requires running { EachStore (λ t store. (S.state store).stopped ≡ false) parts.old }
    requires sound { (B : List Durable) → AreKept S.durable (stores_in parts.old) B → CanOpen B }
    ensures calls { ArePartsCalled S.durable S.state targets result parts.old parts.new }
    ensures refusals { IfErr result (MayStop S.durable (declared_conts script.now) targets (stores_in parts.old)) }
    ensures bounded { IfOk result (λ opened. (lease : ℕ) × (lease < 2 ^ 56) × (opened.0 ≡ record { 0 = restart_floor lease })) }
    ensures opened { (B : List Durable) → AreKept S.durable (stores_in parts.old) B → IfOk result (λ opened. AreOpened S.durable S.state script.now B (stores_in parts.new) opened.0 opened.1) }
    ensures left { (B : List Durable) → AreKept S.durable (stores_in parts.old) B → (lasts : List Durable) → MayBeFound S.may (stores_in parts.new) lasts → IsLeftOf script.now B lasts }
    ensures again { (B : List Durable) → AreKept S.durable (stores_in parts.old) B → (lasts : List Durable) → MayBeFound S.may (stores_in parts.new) lasts → MayOpenAgain B lasts }
{
    let (mut stores, clocks) = take_all(alloc, parts, targets)?;
    let opened = open_stores(alloc, script, &mut stores);
    set_back(parts, stores, clocks);
    match opened {
        Ok(opened) => Ok(opened),
        Err(stop) => Err(stop_of(stop)),
    }
}

/// The clients of a script before their first turns, each of whose commands has so many attempts. They may read
/// the snapshots that the script names and target 0 holds as created, where it holds these.
pub fn clients_of(
    alloc: Global,
    script: &Script,
    held: &Snaps,
    tracker: Epoch,
    attempts: u8,
) -> Result<Vec<Client>, Memory>
    requires form { IsInForm script.now.targets script.now }
    requires least { 1 ≤ attempts }
    requires most { attempts ≤ 100 }
    ensures { IfOk result (λ clients. AreFirst script.now held.now attempts tracker clients.items) }
{
    let mut clients = Vec::with_capacity(alloc, script.clients.len())?;
    for number in 0..script.clients.len() {
        let client = Client::new(alloc, number as u16, script, held, tracker, attempts)?;
        clients.push(client)?;
    }
    Ok(clients)
}
