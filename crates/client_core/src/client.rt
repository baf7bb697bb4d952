// A client of a run.
ghost use Rattle.std.specs.Prelude.{◌≡◌, ◌≤◌, ◌<◌, length, nat_lt, slice_get, IfOk, OnErr};
ghost use Rattle.client_core.specs.Clients.{IsInPlace, PlanFits};
ghost use Rattle.base_types.specs.Scripts.{IsInForm};
ghost use Rattle.world_base.specs.ClientTurns.{HearTurn, NextTurn, at_first, is_created_old, is_done, known_at_opening, plan_of, waits};

use crate::turns::{Turn, hears, next};
use base_messages::message::Message;
use base_types::epoch::Epoch;
use base_types::items::{Items, Memory};
use base_types::script::{OldDecl, Olds, Script};
use base_types::snapshot::Snaps;
use client_moves::copies::copy_state;
use client_moves::moves::waits;
use std::alloc::Global;
use std::marker::Model;
use world_base::client::{ClientPlan, ClientState, KnownSnap, KnownSnaps};
use world_base::did::Did;

/// A client of a run, seen as what it has to do and how far it came.
#[derive(Drop)]
pub struct Client {
    alloc: Global,
    plan: ClientPlan,
    state: ClientState,
}

impl Model for Client {
    ghost use Rattle.client_core.specs.Clients.{ClientNow, IsInPlace, PlanFits};

    ghost Value = { ClientNow };

    ghost view = { λ c. record { plan = c.plan; state = c.state } };

    ghost invariant = { λ c. PlanFits c.plan × IsInPlace c.plan c.state };
}

// Whether the opening holds an old snapshot as created.
fn is_created(opening: &Snaps, old: &OldDecl) -> bool
    ensures { result ≡ is_created_old opening.now old.now }
{
    opening.as_slice().iter().any(|snap| {
        snap.cont.0 == old.cont.0 && snap.epoch.0 == old.epoch.0 && snap.created
    })
}

// The snapshots of earlier runs that a client may read.
fn known_at_opening(alloc: Global, olds: &Olds, opening: &Snaps) -> Result<KnownSnaps, Memory>
    ensures { IfOk result (λ known. known ≡ known_at_opening olds.now opening.now) }
{
    let mut known = Vec::new(alloc);
    for old in olds.as_slice() {
        if is_created(opening, old) {
            known.push(KnownSnap {
                name: old.name.copy()?,
                epoch: old.epoch,
            })?;
        }
    }
    Ok(Items::from_vec(known))
}

impl Client {
    /// The client of this number in a run of a script, before its first turn. The script must be in
    /// form for its targets and have a client of this number, and a command is tried 1 to 100 times.
    /// The client may read the snapshots that the script names and the opening holds as created;
    /// its tracker is the greatest epoch that it has heard of.
    pub fn new(
        alloc: Global,
        number: u16,
        script: &Script,
        opening: &Snaps,
        tracker: Epoch,
        attempts: u8,
    ) -> Result<Client, Memory>
        requires form { IsInForm script.now.targets script.now }
        requires number { number < length script.now.clients }
        requires attempts { (1 ≤ attempts) × (attempts ≤ 100) }
        ensures commands { IfOk result (λ c. slice_get script.now.clients number ≡ Some c.plan.commands) }
        ensures plan { IfOk result (λ c. c.plan ≡ plan_of script.now number attempts c.plan.commands) }
        ensures state { IfOk result (λ c. c.state ≡ at_first script.now opening.now tracker) }
    {
        let commands = script.clients.as_slice()[usize::from(number)].copy()?;
        let known = known_at_opening(alloc, &script.olds, opening)?;
        let plan = ClientPlan {
            number,
            targets: script.targets,
            attempts,
            commands,
        };
        let state = ClientState {
            place: 0,
            command: 0,
            tracker,
            skip: 0,
            present: None,
            known,
        };
        Ok(Client { alloc, plan, state })
    }

    /// A client that has come this far. What it has to do can be done, and it has come as far as its
    /// numbers say.
    pub fn at(alloc: Global, plan: ClientPlan, state: &ClientState) -> Result<Client, Memory>
        requires fits { PlanFits plan }
        requires place { IsInPlace plan state.now }
        ensures plan { IfOk result (λ c. c.plan ≡ plan) }
        ensures state { IfOk result (λ c. c.state ≡ state.now) }
    {
        let state = copy_state(alloc, state)?;
        Ok(Client { alloc, plan, state })
    }

    /// How far it came.
    pub fn state(&self) -> &ClientState
        ensures state { result.now ≡ self.now.state }
        ensures place { IsInPlace self.now.plan result.now }
    {
        &self.state
    }

    /// A turn without a message: a turn that is skipped is counted; else the client goes on. Where
    /// memory is wanting it stays as it was.
    pub fn next(&mut self) -> Result<Did, Memory>
        ensures turn { IfOk result (λ did. NextTurn self.old.plan self.old.state did self.new.state) }
        ensures plan { self.new.plan ≡ self.old.plan }
        ensures err { OnErr result (self.new ≡ self.old) }
    {
        let state = copy_state(self.alloc, &self.state)?;
        let Turn { did, state } = next(self.alloc, &self.plan, state)?;
        self.state = state;
        Ok(did)
    }

    /// A turn in which a message is heard, of a client that isn't skipping: it hears the message,
    /// and goes on unless that ended its turn. Where memory is wanting it stays as it was.
    pub fn hear(&mut self, message: Message) -> Result<Did, Memory>
        requires { self.old.state.skip ≡ 0 }
        ensures turn { IfOk result (λ did. HearTurn self.old.plan self.old.state message did self.new.state) }
        ensures plan { self.new.plan ≡ self.old.plan }
        ensures err { OnErr result (self.new ≡ self.old) }
    {
        self.heard(&message)
    }

    // The same, of a message that the caller keeps.
    fn heard(&mut self, message: &Message) -> Result<Did, Memory>
        requires { self.old.state.skip ≡ 0 }
        ensures turn { IfOk result (λ did. HearTurn self.old.plan self.old.state message.now did self.new.state) }
        ensures plan { self.new.plan ≡ self.old.plan }
        ensures err { OnErr result (self.new ≡ self.old) }
    {
        let state = copy_state(self.alloc, &self.state)?;
        let Turn { did, state } = hears(self.alloc, &self.plan, state, message)?;
        self.state = state;
        Ok(did)
    }

    /// Whether it waits for a message.
    pub fn waits(&self) -> bool
        ensures { result ≡ waits self.now.state }
    {
        waits(&self.state)
    }

    /// Whether all its commands are over.
    pub fn done(&self) -> bool
        ensures { result ≡ is_done self.now.plan self.now.state }
    {
        self.plan.commands.len() as u64 <= self.state.place
    }

    /// Whether it does nothing in its next turn.
    pub fn skips(&self) -> bool
        ensures { result ≡ nat_lt 0 self.now.state.skip }
    {
        self.state.skip > 0
    }
}
