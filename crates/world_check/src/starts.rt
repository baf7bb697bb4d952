// Whether a list of events starts well: what each client has to do can be done, and each has come as far as
// its numbers say.
ghost use Rattle.std.specs.Prelude.{◌≡◌, ◌≤◌, ◌+◌, ◌&&◌, All, count_by, drop, slice_get, true, Decides};
ghost use Rattle.client_core.specs.Clients.{CommandFits, ObjFits, OpsFit, has_number};
ghost use Rattle.base_types.specs.Scripts.{is_numbered};
ghost use Rattle.world_check.specs.Starting.{HasPlace, commands_of};
ghost use Rattle.world_list.specs.Fitting.{AreInPlace, PlansFit, StartsWell};
ghost use Rattle.world_list.specs.RunLists.{rules_of};

use base_types::id::ObjId;
use base_types::operation::Op;
use base_types::script::Command;
use daos_class::class::Placed;
use world_base::client::ClientState;
use world_list::events::Events;

// The most commands with numbers of a client.
const MOST: usize = 100_000;

// Whether an object, if there is one, fits so many targets.
fn obj_fits(obj: Option<ObjId>, targets: u8) -> bool
    ensures { Decides result (ObjFits targets obj) }
{
    match obj {
        Some(obj) => obj.class.fits(targets).is_ok(),
        None => true,
    }
}

// Whether operations are few, and their objects fit.
fn ops_fit(ops: &[Op], targets: u8) -> bool
    ensures { Decides result (OpsFit targets ops.now) }
{
    for op in ops {
        if !obj_fits(op.act.path().obj, targets) {
            return false;
        }
    }
    ops.len() <= 64
}

// Whether a command can be done.
fn command_fits(command: &Command, targets: u8) -> bool
    ensures { Decides result (CommandFits targets command.now) }
{
    match command {
        Command::Run { ops, .. } => ops_fit(ops.as_slice(), targets),
        _ => true,
    }
}

// Whether commands can.
fn commands_fit(commands: &[Command], targets: u8) -> bool
    ensures { Decides result (All (CommandFits targets) commands.now) }
{
    for command in commands {
        if !command_fits(command, targets) {
            return false;
        }
    }
    true
}

// Whether a command has a number.
fn is_numbered(command: &Command) -> bool
    ensures { result ≡ is_numbered command.now }
{
    match command {
        Command::Run { .. } | Command::Snap { .. } | Command::Aggregate { .. } => true,
        Command::Tell { .. } | Command::Skip { .. } => false,
    }
}

// How many commands have one.
fn count_numbered(commands: &[Command]) -> usize
    ensures { result ≡ count_by is_numbered commands.now }
{
    let mut count = 0;
    for command in commands {
        if is_numbered(command) {
            count += 1;
        }
    }
    count
}

// The commands from a place on.
fn from_place(commands: &[Command], place: u64) -> &[Command]
    ensures { result.now ≡ drop place commands.now }
{
    if place >= commands.len() as u64 {
        return &commands[commands.len()..];
    }
    &commands[place as usize..]
}

// Whether the commands of a client that are over and have numbers, and those that are left, are few.
fn are_few(over: u32, left: usize) -> bool
    ensures { Decides result (over + left ≤ 100000) }
{
    left <= MOST && over as usize + left <= MOST
}

// Whether the command at a place has a number.
fn has_number(commands: &[Command], place: u64) -> bool
    ensures { result ≡ has_number (slice_get commands.now place) }
{
    match commands.get(place as usize) {
        Some(command) => is_numbered(command),
        None => false,
    }
}

// Whether an attempt, if there is one, is one of a command that has a number.
fn is_of_number(present: bool, numbered: bool) -> bool
    ensures { Decides result (present ≡ true → numbered ≡ true) }
{
    !present || numbered
}

// Whether both hold.
fn both(one: bool, other: bool) -> bool
    ensures { result ≡ (one && other) }
{
    one && other
}

// Whether a client has come as far as its numbers say.
fn is_in_place(commands: &[Command], state: &ClientState) -> bool
    ensures { Decides result (HasPlace commands.now state.now) }
{
    let left = count_numbered(from_place(commands, state.place));
    let numbered = has_number(commands, state.place);
    let present = state.present.is_some();
    both(
        are_few(state.command, left),
        is_of_number(present, numbered),
    )
}

// The commands of a client.
fn commands_of(events: &Events, number: usize) -> &[Command]
    ensures { result.now ≡ commands_of events.now.script number }
{
    match events.script.clients.as_slice().get(number) {
        Some(list) => list.as_slice(),
        None => &[],
    }
}

// Whether commands can be done, and few have numbers.
fn plan_fits(commands: &[Command], targets: u8) -> bool
    ensures { Decides result (All (CommandFits targets) commands.now × (count_by is_numbered commands.now ≤ 100000)) }
{
    commands_fit(commands, targets) && count_numbered(commands) <= MOST
}

// Whether what each client has to do can be done.
fn plans_fit(events: &Events) -> bool
    ensures { Decides result (PlansFit (rules_of events.now)) }
{
    for number in 0..events.script.clients.len() {
        if !plan_fits(commands_of(events, number), events.script.targets) {
            return false;
        }
    }
    true
}

// Whether each client has come as far as its numbers say.
fn are_in_place(events: &Events) -> bool
    ensures { Decides result (AreInPlace (rules_of events.now) events.now.start) }
{
    let clients = events.start.clients.as_slice();
    for number in 0..clients.len() {
        if !is_in_place(commands_of(events, number), &clients[number]) {
            return false;
        }
    }
    true
}

/// Whether a list of events starts well.
pub fn starts_well(events: &Events) -> bool
    ensures { Decides result (StartsWell (rules_of events.now) events.now.start) }
{
    plans_fit(events) && are_in_place(events)
}
