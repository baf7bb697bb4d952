// Generated commands.
ghost use Rattle.std.specs.Prelude.{◌≡◌, ◌∷◌, [], IfOk};
ghost use Rattle.daos_gen.specs.Commands.{act_of, command_drawn, commands_of, lone, numbered, transfer};

use crate::places::{akey_path, numbered, obj_path};
use base_random::draw::drawn;
use base_types::items::{Items, Memory, Vec8};
use base_types::operation::{Act, Cond, Op, Ops, Read, Write};
use base_types::script::{Command, Commands};
use std::alloc::Global;

// A value: a letter, and the number of the command.
fn value(alloc: Global, letter: u8, number: u32) -> Result<Vec8, Memory>
    ensures { IfOk result (λ value. value ≡ numbered letter number) }
{
    Ok(Items::from_vec(numbered(alloc, letter, u64::from(number))?))
}

// What a command does that is no transaction of its own.
#[tactic(auto, unfolding(crate::specs::Commands::act_of))]
fn act_of(alloc: Global, targets: u8, number: u32, drawn: u64) -> Result<Act, Memory>
    ensures { IfOk result (λ act. act ≡ act_of targets number drawn) }
{
    let kind = drawn % 8;
    if kind == 7 {
        return Ok(Act::Fetch(Read::Dkeys(obj_path(targets, drawn))));
    }
    let path = akey_path(alloc, targets, drawn, (drawn >> 24) % 4)?;
    if kind < 3 {
        return Ok(Act::Change(Write::Single(path, value(alloc, b'v', number)?)));
    }
    if kind == 3 {
        let first = ((drawn >> 32) % 64) as u32;
        return Ok(Act::Change(Write::Extent(path, first, value(alloc, b'e', number)?)));
    }
    if kind == 4 {
        return Ok(Act::Fetch(Read::Single(path)));
    }
    Ok(Act::Fetch(Read::Extent(path, 0, 64)))
}

// A command of one operation.
fn lone(alloc: Global, act: Act) -> Result<Command, Memory>
    ensures { IfOk result (λ command. command ≡ lone act) }
{
    let mut ops: Ops = Items::new(alloc);
    ops.push(Op {
        act,
        cond: Cond::Free,
    })?;
    Ok(Command::Run {
        ops,
        skips: Items::from_vec(vec![in alloc; 0, 0]?),
        snapshot: None,
    })
}

// A transaction that gets the value that a drawn number picks, and puts one beside it.
fn transfer(alloc: Global, targets: u8, number: u32, drawn: u64) -> Result<Command, Memory>
    ensures { IfOk result (λ command. command ≡ transfer targets number drawn) }
{
    let from = akey_path(alloc, targets, drawn, (drawn >> 24) % 4)?;
    let to = akey_path(alloc, targets, drawn, 9)?;
    let bytes = value(alloc, b't', number)?;
    let mut ops: Ops = Items::new(alloc);
    ops.push(Op {
        act: Act::Fetch(Read::Single(from)),
        cond: Cond::Free,
    })?;
    ops.push(Op {
        act: Act::Change(Write::Single(to, bytes)),
        cond: Cond::Free,
    })?;
    Ok(Command::Run {
        ops,
        skips: Items::from_vec(vec![in alloc; 0, 0, 0]?),
        snapshot: None,
    })
}

// The command of this number, by the number drawn for it.
#[tactic(auto, unfolding(crate::specs::Commands::command_drawn))]
fn command_drawn(alloc: Global, targets: u8, number: u32, drawn: u64) -> Result<Command, Memory>
    ensures { IfOk result (λ command. command ≡ command_drawn targets number drawn) }
{
    if drawn % 8 == 6 {
        return transfer(alloc, targets, number, drawn);
    }
    lone(alloc, act_of(alloc, targets, number, drawn)?)
}

/// The commands of a client, from 0 to 3, of so many that are generated.
pub fn commands_of(alloc: Global, targets: u8, count: u32, client: u32) -> Result<Commands, Memory>
    ensures { IfOk result (λ commands. commands ≡ commands_of targets count client) }
{
    let mut commands: Commands = Items::new(alloc);
    let mut number = 1;
    for i in 0..count {
        number = drawn(number);
        if i % 4 == client {
            commands.push(command_drawn(alloc, targets, i, number)?)?;
        }
    }
    Ok(commands)
}
