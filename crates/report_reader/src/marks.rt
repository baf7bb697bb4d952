// The operations of a script's commands, as far as a report tells of them.
ghost use Rattle.std.specs.Prelude.{◌≡◌, IfOk, length, map};
ghost use Rattle.std.specs.List.{filter_map};
ghost use Rattle.report_reader.specs.Marks.{has_cond, is_read, mark_at, mark_of, marks_of, ops_of, table_of};

use base_types::id::AttemptId;
use base_types::items::{Items, Memory};
use base_types::operation::{Act, Cond, Op};
use base_types::script::{Command, Script};
use std::alloc::Global;

/// What a report tells of an operation goes by: whether it has a condition, whether it reads, and the
/// record size of its object.
#[derive(Clone, Copy)]
pub struct Mark {
    pub asked: bool,
    pub reads: bool,
    pub unit: u8,
}

/// The mark of each operation.
pub type Marks = Items<Mark>;

/// The marks of each numbered command of each client.
pub type Table = Items<Items<Marks>>;

fn has_cond(cond: Cond) -> bool
    ensures { result ≡ has_cond cond }
{
    match cond {
        Cond::Free => false,
        Cond::Must | Cond::MustNot => true,
    }
}

fn is_read(act: &Act) -> bool
    ensures { result ≡ is_read act.now }
{
    match act {
        Act::Fetch(_) => true,
        Act::Change(_) => false,
    }
}

fn mark_of(op: &Op) -> Mark
    ensures { result ≡ mark_of op.now }
{
    Mark {
        asked: has_cond(op.cond),
        reads: is_read(&op.act),
        unit: op.act.path().record_size(),
    }
}

fn op_marks(alloc: Global, ops: &[Op]) -> Result<Marks, Memory>
    ensures { IfOk result (λ marks. marks ≡ map mark_of ops.now) }
{
    let mut marks: Marks = Items::new(alloc);
    for op in ops {
        marks.push(mark_of(op))?;
    }
    Ok(marks)
}

// The marks of a command, if it is numbered.
fn marks_of(alloc: Global, command: &Command) -> Result<Option<Marks>, Memory>
    ensures { IfOk result (λ marks. marks ≡ marks_of command.now) }
{
    match command {
        Command::Run { ops, .. } => {
            let marks = op_marks(alloc, ops.as_slice())?;
            Ok(Some(marks))
        }
        Command::Snap { .. } => Ok(Some(Items::new(alloc))),
        Command::Aggregate { .. } => Ok(Some(Items::new(alloc))),
        Command::Tell { .. } => Ok(None),
        Command::Skip { .. } => Ok(None),
    }
}

fn client_marks(alloc: Global, commands: &[Command]) -> Result<Items<Marks>, Memory>
    ensures { IfOk result (λ marks. marks ≡ filter_map marks_of commands.now) }
{
    let mut all: Items<Marks> = Items::new(alloc);
    for command in commands {
        if let Some(marks) = marks_of(alloc, command)? {
            all.push(marks)?;
        }
    }
    Ok(all)
}

/// The marks of a script's commands.
pub fn table_of(alloc: Global, script: &Script) -> Result<Table, Memory>
    ensures { IfOk result (λ table. table ≡ table_of script.now) }
{
    let mut table: Table = Items::new(alloc);
    for commands in script.clients.as_slice() {
        table.push(client_marks(alloc, commands.as_slice())?)?;
    }
    Ok(table)
}

/// The mark of an operation, if there is such a one.
pub fn mark_at(table: &[Items<Marks>], id: AttemptId, op: u8) -> Option<Mark>
    ensures { result ≡ mark_at table.now id op }
{
    let commands = table.get(id.client as usize)?;
    let marks = commands.as_slice().get(id.command as usize)?;
    marks.as_slice().get(op as usize).copied()
}

/// How many operations the command of an attempt has, if there is such a one.
pub fn ops_of(table: &[Items<Marks>], id: AttemptId) -> Option<usize>
    ensures { result ≡ ops_of table.now id }
{
    let commands = table.get(id.client as usize)?;
    let marks = commands.as_slice().get(id.command as usize)?;
    Some(marks.len())
}
