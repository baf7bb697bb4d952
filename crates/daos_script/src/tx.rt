// A transaction that isn't ended.
ghost use Rattle.std.specs.Prelude.{◌≡◌, ◌<◌, ◌^◌, ◌+◌, IfOk};
ghost use Rattle.script_words.specs.Reads.{Gives};
ghost use Rattle.daos_script.specs.Clients.{command_of, cont_of, is_barred, is_plain, lone, may_add, name_of, tx_begun, tx_op};

use base_types::fault::Why;
use base_types::id::ContId;
use base_types::items::Items;
use base_types::key::Key;
use base_types::operation::{Act, Cond, Op, Ops};
use base_types::script::{Command, Skips};
use script_lines::line::At;
use script_words::decls::room;
use script_words::fault::LineNo;
use std::alloc::{AllocError, Global};

/// The most operations that a transaction has.
pub const OPS_MAX: u32 = 64;

/// A transaction that isn't ended: the line on which it began, the snapshot that it reads, its
/// operations, the turns to skip before each, and those since the last operation. After an error
/// nothing is said of what it holds.
#[derive(Drop)]
pub struct Tx {
    pub line: u32,
    pub at: Option<At>,
    pub ops: Ops,
    pub skips: Skips,
    pub skip: u64,
}

/// A command of one operation.
pub fn lone(alloc: Global, snapshot: Option<Key>, op: Op) -> Result<Command, AllocError>
    ensures { IfOk result (λ command. command ≡ lone snapshot op) }
{
    let mut ops = Items::new(alloc);
    ops.push(op)?;
    let mut skips = Items::new(alloc);
    skips.push(0)?;
    skips.push(0)?;
    Ok(Command::Run {
        ops,
        skips,
        snapshot,
    })
}

// Whether an operation is a read without a condition.
fn is_plain(op: &Op) -> bool
    ensures { result ≡ is_plain op.now }
{
    matches!(&op.cond, Cond::Free) && matches!(&op.act, Act::Fetch(_))
}

// Whether an operation may not stand in a transaction that reads this snapshot.
fn is_barred(at: &Option<At>, op: &Op) -> bool
    ensures { result ≡ is_barred at.now op.now }
{
    match at {
        None => false,
        Some(_) => !is_plain(op),
    }
}

// The name of a snapshot.
fn name_of(at: Option<At>) -> Option<Key>
    ensures { result ≡ name_of at }
{
    match at {
        None => None,
        Some(at) => {
            let At { name, cont: _cont } = at;
            Some(name)
        }
    }
}

/// The container of a snapshot.
pub fn cont_of(at: &Option<At>) -> Option<ContId>
    ensures { result ≡ cont_of at.now }
{
    match at {
        None => None,
        Some(at) => Some(at.cont),
    }
}

impl Tx {
    /// A transaction that begins on this line.
    pub fn new(alloc: Global, line: u32, at: Option<At>) -> Tx
        ensures { result ≡ tx_begun line at }
    {
        Tx {
            line,
            at,
            ops: Items::new(alloc),
            skips: Items::new(alloc),
            skip: 0,
        }
    }

    // Whether one more operation may stand here, and there is room for it.
    #[tactic(auto, unfolding(crate::specs::Clients::may_add))]
    fn may_add(&self, op: &Op) -> Result<(), LineNo>
        ensures { Gives (λ x. x) result (may_add self.now op.now) }
    {
        if is_barred(&self.at, op) {
            return Err(LineNo::Fault(Why::BadBlock));
        }
        room(OPS_MAX, self.ops.len())
    }

    /// One more operation, behind the turns skipped before it.
    #[tactic(auto, unfolding(crate::specs::Clients::tx_op))]
    pub fn add_op(&mut self, op: Op) -> Result<(), LineNo>
        ensures { Gives (λ done. self.new) result (tx_op self.old op) }
    {
        if let Err(no) = self.may_add(&op) {
            drop(op);
            return Err(no);
        }
        self.ops.push(op)?;
        self.skips.push(self.skip)?;
        self.skip = 0;
        Ok(())
    }

    /// Some turns are skipped.
    pub fn add_skip(&mut self, turns: u32)
        requires { self.old.skip < 2 ^ 63 }
        ensures { self.new ≡ record self.old { skip = self.old.skip + turns } }
    {
        self.skip += u64::from(turns);
    }

    /// The command of a whole transaction.
    pub fn into_command(self) -> Result<Command, AllocError>
        ensures { IfOk result (λ command. command ≡ command_of self) }
    {
        let Tx {
            line: _line,
            at,
            ops,
            mut skips,
            skip,
        } = self;
        skips.push(skip)?;
        Ok(Command::Run {
            ops,
            skips,
            snapshot: name_of(at),
        })
    }
}
