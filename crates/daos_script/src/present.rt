// The present client, and what a line adds to its list.
ghost use Rattle.std.specs.Prelude.{◌≡◌, ◌<◌, ◌^◌, is_some};
ghost use Rattle.script_words.specs.Reads.{Gives};
ghost use Rattle.daos_script.specs.Clients.{skip_open};
ghost use Rattle.daos_script.specs.Steps.{counted, step_command, step_end, step_op, step_skip, step_tx, tx_of, with_step, within_of};

use crate::client::Client;
use base_types::fault::Why;
use base_types::id::ContId;
use base_types::operation::Op;
use base_types::script::Command;
use script_lines::line::At;
use script_words::fault::LineNo;
use std::alloc::Global;

/// The most numbered commands that a script has.
pub const COMMANDS_MAX: u32 = 100_000;

/// What a line adds to the list of the present client.
#[derive(Drop)]
pub enum Step {
    /// An operation, of the transaction or as a command of its own.
    Do(Op),
    /// A numbered command, which may not stand in a transaction.
    Number(Command),
    /// A transaction that begins on this line, and the snapshot that it reads.
    Begin(u32, Option<At>),
    /// The end of the transaction.
    End,
    /// So many turns that are skipped.
    Skip(u32),
}

/// The present client, once there is one, and how many numbered commands all clients have. After an
/// error nothing is said of what it holds.
#[derive(Drop)]
pub struct Present {
    pub client: Option<Client>,
    pub commands: u32,
}

// The number of commands, with one more where it counts.
fn counted(one: bool, commands: u32) -> Result<u32, LineNo>
    ensures { Gives (λ n. n) result (counted one commands) }
{
    if !one {
        return Ok(commands);
    }
    if commands >= COMMANDS_MAX {
        return Err(LineNo::Fault(Why::TooMany(COMMANDS_MAX)));
    }
    Ok(commands + 1)
}

impl Present {
    /// Whether a transaction isn't ended.
    pub fn is_in_tx(&self) -> bool
        ensures { result ≡ is_some (tx_of self.now.client) }
    {
        match &self.client {
            None => false,
            Some(client) => !client.is_free(),
        }
    }

    /// The container within which the objects of the next line must keep, if any.
    pub fn within(&self) -> Option<ContId>
        ensures { result ≡ within_of self.now.client }
    {
        match &self.client {
            None => None,
            Some(client) => client.within(),
        }
    }

    #[tactic(auto, unfolding(crate::specs::Steps::step_op))]
    fn add_op(&mut self, alloc: Global, op: Op) -> Result<(), LineNo>
        ensures { Gives (λ done. self.new) result (step_op self.old op) }
    {
        let Some(client) = &mut self.client else {
            drop(op);
            return Err(LineNo::Fault(Why::BadBlock));
        };
        let free = client.is_free();
        client.add_op(alloc, op)?;
        self.commands = counted(free, self.commands)?;
        Ok(())
    }

    #[tactic(auto, unfolding(crate::specs::Steps::step_command))]
    fn add_command(&mut self, command: Command) -> Result<(), LineNo>
        ensures { Gives (λ done. self.new) result (step_command self.old command) }
    {
        let Some(client) = &mut self.client else {
            return Err(LineNo::Fault(Why::BadBlock));
        };
        client.add_command(command)?;
        self.commands = counted(true, self.commands)?;
        Ok(())
    }

    #[tactic(auto, unfolding(crate::specs::Steps::step_tx))]
    fn begin_tx(&mut self, alloc: Global, line: u32, at: Option<At>) -> Result<(), LineNo>
        ensures { Gives (λ done. self.new) result (step_tx self.old line at) }
    {
        let Some(client) = &mut self.client else {
            return Err(LineNo::Fault(Why::BadBlock));
        };
        client.begin_tx(alloc, line, at)?;
        self.commands = counted(true, self.commands)?;
        Ok(())
    }

    #[tactic(auto, unfolding(crate::specs::Steps::step_end))]
    fn end_tx(&mut self) -> Result<(), LineNo>
        ensures { Gives (λ done. self.new) result (step_end self.old) }
    {
        let Some(client) = &mut self.client else {
            return Err(LineNo::Fault(Why::BadBlock));
        };
        client.end_tx()?;
        Ok(())
    }

    #[tactic(auto, unfolding(crate::specs::Steps::step_skip))]
    fn add_skip(&mut self, turns: u32) -> Result<(), LineNo>
        requires { skip_open (tx_of self.old.client) < 2 ^ 63 }
        ensures { Gives (λ done. self.new) result (step_skip self.old turns) }
    {
        let Some(client) = &mut self.client else {
            return Err(LineNo::Fault(Why::BadBlock));
        };
        client.add_skip(turns)?;
        Ok(())
    }

    /// Adds what a line says to the list of the present client.
    pub fn add_step(&mut self, alloc: Global, step: Step) -> Result<(), LineNo>
        requires { skip_open (tx_of self.old.client) < 2 ^ 63 }
        ensures { Gives (λ done. self.new) result (with_step self.old step) }
    {
        match step {
            Step::Do(op) => self.add_op(alloc, op),
            Step::Number(command) => self.add_command(command),
            Step::Begin(line, at) => self.begin_tx(alloc, line, at),
            Step::End => self.end_tx(),
            Step::Skip(turns) => self.add_skip(turns),
        }
    }
}
