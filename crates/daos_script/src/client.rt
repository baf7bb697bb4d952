// The list of a client, as far as it is read.
ghost use Rattle.std.specs.Prelude.{◌≡◌, ◌<◌, ◌^◌, [], None, OnOk, is_none};
ghost use Rattle.script_words.specs.Reads.{Gives};
ghost use Rattle.daos_script.specs.Clients.{client_command, client_end, client_op, client_skip, client_tx, ended_tx, skip_open, within_tx};

use crate::tx::{Tx, cont_of, lone};
use base_types::fault::Why;
use base_types::id::ContId;
use base_types::items::Items;
use base_types::operation::Op;
use base_types::script::{Command, Commands};
use script_lines::line::At;
use script_words::fault::LineNo;
use std::alloc::{AllocError, Global};

/// The list of a client, with its number and its transaction that isn't ended. After an error nothing
/// is said of what it holds.
#[derive(Drop)]
pub struct Client {
    pub number: u16,
    pub list: Commands,
    pub tx: Option<Tx>,
}

// The transaction that ends, which has an operation.
fn ended_tx(tx: Option<Tx>) -> Result<Tx, LineNo>
    ensures { Gives (λ t. t) result (ended_tx tx) }
{
    match tx {
        None => Err(LineNo::Fault(Why::BadBlock)),
        Some(tx) => {
            if tx.ops.is_empty() {
                Err(LineNo::Fault(Why::BadBlock))
            } else {
                Ok(tx)
            }
        }
    }
}

impl Client {
    /// The client of a number, with nothing to do yet.
    pub fn new(alloc: Global, number: u16) -> Client
        ensures { result ≡ record { number = number; list = []; tx = None } }
    {
        Client {
            number,
            list: Items::new(alloc),
            tx: None,
        }
    }

    /// Whether no transaction is begun.
    pub fn is_free(&self) -> bool
        ensures { result ≡ is_none self.now.tx }
    {
        self.tx.is_none()
    }

    /// The container of the snapshot that the transaction reads.
    pub fn within(&self) -> Option<ContId>
        ensures { result ≡ within_tx self.now.tx }
    {
        match &self.tx {
            None => None,
            Some(tx) => cont_of(&tx.at),
        }
    }

    /// One more operation, of the transaction or as a command of its own.
    #[tactic(auto, unfolding(crate::specs::Clients::client_op))]
    pub fn add_op(&mut self, alloc: Global, op: Op) -> Result<(), LineNo>
        ensures { Gives (λ done. self.new) result (client_op self.old op) }
    {
        match &mut self.tx {
            None => {
                let command = lone(alloc, None, op)?;
                self.list.push(command)?;
                Ok(())
            }
            Some(tx) => {
                tx.add_op(op)?;
                Ok(())
            }
        }
    }

    /// One more command, which may not stand in a transaction.
    #[tactic(auto, unfolding(crate::specs::Clients::client_command))]
    pub fn add_command(&mut self, command: Command) -> Result<(), LineNo>
        ensures { Gives (λ done. self.new) result (client_command self.old command) }
    {
        if self.tx.is_some() {
            return Err(LineNo::Fault(Why::BadBlock));
        }
        self.list.push(command)?;
        Ok(())
    }

    /// A transaction begins on this line.
    #[tactic(auto, unfolding(crate::specs::Clients::client_tx))]
    pub fn begin_tx(&mut self, alloc: Global, line: u32, at: Option<At>) -> Result<(), LineNo>
        ensures { Gives (λ done. self.new) result (client_tx line self.old at) }
    {
        if self.tx.is_some() {
            return Err(LineNo::Fault(Why::BadBlock));
        }
        self.tx = Some(Tx::new(alloc, line, at));
        Ok(())
    }

    /// The transaction ends.
    #[tactic(auto, unfolding(crate::specs::Clients::client_end))]
    pub fn end_tx(&mut self) -> Result<(), LineNo>
        ensures { Gives (λ done. self.new) result (client_end self.old) }
    {
        let tx = ended_tx(self.tx.take())?;
        let command = tx.into_command()?;
        self.list.push(command)?;
        Ok(())
    }

    /// Some turns are skipped.
    #[tactic(auto, unfolding(crate::specs::Clients::client_skip))]
    pub fn add_skip(&mut self, turns: u32) -> Result<(), AllocError>
        requires { skip_open self.old.tx < 2 ^ 63 }
        ensures { OnOk result (self.new ≡ client_skip self.old turns) }
    {
        match &mut self.tx {
            None => {
                self.list.push(Command::Skip { turns })?;
                Ok(())
            }
            Some(tx) => {
                tx.add_skip(turns);
                Ok(())
            }
        }
    }
}
