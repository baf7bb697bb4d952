// The lists of all clients, as far as they are read.
ghost use Rattle.std.specs.Prelude.{◌≡◌, ◌<◌, ◌^◌, IfOk, OnOk};
ghost use Rattle.script_words.specs.Reads.{Gives};
ghost use Rattle.daos_script.specs.Lists.{all_lists, closed, next_list, nothing_listed, one_step, pending, with_tell};

use crate::client::Client;
use crate::present::{Present, Step};
use base_types::fault::Why;
use base_types::items::Items;
use base_types::script::{ClientLists, Command};
use script_words::decls::room;
use script_words::fault::LineNo;
use std::alloc::{AllocError, Global};

/// The most clients that a script has.
pub const CLIENTS_MAX: u32 = 64;

/// On a line, a client tells another one its tracker.
#[derive(Clone, Copy)]
pub struct Told {
    pub line: u32,
    pub client: u16,
    pub to: u16,
}

/// The lists of earlier clients, the present client, and the lines from `tell`. After an error nothing
/// is said of what it holds.
#[derive(Drop)]
pub struct Lists {
    pub whole: ClientLists,
    pub present: Present,
    pub tells: Items<Told>,
}

impl Lists {
    /// No client yet. This takes no memory.
    pub fn new(alloc: Global) -> Lists
        ensures { result ≡ nothing_listed }
    {
        Lists {
            whole: Items::new(alloc),
            present: Present {
                client: None,
                commands: 0,
            },
            tells: Items::new(alloc),
        }
    }

    // The list of the present client is whole.
    fn close(&mut self) -> Result<(), AllocError>
        ensures { OnOk result (self.new ≡ closed self.old) }
    {
        if let Some(client) = self.present.client.take() {
            let Client {
                number: _number,
                list,
                tx: _tx,
            } = client;
            self.whole.push(list)?;
        }
        Ok(())
    }

    /// The list of the next client begins.
    #[tactic(auto, unfolding(crate::specs::Lists::next_list))]
    pub fn begin_client(&mut self, alloc: Global) -> Result<(), LineNo>
        ensures { Gives (λ done. self.new) result (next_list self.old) }
    {
        if self.present.is_in_tx() {
            return Err(LineNo::Fault(Why::BadBlock));
        }
        self.close()?;
        let number = self.whole.len();
        room(CLIENTS_MAX, number)?;
        self.present.client = Some(Client::new(alloc, number as u16));
        Ok(())
    }

    /// Adds what a line says to the list of the present client.
    #[tactic(auto, unfolding(crate::specs::Lists::one_step))]
    pub fn add_step(&mut self, alloc: Global, step: Step) -> Result<(), LineNo>
        requires { pending self.old < 2 ^ 63 }
        ensures { Gives (λ done. self.new) result (one_step self.old step) }
    {
        self.present.add_step(alloc, step)?;
        Ok(())
    }

    /// On this line the present client tells another one its tracker.
    #[tactic(auto, unfolding(crate::specs::Lists::with_tell))]
    pub fn add_tell(&mut self, line: u32, to: u16) -> Result<(), LineNo>
        ensures { Gives (λ done. self.new) result (with_tell line self.old to) }
    {
        let Some(client) = &mut self.present.client else {
            return Err(LineNo::Fault(Why::BadBlock));
        };
        client.add_command(Command::Tell { client: to })?;
        let number = client.number;
        self.tells.push(Told {
            line,
            client: number,
            to,
        })?;
        Ok(())
    }

    /// The lists of all clients, and the lines from `tell`.
    pub fn into_all(self) -> Result<(ClientLists, Items<Told>), AllocError>
        ensures lists { IfOk result (λ x. x.0 ≡ all_lists self) }
        ensures tells { IfOk result (λ x. x.1 ≡ self.tells) }
    {
        let mut lists = self;
        lists.close()?;
        let Lists {
            whole,
            present: _present,
            tells,
        } = lists;
        Ok((whole, tells))
    }
}
