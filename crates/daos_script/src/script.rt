// Reads a script.
ghost use Rattle.std.specs.Prelude.{◌≡◌, ◌≤◌, ◌+◌, IfOk, OnOk, length, take};
ghost use Rattle.std.specs.List.{list_all};
ghost use Rattle.base_types.specs.Scripts.{IsInForm};
ghost use Rattle.script_words.specs.Reads.{Gives};
ghost use Rattle.daos_script.specs.Located.{GivesAt};
ghost use Rattle.daos_script.specs.Steps.{tx_of, within_of};
ghost use Rattle.script_lines.specs.Fits.{LineFits};
ghost use Rattle.daos_script.specs.Readings.{bad_tell, ended, ended_lists, is_bad, is_passed, is_shown, long_line, open_line, read_line, said, script_of, script_with, with_line};
ghost use Rattle.daos_script.specs.SoFar.{IsSoFar};

use crate::client::Client;
use crate::fault::ScriptNo;
use crate::lists::{Lists, Told};
use crate::reading::Reading;
use base_text::parts::Parts;
use base_types::fault::{ScriptFault, Why};
use base_types::script::{ClientLists, Script};
use script_lines::line::Line;
use script_lines::lines::line_at;
use script_words::decls::Decls;
use script_words::fault::LineNo;
use std::alloc::Global;

/// The most bytes that a script has: 16 MiB.
pub const TEXT_MAX: u32 = 16_777_216;

fn are_shown(text: &[u8]) -> bool
    ensures { result ≡ list_all is_shown text.now }
{
    text.iter().all(|b| *b >= 32 && *b <= 126)
}

// Whether a line is passed over: it is empty, or begins with `#`.
fn is_passed(text: &[u8]) -> bool
    ensures { result ≡ is_passed text.now }
{
    match text.split_first() {
        None => true,
        Some((first, _)) => *first == b'#',
    }
}

// The first 16 MiB of a text.
fn first_bytes(bytes: &[u8]) -> &[u8]
    ensures exact { result.now ≡ take 16777216 bytes.now }
    ensures short { length result.now ≤ 16777216 }
{
    if bytes.len() <= TEXT_MAX as usize {
        return bytes;
    }
    &bytes[..TEXT_MAX as usize]
}

// The number of the line in which the first byte past 16 MiB stands, or 0 where there is none.
#[tactic(auto, unfolding(crate::specs::Readings::long_line))]
fn long_line(bytes: &[u8]) -> u32
    ensures { result ≡ long_line bytes.now }
{
    if bytes.len() <= TEXT_MAX as usize {
        return 0;
    }
    let ends = first_bytes(bytes).iter().filter(|b| **b == b'\n').count();
    ends as u32 + 1
}

// Whether a client is told that isn't there, or itself.
fn is_bad(clients: usize, told: &Told) -> bool
    ensures { result ≡ is_bad clients told.now }
{
    told.to == told.client || usize::from(told.to) >= clients
}

// The line of the first such.
fn bad_tell(clients: usize, tells: &[Told]) -> Option<u32>
    ensures { result ≡ bad_tell clients tells.now }
{
    tells
        .iter()
        .find(|told| is_bad(clients, *told))
        .map(|told| told.line)
}

// The line of the transaction that isn't ended.
fn open_line(client: &Option<Client>) -> Option<u32>
    ensures { result ≡ open_line (tx_of client.now) }
{
    match client {
        None => None,
        Some(client) => match &client.tx {
            None => None,
            Some(tx) => Some(tx.line),
        },
    }
}

// The lists of all clients, unless a transaction isn't ended, or a client is told that isn't there.
#[tactic(auto, unfolding(crate::specs::Readings::ended_lists))]
fn ended_lists(lists: Lists) -> Result<ClientLists, ScriptNo>
    ensures { GivesAt (λ l. l) result (ended_lists lists) }
{
    if let Some(line) = open_line(&lists.present.client) {
        drop(lists);
        return Err(ScriptNo::Fault(ScriptFault {
            line,
            why: Why::BadBlock,
        }));
    }
    let (clients, tells) = lists.into_all()?;
    if let Some(line) = bad_tell(clients.len(), tells.as_slice()) {
        return Err(ScriptNo::Fault(ScriptFault {
            line,
            why: Why::BadName,
        }));
    }
    Ok(clients)
}

// The script of what is declared and these lists.
fn script_with(decls: Decls, clients: ClientLists) -> Script
    ensures { result ≡ script_with decls clients }
{
    let Decls {
        targets,
        conts,
        objs,
        olds,
        drops,
        stops,
        made: _made,
        own: _own,
    } = decls;
    Script {
        targets,
        conts: conts.into_items(),
        objs: objs.into_items(),
        olds: olds.into_items(),
        drops,
        stops,
        clients,
    }
}

impl Reading {
    // What a line says.
    #[tactic(auto, unfolding(crate::specs::Readings::said))]
    fn said(&self, alloc: Global, text: &[u8]) -> Result<Line, LineNo>
        ensures exact { Gives (λ l. l) result (said self.now text.now) }
        ensures fits { IfOk result (LineFits self.now.decls (within_of self.now.lists.present.client)) }
    {
        if !are_shown(text) {
            return Err(LineNo::Fault(Why::NotAscii));
        }
        let mut words = Parts::new(b' ', text);
        line_at(alloc, &self.decls, self.lists.present.within(), &mut words)
    }

    // One more line.
    #[tactic(auto, unfolding(crate::specs::Readings::read_line))]
    fn read_line(&mut self, alloc: Global, at: u32, text: &[u8]) -> Result<(), LineNo>
        requires before { at ≤ 16777217 }
        requires form { IsSoFar self.old.decls.targets at self.old }
        ensures exact { Gives (λ done. self.new) result (read_line at self.old text.now) }
        ensures form { OnOk result (IsSoFar self.old.decls.targets (at + 1) self.new) }
    {
        let line = self.said(alloc, text)?;
        self.add_line(alloc, at, line)?;
        Ok(())
    }

    // The line of this number.
    #[tactic(auto, unfolding(crate::specs::Readings::with_line))]
    fn with_line(&mut self, alloc: Global, long: u32, at: u32, text: &[u8]) -> Result<(), ScriptNo>
        requires before { at ≤ 16777217 }
        requires form { IsSoFar self.old.decls.targets at self.old }
        ensures exact { GivesAt (λ done. self.new) result (with_line long at self.old text.now) }
        ensures form { OnOk result (IsSoFar self.old.decls.targets (at + 1) self.new) }
    {
        if at == long {
            return Err(ScriptNo::Fault(ScriptFault {
                line: at,
                why: Why::TooLong(TEXT_MAX),
            }));
        }
        if is_passed(text) {
            return Ok(());
        }
        match self.read_line(alloc, at, text) {
            Ok(()) => Ok(()),
            Err(LineNo::Memory) => Err(ScriptNo::Memory),
            Err(LineNo::Fault(why)) => Err(ScriptNo::Fault(ScriptFault { line: at, why })),
        }
    }

    // The script, unless a transaction isn't ended, or a client is told that isn't there.
    #[tactic(auto, unfolding(crate::specs::Readings::ended))]
    fn ended(self) -> Result<Script, ScriptNo>
        ensures { GivesAt (λ s. s) result (ended self) }
    {
        let Reading { decls, lists } = self;
        match ended_lists(lists) {
            Ok(clients) => Ok(script_with(decls, clients)),
            Err(no) => {
                drop(decls);
                Err(no)
            }
        }
    }
}

/// Reads a script for so many targets: it gives the script exactly of a text of the grammar, and
/// else the first faulty line, counted from 1, and what is wrong with it.
///
/// # Errors
///
/// `Fault` exactly where the text stands for no script; `Memory`.
#[tactic(auto, unfolding(crate::specs::Readings::script_of))]
pub fn read_script(alloc: Global, bytes: &[u8], targets: u8) -> Result<Script, ScriptNo>
    // The script that the text stands for, or its first fault.
    ensures exact { GivesAt (λ s. s) result (script_of targets bytes.now) }

    // Its names are declared, its numbers are in their ranges, and it keeps the limits.
    ensures form { IfOk result (IsInForm targets) }
{
    let long = long_line(bytes);
    let mut reading = Reading::new(alloc, targets);
    let mut lines = Parts::new(b'\n', first_bytes(bytes));
    let mut at: u32 = 1;
    while let Some(line) = lines.take_part() {
        if let Err(no) = reading.with_line(alloc, long, at, line) {
            drop(reading);
            return Err(no);
        }
        at += 1;
    }
    let script = reading.ended()?;
    Ok(script)
}
