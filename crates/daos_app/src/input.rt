// Reads the script from the source.
ghost use Rattle.std.specs.Prelude.{◌≤◌, IfOk, IfErr, IsErrOf, length};
ghost use Rattle.base_outside.specs.Causes.{Rose};
ghost use Rattle.daos_app.specs.Inputs.{IsRead, IsScriptRefused, RefusesFor};
ghost use Rattle.base_types.specs.Scripts.{IsInForm};
ghost use Rattle.daos_script.specs.Grammar.{IsScriptText};
ghost use Rattle.script_traits.specs.Keyed.{ScriptHasKeys};

use base_outside::source::{ReadNo, Source, read_most};
use base_types::fault::ScriptFault;
use base_types::script::Script;
use daos_script::fault::ScriptNo;
use daos_script::keys::laws_of_keys;
use daos_script::laws::texts_are_short;
use daos_script::script::read_script;
use std::alloc::Global;
use thiserror::Error;

// One byte more than a script has at most: with these the first fault of a longer text is known.
const READ_MAX: usize = 16 * 1024 * 1024 + 1;

/// Why no script was read.
#[derive(Clone, Copy, Debug, Error)]
pub enum InputNo {
    /// The source failed.
    #[error("read fault")]
    Fault,
    /// The bytes have a fault.
    #[error("no script")]
    Refused(ScriptFault),
    /// There was no memory.
    #[error("out of memory")]
    Memory,
}

// The script of a text.
fn script_in(alloc: Global, bytes: &[u8], targets: u8) -> Result<Script, InputNo>
    requires some { 1 ≤ targets }
    requires few { targets ≤ 64 }
    ensures grammar { IfOk result (λ script. IsScriptText targets bytes.now script) }
    ensures form { IfOk result (λ script. IsInForm targets script) }
    ensures keys { IfOk result (λ script. ScriptHasKeys script) }
    ensures refused { IfErr result (IsScriptRefused targets bytes.now) }
    ensures short { IfOk result (λ script. length bytes.now ≤ 16777216) }
{
    laws_of_keys();
    texts_are_short();
    match read_script(alloc, bytes, targets) {
        Ok(script) => Ok(script),
        Err(ScriptNo::Fault(fault)) => Err(InputNo::Refused(fault)),
        Err(ScriptNo::Memory) => Err(InputNo::Memory),
    }
}

/// Reads a source to its end, and the script for so many targets that its bytes are.
///
/// # Errors
///
/// `Fault` only where the source's count of faults rose in this call. `Refused` exactly where the
/// bytes, to the source's end or to 16,777,217 of them, are no script, with the first fault.
pub fn read_input<S: Source>(alloc: Global, source: &mut S, targets: u8) -> Result<Script, InputNo>
    requires some { 1 ≤ targets }
    requires few { targets ≤ 64 }
    ensures script { IfOk result (λ script. IsRead targets (S.left source.old) (S.left source.new) script) }
    ensures form { IfOk result (λ script. IsInForm targets script) }
    ensures keys { IfOk result (λ script. ScriptHasKeys script) }
    ensures refused { IfErr result (RefusesFor targets (S.left source.old) (S.left source.new)) }
    ensures fault { IsErrOf result InputNo.Fault → Rose (S.count source.old) (S.count source.new) }
    ensures later { S.count source.old ≤ S.count source.new }
{
    let bytes = match read_most(alloc, source, READ_MAX) {
        Ok(bytes) => bytes,
        Err(ReadNo::Fault) => return Err(InputNo::Fault),
        Err(ReadNo::TooLong | ReadNo::Memory) => return Err(InputNo::Memory),
    };
    script_in(alloc, &bytes, targets)
}
