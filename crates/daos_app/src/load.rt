// Generates the script of a load.
ghost use Rattle.std.specs.Prelude.{◌≡◌, ◌<◌, ◌≤◌, IfOk};
ghost use Rattle.daos_gen.specs.Scripts.{script_of};
ghost use Rattle.base_types.specs.Scripts.{IsInForm};
ghost use Rattle.script_traits.specs.Keyed.{ScriptHasKeys};

use base_types::items::Memory;
use base_types::script::Script;
use daos_gen::loads::laws_of_loads;
use daos_gen::script::make_script;
use std::alloc::Global;

/// The generated script of a load of so many commands, 1 to 10,000, on so many targets.
///
/// # Errors
///
/// For want of memory alone.
pub fn load_script(alloc: Global, count: u32, targets: u8) -> Result<Script, Memory>
    requires some { 0 < count }
    requires few { count ≤ 10000 }
    requires some_targets { 1 ≤ targets }
    requires few_targets { targets ≤ 64 }
    ensures exact { IfOk result (λ script. script ≡ script_of targets count) }
    ensures form { IfOk result (λ script. IsInForm targets script) }
    ensures keys { IfOk result (λ script. ScriptHasKeys script) }
{
    laws_of_loads();
    make_script(alloc, count, targets)
}
