// Rules of fields, by their places.
ghost use Rattle.std.specs.Prelude.{◌≡◌, ◌<◌, All, length};
ghost use Rattle.vos_check_places.specs.Rules.{judged};

use crate::fault::Fault;

/// The place of a field, and whether its rule holds.
#[derive(Clone, Copy)]
pub(crate) struct Rule(pub(crate) usize, pub(crate) bool);

/// The first rule that is broken is at fault, with the byte at its place.
pub(crate) fn judge(fixed: &[u8], rules: &[Rule]) -> Result<(), Fault>
    requires { All (λ r. r.0 < length fixed.now) rules.now }
    ensures { result ≡ judged fixed.now rules.now }
{
    for rule in rules {
        if !rule.1 {
            return Err(Fault::Foreign {
                at: rule.0 as u64,
                byte: fixed[rule.0],
            });
        }
    }
    Ok(())
}
