// Whether a moment is one of some.
ghost use Rattle.std.specs.Prelude.{◌≡◌};
ghost use Rattle.vos_punches.specs.Moments.{has_moment};

use vos_punches::below::values::keys::Moment;
use vos_punches::moments::same_moment;

/// Whether a moment is one of some.
pub fn has_moment(moments: &[Moment], at: Moment) -> bool
    ensures { result ≡ has_moment at moments.now }
{
    moments.iter().any(|one| same_moment(*one, at))
}
