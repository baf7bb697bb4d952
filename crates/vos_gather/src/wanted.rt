// Which writes are looked for.
ghost use Rattle.std.specs.Prelude.{◌≡◌};
ghost use Rattle.std.specs.Option.{option_copied};
ghost use Rattle.vos_punches.specs.Moments.{has_moment};
ghost use Rattle.vos_gather.specs.Wanted.{is_of_change, is_of_moments, is_of_path, want_of, wants};

use base_types::id::AttemptId;
use base_types::path::Path;
use vos_levels::change::Change;
use vos_punches::moments::same_moment;
use vos_values::keys::Moment;

/// Punches, and updates besides or not: those that a change takes, of one of some moments, under a path. What
/// isn't given leaves it open.
#[derive(Clone, Copy)]
pub struct Wanted<'a> {
    pub updates: bool,
    pub change: Option<Change>,
    pub moments: Option<&'a [Moment]>,
    pub under: Option<&'a Path>,
}

fn is_of_change(change: Option<Change>, by: AttemptId, done: bool) -> bool
    ensures { result ≡ is_of_change change by done }
{
    match change {
        Some(change) => change.takes(by, done),
        None => true,
    }
}

fn has_moment(moments: &[Moment], at: Moment) -> bool
    ensures { result ≡ has_moment at moments.now }
{
    moments.iter().any(|one| same_moment(*one, at))
}

fn is_of_moments(moments: Option<&[Moment]>, at: Moment) -> bool
    ensures { result ≡ is_of_moments (option_copied moments.entry) at }
{
    match moments {
        Some(moments) => has_moment(moments, at),
        None => true,
    }
}

fn is_of_path(under: Option<&Path>, path: &Path) -> bool
    ensures { result ≡ is_of_path (option_copied under.entry) path.now }
{
    match under {
        Some(under) => under.leads_to(path),
        None => true,
    }
}

impl Wanted<'_> {
    /// Whether a write of a path, of an attempt, done or not, and of a moment is among them.
    pub fn wants(&self, path: &Path, by: AttemptId, done: bool, at: Moment) -> bool
        ensures { result ≡ wants (want_of self.now) path.now by done at }
    {
        is_of_change(self.change, by, done)
            && is_of_moments(self.moments, at)
            && is_of_path(self.under, path)
    }
}
