// Letters in flight once one of them was heard.
ghost use Rattle.std.specs.Prelude.{◌≡◌, ◌<◌, length, Decides};
ghost use Rattle.world_list.specs.Taken.{IsTaken, IsTakenAt};

use world_base::letter::Letter;
use world_same::lists::is_left;
use world_same::same::Same;

// Whether a letter was taken from this place, and others were sent.
fn is_taken_at(
    after: &[Letter],
    before: &[Letter],
    at: usize,
    letter: &Letter,
    sent: &[Letter],
) -> bool
    requires { at < length before.now }
    ensures { Decides result (IsTakenAt after.now before.now at letter.now sent.now) }
{
    before[at].is_same(letter) && is_left(after, before, at, sent)
}

/// Whether the letters in flight are those before without this one, and then those that were sent.
#[tactic(auto, using(crate::proofs::Taken::taken))]
pub fn is_taken(after: &[Letter], before: &[Letter], letter: &Letter, sent: &[Letter]) -> bool
    ensures { Decides result (IsTaken after.now before.now letter.now sent.now) }
{
    for at in 0..before.len() {
        if is_taken_at(after, before, at, letter, sent) {
            return true;
        }
    }
    false
}
