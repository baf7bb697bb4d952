// Free blocks after changes that take none.
ghost use Rattle.std.specs.Prelude.{Decides};
ghost use Rattle.replay_base.specs.Onward.{FreeAfter};

/// Whether so many blocks may be free after changes that take none, or after no change.
pub fn is_free(changed: bool, before: u32, after: u32) -> bool
    ensures { Decides result (FreeAfter changed before after) }
{
    if changed {
        before <= after
    } else {
        after == before
    }
}
