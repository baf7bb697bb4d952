// The fuses of targets, before a run and after it.
ghost use Rattle.std.specs.Prelude.{◌≡◌, ◌≤◌, ℕ, length, slice_get, Some, true, false};
ghost use Rattle.base_types.specs.declared.script.StopDecl.{StopDecl};
ghost use Rattle.run_loop.specs.Below.{AreArmed, AreUnfused};
ghost use Rattle.run_watch.specs.Watches.{WatchNow};

use base_outside::clock::Clock;
use run_loop::order::Target;
use run_watch::watch::Watch;
use vos_store::store::Fuse;

// The fuse of each target's first stop line is set; none where it has none.
pub fn arm<S: Fuse, C: Clock>(targets: &mut [Target<S, C>], watch: &mut Watch)
    requires few { length targets.old ≤ 256 }
    ensures { AreArmed S.durable S.state S.may targets.old targets.new watch.old watch.new }
{
    for t in 0..targets.len() {
        targets[t].fuse(watch.take_fuse(t as u8));
    }
}

// No fuse is set any more.
pub fn disarm<S: Fuse, C: Clock>(targets: &mut [Target<S, C>])
    ensures { AreUnfused S.durable S.state S.may targets.old targets.new }
{
    for t in 0..targets.len() {
        targets[t].fuse(0);
    }
}
