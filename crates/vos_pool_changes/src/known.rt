// What is known of a pool that is held.
ghost use Rattle.std.specs.Prelude.{◌≡◌, false, All, IsTrue, Some};
ghost use Rattle.pmem_alloc.specs.Blocks.{free_count};
ghost use Rattle.vos_pool_base.specs.Pool.{HasStood, kept_of};
ghost use Rattle.vos_pool_base.specs.Tidy.{IfTidy};
ghost use Rattle.vos_pool_held.specs.vos_contents.Contents.{contents_of};
ghost use Rattle.vos_pool_held.specs.vos_turns.Turns.{CanBeNamed};

use base_outside::region::Region;
use vos_pool_base::opened::Opened;
use vos_pool_held::held::Held;

// Where its region tells its bytes, unless it stopped, something stands in an open pool.
fn stands<R: Region>(opened: &Opened<R>)
    ensures { IsTrue R.tells → opened.now.blocks.undo.stopped ≡ false → HasStood (R.extent opened.now.blocks.undo.region) (R.image opened.now.blocks.undo.region) opened.now.table }
{
    let _size = opened.blocks.size();
}

/// A pool that is held is tidy. Unless it stopped it keeps what it has in memory, where its region tells its bytes, and
/// as many blocks are free as it tells. It was made for as many targets as it says, and its versions can be named.
pub fn known<R: Region>(held: &Held<R>)
    ensures tidy { IfTidy R.tells R.extent R.image held.now.opened }
    ensures kept { IsTrue R.tells → held.now.opened.blocks.undo.stopped ≡ false → kept_of R.tells R.extent R.image held.now.opened ≡ Some (contents_of held.now.contents) }
    ensures free { held.now.opened.blocks.undo.stopped ≡ false → held.now.free ≡ free_count held.now.opened.blocks }
    ensures targets { held.now.opened.table.header.targets ≡ held.now.targets }
    ensures named { All CanBeNamed (contents_of held.now.contents).versions }
{
    stands(&held.opened);
}
