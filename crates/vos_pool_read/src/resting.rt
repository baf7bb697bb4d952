// What is known of an open pool at rest.
ghost use Rattle.std.specs.Prelude.{◌≡◌, ◌≤◌, ◌<◌, ◌^◌, false, IsTrue};
ghost use Rattle.pmem_alloc.specs.Blocks.{free_count};
ghost use Rattle.pmem_alloc.specs.Map.{blocks_end, free_blocks};
ghost use Rattle.pmem_alloc.specs.Sets.{count_below};
ghost use Rattle.pmem_undo.specs.Settled.{IsAtRest};
ghost use Rattle.vos_pool_base.specs.Tidy.{Leaves};

use base_outside::region::Region;
use vos_pool_base::opened::Opened;

/// Unless it stopped, an open pool whose region tells its bytes is at rest: its gate is closed and a crash leaves
/// what is read. So all that may be left stands, with as many blocks free as it has itself; these are free in what is
/// read. Its region has from 323,584 bytes on, and fewer than 2^32.
pub fn rests<R: Region>(opened: &Opened<R>)
    ensures rest { IsTrue R.tells → opened.now.blocks.undo.stopped ≡ false → IsAtRest (R.image opened.now.blocks.undo.region) (R.may_leave opened.now.blocks.undo.region) }
    ensures left { opened.now.blocks.undo.stopped ≡ false → Leaves R.tells R.extent R.may_leave (free_count opened.now.blocks) opened.now }
    ensures free { IsTrue R.tells → opened.now.blocks.undo.stopped ≡ false
        → free_count opened.now.blocks ≡ count_below (free_blocks (R.extent opened.now.blocks.undo.region) (R.image opened.now.blocks.undo.region)) (blocks_end (R.extent opened.now.blocks.undo.region)) }
    ensures sized { (323584 ≤ R.extent opened.now.blocks.undo.region) × (R.extent opened.now.blocks.undo.region < 2 ^ 32) }
{
    let _size = opened.blocks.size();
}
