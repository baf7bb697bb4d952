// What holds of the blocks of an open pool between its calls.
ghost use Rattle.std.specs.Prelude.{◌≡◌, []};
ghost use Rattle.pmem_alloc.specs.Blocks.{IsBlocks, free_count};
ghost use Rattle.vos_pool_held.specs.Resting.{IfAtRest};

use base_outside::region::Region;
use vos_pool_base::opened::Opened;

/// How many blocks are free. Nothing is staged, and unless it stopped a crash leaves what is read.
pub fn free_blocks<R: Region>(opened: &Opened<R>) -> u32
    ensures free { result ≡ free_count opened.now.blocks }
    ensures rests { IfAtRest R.tells R.image R.may_leave opened.now }
    ensures unstaged { opened.now.blocks.undo.staged ≡ [] }
    ensures holds { IsBlocks (R.extent opened.now.blocks.undo.region) R.tells (R.image opened.now.blocks.undo.region) opened.now.blocks.undo.staged opened.now.blocks.undo.stopped opened.now.blocks.map opened.now.blocks.lasting }
{
    let _size = opened.blocks.size();
    opened.blocks.free()
}
