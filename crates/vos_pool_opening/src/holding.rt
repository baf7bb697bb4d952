// An open pool is held with its contents, or its region given back.
ghost use Rattle.std.specs.Prelude.{◌≡◌, ◌+◌, ◌*◌, false, true, All, IfErr, IfOk, IsTrue, Some};
ghost use Rattle.base_outside.specs.Images.{Image};
ghost use Rattle.base_types.specs.Epochs.{restart_floor};
ghost use Rattle.pmem_alloc.specs.Blocks.{free_count};
ghost use Rattle.pmem_undo.specs.Settled.{IsAttachable};
ghost use Rattle.vos_pool_held.specs.vos_contents.Contents.{contents_of};
ghost use Rattle.vos_pool_held.specs.vos_pool_base.Pool.{kept_of};
ghost use Rattle.vos_pool_held.specs.vos_pool_base.Tidy.{IfTidy};
ghost use Rattle.vos_pool_held.specs.vos_turns.Turns.{CanBeNamed};
ghost use Rattle.vos_pool_opening.specs.Beginning.{why_of};

use crate::beginning::{Asked, why_of};
use base_outside::region::Region;
use vos_contents::contents::Contents;
use vos_pool_base::opened::Opened;
use vos_pool_held::held::Held;
use vos_pool_make::cause::OpenCause;
use vos_pool_make::make::OpenNo;
use vos_pool_read::resting::rests;

/// The region of an open pool, and why it isn't held.
pub(crate) fn give_back<R: Region>(opened: Opened<R>, cause: OpenCause) -> OpenNo<R>
    ensures region { result.region ≡ opened.blocks.undo.region }
    ensures cause { result.cause ≡ cause }
    ensures attachable { IsTrue R.tells → (c : Image) → R.may_leave result.region c → IsAttachable (R.extent result.region) c }
{
    let Opened {
        blocks,
        tables: _tables,
    } = opened;
    OpenNo {
        region: blocks.into_undo().into_region(),
        cause,
    }
}

/// An open pool with what it keeps in memory. Its floor is the one that its lease gives.
pub(crate) fn hold<R: Region>(opened: Opened<R>, contents: Contents, asked: &Asked) -> Held<R>
    requires running { opened.blocks.undo.stopped ≡ false }
    requires kept { IsTrue R.tells → kept_of R.tells R.extent R.image opened ≡ Some (contents_of contents) }
    requires tidy { IfTidy R.tells R.extent R.image opened }
    requires target { opened.table.header.target ≡ asked.now.target }
    requires targets { opened.table.header.targets ≡ asked.now.targets }
    requires named { All CanBeNamed (contents_of contents).versions }
    ensures opened { result.opened ≡ opened }
    ensures contents { contents_of result.contents ≡ contents_of contents }
    ensures free { result.free ≡ free_count opened.blocks }
    ensures floor { result.floor.0 ≡ restart_floor (contents_of contents).lease }
    ensures why { result.why ≡ why_of asked.now.beginning }
    ensures target_is { result.target ≡ asked.now.target }
    ensures targets_are { result.targets ≡ asked.now.targets }
{
    rests(&opened);
    let free = opened.blocks.free();
    let floor = contents.restart_floor();
    Held {
        opened,
        contents,
        free,
        floor,
        why: why_of(asked.beginning),
        target: asked.target,
        targets: asked.targets,
    }
}
