// All versions of an open pool are read.
ghost use Rattle.std.specs.Prelude.{◌≡◌, ◌↔◌, ◌<◌, [], false, true, All, IfOk, IsErrOf, IsTrue, OnOk, Ok, ⊤};
ghost use Rattle.std.specs.List.{list_all};
ghost use Rattle.daos_model.specs.Durables.{is_version_in_form};
ghost use Rattle.pmem_alloc.specs.Pages.{shown};
ghost use Rattle.pmem_alloc.specs.Still.{IsSince, IsStill};
ghost use Rattle.pmem_tree_base.specs.Calls.{Goes};
ghost use Rattle.vos_chain.specs.declared.refusal.PiecesNo.TheVariants.{Stopped as stopped_no};
ghost use Rattle.vos_levels.specs.Calls.{HasThing, OfThing};
ghost use Rattle.vos_levels.specs.Levels.{hung_root};
ghost use Rattle.vos_pool_base.specs.Pool.{HasStood};
ghost use Rattle.vos_pool_base.specs.vos_image.Kept.{Stored};
ghost use Rattle.vos_pool_base.specs.vos_path.Objects.{objects_owner, objects_versions};
ghost use Rattle.vos_pool_stage.specs.Staged.{StandsInPool, WhereTold, pool_of};
ghost use Rattle.vos_pool_steps.specs.Quiet.{IsQuietStep};
ghost use Rattle.vos_turns.specs.Turns.{CanBeNamed};

use crate::sound::are_sound;
use base_outside::region::Region;
use daos_model::durable::Version;
use pmem_alloc::blocks::Blocks;
use pmem_alloc::stage::{Origin, Staging};
use pmem_pages::steps::Steps;
use pmem_tree::tree::Tree;
use std::alloc::Global;
use std::marker::Brand;
use std::sync::ledger::{Blank, Ledger};
use vos_chain::refusal::PiecesNo;
use vos_load::objects::read_versions;
use vos_pool_base::below::tables::table::Tables;
use vos_pool_base::opened::Opened;

// All versions on blocks of which this is so that the origin says.
fn read_as<R: Region, L: Ledger, O: Origin>(
    alloc: Global,
    blocks: Blocks<R>,
    objects: Tree,
    blank: Blank,
) -> (Blocks<R>, Result<Vec<Version>, PiecesNo>)
    requires name { blank.name ≡ L.name }
    requires parts { blank.parts ≡ L.parts }
    requires some { 0 < blank.parts }
    requires since { IsSince O.size O.read O.left O.lasting (R.extent blocks.undo.region) R.tells (R.image blocks.undo.region) (R.may_leave blocks.undo.region) blocks.lasting }
    requires kind { objects.kind ≡ 1 }
    requires here { HasThing R.tells objects_owner hung_root (shown R.image blocks) objects.root (λ g. ⊤) }
    ensures still { IsSince O.size O.read O.left O.lasting (R.extent result.0.undo.region) R.tells (R.image result.0.undo.region) (R.may_leave result.0.undo.region) result.0.lasting }
    ensures read { IfOk result.1 (λ versions. OfThing R.tells objects_owner hung_root (shown R.image blocks) objects.root (λ g. versions.items ≡ objects_versions g)) }
    ensures goes { Goes (λ b. b.undo.stopped) (λ b. R.count b.undo.region) (λ b. R.burns b.undo.region) blocks result.0 }
    ensures stopped { IsErrOf result.1 stopped_no → result.0.undo.stopped ≡ true }
{
    let mut steps = Steps::<L>::new(blank);
    let mut pages = Staging::<R, O>::new(blocks);
    let read = read_versions(objects, &mut pages, alloc, &mut steps);
    (pages.into_blocks(), read)
}

// All versions on blocks. What is read of their region stays, and no more may be left of it.
fn read_blocks<R: Region>(
    alloc: Global,
    blocks: Blocks<R>,
    objects: Tree,
) -> (Blocks<R>, Result<Vec<Version>, PiecesNo>)
    requires kind { objects.kind ≡ 1 }
    requires here { HasThing R.tells objects_owner hung_root (shown R.image blocks) objects.root (λ g. ⊤) }
    ensures still { IsStill R.extent R.tells R.image R.may_leave blocks result.0 }
    ensures read { IfOk result.1 (λ versions. OfThing R.tells objects_owner hung_root (shown R.image blocks) objects.root (λ g. versions.items ≡ objects_versions g)) }
    ensures goes { Goes (λ b. b.undo.stopped) (λ b. R.count b.undo.region) (λ b. R.burns b.undo.region) blocks result.0 }
    ensures stopped { IsErrOf result.1 stopped_no → result.0.undo.stopped ≡ true }
{
    read_as::<R, Brand, Brand>(alloc, blocks, objects, Blank::new(1))
}

// The blocks come back to the pool in whose region this stands.
fn give_back<R: Region>(blocks: Blocks<R>, tables: Tables) -> Opened<R>
    requires stood { WhereTold R.tells blocks (HasStood (R.extent blocks.undo.region) (R.image blocks.undo.region) tables) }
    ensures table { result.table ≡ tables }
    ensures map { result.blocks.map ≡ blocks.lasting }
    ensures still { IsStill R.extent R.tells R.image R.may_leave blocks result.blocks }
    ensures stopped { result.blocks.undo.stopped ≡ blocks.undo.stopped }
    ensures count { R.count result.blocks.undo.region ≡ R.count blocks.undo.region }
    ensures burns { R.burns result.blocks.undo.region ≡ R.burns blocks.undo.region }
{
    let mut blocks = blocks;
    blocks.drop_stage();
    Opened { blocks, tables }
}

// The versions that were read, where objects can have each of them and the region hasn't stopped.
fn answer(read: Result<Vec<Version>, PiecesNo>, stopped: bool) -> Result<Vec<Version>, PiecesNo>
    requires stopped { IsErrOf read stopped_no → stopped ≡ true }
    ensures read { IfOk result (λ versions. read ≡ Ok versions) }
    ensures named { IfOk result (λ versions. All CanBeNamed versions.items) }
    ensures form { IfOk result (λ versions. list_all is_version_in_form versions.items ≡ true) }
    ensures stops { IsErrOf result stopped_no ↔ (stopped ≡ true) }
{
    if stopped {
        return Err(PiecesNo::Stopped);
    }
    let versions = read?;
    if !are_sound(&versions) {
        return Err(PiecesNo::Memory);
    }
    Ok(versions)
}

// All versions of a pool that hasn't stopped.
fn read_running<R: Region>(
    alloc: Global,
    blocks: Blocks<R>,
    tables: Tables,
) -> (Opened<R>, Result<Vec<Version>, PiecesNo>)
    requires running { blocks.undo.stopped ≡ false }
    requires unstaged { blocks.undo.staged ≡ [] }
    requires unchanged { blocks.map ≡ blocks.lasting }
    requires stood { IsTrue R.tells → HasStood (R.extent blocks.undo.region) (R.image blocks.undo.region) tables }
    ensures read { IfOk result.1 (λ versions. IsTrue R.tells → (x : Stored) → StandsInPool R.extent R.image (pool_of blocks tables) x → versions.items ≡ objects_versions x.0) }
    ensures named { IfOk result.1 (λ versions. All CanBeNamed versions.items) }
    ensures form { IfOk result.1 (λ versions. list_all is_version_in_form versions.items ≡ true) }
    ensures table { result.0.table ≡ tables }
    ensures map { result.0.blocks.map ≡ blocks.map }
    ensures still { IsStill R.extent R.tells R.image R.may_leave blocks result.0.blocks }
    ensures quiet { IsQuietStep R.tells R.extent R.count R.burns R.image R.may_leave (pool_of blocks tables) result.0 }
    ensures stopped { IsErrOf result.1 stopped_no ↔ (result.0.blocks.undo.stopped ≡ true) }
{
    let _size = blocks.size();
    let objects = Tree {
        kind: 1,
        root: tables.objects(),
    };
    let (blocks, read) = read_blocks(alloc, blocks, objects);
    let stopped = blocks.is_stopped();
    let opened = give_back(blocks, tables);
    (opened, answer(read, stopped))
}

/// All versions of an open pool, settled or not, with their bytes. Nothing is written: what stands in the pool
/// stays, and so does what it keeps. Each version that is answered can be named, and is in form.
///
/// # Errors
///
/// `Stopped` comes exactly where the pool has stopped then: where it had before, or a count of its region rose in
/// this call. `Memory` comes for want of memory, and where what is read are no versions that objects can have, as
/// it may be of a region that doesn't tell its bytes.
pub fn read_pool<R: Region>(
    alloc: Global,
    opened: Opened<R>,
) -> (Opened<R>, Result<Vec<Version>, PiecesNo>)
    ensures read { IfOk result.1 (λ versions. IsTrue R.tells → (x : Stored) → StandsInPool R.extent R.image opened x → versions.items ≡ objects_versions x.0) }
    ensures named { IfOk result.1 (λ versions. All CanBeNamed versions.items) }
    ensures form { IfOk result.1 (λ versions. list_all is_version_in_form versions.items ≡ true) }
    ensures stands { IsTrue R.tells → (x : Stored) → StandsInPool R.extent R.image opened x → StandsInPool R.extent R.image result.0 x }
    ensures table { result.0.table ≡ opened.table }
    ensures map { result.0.blocks.map ≡ opened.blocks.map }
    ensures quiet { IsQuietStep R.tells R.extent R.count R.burns R.image R.may_leave opened result.0 }
    ensures stopped { IsErrOf result.1 stopped_no ↔ (result.0.blocks.undo.stopped ≡ true) }
    ensures running { OnOk result.1 (result.0.blocks.undo.stopped ≡ false) }
{
    if opened.blocks.is_stopped() {
        return (opened, Err(PiecesNo::Stopped));
    }
    let Opened { blocks, tables } = opened;
    read_running(alloc, blocks, tables)
}
