// The blocks of a region: how many are free, and takes and gives.
ghost use Rattle.std.specs.Prelude.{◌≡◌, ◌+◌, ◌<◌, ◌≤◌, ◌^◌, [], IfOk, IfSome};
ghost use Rattle.pmem_alloc.specs.Blocks.{IsOpened};

use base_outside::sure_region::SureRegion;
use pmem_alloc::blocks::Blocks;
use pmem_pages::pages::Pages;
use pmem_undo::undo_region::UndoRegion;
use std::alloc::Global;

// The blocks of a fresh region, with nothing staged.
fn fresh(alloc: Global, size: u32) -> Option<Blocks<SureRegion>>
    requires { 323584 ≤ size }
    ensures { IfSome result (λ b. b.undo.staged ≡ []) }
{
    let region = SureRegion::new(alloc, size as u64).ok()?;
    let undo = UndoRegion::format(alloc, region).ok()?;
    Blocks::open(undo).ok()
}

// How many are free in it.
fn free_in(alloc: Global, size: u32) -> u32
    requires { 323584 ≤ size }
{
    match fresh(alloc, size) {
        Some(blocks) => blocks.free(),
        None => u32::MAX,
    }
}

#[test]
fn all_blocks_of_a_fresh_region_are_free(rt: HostRuntime) {
    let alloc = rt.alloc();
    assert!(rt; free_in(alloc, 323584) == 0);
    assert!(rt; free_in(alloc, 323584 + 255) == 0);
    assert!(rt; free_in(alloc, 323584 + 256) == 1);
    assert!(rt; free_in(alloc, 2097152) == 6928);
    assert!(rt; free_in(alloc, 33554432) == 129808);
}

// Takes three blocks: the first and the third of them, how many are free then, and what is left to stage.
fn take_three(blocks: &mut Blocks<SureRegion>) -> Option<([u32; 3], (u32, u32))>
    requires { blocks.old.undo.staged ≡ [] }
{
    match blocks.take(3) {
        Ok(first) => {
            let third = blocks.at(2);
            Some(([first, third, blocks.free()], blocks.left()))
        }
        Err(_) => None,
    }
}

// Takes a block and gives it back. It tells the block, and how many are free then.
fn take_and_give(blocks: &mut Blocks<SureRegion>) -> Option<(u32, u32)>
    requires { blocks.old.undo.staged ≡ [] }
{
    match blocks.take(1) {
        Ok(block) => {
            blocks.give(block);
            Some((block, blocks.free()))
        }
        Err(_) => None,
    }
}

fn three_taken(alloc: Global) -> Option<([u32; 3], (u32, u32))> {
    let mut blocks = fresh(alloc, 2097152)?;
    take_three(&mut blocks)
}

fn one_given(alloc: Global) -> Option<(u32, u32)> {
    let mut blocks = fresh(alloc, 2097152)?;
    take_and_give(&mut blocks)
}

// Takes three blocks and drops the stage, and takes two again and commits: the first of the two, and how many are
// free in the region then.
fn two_committed(alloc: Global) -> Option<(u32, u32)> {
    let mut blocks = fresh(alloc, 2097152)?;
    let _three = take_three(&mut blocks);
    blocks.drop_stage();
    let first = blocks.take(2).ok()?;
    let committed = blocks.commit().is_ok();
    let blocks = Blocks::open(blocks.into_undo()).ok()?;
    if committed {
        Some((first, blocks.free()))
    } else {
        None
    }
}

// The only block of a region, and whether there is another.
fn only_block(alloc: Global) -> Option<(u32, bool)> {
    let mut blocks = fresh(alloc, 323584 + 256)?;
    let first = blocks.take_block().ok()?;
    Some((first, blocks.take_block().is_ok()))
}

#[test]
fn the_least_blocks_are_taken(rt: HostRuntime) {
    let alloc = rt.alloc();
    let taken = ([1264, 1266, 6925], (1021, 255997));
    assert!(rt; three_taken(alloc) == Some(taken));
    assert!(rt; one_given(alloc) == Some((1264, 6928)));
    assert!(rt; two_committed(alloc) == Some((1264, 6926)));
    assert!(rt; only_block(alloc) == Some((1264, false)));
}
