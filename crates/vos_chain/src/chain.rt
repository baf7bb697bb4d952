// A chain of blocks that holds bytes.
ghost use Rattle.std.specs.Prelude.{◌≡◌, ◌⊎◌, ◌≤◌, ◌<◌, ◌+◌, ◌*◌, ◌^◌, true, Some, None, IfOk, OnOk, OnErr, IsErr, IsErrOf, IsTrue, ℕ, List, ◌++◌, take, drop, length};
ghost use Rattle.pmem_pages.specs.Blocks.{IsSpent, IsTaken, put};
ghost use Rattle.pmem_pages.specs.Owners.{Changed, maybe};
ghost use Rattle.vos_levels.specs.pmem_tree_base.Calls.{Goes, Rests};
ghost use Rattle.vos_levels.specs.pmem_tree_base.declared.refusal.TreeNo.{TreeNo};
ghost use Rattle.vos_levels.specs.vos_values.Links.{link_bytes, next_in, part_in};
ghost use Rattle.vos_chain.specs.Chains.{chain_owner};
ghost use Rattle.vos_chain.specs.Made.{HasChain, HasFewer, MadeChain, OfChain, chain_blocks};
ghost use Rattle.vos_chain.specs.declared.refusal.PiecesNo.TheVariants.{Stopped as stopped_no};

use crate::refusal::PiecesNo;
use base_types::items::{Items, Vec8};
use pmem_pages::BLOCK;
use pmem_pages::pages::Pages;
use pmem_pages::steps::Steps;
use std::alloc::Global;
use std::sync::ledger::Ledger;
use vos_levels::below::tree_base::refusal::TreeNo;
use vos_levels::below::values::links::{PART, link_bytes, read_next};

// Puts a block in front of a chain.
fn put_link<P: Pages>(pages: &mut P, next: u32, part: &[u8]) -> Result<u32, TreeNo>
    requires { length part.now ≤ 248 }
    ensures first { IfOk result (λ b. (1264 ≤ b) × (b < 2 ^ 32)) }
    ensures was_free { IfOk result (λ b. IsTrue P.tells → P.blocks pages.old b ≡ None) }
    ensures made { IfOk result (λ b. IsTrue P.tells → P.blocks pages.new ≡ put (P.blocks pages.old) b (Some (link_bytes next part.now))) }
    ensures no_block { IsErrOf result TreeNo.NoBlock → (P.budget pages.old).free ≡ 0 }
    ensures too_much { IsErrOf result TreeNo.TooMuch → HasFewer 2 257 (P.budget pages.old) }
    ensures few_left { IsErrOf result TreeNo.TooMuch → HasFewer 1 256 (P.budget pages.new) }
    ensures not_stopped { IsErrOf result TreeNo.Stopped → ⊥ }
    ensures staged { IsSpent 2 257 (P.budget pages.old) (P.budget pages.new) }
    ensures free { OnOk result ((P.budget pages.new).free + 1 ≡ (P.budget pages.old).free) }
    ensures rests { Rests P.stopped P.count P.burns pages.old pages.new }
{
    let block = pages.take_block()?;
    let bytes = link_bytes(next, part);
    pages.stage_block(block, &bytes)?;
    Ok(block)
}

/// Writes bytes into a chain of blocks that it takes: the first block, or 0 where there are no bytes.
///
/// # Errors
///
/// `NoBlock` comes only where fewer blocks are free than the bytes need, and `TooMuch` only where fewer
/// ranges or bytes are left to stage than that takes. After `TooMuch` no block more can be staged.
/// After one the stage has to be dropped.
pub fn write_chain<P: Pages>(pages: &mut P, bytes: &[u8]) -> Result<u32, TreeNo>
    requires { length bytes.now ≤ 65535 }
    ensures made { IfOk result (λ b. IsTrue P.tells → MadeChain (P.blocks pages.old) bytes.now (P.blocks pages.new) b) }
    ensures no_block { IsErrOf result TreeNo.NoBlock → (P.budget pages.old).free < chain_blocks (length bytes.now) }
    ensures too_much { IsErrOf result TreeNo.TooMuch → HasFewer (2 * chain_blocks (length bytes.now)) (257 * chain_blocks (length bytes.now)) (P.budget pages.old) }
    ensures few_left { IsErrOf result TreeNo.TooMuch → HasFewer 1 256 (P.budget pages.new) }
    ensures not_stopped { IsErrOf result TreeNo.Stopped → ⊥ }
    ensures staged { IsSpent (2 * chain_blocks (length bytes.now)) (257 * chain_blocks (length bytes.now)) (P.budget pages.old) (P.budget pages.new) }
    ensures free { OnOk result ((P.budget pages.new).free + chain_blocks (length bytes.now) ≡ (P.budget pages.old).free) }
    ensures rests { Rests P.stopped P.count P.burns pages.old pages.new }
{
    let mut first = 0;
    let mut left = bytes.len();
    while left > 0 {
        let start = (left - 1) / PART * PART;
        first = put_link(pages, first, &bytes[start..left])?;
        left = start;
    }
    Ok(first)
}

// Reads the bytes of a block of a chain behind others: the block that it leads to.
fn read_link<P: Pages, L: Ledger>(
    pages: &mut P,
    block: u32,
    count: usize,
    to: &mut Vec<u8>,
    steps: &mut Steps<L>,
) -> Result<u32, PiecesNo>
    requires few { count ≤ 248 }
    requires taken { IsTrue P.tells → IsTaken (P.blocks pages.old) block }
    ensures read { IfOk result (λ next. IsTrue P.tells → (n : ℕ) (part : List ℕ) → P.blocks pages.old block ≡ Some (link_bytes n part) → n < 2 ^ 32 → length part ≡ count → (next ≡ n) × (to.new.items ≡ to.old.items ++ part)) }
    ensures kept { IsTrue P.tells → P.blocks pages.new ≡ P.blocks pages.old }
    ensures budget { P.budget pages.new ≡ P.budget pages.old }
    ensures steps { steps.new ≡ steps.old + 1 }
    ensures goes { Goes P.stopped P.count P.burns pages.old pages.new }
    ensures stopped { IsErrOf result stopped_no → P.stopped pages.new ≡ true }
    ensures went_on { OnOk result (P.stopped pages.new ≡ P.stopped pages.old) }
{
    let mut from = [0; BLOCK];
    pages.read_block(block, &mut from, steps)?;
    to.extend_from_slice(&from[8..8 + count])?;
    Ok(read_next(&from, count).unwrap_or(0))
}

/// The bytes of a chain of so many bytes that begins at this block.
///
/// # Errors
///
/// `Stopped` comes only where the pages answered it.
pub fn read_chain<P: Pages, L: Ledger>(
    pages: &mut P,
    alloc: Global,
    first: u32,
    count: u16,
    steps: &mut Steps<L>,
) -> Result<Vec8, PiecesNo>
    requires chain { HasChain P.tells (P.blocks pages.old) first count }
    ensures bytes { IfOk result (λ v. OfChain P.tells (P.blocks pages.old) first count (λ c. v ≡ c.bytes)) }
    ensures kept { IsTrue P.tells → P.blocks pages.new ≡ P.blocks pages.old }
    ensures budget { P.budget pages.new ≡ P.budget pages.old }
    ensures steps { steps.new ≤ steps.old + chain_blocks count }
    ensures goes { Goes P.stopped P.count P.burns pages.old pages.new }
    ensures stopped { IsErrOf result stopped_no → P.stopped pages.new ≡ true }
    ensures went_on { OnOk result (P.stopped pages.new ≡ P.stopped pages.old) }
{
    let mut bytes = Vec::new(alloc);
    let mut block = first;
    let mut left = usize::from(count);
    while left > 0 {
        let here = left.min(PART);
        block = read_link(pages, block, here, &mut bytes, steps)?;
        left -= here;
    }
    Ok(Items::from_vec(bytes))
}

// Gives the first block of a chain back: the block that it leads to.
fn give_link<P: Pages, L: Ledger>(
    pages: &mut P,
    block: u32,
    count: usize,
    steps: &mut Steps<L>,
) -> Result<u32, TreeNo>
    requires few { count ≤ 248 }
    requires taken { IsTrue P.tells → IsTaken (P.blocks pages.old) block }
    ensures read { IfOk result (λ next. IsTrue P.tells → (n : ℕ) (part : List ℕ) → P.blocks pages.old block ≡ Some (link_bytes n part) → n < 2 ^ 32 → length part ≡ count → next ≡ n) }
    ensures given { OnOk result (IsTrue P.tells → P.blocks pages.new ≡ put (P.blocks pages.old) block None) }
    ensures no_block { IsErrOf result TreeNo.NoBlock → ⊥ }
    ensures too_much { IsErrOf result TreeNo.TooMuch → HasFewer 1 1 (P.budget pages.old) }
    ensures few_left { IsErrOf result TreeNo.TooMuch → HasFewer 1 1 (P.budget pages.new) }
    ensures staged { IsSpent 1 1 (P.budget pages.old) (P.budget pages.new) }
    ensures free { OnOk result (IsTrue P.tells → (P.budget pages.new).free ≡ (P.budget pages.old).free + 1) }
    ensures steps { steps.new ≡ steps.old + 1 }
    ensures goes { Goes P.stopped P.count P.burns pages.old pages.new }
    ensures stopped { IsErrOf result TreeNo.Stopped → P.stopped pages.new ≡ true }
    ensures went_on { OnOk result (P.stopped pages.new ≡ P.stopped pages.old) }
{
    let mut from = [0; BLOCK];
    pages.read_block(block, &mut from, steps)?;
    pages.give_block(block)?;
    Ok(read_next(&from, count).unwrap_or(0))
}

/// Gives the blocks of a chain of so many bytes back.
///
/// # Errors
///
/// `TooMuch` comes only where fewer ranges or bytes are left to stage than the chain has blocks, `Stopped`
/// only where the pages answered it, and `NoBlock` never. After `TooMuch` no range or no byte is left.
/// After one the stage has to be dropped.
pub fn give_chain<P: Pages, L: Ledger>(
    pages: &mut P,
    first: u32,
    count: u16,
    steps: &mut Steps<L>,
) -> Result<(), TreeNo>
    requires chain { HasChain P.tells (P.blocks pages.old) first count }
    ensures given { OnOk result (OfChain P.tells (P.blocks pages.old) first count (λ c. Changed (maybe chain_owner) (P.blocks pages.old) (Some c) (P.blocks pages.new) None)) }
    ensures no_block { IsErrOf result TreeNo.NoBlock → ⊥ }
    ensures too_much { IsErrOf result TreeNo.TooMuch → HasFewer (chain_blocks count) (chain_blocks count) (P.budget pages.old) }
    ensures few_left { IsErrOf result TreeNo.TooMuch → HasFewer 1 1 (P.budget pages.new) }
    ensures staged { IsSpent (chain_blocks count) (chain_blocks count) (P.budget pages.old) (P.budget pages.new) }
    ensures free { OnOk result (IsTrue P.tells → (P.budget pages.new).free ≡ (P.budget pages.old).free + chain_blocks count) }
    ensures steps { steps.new ≤ steps.old + chain_blocks count }
    ensures goes { Goes P.stopped P.count P.burns pages.old pages.new }
    ensures stopped { IsErrOf result TreeNo.Stopped → P.stopped pages.new ≡ true }
    ensures went_on { OnOk result (P.stopped pages.new ≡ P.stopped pages.old) }
{
    let mut block = first;
    let mut left = usize::from(count);
    while left > 0 {
        let here = left.min(PART);
        block = give_link(pages, block, here, steps)?;
        left -= here;
    }
    Ok(())
}
