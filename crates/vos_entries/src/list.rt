// The list of an entry: numbers of blocks in a chain.
ghost use Rattle.std.specs.Prelude.{◌≡◌, ◌≤◌, ◌<◌, ◌+◌, ◌*◌, ◌^◌, ◌++◌, ℕ, List, true, Some, None, IfOk, OnOk, IsErrOf, IsTrue, length, take};
ghost use Rattle.byteorder.specs.Endian.{big_bytes};
ghost use Rattle.pmem_pages.specs.Blocks.{IsSpent, IsTaken, put};
ghost use Rattle.pmem_pages.specs.Owners.{Changed, maybe};
ghost use Rattle.vos_versions.specs.pmem_tree_base.Calls.{Goes, Rests};
ghost use Rattle.vos_versions.specs.pmem_tree_base.declared.refusal.TreeNo.{TreeNo};
ghost use Rattle.vos_values.specs.Links.{link_bytes};
ghost use Rattle.vos_versions.specs.vos_chain.Chains.{chain_owner};
ghost use Rattle.vos_versions.specs.vos_chain.Made.{HasFewer, MadeChain, chain_blocks};
ghost use Rattle.vos_entries.specs.Entries.{list_bytes};
ghost use Rattle.vos_entries.specs.Lists.{HasList, OfList};

use byteorder::{BigEndian, ByteOrder};
use pmem_pages::BLOCK;
use pmem_pages::pages::Pages;
use pmem_pages::steps::Steps;
use std::sync::ledger::Ledger;
use vos_values::links::{PART, read_next};
use vos_versions::below::chain::chain::write_chain;
use vos_versions::below::tree_base::refusal::TreeNo;

/// How many nodes an entry can list: as many as the 64 writes of a transaction have.
pub const MOST_NODES: usize = 256;

// Writes a number in four bytes behind others.
fn put_number(bytes: &mut [u8; 1024], at: usize, number: u32)
    requires room { at + 4 ≤ 1024 }
    ensures { take (at + 4) bytes.new ≡ take at bytes.old ++ big_bytes 4 number }
{
    let mut four = [0; 4];
    BigEndian::write_u32(&mut four, number);
    bytes[at..at + 4].copy_from_slice(&four);
}

// The bytes of numbers, at the front.
fn numbers_in_front(nodes: &[u32]) -> [u8; 1024]
    requires few { length nodes.now ≤ 256 }
    ensures { take (4 * length nodes.now) result ≡ list_bytes nodes.now }
{
    let mut bytes = [0; 1024];
    let mut count = 0;
    for node in nodes {
        put_number(&mut bytes, 4 * count, *node);
        count += 1;
    }
    bytes
}

/// Writes a list of at most 256 blocks into a chain that it takes: its first block, or 0 where the list is
/// empty.
///
/// # Errors
///
/// `NoBlock` comes only where fewer blocks are free than the list needs, and `TooMuch` only where fewer
/// ranges or bytes are left to stage than that takes. After one the stage has to be dropped.
pub fn write_list<P: Pages>(pages: &mut P, nodes: &[u32]) -> Result<u32, TreeNo>
    requires few { length nodes.now ≤ 256 }
    ensures made { IfOk result (λ b. IsTrue P.tells → MadeChain (P.blocks pages.old) (list_bytes nodes.now) (P.blocks pages.new) b) }
    ensures no_block { IsErrOf result TreeNo.NoBlock → (P.budget pages.old).free < chain_blocks (4 * length nodes.now) }
    ensures too_much { IsErrOf result TreeNo.TooMuch → HasFewer (2 * chain_blocks (4 * length nodes.now)) (257 * chain_blocks (4 * length nodes.now)) (P.budget pages.old) }
    ensures not_stopped { IsErrOf result TreeNo.Stopped → ⊥ }
    ensures staged { IsSpent (2 * chain_blocks (4 * length nodes.now)) (257 * chain_blocks (4 * length nodes.now)) (P.budget pages.old) (P.budget pages.new) }
    ensures free { OnOk result ((P.budget pages.new).free + chain_blocks (4 * length nodes.now) ≡ (P.budget pages.old).free) }
    ensures rests { Rests P.stopped P.count P.burns pages.old pages.new }
{
    let bytes = numbers_in_front(nodes);
    write_chain(pages, &bytes[..4 * nodes.len()])
}

// Gives the first block of a list back: the block that it leads to.
fn give_first<P: Pages, L: Ledger>(
    pages: &mut P,
    block: u32,
    steps: &mut Steps<L>,
) -> Result<u32, TreeNo>
    requires taken { IsTrue P.tells → IsTaken (P.blocks pages.old) block }
    ensures read { IfOk result (λ next. IsTrue P.tells → (n : ℕ) (part : List ℕ) → P.blocks pages.old block ≡ Some (link_bytes n part) → n < 2 ^ 32 → length part ≤ 248 → next ≡ n) }
    ensures given { OnOk result (IsTrue P.tells → P.blocks pages.new ≡ put (P.blocks pages.old) block None) }
    ensures no_block { IsErrOf result TreeNo.NoBlock → ⊥ }
    ensures too_much { IsErrOf result TreeNo.TooMuch → HasFewer 1 1 (P.budget pages.old) }
    ensures staged { IsSpent 1 1 (P.budget pages.old) (P.budget pages.new) }
    ensures free { OnOk result (IsTrue P.tells → (P.budget pages.new).free ≡ (P.budget pages.old).free + 1) }
    ensures steps { steps.new ≡ steps.old + 1 }
    ensures goes { Goes P.stopped P.count P.burns pages.old pages.new }
    ensures stopped { IsErrOf result TreeNo.Stopped → P.stopped pages.new ≡ true }
    ensures went_on { OnOk result (P.stopped pages.new ≡ P.stopped pages.old) }
{
    let mut from = [0; BLOCK];
    pages.read_block(block, &mut from, steps)?;
    pages.give_block(block)?;
    Ok(read_next(&from, PART).unwrap_or(0))
}

/// Gives the blocks of a list back.
///
/// # Errors
///
/// `TooMuch` comes only where fewer ranges or bytes are left to stage than the list has blocks, `Stopped`
/// only where the pages answered it, and `NoBlock` never. After one the stage has to be dropped.
pub fn give_list<P: Pages, L: Ledger>(
    pages: &mut P,
    first: u32,
    steps: &mut Steps<L>,
) -> Result<(), TreeNo>
    requires list { HasList P.tells (P.blocks pages.old) first }
    ensures given { OnOk result (OfList P.tells (P.blocks pages.old) first (λ c. Changed (maybe chain_owner) (P.blocks pages.old) (Some c) (P.blocks pages.new) None)) }
    ensures no_block { IsErrOf result TreeNo.NoBlock → ⊥ }
    ensures too_much { IsErrOf result TreeNo.TooMuch → OfList P.tells (P.blocks pages.old) first (λ c. HasFewer (length c.blocks) (length c.blocks) (P.budget pages.old)) }
    ensures staged { OfList P.tells (P.blocks pages.old) first (λ c. IsSpent (length c.blocks) (length c.blocks) (P.budget pages.old) (P.budget pages.new)) }
    ensures free { OnOk result (OfList P.tells (P.blocks pages.old) first (λ c. (P.budget pages.new).free ≡ (P.budget pages.old).free + length c.blocks)) }
    ensures steps { OfList P.tells (P.blocks pages.old) first (λ c. steps.new ≤ steps.old + length c.blocks) }
    ensures goes { Goes P.stopped P.count P.burns pages.old pages.new }
    ensures stopped { IsErrOf result TreeNo.Stopped → P.stopped pages.new ≡ true }
    ensures went_on { OnOk result (P.stopped pages.new ≡ P.stopped pages.old) }
{
    let mut block = first;
    for _ in 0..u64::MAX {
        if block == 0 {
            return Ok(());
        }
        block = give_first(pages, block, steps)?;
    }
    Ok(())
}
