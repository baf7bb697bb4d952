// What a stretch of an array holds.
ghost use Rattle.std.specs.Prelude.{◌≡◌, ◌≤◌, ◌<◌, ◌+◌, ◌-◌, ◌^◌, ℕ, true, None, IfOk, IfSome, OnOk, OnErr, IsErrOf, IsTrue, ⊤, length, get_or};
ghost use Rattle.std.specs.Option.{option_and_then, option_copied};
ghost use Rattle.daos_model.specs.Pieces.{pieces_of};
ghost use Rattle.pmem_pages.specs.Node.{IsKey};
ghost use Rattle.pmem_pages.specs.Shape.{entries, first_above};
ghost use Rattle.vos_moments.specs.pmem_tree.Calls.{StepsAtMost};
ghost use Rattle.vos_moments.specs.pmem_tree_base.Calls.{Goes};
ghost use Rattle.vos_moments.specs.pmem_tree_base.Find.{pair_of};
ghost use Rattle.vos_values.specs.Keys.{extent_key};
ghost use Rattle.vos_moments.specs.vos_levels.Calls.{HasThing, OfThing};
ghost use Rattle.vos_moments.specs.vos_levels.Levels.{hung_root};
ghost use Rattle.vos_versions.specs.vos_chain.Made.{HasChain, IsChainAt};
ghost use Rattle.vos_versions.specs.vos_chain.declared.refusal.PiecesNo.TheVariants.{Stopped as stopped_no};
ghost use Rattle.vos_extent.specs.Extents.{Stored, chain_of, extent_owner, extents, placed_in_pair, placed_of};
ghost use Rattle.vos_extent.specs.Shown.{StepsNear, hides, pieces_at, start_key, start_of};
ghost use Rattle.vos_extent.specs.Looks.{Lays, Painted, is_about, record_of_cell, records_of};

use crate::cells::{Cell, is_earlier, paint};
use crate::extent::Extents;
use base_types::answer::{Piece, Pieces};
use base_types::epoch::Epoch;
use base_types::items::{Items, Memory};
use pmem_pages::pages::Pages;
use pmem_pages::refusal::Stopped;
use pmem_pages::steps::Steps;
use std::alloc::Global;
use std::sync::ledger::Ledger;
use vos_moments::below::tree::{Pair, TreeKey};
use vos_pieces::pieces::add_index;
use vos_values::keys::{ExtentKey, Moment, extent_key, name_key, read_extent};
use vos_values::values::{VersionMark, read_version};
use vos_versions::below::chain::chain::read_chain;
use vos_versions::below::chain::refusal::PiecesNo;

// There are no more block numbers, so no tree has more pairs.
const PAIRS: u64 = 1 << 32;

// No extent reaches further behind its first index.
const REACH: u32 = 1023;

/// Where and when an extent was written, and what the tree says of it.
#[derive(Clone, Copy)]
pub struct Placed {
    pub at: ExtentKey,
    pub mark: VersionMark,
}

/// What is asked of an array: the size of its records, a stretch of indexes, the moment below which
/// extents are seen, and a punch.
#[derive(Clone, Copy)]
pub struct Look {
    pub unit: u8,
    pub low: u32,
    pub high: u32,
    pub start: Moment,
    pub punched: Option<Moment>,
}

// The first moment of an epoch.
fn start_of(epoch: Epoch) -> Moment
    ensures { result ≡ start_of epoch }
{
    Moment { epoch, minor: 0 }
}

// The key of an index alone.
#[tactic(auto, unfolding(crate::specs::Shown::start_key))]
pub(crate) fn start_key(low: u32) -> TreeKey
    ensures key { result ≡ start_key low }
    ensures is { IsKey result }
{
    name_key(&low.to_be_bytes())
}

/// The key of a place.
pub fn key_at(at: ExtentKey) -> TreeKey
    ensures key { result ≡ extent_key at }
    ensures is { IsKey result }
{
    extent_key(at)
}

// What a key and a value say, if they say something.
fn placed_of(pair: &Pair) -> Option<Placed>
    ensures placed { result ≡ placed_in_pair pair.now }
    ensures short { IfSome result (λ p. p.mark.length ≤ 1024) }
    ensures minor { IfSome result (λ p. p.at.minor < 64) }
{
    let at = read_extent(&pair.key)?;
    let mark = read_version(&pair.value)?;
    Some(Placed { at, mark })
}

// What a pair says, if there is one and it says something.
fn placed_in(pair: Option<Pair>) -> Option<Placed>
    ensures placed { result ≡ option_and_then placed_in_pair pair }
    ensures short { IfSome result (λ p. p.mark.length ≤ 1024) }
    ensures minor { IfSome result (λ p. p.at.minor < 64) }
{
    match pair {
        Some(pair) => placed_of(&pair),
        None => None,
    }
}

// Whether a punch is later than a moment.
fn hides(punched: Option<Moment>, moment: Moment) -> bool
    ensures { result ≡ hides punched moment }
{
    match punched {
        Some(punch) => is_earlier(moment, punch),
        None => false,
    }
}

// Whether an extent reaches to the indexes, is seen, and no punch is later.
fn is_about(look: &Look, placed: &Placed) -> bool
    requires { 1 ≤ look.now.unit }
    ensures { result ≡ is_about look.now placed.now }
{
    let end = u64::from(placed.at.low) + u64::from(placed.mark.length / u16::from(look.unit));
    let moment = Moment {
        epoch: placed.at.epoch,
        minor: placed.at.minor,
    };
    u64::from(look.low) < end && is_earlier(moment, look.start) && !hides(look.punched, moment)
}

// The record that an index holds.
fn record_of_cell(cell: &Option<Cell>, unit: u8) -> Option<&[u8]>
    requires { unit ≤ 64 }
    ensures held { option_copied result ≡ record_of_cell unit cell.now }
    ensures size { IfSome (option_copied result) (λ r. length r ≡ unit) }
{
    match cell {
        Some(cell) => Some(&cell.held[..usize::from(unit)]),
        None => None,
    }
}

// The pieces of what indexes hold.
fn pieces_of(alloc: Global, unit: u8, cells: &[Option<Cell>]) -> Result<Vec<Piece>, Memory>
    requires few { unit ≤ 64 }
    requires long { length cells.now < 2 ^ 32 }
    ensures { IfOk result (λ made. made.items ≡ pieces_of unit (records_of unit cells.now)) }
{
    let mut pieces = Vec::new(alloc);
    for cell in cells {
        add_index(alloc, &mut pieces, record_of_cell(cell, unit))?;
    }
    Ok(pieces)
}

impl Extents {
    /// What the tree says of the first extent above a key.
    ///
    /// # Errors
    ///
    /// `Stopped` comes only where the pages answered it.
    pub fn next_over<P: Pages, L: Ledger>(
        &self,
        pages: &mut P,
        key: &TreeKey,
        steps: &mut Steps<L>,
    ) -> Result<Option<Placed>, Stopped>
        requires kind { self.now.tree.kind ≡ 6 }
        requires key { IsKey key.now }
        requires here { HasThing P.tells extent_owner hung_root (P.blocks pages.old) self.now.tree.root (λ g. ⊤) }
        ensures found { IfOk result (λ v. OfThing P.tells extent_owner hung_root (P.blocks pages.old) self.now.tree.root (λ g. v ≡ option_and_then placed_in_pair (pair_of (first_above key.now (entries g.0))))) }
        ensures short { IfOk result (λ v. IfSome v (λ p. p.mark.length ≤ 1024)) }
        ensures minor { IfOk result (λ v. IfSome v (λ p. p.at.minor < 64)) }
        ensures steps { OfThing P.tells extent_owner hung_root (P.blocks pages.old) self.now.tree.root (λ g. StepsAtMost 2 0 g.0 steps.old steps.new) }
        ensures kept { IsTrue P.tells → P.blocks pages.new ≡ P.blocks pages.old }
        ensures budget { P.budget pages.new ≡ P.budget pages.old }
        ensures goes { Goes P.stopped P.count P.burns pages.old pages.new }
        ensures stopped { OnErr result (P.stopped pages.new ≡ true) }
        ensures went_on { OnOk result (P.stopped pages.new ≡ P.stopped pages.old) }
    {
        Ok(placed_in(self.tree.next_after(pages, key, steps)?))
    }

    // Lays what is asked for over the indexes, which hold nothing.
    fn paint_all<P: Pages, L: Ledger>(
        &self,
        pages: &mut P,
        alloc: Global,
        look: &Look,
        cells: &mut [Option<Cell>],
        steps: &mut Steps<L>,
    ) -> Result<(), PiecesNo>
        requires kind { self.now.tree.kind ≡ 6 }
        requires some { 1 ≤ look.now.unit }
        requires few { look.now.unit ≤ 64 }
        requires order { look.now.low ≤ look.now.high }
        requires stretch { length cells.old ≡ look.now.high - look.now.low }
        requires blank { (i : ℕ) → i < length cells.old → get_or cells.old i None ≡ None }
        requires here { HasThing P.tells extent_owner hung_root (P.blocks pages.old) self.now.tree.root (λ g. ⊤) }
        ensures painted { OnOk result (OfThing P.tells extent_owner hung_root (P.blocks pages.old) self.now.tree.root (λ g. Painted look.now cells.new (extents g))) }
        ensures long { length cells.new ≡ length cells.old }
        ensures steps { OfThing P.tells extent_owner hung_root (P.blocks pages.old) self.now.tree.root (λ g. StepsNear look.now.low look.now.high g.0 (extents g) steps.old steps.new) }
        ensures kept { IsTrue P.tells → P.blocks pages.new ≡ P.blocks pages.old }
        ensures budget { P.budget pages.new ≡ P.budget pages.old }
        ensures goes { Goes P.stopped P.count P.burns pages.old pages.new }
        ensures stopped { IsErrOf result stopped_no → P.stopped pages.new ≡ true }
        ensures went_on { OnOk result (P.stopped pages.new ≡ P.stopped pages.old) }
    {
        let mut key = start_key(look.low.saturating_sub(REACH));
        for _ in 0..PAIRS {
            let Some(placed) = self.next_over(pages, &key, steps)? else {
                return Ok(());
            };
            if placed.at.low >= look.high {
                return Ok(());
            }
            lay(pages, alloc, look, placed, cells, steps)?;
            key = key_at(placed.at);
        }
        Ok(())
    }

    /// What the indexes from one on and before another hold, by extents below an epoch and a punch: each
    /// the record of the greatest extent below that covers it, unless the punch is later; holes elsewhere.
    ///
    /// The nodes and blocks that it reads are proportional to the extents that overlap the indexes or begin at most 1,023
    /// before them, and not to all.
    ///
    /// # Errors
    ///
    /// `Stopped` comes only where the pages answered it.
    pub fn pieces<P: Pages, L: Ledger>(
        &self,
        unit: u8,
        pages: &mut P,
        alloc: Global,
        low: u32,
        high: u32,
        below: Epoch,
        punched: Option<Moment>,
        steps: &mut Steps<L>,
    ) -> Result<Pieces, PiecesNo>
        requires kind { self.now.tree.kind ≡ 6 }
        requires some { 1 ≤ unit }
        requires few { unit ≤ 64 }
        requires order { low ≤ high }
        requires here { HasThing P.tells extent_owner hung_root (P.blocks pages.old) self.now.tree.root (λ g. ⊤) }
        ensures found { IfOk result (λ ps. OfThing P.tells extent_owner hung_root (P.blocks pages.old) self.now.tree.root (λ g. ps ≡ pieces_at unit (start_of below) punched low (high - low) (extents g))) }
        ensures steps { OfThing P.tells extent_owner hung_root (P.blocks pages.old) self.now.tree.root (λ g. StepsNear low high g.0 (extents g) steps.old steps.new) }
        ensures kept { IsTrue P.tells → P.blocks pages.new ≡ P.blocks pages.old }
        ensures budget { P.budget pages.new ≡ P.budget pages.old }
        ensures goes { Goes P.stopped P.count P.burns pages.old pages.new }
        ensures stopped { IsErrOf result stopped_no → P.stopped pages.new ≡ true }
        ensures went_on { OnOk result (P.stopped pages.new ≡ P.stopped pages.old) }
    {
        let look = Look {
            unit,
            low,
            high,
            start: start_of(below),
            punched,
        };
        let mut cells = vec![in alloc; None; (high - low) as usize]?;
        self.paint_all(pages, alloc, &look, &mut cells, steps)?;
        Ok(Items::from_vec(pieces_of(alloc, unit, &cells)?))
    }
}

// Lays the records of an extent over what the indexes hold, if it is asked for.
fn lay<P: Pages, L: Ledger>(
    pages: &mut P,
    alloc: Global,
    look: &Look,
    placed: Placed,
    cells: &mut [Option<Cell>],
    steps: &mut Steps<L>,
) -> Result<(), PiecesNo>
    requires some { 1 ≤ look.now.unit }
    requires few { look.now.unit ≤ 64 }
    requires short { placed.mark.length ≤ 1024 }
    requires room { look.now.low + length cells.old ≤ 2 ^ 32 }
    requires chain { HasChain P.tells (P.blocks pages.old) placed.mark.chain placed.mark.length }
    ensures laid { OnOk result (IsTrue P.tells → (s : Stored) → placed_of s ≡ placed → IsChainAt (P.blocks pages.old) placed.mark.chain placed.mark.length (chain_of s) → Lays look.now s cells.old cells.new) }
    ensures long { length cells.new ≡ length cells.old }
    ensures steps { steps.new ≤ steps.old + 5 }
    ensures kept { IsTrue P.tells → P.blocks pages.new ≡ P.blocks pages.old }
    ensures budget { P.budget pages.new ≡ P.budget pages.old }
    ensures goes { Goes P.stopped P.count P.burns pages.old pages.new }
    ensures stopped { IsErrOf result stopped_no → P.stopped pages.new ≡ true }
    ensures went_on { OnOk result (P.stopped pages.new ≡ P.stopped pages.old) }
{
    if !is_about(look, &placed) {
        return Ok(());
    }
    let bytes = read_chain(pages, alloc, placed.mark.chain, placed.mark.length, steps)?;
    let moment = Moment {
        epoch: placed.at.epoch,
        minor: placed.at.minor,
    };
    paint(
        cells,
        look.low,
        look.unit,
        placed.at.low,
        moment,
        bytes.as_slice(),
    );
    Ok(())
}
