// What a write makes of an akey: its log, the versions of its single value, and its extents.
ghost use Rattle.std.specs.Prelude.{◌≡◌, ◌≤◌, ◌<◌, ◌+◌, ◌*◌, true, false, ℕ, IfOk, OnOk, IsErrOf, length};
ghost use Rattle.base_types.specs.Operations.{write_path};
ghost use Rattle.base_types.specs.declared.operation.Write.TheVariants.{Extent as extent_write, PunchAkey as akey_punch, Single as single_write};
ghost use Rattle.base_types.specs.declared.path.Path.{Path as PathOf};
ghost use Rattle.daos_model.specs.Forms.{is_write_in_form};
ghost use Rattle.pmem_tree.specs.Calls.{IsShort};
ghost use Rattle.pmem_tree_base.specs.Calls.{Goes};
ghost use Rattle.pmem_tree_base.specs.declared.refusal.TreeNo.{TreeNo};
ghost use Rattle.vos_extent.specs.vos_levels.Levels.{HasMore};
ghost use Rattle.vos_extent.specs.vos_chain.Made.{chain_blocks};
ghost use Rattle.vos_path.specs.Calls.{HasAt, LacksFor, OfAt, SpendsAtMost, Turns, for_pair};
ghost use Rattle.vos_path.specs.Nodes.{ValuesNoted};
ghost use Rattle.vos_path.specs.Objects.{values_owner, values_roots, values_versions};
ghost use Rattle.vos_path.specs.Writes.{ValuesAreNew, ValuesAreSmall, values_pairs, data_blocks, fresh, goes_below_dkey};

use crate::log::note;
use crate::stamp::Stamp;
use base_types::operation::Write;
use pmem_pages::pages::Pages;
use pmem_pages::steps::Steps;
use pmem_tree::TreeNo;
use pmem_tree::tree::Tree;
use std::sync::ledger::Ledger;
use vos_extent::extent::Extents;
use vos_single::single::Single;
use vos_values::keys::ExtentKey;
use vos_values::values::AkeyRoots;

// A single value is written: its version, and then a creation in the log.
fn write_single<P: Pages, L: Ledger>(
    roots: AkeyRoots,
    pages: &mut P,
    stamp: Stamp,
    bytes: &[u8],
    steps: &mut Steps<L>,
) -> Result<AkeyRoots, TreeNo>
    requires minor { stamp.at.minor < 64 }
    requires some { 1 ≤ length bytes.now }
    requires most { length bytes.now ≤ 1024 }
    requires here { HasAt P.tells values_owner values_roots (P.blocks pages.old) roots (ValuesAreNew stamp) }
    ensures written { IfOk result (λ now. OfAt P.tells values_owner values_roots (P.blocks pages.old) roots (λ g. ValuesAreNew stamp g → (p : PathOf) → Turns values_owner values_roots (values_versions p) (P.blocks pages.old) g (P.blocks pages.new) now (HasMore (fresh stamp (single_write p bytes.now))) (ValuesNoted stamp (single_write p bytes.now)))) }
    ensures no_block { IsErrOf result TreeNo.NoBlock → (P.budget pages.old).free < chain_blocks (length bytes.now) + 2 }
    ensures too_much { IsErrOf result TreeNo.TooMuch → OfAt P.tells values_owner values_roots (P.blocks pages.old) roots (λ g. ValuesAreNew stamp g → (d : ℕ) → ValuesAreSmall d g → LacksFor (chain_blocks (length bytes.now)) (for_pair d) d (P.budget pages.old)) }
    ensures few_left { IsErrOf result TreeNo.TooMuch → OfAt P.tells values_owner values_roots (P.blocks pages.old) roots (λ g. ValuesAreNew stamp g → (d : ℕ) → ValuesAreSmall d g → IsShort d (P.budget pages.new)) }
    ensures staged { OnOk result (OfAt P.tells values_owner values_roots (P.blocks pages.old) roots (λ g. ValuesAreNew stamp g → (d : ℕ) → ValuesAreSmall d g → SpendsAtMost (chain_blocks (length bytes.now)) (2 * for_pair d) (P.budget pages.old) (P.budget pages.new))) }
    ensures free { OnOk result ((P.budget pages.old).free ≤ (P.budget pages.new).free + (chain_blocks (length bytes.now) + 2)) }
    ensures goes { Goes P.stopped P.count P.burns pages.old pages.new }
    ensures stopped { IsErrOf result TreeNo.Stopped → P.stopped pages.new ≡ true }
    ensures went_on { OnOk result (P.stopped pages.new ≡ P.stopped pages.old) }
{
    let mut single = Single {
        tree: Tree {
            kind: 5,
            root: roots.singles,
        },
    };
    single.add(pages, stamp.at, stamp.by, bytes, steps)?;
    let log = note(roots.log, pages, stamp, false, steps)?;
    Ok(AkeyRoots {
        log,
        singles: single.tree.root,
        extents: roots.extents,
    })
}

// Records of an array are written from an index on: their extent, and then a creation in the log.
fn write_extent<P: Pages, L: Ledger>(
    roots: AkeyRoots,
    pages: &mut P,
    stamp: Stamp,
    low: u32,
    bytes: &[u8],
    steps: &mut Steps<L>,
) -> Result<AkeyRoots, TreeNo>
    requires minor { stamp.at.minor < 64 }
    requires some { 1 ≤ length bytes.now }
    requires most { length bytes.now ≤ 1024 }
    requires here { HasAt P.tells values_owner values_roots (P.blocks pages.old) roots (ValuesAreNew stamp) }
    ensures written { IfOk result (λ now. OfAt P.tells values_owner values_roots (P.blocks pages.old) roots (λ g. ValuesAreNew stamp g → (p : PathOf) → Turns values_owner values_roots (values_versions p) (P.blocks pages.old) g (P.blocks pages.new) now (HasMore (fresh stamp (extent_write p low bytes.now))) (ValuesNoted stamp (extent_write p low bytes.now)))) }
    ensures no_block { IsErrOf result TreeNo.NoBlock → (P.budget pages.old).free < chain_blocks (length bytes.now) + 2 }
    ensures too_much { IsErrOf result TreeNo.TooMuch → OfAt P.tells values_owner values_roots (P.blocks pages.old) roots (λ g. ValuesAreNew stamp g → (d : ℕ) → ValuesAreSmall d g → LacksFor (chain_blocks (length bytes.now)) (for_pair d) d (P.budget pages.old)) }
    ensures few_left { IsErrOf result TreeNo.TooMuch → OfAt P.tells values_owner values_roots (P.blocks pages.old) roots (λ g. ValuesAreNew stamp g → (d : ℕ) → ValuesAreSmall d g → IsShort d (P.budget pages.new)) }
    ensures staged { OnOk result (OfAt P.tells values_owner values_roots (P.blocks pages.old) roots (λ g. ValuesAreNew stamp g → (d : ℕ) → ValuesAreSmall d g → SpendsAtMost (chain_blocks (length bytes.now)) (2 * for_pair d) (P.budget pages.old) (P.budget pages.new))) }
    ensures free { OnOk result ((P.budget pages.old).free ≤ (P.budget pages.new).free + (chain_blocks (length bytes.now) + 2)) }
    ensures goes { Goes P.stopped P.count P.burns pages.old pages.new }
    ensures stopped { IsErrOf result TreeNo.Stopped → P.stopped pages.new ≡ true }
    ensures went_on { OnOk result (P.stopped pages.new ≡ P.stopped pages.old) }
{
    let at = ExtentKey {
        low,
        epoch: stamp.at.epoch,
        minor: stamp.at.minor,
    };
    let mut extents = Extents {
        tree: Tree {
            kind: 6,
            root: roots.extents,
        },
    };
    extents.add(pages, at, stamp.by, bytes, steps)?;
    let log = note(roots.log, pages, stamp, false, steps)?;
    Ok(AkeyRoots {
        log,
        singles: roots.singles,
        extents: extents.tree.root,
    })
}

// An akey is punched.
fn punch_values<P: Pages, L: Ledger>(
    roots: AkeyRoots,
    pages: &mut P,
    stamp: Stamp,
    steps: &mut Steps<L>,
) -> Result<AkeyRoots, TreeNo>
    requires minor { stamp.at.minor < 64 }
    requires here { HasAt P.tells values_owner values_roots (P.blocks pages.old) roots (ValuesAreNew stamp) }
    ensures written { IfOk result (λ now. OfAt P.tells values_owner values_roots (P.blocks pages.old) roots (λ g. ValuesAreNew stamp g → (p : PathOf) → Turns values_owner values_roots (values_versions p) (P.blocks pages.old) g (P.blocks pages.new) now (HasMore (fresh stamp (akey_punch p))) (ValuesNoted stamp (akey_punch p)))) }
    ensures no_block { IsErrOf result TreeNo.NoBlock → (P.budget pages.old).free < 1 }
    ensures too_much { IsErrOf result TreeNo.TooMuch → OfAt P.tells values_owner values_roots (P.blocks pages.old) roots (λ g. (d : ℕ) → ValuesAreSmall d g → LacksFor 0 0 d (P.budget pages.old)) }
    ensures few_left { IsErrOf result TreeNo.TooMuch → OfAt P.tells values_owner values_roots (P.blocks pages.old) roots (λ g. (d : ℕ) → ValuesAreSmall d g → IsShort d (P.budget pages.new)) }
    ensures staged { OnOk result (OfAt P.tells values_owner values_roots (P.blocks pages.old) roots (λ g. (d : ℕ) → ValuesAreSmall d g → SpendsAtMost 0 (for_pair d) (P.budget pages.old) (P.budget pages.new))) }
    ensures free { OnOk result ((P.budget pages.old).free ≤ (P.budget pages.new).free + 1) }
    ensures goes { Goes P.stopped P.count P.burns pages.old pages.new }
    ensures stopped { IsErrOf result TreeNo.Stopped → P.stopped pages.new ≡ true }
    ensures went_on { OnOk result (P.stopped pages.new ≡ P.stopped pages.old) }
{
    let log = note(roots.log, pages, stamp, true, steps)?;
    Ok(AkeyRoots {
        log,
        singles: roots.singles,
        extents: roots.extents,
    })
}

/// What a write makes of an akey that it is for: a version more.
///
/// # Errors
///
/// `NoBlock` comes only where fewer blocks are free than the bytes and the pairs may want, `TooMuch` only
/// where fewer ranges or bytes are left to stage than that, and `Stopped` only where the pages answered
/// it. After `TooMuch` fewer are left than one change of the largest tree may want. After one the
/// stage has to be dropped.
pub fn write_values<P: Pages, L: Ledger>(
    roots: AkeyRoots,
    pages: &mut P,
    stamp: Stamp,
    write: &Write,
    steps: &mut Steps<L>,
) -> Result<AkeyRoots, TreeNo>
    requires minor { stamp.at.minor < 64 }
    requires form { is_write_in_form write.now ≡ true }
    requires below { goes_below_dkey write.now ≡ true }
    requires here { HasAt P.tells values_owner values_roots (P.blocks pages.old) roots (ValuesAreNew stamp) }
    ensures written { IfOk result (λ now. OfAt P.tells values_owner values_roots (P.blocks pages.old) roots (λ g. ValuesAreNew stamp g → Turns values_owner values_roots (values_versions (write_path write.now)) (P.blocks pages.old) g (P.blocks pages.new) now (HasMore (fresh stamp write.now)) (ValuesNoted stamp write.now))) }
    ensures no_block { IsErrOf result TreeNo.NoBlock → (P.budget pages.old).free < data_blocks write.now + values_pairs write.now 1 }
    ensures too_much { IsErrOf result TreeNo.TooMuch → OfAt P.tells values_owner values_roots (P.blocks pages.old) roots (λ g. ValuesAreNew stamp g → (d : ℕ) → ValuesAreSmall d g → LacksFor (data_blocks write.now) (values_pairs write.now (for_pair d)) d (P.budget pages.old)) }
    ensures few_left { IsErrOf result TreeNo.TooMuch → OfAt P.tells values_owner values_roots (P.blocks pages.old) roots (λ g. ValuesAreNew stamp g → (d : ℕ) → ValuesAreSmall d g → IsShort d (P.budget pages.new)) }
    ensures staged { OnOk result (OfAt P.tells values_owner values_roots (P.blocks pages.old) roots (λ g. ValuesAreNew stamp g → (d : ℕ) → ValuesAreSmall d g → SpendsAtMost (data_blocks write.now) (values_pairs write.now (for_pair d)) (P.budget pages.old) (P.budget pages.new))) }
    ensures free { OnOk result ((P.budget pages.old).free ≤ (P.budget pages.new).free + (data_blocks write.now + values_pairs write.now 1)) }
    ensures goes { Goes P.stopped P.count P.burns pages.old pages.new }
    ensures stopped { IsErrOf result TreeNo.Stopped → P.stopped pages.new ≡ true }
    ensures went_on { OnOk result (P.stopped pages.new ≡ P.stopped pages.old) }
{
    match write {
        Write::Single(_, bytes) => write_single(roots, pages, stamp, bytes.as_slice(), steps),
        Write::Extent(_, low, bytes) => {
            write_extent(roots, pages, stamp, *low, bytes.as_slice(), steps)
        }
        Write::PunchObject(_) | Write::PunchDkey(_) | Write::PunchAkey(_) => {
            punch_values(roots, pages, stamp, steps)
        }
    }
}
