// Whether an akey has a cell.
ghost use Rattle.std.specs.Prelude.{◌≡◌, true, IfOk, OnOk, OnErr, IsTrue, ⊤};
ghost use Rattle.std.specs.Option.{option_and_then};
ghost use Rattle.pmem_pages.specs.Node.{IsKey};
ghost use Rattle.pmem_tree_base.specs.Calls.{Goes};
ghost use Rattle.vos_values.specs.Keys.{IsMoment, moment_key};
ghost use Rattle.vos_levels.specs.Calls.{HasThing, OfThing};
ghost use Rattle.vos_levels.specs.Levels.{hung_root};
ghost use Rattle.vos_path.specs.vos_single.Singles.{single_owner};
ghost use Rattle.vos_extent.specs.Extents.{extent_owner};
ghost use Rattle.vos_path.specs.Calls.{HasAt, OfAt};
ghost use Rattle.vos_path.specs.Objects.{values_owner, values_roots};
ghost use Rattle.vos_reads.specs.Ways.{start_of};
ghost use Rattle.vos_lists.specs.Entries.{moment_in_pair};
ghost use Rattle.vos_lists.specs.Stands.{has_extent, has_single, has_value, is_there, newest_at, outlasts};

use crate::entry::{PAIRS, least_key};
use crate::view::View;
use base_types::epoch::Epoch;
use pmem_pages::pages::Pages;
use pmem_pages::refusal::Stopped;
use pmem_pages::steps::Steps;
use pmem_tree::tree::Tree;
use pmem_tree::{Pair, TreeKey};
use std::sync::ledger::Ledger;
use vos_extent::extent::Extents;
use vos_extent::pieces::{Placed, key_at as key_at_place};
use vos_reads::punch::{hides, is_earlier};
use vos_values::keys::{Moment, moment_key, read_moment};
use vos_values::values::AkeyRoots;

// The first moment of an epoch.
fn start_of(epoch: Epoch) -> Moment
    ensures moment { result ≡ start_of epoch }
    ensures is { IsMoment result }
{
    Moment { epoch, minor: 0 }
}

// The key of a moment.
fn key_at(at: Moment) -> TreeKey
    ensures key { result ≡ moment_key at }
    ensures is { IsKey result }
{
    moment_key(at)
}

// The moment that a pair says, if there is one and it says one.
fn moment_in(pair: Option<Pair>) -> Option<Moment>
    ensures { result ≡ option_and_then moment_in_pair pair }
{
    match pair {
        Some(pair) => read_moment(&pair.key),
        None => None,
    }
}

// When the newest version of a single value below an epoch was written.
fn newest_at<P: Pages, L: Ledger>(
    root: u32,
    pages: &mut P,
    below: Epoch,
    steps: &mut Steps<L>,
) -> Result<Option<Moment>, Stopped>
    requires here { HasThing P.tells single_owner hung_root (P.blocks pages.old) root (λ g. ⊤) }
    ensures found { IfOk result (λ m. OfThing P.tells single_owner hung_root (P.blocks pages.old) root (λ g. m ≡ newest_at below g)) }
    ensures kept { IsTrue P.tells → P.blocks pages.new ≡ P.blocks pages.old }
    ensures budget { P.budget pages.new ≡ P.budget pages.old }
    ensures goes { Goes P.stopped P.count P.burns pages.old pages.new }
    ensures stopped { OnErr result (P.stopped pages.new ≡ true) }
    ensures went_on { OnOk result (P.stopped pages.new ≡ P.stopped pages.old) }
{
    let singles = Tree { kind: 5, root };
    let key = key_at(start_of(below));
    Ok(moment_in(singles.last_below(pages, &key, steps)?))
}

// Whether something was written, and the punch isn't later.
fn outlasts(punched: Option<Moment>, moment: Option<Moment>) -> bool
    ensures { result ≡ outlasts punched moment }
{
    match moment {
        Some(moment) => !hides(punched, moment),
        None => false,
    }
}

// Whether a single value is there, under a punch.
fn has_single<P: Pages, L: Ledger>(
    root: u32,
    pages: &mut P,
    view: View,
    punched: Option<Moment>,
    steps: &mut Steps<L>,
) -> Result<bool, Stopped>
    requires here { HasThing P.tells single_owner hung_root (P.blocks pages.old) root (λ g. ⊤) }
    ensures found { IfOk result (λ b. OfThing P.tells single_owner hung_root (P.blocks pages.old) root (λ g. b ≡ has_single view punched g)) }
    ensures kept { IsTrue P.tells → P.blocks pages.new ≡ P.blocks pages.old }
    ensures budget { P.budget pages.new ≡ P.budget pages.old }
    ensures goes { Goes P.stopped P.count P.burns pages.old pages.new }
    ensures stopped { OnErr result (P.stopped pages.new ≡ true) }
    ensures went_on { OnOk result (P.stopped pages.new ≡ P.stopped pages.old) }
{
    Ok(outlasts(punched, newest_at(root, pages, view.below, steps)?))
}

// Whether an extent has a record and lies below the epoch, and the punch isn't later.
fn is_there(view: View, punched: Option<Moment>, placed: &Placed) -> bool
    ensures { result ≡ is_there view punched placed.now.mark.length (record { epoch = placed.now.at.epoch; minor = placed.now.at.minor }) }
{
    let moment = Moment {
        epoch: placed.at.epoch,
        minor: placed.at.minor,
    };
    u16::from(view.unit) <= placed.mark.length
        && is_earlier(moment, start_of(view.below))
        && !hides(punched, moment)
}

// Whether a record of an array is there, under a punch.
fn has_extent<P: Pages, L: Ledger>(
    root: u32,
    pages: &mut P,
    view: View,
    punched: Option<Moment>,
    steps: &mut Steps<L>,
) -> Result<bool, Stopped>
    requires here { HasThing P.tells extent_owner hung_root (P.blocks pages.old) root (λ g. ⊤) }
    ensures found { IfOk result (λ b. OfThing P.tells extent_owner hung_root (P.blocks pages.old) root (λ g. b ≡ has_extent view punched g)) }
    ensures kept { IsTrue P.tells → P.blocks pages.new ≡ P.blocks pages.old }
    ensures budget { P.budget pages.new ≡ P.budget pages.old }
    ensures goes { Goes P.stopped P.count P.burns pages.old pages.new }
    ensures stopped { OnErr result (P.stopped pages.new ≡ true) }
    ensures went_on { OnOk result (P.stopped pages.new ≡ P.stopped pages.old) }
{
    let extents = Extents {
        tree: Tree { kind: 6, root },
    };
    let mut key = least_key();
    for _ in 0..PAIRS {
        let Some(placed) = extents.next_over(pages, &key, steps)? else {
            return Ok(false);
        };
        if is_there(view, punched, &placed) {
            return Ok(true);
        }
        key = key_at_place(placed.at);
    }
    Ok(false)
}

/// Whether an akey has a cell, where one punch is the last that covers it: a single value or a record of an
/// array, below the epoch, that this punch doesn't hide.
///
/// # Errors
///
/// `Stopped` comes only where the pages answered it.
pub fn has_value<P: Pages, L: Ledger>(
    roots: AkeyRoots,
    pages: &mut P,
    view: View,
    punched: Option<Moment>,
    steps: &mut Steps<L>,
) -> Result<bool, Stopped>
    requires here { HasAt P.tells values_owner values_roots (P.blocks pages.old) roots (λ g. ⊤) }
    ensures found { IfOk result (λ b. OfAt P.tells values_owner values_roots (P.blocks pages.old) roots (λ g. b ≡ has_value view punched g)) }
    ensures kept { IsTrue P.tells → P.blocks pages.new ≡ P.blocks pages.old }
    ensures budget { P.budget pages.new ≡ P.budget pages.old }
    ensures goes { Goes P.stopped P.count P.burns pages.old pages.new }
    ensures stopped { OnErr result (P.stopped pages.new ≡ true) }
    ensures went_on { OnOk result (P.stopped pages.new ≡ P.stopped pages.old) }
{
    if has_single(roots.singles, pages, view, punched, steps)? {
        return Ok(true);
    }
    has_extent(roots.extents, pages, view, punched, steps)
}
