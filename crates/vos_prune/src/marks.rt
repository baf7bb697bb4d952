// What trees below a log's path or an akey say of a write, and whose it is where it is done.
ghost use Rattle.std.specs.Prelude.{◌≡◌, ◌<◌, true, IfOk, OnOk, OnErr, IsTrue, ⊤};
ghost use Rattle.std.specs.Option.{option_and_then};
ghost use Rattle.pmem_pages.specs.Node.{IsKey};
ghost use Rattle.pmem_tree_base.specs.Calls.{Goes};
ghost use Rattle.vos_values.specs.Keys.{IsExtentKey, IsMoment, extent_key, moment_key};
ghost use Rattle.vos_values.specs.Values.{version_in};
ghost use Rattle.vos_levels.specs.Calls.{HasThing, OfThing};
ghost use Rattle.vos_levels.specs.Levels.{hung_root, things};
ghost use Rattle.vos_ilog.specs.Logs.{log_owner};
ghost use Rattle.vos_single.specs.Singles.{single_owner};
ghost use Rattle.vos_extent.specs.Extents.{extent_owner};
ghost use Rattle.vos_prune.specs.Writers.{done_punch, done_version, extent_writer, log_writer, single_writer};

use base_types::id::AttemptId;
use pmem_pages::node::{TreeKey, Value};
use pmem_pages::pages::Pages;
use pmem_pages::refusal::Stopped;
use pmem_pages::steps::Steps;
use pmem_tree::tree::Tree;
use std::sync::ledger::Ledger;
use vos_settle::log::find_mark;
use vos_values::keys::{ExtentKey, Moment, extent_key, moment_key};
use vos_values::values::{LogMark, VersionMark, read_version};

// Whose it is, where an entry is a done punch.
fn done_punch(mark: Option<LogMark>) -> Option<AttemptId>
    ensures { result ≡ done_punch mark }
{
    match mark {
        Some(mark) => {
            if mark.punch && mark.done {
                Some(mark.by)
            } else {
                None
            }
        }
        None => None,
    }
}

// Whose it is, where a version is done.
fn done_version(mark: Option<VersionMark>) -> Option<AttemptId>
    ensures { result ≡ done_version mark }
{
    match mark {
        Some(mark) => { if mark.done { Some(mark.by) } else { None } }
        None => None,
    }
}

// What a value says, if there is one and it is that of a version.
fn mark_in(value: Option<Value>) -> Option<VersionMark>
    ensures { result ≡ option_and_then version_in value }
{
    match value {
        Some(value) => read_version(&value),
        None => None,
    }
}

// The key of a moment.
fn key_at(at: Moment) -> TreeKey
    requires minor { at.minor < 64 }
    ensures key { result ≡ moment_key at }
    ensures is { IsKey result }
    ensures moment { IsMoment at }
{
    moment_key(at)
}

// The key of an extent's place.
fn key_of(at: ExtentKey) -> TreeKey
    requires minor { at.minor < 64 }
    ensures key { result ≡ extent_key at }
    ensures is { IsKey result }
    ensures place { IsExtentKey at }
{
    extent_key(at)
}

/// Whose the done punch of a moment is in the log of a root, if there is one.
///
/// # Errors
///
/// `Stopped` comes only where the pages answered it.
pub fn log_writer<P: Pages, L: Ledger>(
    root: u32,
    pages: &mut P,
    at: Moment,
    steps: &mut Steps<L>,
) -> Result<Option<AttemptId>, Stopped>
    requires minor { at.minor < 64 }
    requires log { HasThing P.tells log_owner hung_root (P.blocks pages.old) root (λ g. ⊤) }
    ensures found { IfOk result (λ w. OfThing P.tells log_owner hung_root (P.blocks pages.old) root (λ g. w ≡ log_writer at (things g))) }
    ensures kept { IsTrue P.tells → P.blocks pages.new ≡ P.blocks pages.old }
    ensures budget { P.budget pages.new ≡ P.budget pages.old }
    ensures goes { Goes P.stopped P.count P.burns pages.old pages.new }
    ensures stopped { OnErr result (P.stopped pages.new ≡ true) }
    ensures went_on { OnOk result (P.stopped pages.new ≡ P.stopped pages.old) }
{
    Ok(done_punch(find_mark(root, pages, at, steps)?))
}

/// Whose the done version of a single value of a moment is in the tree of a root, if there is one.
///
/// # Errors
///
/// `Stopped` comes only where the pages answered it.
pub fn single_writer<P: Pages, L: Ledger>(
    root: u32,
    pages: &mut P,
    at: Moment,
    steps: &mut Steps<L>,
) -> Result<Option<AttemptId>, Stopped>
    requires minor { at.minor < 64 }
    requires here { HasThing P.tells single_owner hung_root (P.blocks pages.old) root (λ g. ⊤) }
    ensures found { IfOk result (λ w. OfThing P.tells single_owner hung_root (P.blocks pages.old) root (λ g. w ≡ single_writer at (things g))) }
    ensures kept { IsTrue P.tells → P.blocks pages.new ≡ P.blocks pages.old }
    ensures budget { P.budget pages.new ≡ P.budget pages.old }
    ensures goes { Goes P.stopped P.count P.burns pages.old pages.new }
    ensures stopped { OnErr result (P.stopped pages.new ≡ true) }
    ensures went_on { OnOk result (P.stopped pages.new ≡ P.stopped pages.old) }
{
    let key = key_at(at);
    let tree = Tree { kind: 5, root };
    Ok(done_version(mark_in(tree.get(pages, &key, steps)?)))
}

/// Whose the done extent of a place is in the tree of a root, if there is one.
///
/// # Errors
///
/// `Stopped` comes only where the pages answered it.
pub fn extent_writer<P: Pages, L: Ledger>(
    root: u32,
    pages: &mut P,
    at: ExtentKey,
    steps: &mut Steps<L>,
) -> Result<Option<AttemptId>, Stopped>
    requires minor { at.minor < 64 }
    requires here { HasThing P.tells extent_owner hung_root (P.blocks pages.old) root (λ g. ⊤) }
    ensures found { IfOk result (λ w. OfThing P.tells extent_owner hung_root (P.blocks pages.old) root (λ g. w ≡ extent_writer at (things g))) }
    ensures kept { IsTrue P.tells → P.blocks pages.new ≡ P.blocks pages.old }
    ensures budget { P.budget pages.new ≡ P.budget pages.old }
    ensures goes { Goes P.stopped P.count P.burns pages.old pages.new }
    ensures stopped { OnErr result (P.stopped pages.new ≡ true) }
    ensures went_on { OnOk result (P.stopped pages.new ≡ P.stopped pages.old) }
{
    let key = key_of(at);
    let tree = Tree { kind: 6, root };
    Ok(done_version(mark_in(tree.get(pages, &key, steps)?)))
}
