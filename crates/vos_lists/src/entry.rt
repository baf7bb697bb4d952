// Objects, dkeys and akeys that stand in trees, one after another.
ghost use Rattle.std.specs.Prelude.{◌≡◌, ◌≤◌, true, IfOk, IfSome, OnOk, OnErr, IsTrue, ⊤, [], length};
ghost use Rattle.std.specs.Option.{option_and_then, option_copied};
ghost use Rattle.pmem_pages.specs.Node.{IsKey};
ghost use Rattle.pmem_pages.specs.Shape.{entries, first_above};
ghost use Rattle.pmem_tree_base.specs.Calls.{Goes};
ghost use Rattle.pmem_tree_base.specs.Find.{pair_of};
ghost use Rattle.vos_values.specs.Keys.{is_size, name_key};
ghost use Rattle.vos_values.specs.declared.keys.Layout.TheVariants.{Two};
ghost use Rattle.vos_levels.specs.Calls.{HasThing, OfThing};
ghost use Rattle.vos_levels.specs.Levels.{hung, hung_root};
ghost use Rattle.vos_path.specs.Objects.{akey_level, dkey_level, objects_owner};
ghost use Rattle.vos_lists.specs.Entries.{akey_in_pair, dkey_in_pair, name_of, object_in_pair};

use base_types::key::KEY_MAX;
use pmem_pages::pages::Pages;
use pmem_pages::refusal::Stopped;
use pmem_pages::steps::Steps;
use pmem_tree::tree::Tree;
use pmem_tree::{Pair, TreeKey};
use std::sync::ledger::Ledger;
use vos_values::keys::{Layout, ObjectKey, name_key, object_key, read_name, read_object};
use vos_values::values::{AkeyRoots, Roots, read_akey, read_roots};

/// There are no more block numbers, so no tree has more pairs: a walk over one ends after as many.
pub const PAIRS: u64 = 1 << 32;

/// An akey in a tree: its key, and the roots of what it holds.
#[derive(Clone, Copy)]
pub struct AkeyEntry {
    pub key: TreeKey,
    pub roots: AkeyRoots,
}

/// A dkey in a tree: its key, and the roots of what it holds.
#[derive(Clone, Copy)]
pub struct DkeyEntry {
    pub key: TreeKey,
    pub roots: Roots,
}

/// An object in a tree: which it is, its key, and the roots of what it holds.
#[derive(Clone, Copy)]
pub struct ObjectEntry {
    pub name: ObjectKey,
    pub key: TreeKey,
    pub roots: Roots,
}

/// The key of no bytes, which lies below every other.
pub fn least_key() -> TreeKey
    ensures key { result ≡ name_key [] }
    ensures is { IsKey result }
{
    name_key(&[])
}

/// The name that a key says, if it says one.
pub fn name_of(key: &TreeKey) -> Option<&[u8]>
    ensures name { option_copied result ≡ name_of key.now }
    ensures short { IfSome (option_copied result) (λ name. length name ≤ 64) }
{
    if usize::from(key.len) <= KEY_MAX {
        read_name(key)
    } else {
        None
    }
}

// The akey that a pair says, if it says one.
fn akey_of(pair: &Pair) -> Option<AkeyEntry>
    ensures said { result ≡ akey_in_pair pair.now }
    ensures key { IfSome result (λ e. IsKey e.key) }
{
    let name = name_of(&pair.key)?;
    let roots = read_akey(&pair.value)?;
    Some(AkeyEntry {
        key: name_key(name),
        roots,
    })
}

// The akey that a pair says, if there is one and it says one.
fn akey_in(pair: Option<Pair>) -> Option<AkeyEntry>
    ensures said { result ≡ option_and_then akey_in_pair pair }
    ensures key { IfSome result (λ e. IsKey e.key) }
{
    match pair {
        Some(pair) => akey_of(&pair),
        None => None,
    }
}

// The dkey that a pair says, if it says one.
fn dkey_of(pair: &Pair) -> Option<DkeyEntry>
    ensures said { result ≡ dkey_in_pair pair.now }
    ensures key { IfSome result (λ e. IsKey e.key) }
{
    let name = name_of(&pair.key)?;
    let roots = read_roots(&pair.value)?;
    Some(DkeyEntry {
        key: name_key(name),
        roots,
    })
}

// The dkey that a pair says, if there is one and it says one.
fn dkey_in(pair: Option<Pair>) -> Option<DkeyEntry>
    ensures said { result ≡ option_and_then dkey_in_pair pair }
    ensures key { IfSome result (λ e. IsKey e.key) }
{
    match pair {
        Some(pair) => dkey_of(&pair),
        None => None,
    }
}

// The object that a pair says, if it says one.
fn object_of(pair: &Pair) -> Option<ObjectEntry>
    ensures said { result ≡ object_in_pair pair.now }
    ensures key { IfSome result (λ e. IsKey e.key) }
    ensures size { IfSome result (λ e. is_size Two e.name.obj.unit ≡ true) }
{
    let name = read_object(Layout::Two, &pair.key)?;
    let roots = read_roots(&pair.value)?;
    Some(ObjectEntry {
        name,
        key: object_key(name),
        roots,
    })
}

// The object that a pair says, if there is one and it says one.
fn object_in(pair: Option<Pair>) -> Option<ObjectEntry>
    ensures said { result ≡ option_and_then object_in_pair pair }
    ensures key { IfSome result (λ e. IsKey e.key) }
    ensures size { IfSome result (λ e. is_size Two e.name.obj.unit ≡ true) }
{
    match pair {
        Some(pair) => object_of(&pair),
        None => None,
    }
}

/// The first akey above a key.
///
/// # Errors
///
/// `Stopped` comes only where the pages answered it.
pub fn next_akey<P: Pages, L: Ledger>(
    akeys: Tree,
    pages: &mut P,
    key: &TreeKey,
    steps: &mut Steps<L>,
) -> Result<Option<AkeyEntry>, Stopped>
    requires kind { akeys.kind ≡ 3 }
    requires key { IsKey key.now }
    requires here { HasThing P.tells (hung akey_level) hung_root (P.blocks pages.old) akeys.root (λ g. ⊤) }
    ensures found { IfOk result (λ e. OfThing P.tells (hung akey_level) hung_root (P.blocks pages.old) akeys.root (λ g. e ≡ option_and_then akey_in_pair (pair_of (first_above key.now (entries g.0))))) }
    ensures key { IfOk result (λ e. IfSome e (λ x. IsKey x.key)) }
    ensures kept { IsTrue P.tells → P.blocks pages.new ≡ P.blocks pages.old }
    ensures budget { P.budget pages.new ≡ P.budget pages.old }
    ensures goes { Goes P.stopped P.count P.burns pages.old pages.new }
    ensures stopped { OnErr result (P.stopped pages.new ≡ true) }
    ensures went_on { OnOk result (P.stopped pages.new ≡ P.stopped pages.old) }
{
    Ok(akey_in(akeys.next_after(pages, key, steps)?))
}

/// The first dkey above a key.
///
/// # Errors
///
/// `Stopped` comes only where the pages answered it.
pub fn next_dkey<P: Pages, L: Ledger>(
    dkeys: Tree,
    pages: &mut P,
    key: &TreeKey,
    steps: &mut Steps<L>,
) -> Result<Option<DkeyEntry>, Stopped>
    requires kind { dkeys.kind ≡ 2 }
    requires key { IsKey key.now }
    requires here { HasThing P.tells (hung dkey_level) hung_root (P.blocks pages.old) dkeys.root (λ g. ⊤) }
    ensures found { IfOk result (λ e. OfThing P.tells (hung dkey_level) hung_root (P.blocks pages.old) dkeys.root (λ g. e ≡ option_and_then dkey_in_pair (pair_of (first_above key.now (entries g.0))))) }
    ensures key { IfOk result (λ e. IfSome e (λ x. IsKey x.key)) }
    ensures kept { IsTrue P.tells → P.blocks pages.new ≡ P.blocks pages.old }
    ensures budget { P.budget pages.new ≡ P.budget pages.old }
    ensures goes { Goes P.stopped P.count P.burns pages.old pages.new }
    ensures stopped { OnErr result (P.stopped pages.new ≡ true) }
    ensures went_on { OnOk result (P.stopped pages.new ≡ P.stopped pages.old) }
{
    Ok(dkey_in(dkeys.next_after(pages, key, steps)?))
}

/// The first object above a key.
///
/// # Errors
///
/// `Stopped` comes only where the pages answered it.
pub fn next_object<P: Pages, L: Ledger>(
    objects: Tree,
    pages: &mut P,
    key: &TreeKey,
    steps: &mut Steps<L>,
) -> Result<Option<ObjectEntry>, Stopped>
    requires kind { objects.kind ≡ 1 }
    requires key { IsKey key.now }
    requires here { HasThing P.tells objects_owner hung_root (P.blocks pages.old) objects.root (λ g. ⊤) }
    ensures found { IfOk result (λ e. OfThing P.tells objects_owner hung_root (P.blocks pages.old) objects.root (λ g. e ≡ option_and_then object_in_pair (pair_of (first_above key.now (entries g.0))))) }
    ensures key { IfOk result (λ e. IfSome e (λ x. IsKey x.key)) }
    ensures size { IfOk result (λ e. IfSome e (λ x. is_size Two x.name.obj.unit ≡ true)) }
    ensures kept { IsTrue P.tells → P.blocks pages.new ≡ P.blocks pages.old }
    ensures budget { P.budget pages.new ≡ P.budget pages.old }
    ensures goes { Goes P.stopped P.count P.burns pages.old pages.new }
    ensures stopped { OnErr result (P.stopped pages.new ≡ true) }
    ensures went_on { OnOk result (P.stopped pages.new ≡ P.stopped pages.old) }
{
    Ok(object_in(objects.next_after(pages, key, steps)?))
}
