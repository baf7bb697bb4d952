// Objects in a tree: updates, punches, reads of values, listings, and the punches that these ask for.
ghost use Rattle.std.specs.Prelude.{◌≡◌, ◌≤◌, ◌<◌, ◌+◌, true, false, ℕ, IfOk, OnOk, IsErrOf, IsTrue, ⊤};
ghost use Rattle.base_types.specs.Operations.{read_path};
ghost use Rattle.base_types.specs.Paths.{record_size};
ghost use Rattle.base_types.specs.declared.answer.Answer.TheVariants.{Names};
ghost use Rattle.base_types.specs.declared.operation.Read.TheVariants.{Single as single_read, Extent as extent_read};
ghost use Rattle.base_types.specs.declared.path.Path.{Path as PathOf};
ghost use Rattle.daos_model.specs.Answers.{answer};
ghost use Rattle.daos_model.specs.Blocks.{write_blocks};
ghost use Rattle.daos_model.specs.Durables.{version_key};
ghost use Rattle.daos_model.specs.Forms.{is_read_in_form, is_unit};
ghost use Rattle.daos_model.specs.Ordered.{in_order};
ghost use Rattle.daos_model.specs.Versions.{map_below};
ghost use Rattle.pmem_tree.specs.Calls.{IsShort};
ghost use Rattle.pmem_tree_base.specs.Calls.{Goes};
ghost use Rattle.pmem_tree_base.specs.declared.refusal.TreeNo.{TreeNo};
ghost use Rattle.vos_levels.specs.Calls.{HasThing, OfThing};
ghost use Rattle.vos_levels.specs.Levels.{hung_root};
ghost use Rattle.vos_chain.specs.declared.refusal.PiecesNo.TheVariants.{Stopped as stopped_no};
ghost use Rattle.vos_path.specs.Calls.{LacksFor, SpendsAtMost, for_pair};
ghost use Rattle.vos_path.specs.Objects.{objects_owner, objects_versions};
ghost use Rattle.base_types.specs.Operations.{write_path};
ghost use Rattle.vos_path.specs.Small.{PathIsSmall};
ghost use Rattle.vos_path.specs.Writes.{IsNewIn, NamesAreKeys, below_object_pairs, data_blocks, is_update, object_pairs};
ghost use Rattle.vos_punches.specs.Punches.{ArePunchesOf};
ghost use Rattle.vos_punches.specs.Rows.{moments_at};
ghost use Rattle.vos_gather.specs.vos_reads.Cost.{OfNames, StepsToExtents, StepsToSingle};
ghost use Rattle.vos_gather.specs.vos_reads.Ways.{IsSettled};
ghost use Rattle.vos_object.specs.Updates.{Added, IsWritable, is_value_read, listing, most_blocks, new_version};

use base_types::answer::{Answer, Keys};
use base_types::epoch::Epoch;
use base_types::id::AttemptId;
use base_types::operation::{MinorWrite, Read};
use base_types::path::Path;
use pmem_pages::pages::Pages;
use pmem_pages::steps::Steps;
use pmem_tree::TreeNo;
use pmem_tree::tree::Tree;
use std::alloc::Global;
use std::sync::ledger::Ledger;
use vos_chain::refusal::PiecesNo;
use vos_gather::below::lists::exists::fetch_exists;
use vos_gather::below::lists::list::{list_akeys, list_dkeys};
use vos_gather::below::reads::extent::fetch_extent;
use vos_gather::below::reads::single::fetch_single;
use vos_gather::punches::gather_punches;
use vos_path::objects::write_objects;
use vos_path::stamp::Stamp;
use vos_punches::punches::Punches;
use vos_values::keys::Moment;

/// The objects of a target: a tree of the kind of objects.
#[derive(Clone, Copy)]
pub struct Objects {
    pub tree: Tree,
}

impl Objects {
    /// Adds the version of an update, which isn't settled yet. Nothing of its epoch and number stands in its
    /// object but creations, which give way.
    ///
    /// # Errors
    ///
    /// `NoBlock` comes only where fewer blocks are free than the write takes at most. `TooMuch` comes only
    /// where fewer ranges or bytes are left to stage than its pairs, its bytes and one change of the largest
    /// tree may want, and `Stopped` only where the pages answered it. After `TooMuch` fewer are left
    /// than one change of the largest tree may want. After one the stage has to be dropped.
    pub fn update<P: Pages, L: Ledger>(
        &mut self,
        pages: &mut P,
        epoch: Epoch,
        by: AttemptId,
        write: &MinorWrite,
        steps: &mut Steps<L>,
    ) -> Result<(), TreeNo>
        requires update { is_update write.now.write ≡ true }
        requires kind { self.old.tree.kind ≡ 1 }
        requires write { IsWritable write.now }
        requires here { HasThing P.tells objects_owner hung_root (P.blocks pages.old) self.old.tree.root (IsNewIn (new_version epoch by write.now)) }
        ensures added { OnOk result (OfThing P.tells objects_owner hung_root (P.blocks pages.old) self.old.tree.root (λ g. IsNewIn (new_version epoch by write.now) g → Added epoch by write.now (P.blocks pages.old) g (P.blocks pages.new) self.new.tree.root)) }
        ensures kind { self.new.tree.kind ≡ 1 }
        ensures no_block { IsErrOf result TreeNo.NoBlock → (P.budget pages.old).free < most_blocks write.now.write }
        ensures too_much { IsErrOf result TreeNo.TooMuch → OfThing P.tells objects_owner hung_root (P.blocks pages.old) self.old.tree.root (λ g. IsNewIn (new_version epoch by write.now) g → (d : ℕ) → PathIsSmall d (write_path write.now.write) g → LacksFor (data_blocks write.now.write) (below_object_pairs write.now.write (for_pair d)) d (P.budget pages.old)) }
        ensures few_left { IsErrOf result TreeNo.TooMuch → OfThing P.tells objects_owner hung_root (P.blocks pages.old) self.old.tree.root (λ g. IsNewIn (new_version epoch by write.now) g → (d : ℕ) → PathIsSmall d (write_path write.now.write) g → IsShort d (P.budget pages.new)) }
        ensures staged { OnOk result (OfThing P.tells objects_owner hung_root (P.blocks pages.old) self.old.tree.root (λ g. IsNewIn (new_version epoch by write.now) g → (d : ℕ) → PathIsSmall d (write_path write.now.write) g → SpendsAtMost (data_blocks write.now.write) (object_pairs write.now.write (for_pair d)) (P.budget pages.old) (P.budget pages.new))) }
        ensures free { OnOk result ((P.budget pages.old).free ≤ (P.budget pages.new).free + most_blocks write.now.write) }
        ensures counted { most_blocks write.now.write < write_blocks write.now.write }
        ensures goes { Goes P.stopped P.count P.burns pages.old pages.new }
        ensures stopped { IsErrOf result TreeNo.Stopped → P.stopped pages.new ≡ true }
        ensures went_on { OnOk result (P.stopped pages.new ≡ P.stopped pages.old) }
    {
        let at = Moment {
            epoch,
            minor: write.minor,
        };
        write_objects(&mut self.tree, pages, Stamp { at, by }, &write.write, steps)
    }

    /// Adds the version of a punch, which isn't settled yet. Nothing of its epoch and number stands in its
    /// object but creations, which give way.
    ///
    /// # Errors
    ///
    /// As `update`.
    pub fn punch<P: Pages, L: Ledger>(
        &mut self,
        pages: &mut P,
        epoch: Epoch,
        by: AttemptId,
        write: &MinorWrite,
        steps: &mut Steps<L>,
    ) -> Result<(), TreeNo>
        requires punch { is_update write.now.write ≡ false }
        requires kind { self.old.tree.kind ≡ 1 }
        requires write { IsWritable write.now }
        requires here { HasThing P.tells objects_owner hung_root (P.blocks pages.old) self.old.tree.root (IsNewIn (new_version epoch by write.now)) }
        ensures added { OnOk result (OfThing P.tells objects_owner hung_root (P.blocks pages.old) self.old.tree.root (λ g. IsNewIn (new_version epoch by write.now) g → Added epoch by write.now (P.blocks pages.old) g (P.blocks pages.new) self.new.tree.root)) }
        ensures kind { self.new.tree.kind ≡ 1 }
        ensures no_block { IsErrOf result TreeNo.NoBlock → (P.budget pages.old).free < most_blocks write.now.write }
        ensures too_much { IsErrOf result TreeNo.TooMuch → OfThing P.tells objects_owner hung_root (P.blocks pages.old) self.old.tree.root (λ g. IsNewIn (new_version epoch by write.now) g → (d : ℕ) → PathIsSmall d (write_path write.now.write) g → LacksFor (data_blocks write.now.write) (below_object_pairs write.now.write (for_pair d)) d (P.budget pages.old)) }
        ensures few_left { IsErrOf result TreeNo.TooMuch → OfThing P.tells objects_owner hung_root (P.blocks pages.old) self.old.tree.root (λ g. IsNewIn (new_version epoch by write.now) g → (d : ℕ) → PathIsSmall d (write_path write.now.write) g → IsShort d (P.budget pages.new)) }
        ensures staged { OnOk result (OfThing P.tells objects_owner hung_root (P.blocks pages.old) self.old.tree.root (λ g. IsNewIn (new_version epoch by write.now) g → (d : ℕ) → PathIsSmall d (write_path write.now.write) g → SpendsAtMost (data_blocks write.now.write) (object_pairs write.now.write (for_pair d)) (P.budget pages.old) (P.budget pages.new))) }
        ensures free { OnOk result ((P.budget pages.old).free ≤ (P.budget pages.new).free + most_blocks write.now.write) }
        ensures counted { most_blocks write.now.write < write_blocks write.now.write }
        ensures goes { Goes P.stopped P.count P.burns pages.old pages.new }
        ensures stopped { IsErrOf result TreeNo.Stopped → P.stopped pages.new ≡ true }
        ensures went_on { OnOk result (P.stopped pages.new ≡ P.stopped pages.old) }
    {
        let at = Moment {
            epoch,
            minor: write.minor,
        };
        write_objects(&mut self.tree, pages, Stamp { at, by }, &write.write, steps)
    }

    /// The punches of all versions of the objects, settled or not: those that `fetch` asks for. They are
    /// gathered by a walk over all objects, dkeys and akeys and their logs; `laws_of_punches` says how they stay
    /// those of the versions where writes come, are settled or go.
    ///
    /// # Errors
    ///
    /// `Stopped` comes only where the pages answered it.
    pub fn punches<P: Pages, L: Ledger>(
        &self,
        pages: &mut P,
        alloc: Global,
        steps: &mut Steps<L>,
    ) -> Result<Punches, PiecesNo>
        requires kind { self.now.tree.kind ≡ 1 }
        requires here { HasThing P.tells objects_owner hung_root (P.blocks pages.old) self.now.tree.root (λ g. ⊤) }
        ensures gathered { IfOk result (λ punches. OfThing P.tells objects_owner hung_root (P.blocks pages.old) self.now.tree.root (λ g. ArePunchesOf (objects_versions g) (moments_at punches))) }
        ensures kept { IsTrue P.tells → P.blocks pages.new ≡ P.blocks pages.old }
        ensures budget { P.budget pages.new ≡ P.budget pages.old }
        ensures goes { Goes P.stopped P.count P.burns pages.old pages.new }
        ensures stopped { IsErrOf result stopped_no → P.stopped pages.new ≡ true }
        ensures went_on { OnOk result (P.stopped pages.new ≡ P.stopped pages.old) }
    {
        gather_punches(self.tree, pages, alloc, steps)
    }

    /// What a read of a single value or of an array, or of whether there is a cell below a path, is answered
    /// below an epoch, where every version below it that overlaps the path is settled: what the map of the
    /// versions below is answered. The punches are those of all versions of the objects.
    ///
    /// # Errors
    ///
    /// `Stopped` comes only where the pages answered it.
    pub fn fetch<P: Pages, L: Ledger>(
        &self,
        pages: &mut P,
        alloc: Global,
        read: &Read,
        below: Epoch,
        punches: &Punches,
        steps: &mut Steps<L>,
    ) -> Result<Answer, PiecesNo>
        requires kind { self.now.tree.kind ≡ 1 }
        requires form { is_read_in_form read.now ≡ true }
        requires value { is_value_read read.now ≡ true }
        requires size { is_unit (record_size (read_path read.now)) ≡ true }
        requires names { NamesAreKeys (read_path read.now) }
        requires here { HasThing P.tells objects_owner hung_root (P.blocks pages.old) self.now.tree.root (IsSettled (read_path read.now) below) }
        requires punches { HasThing P.tells objects_owner hung_root (P.blocks pages.old) self.now.tree.root (λ g. ArePunchesOf (objects_versions g) (moments_at punches.now)) }
        ensures found { IfOk result (λ a. OfThing P.tells objects_owner hung_root (P.blocks pages.old) self.now.tree.root (λ g. IsSettled (read_path read.now) below g → ArePunchesOf (objects_versions g) (moments_at punches.now) → a ≡ answer read.now (map_below (in_order version_key (objects_versions g)) below.0))) }
        ensures single { (p : PathOf) → read.now ≡ single_read p → OfThing P.tells objects_owner hung_root (P.blocks pages.old) self.now.tree.root (λ g. OfNames p (λ o k a. StepsToSingle o k a g steps.old steps.new)) }
        ensures extent { (p : PathOf) (low len : ℕ) → read.now ≡ extent_read p low len → OfThing P.tells objects_owner hung_root (P.blocks pages.old) self.now.tree.root (λ g. OfNames p (λ o k a. StepsToExtents low (low + len) o k a g steps.old steps.new)) }
        ensures kept { IsTrue P.tells → P.blocks pages.new ≡ P.blocks pages.old }
        ensures budget { P.budget pages.new ≡ P.budget pages.old }
        ensures goes { Goes P.stopped P.count P.burns pages.old pages.new }
        ensures stopped { IsErrOf result stopped_no → P.stopped pages.new ≡ true }
        ensures went_on { OnOk result (P.stopped pages.new ≡ P.stopped pages.old) }
    {
        match read {
            Read::Single(path) => {
                fetch_single(self.tree, pages, alloc, path, below, punches, steps)
            }
            Read::Extent(path, low, len) => fetch_extent(
                self.tree, pages, alloc, path, *low, *len, below, punches, steps,
            ),
            Read::Exists(path) => {
                fetch_exists(self.tree, pages, alloc, path, below, punches, steps)
            }
            Read::Dkeys(_) | Read::Akeys(_) => Ok(Answer::Absent),
        }
    }

    /// The names of an object's dkeys, or of a dkey's akeys, that have a cell below an epoch, where every
    /// version below it that overlaps the path is settled: what a listing is answered on the map of the
    /// versions below. The punches are those of all versions of the objects.
    ///
    /// # Errors
    ///
    /// `Stopped` comes only where the pages answered it.
    pub fn list<P: Pages, L: Ledger>(
        &self,
        pages: &mut P,
        alloc: Global,
        path: &Path,
        below: Epoch,
        punches: &Punches,
        steps: &mut Steps<L>,
    ) -> Result<Keys, PiecesNo>
        requires kind { self.now.tree.kind ≡ 1 }
        requires form { is_read_in_form (listing path.now) ≡ true }
        requires size { is_unit (record_size path.now) ≡ true }
        requires names { NamesAreKeys path.now }
        requires here { HasThing P.tells objects_owner hung_root (P.blocks pages.old) self.now.tree.root (IsSettled path.now below) }
        requires punches { HasThing P.tells objects_owner hung_root (P.blocks pages.old) self.now.tree.root (λ g. ArePunchesOf (objects_versions g) (moments_at punches.now)) }
        ensures found { IfOk result (λ names. OfThing P.tells objects_owner hung_root (P.blocks pages.old) self.now.tree.root (λ g. IsSettled path.now below g → ArePunchesOf (objects_versions g) (moments_at punches.now) → Names names ≡ answer (listing path.now) (map_below (in_order version_key (objects_versions g)) below.0))) }
        ensures kept { IsTrue P.tells → P.blocks pages.new ≡ P.blocks pages.old }
        ensures budget { P.budget pages.new ≡ P.budget pages.old }
        ensures goes { Goes P.stopped P.count P.burns pages.old pages.new }
        ensures stopped { IsErrOf result stopped_no → P.stopped pages.new ≡ true }
        ensures went_on { OnOk result (P.stopped pages.new ≡ P.stopped pages.old) }
    {
        if path.dkey.is_none() {
            list_dkeys(self.tree, pages, alloc, path, below, punches, steps)
        } else {
            list_akeys(self.tree, pages, alloc, path, below, punches, steps)
        }
    }
}
