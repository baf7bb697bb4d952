// What settling each write of an attempt comes to, and what becomes of the punches of versions.
ghost use Rattle.std.specs.Prelude.{◌≡◌, All, Bool, List, None, filter, false, map, not, true};
ghost use Rattle.base_types.specs.declared.entry.Settle.TheVariants.{Abort as abort_step, Commit as commit_step};
ghost use Rattle.base_types.specs.Operations.{write_path};
ghost use Rattle.base_types.specs.declared.epoch.Epoch.{Epoch as EpochOf};
ghost use Rattle.base_types.specs.declared.id.AttemptId.{AttemptId as AttemptIdOf};
ghost use Rattle.base_types.specs.declared.operation.MinorWrite.{MinorWrite as MinorWriteOf};
ghost use Rattle.base_types.specs.declared.path.Path.{Path as PathOf};
ghost use Rattle.daos_model.specs.declared.durable.Version.{Version as VersionOf};
ghost use Rattle.daos_model.specs.Versions.{done_by, is_not_pending};
ghost use Rattle.vos_settle.specs.declared.name.WriteName.{WriteName as WriteNameOf};
ghost use Rattle.vos_levels.specs.Changes.{keeps, takes};
ghost use Rattle.vos_levels.specs.Levels.{HasMore, without_those};
ghost use Rattle.vos_path.specs.Writes.{is_update};
ghost use Rattle.vos_punches.specs.Punches.{ArePunchesOf, IsAdded, IsRemoved, PunchesAt};
ghost use Rattle.vos_settle.specs.declared.task.Task.{Task as TaskOf};
ghost use Rattle.vos_settle.specs.Names.{moment_of};
ghost use Rattle.vos_settle.specs.Versions.{is_version_of, is_version_taken, versions_after};
ghost use Rattle.vos_prune.specs.Removals.{pruning};
ghost use Rattle.vos_prune.specs.Writers.{writer_of};
ghost use Rattle.vos_object.specs.Punched.{is_punch_kind, moment_of_write};
ghost use Rattle.vos_object.specs.Settling.{NamesAll, NamesThose, is_removed, removed_each, settled_each};
ghost use Rattle.vos_object.specs.Updates.{new_version};

/// Where an attempt's unsettled versions were settled one after another, in whatever order and however
/// often, they became done, or went, as where the attempt is settled at once.
pub fn laws_of_settling()
    ensures commit { (a : AttemptIdOf) (ns : List WriteNameOf) (vs : List VersionOf) → NamesAll a ns vs → settled_each a commit_step ns vs ≡ map (done_by a) vs }
    ensures abort { (a : AttemptIdOf) (ns : List WriteNameOf) (vs : List VersionOf) → NamesAll a ns vs → settled_each a abort_step ns vs ≡ filter (is_not_pending a) vs }
{}

/// Where the done versions that pass a test were taken out one after another, the others are left, as they
/// were. What takes one out leaves the versions but those of the write, whether there is one or not.
pub fn laws_of_removing()
    ensures one { (n : WriteNameOf) (by : AttemptIdOf) (vs : List VersionOf) → versions_after (pruning n.kind (moment_of n) by) n.path vs ≡ without_those (is_removed n) vs }
    ensures nobody { (n : WriteNameOf) (vs : List VersionOf) → writer_of n.path n.kind (moment_of n) vs ≡ None → without_those (is_removed n) vs ≡ vs }
    ensures those { (goes : VersionOf → Bool) (ns : List WriteNameOf) (vs : List VersionOf) → NamesThose goes ns vs → removed_each ns vs ≡ filter (λ v. not (goes v)) vs }
{}

/// How the punches of versions are kept: a punch that is added comes to them. A commit leaves them, and so
/// does what settles or takes out an update. A punch that an abort or a prune takes out goes from them; where
/// the one of its name isn't taken, they stay.
pub fn laws_of_punches()
    ensures update { (epoch : EpochOf) (by : AttemptIdOf) (w : MinorWriteOf) (vs ws : List VersionOf) (f : PunchesAt) → HasMore (new_version epoch by w) vs ws → is_update w.write ≡ true → ArePunchesOf vs f → ArePunchesOf ws f }
    ensures punch { (epoch : EpochOf) (by : AttemptIdOf) (w : MinorWriteOf) (vs ws : List VersionOf) (f g : PunchesAt) → HasMore (new_version epoch by w) vs ws → is_update w.write ≡ false → ArePunchesOf vs f → IsAdded f g (write_path w.write) (moment_of_write epoch w) → ArePunchesOf ws g }
    ensures commit { (t : TaskOf) (p : PathOf) (vs : List VersionOf) (f : PunchesAt) → keeps t.change ≡ true → ArePunchesOf vs f → ArePunchesOf (versions_after t p vs) f }
    ensures of_update { (t : TaskOf) (p : PathOf) (vs : List VersionOf) (f : PunchesAt) → is_punch_kind t.kind ≡ false → ArePunchesOf vs f → ArePunchesOf (versions_after t p vs) f }
    ensures left { (t : TaskOf) (p : PathOf) (vs : List VersionOf) (f : PunchesAt) → All (λ v. is_version_taken t.kind t p v ≡ false) vs → ArePunchesOf vs f → ArePunchesOf (versions_after t p vs) f }
    ensures gone { (t : TaskOf) (p : PathOf) (vs : List VersionOf) (f g : PunchesAt) → is_punch_kind t.kind ≡ true → keeps t.change ≡ false → All (λ v. is_version_of p t.kind t.at v ≡ true → takes t.change v.by v.done ≡ true) vs → ArePunchesOf vs f → IsRemoved f g p t.at → ArePunchesOf (versions_after t p vs) g }
{}
