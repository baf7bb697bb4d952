// The last punch that covers a path, and what becomes of the punches of versions where the versions change.
ghost use Rattle.std.specs.Prelude.{◌≡◌, All, Bool, List, filter, map, true, false};
ghost use Rattle.base_types.specs.declared.epoch.Epoch.{Epoch as EpochOf};
ghost use Rattle.base_types.specs.declared.id.AttemptId.{AttemptId as AttemptIdOf};
ghost use Rattle.base_types.specs.declared.path.Path.{Path as PathOf};
ghost use Rattle.daos_model.specs.declared.durable.Version.{Version as VersionOf};
ghost use Rattle.daos_model.specs.Forms.{is_write_in_form};
ghost use Rattle.daos_model.specs.Prunes.{is_punch};
ghost use Rattle.daos_model.specs.Versions.{done_by, version_path};
ghost use Rattle.vos_levels.specs.vos_values.declared.keys.Moment.{Moment as MomentOf};
ghost use Rattle.vos_levels.specs.Levels.{HasMore, map_those, without_those};
ghost use Rattle.vos_punches.specs.Punches.{ArePunchesOf, IsAdded, IsLastOver, IsRemoved, PunchesAt, covering, is_punch_of, made_done, moment_of};

/// The last punch that is found to cover a path is the last of the versions' punches, below the epoch, of the
/// path or of what it lies under.
pub fn law_of_covering()
    ensures { (e : EpochOf) (p : PathOf) (vs : List VersionOf) (f : PunchesAt) → All (λ v. is_write_in_form v.write ≡ true) vs → ArePunchesOf vs f → IsLastOver (covering e p f) e p vs }
{}

/// A version more: where it is an update the punches are as they were, and where it is a punch it comes to
/// them.
pub fn laws_of_adding()
    ensures update { (v : VersionOf) (vs ws : List VersionOf) (f : PunchesAt) → HasMore v vs ws → is_punch v.write ≡ false → ArePunchesOf vs f → ArePunchesOf ws f }
    ensures punch { (v : VersionOf) (vs ws : List VersionOf) (f g : PunchesAt) → HasMore v vs ws → is_punch v.write ≡ true → ArePunchesOf vs f → IsAdded f g (version_path v) (moment_of v) → ArePunchesOf ws g }
{}

/// Where versions become done, all of an attempt or those that pass a test, the punches are as they were.
pub fn laws_of_committing()
    ensures attempt { (a : AttemptIdOf) (vs : List VersionOf) (f : PunchesAt) → ArePunchesOf vs f → ArePunchesOf (map (done_by a) vs) f }
    ensures those { (test : VersionOf → Bool) (vs : List VersionOf) (f : PunchesAt) → ArePunchesOf vs f → ArePunchesOf (map_those test made_done vs) f }
{}

/// Where versions go: if all punches stay they are as they were, and if those that go are the punches of a
/// path made at a moment, these go from them.
pub fn laws_of_removing()
    ensures updates { (goes : VersionOf → Bool) (vs : List VersionOf) (f : PunchesAt) → All (λ v. is_punch v.write ≡ true → goes v ≡ false) vs → ArePunchesOf vs f → ArePunchesOf (without_those goes vs) f }
    ensures punch { (goes : VersionOf → Bool) (p : PathOf) (m : MomentOf) (vs : List VersionOf) (f g : PunchesAt) → All (λ v. goes v ≡ is_punch_of p m v) vs → ArePunchesOf vs f → IsRemoved f g p m → ArePunchesOf (without_those goes vs) g }
    ensures filtered { (stays : VersionOf → Bool) (vs : List VersionOf) (f : PunchesAt) → All (λ v. is_punch v.write ≡ true → stays v ≡ true) vs → ArePunchesOf vs f → ArePunchesOf (filter stays vs) f }
{}
