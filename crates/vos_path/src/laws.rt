// What it comes to that the trees of objects are small.
ghost use Rattle.std.specs.Prelude.{ℕ};
ghost use Rattle.base_types.specs.declared.path.Path.{Path as PathOf};
ghost use Rattle.vos_path.specs.Objects.{Objects as ObjectsOf};
ghost use Rattle.vos_path.specs.Small.{PathIsSmall};
ghost use Rattle.vos_path.specs.Writes.{ObjectsAreSmall};

/// Where all trees of objects are small, those on every path are.
pub fn paths_are_small()
    ensures { (d : ℕ) (p : PathOf) (g : ObjectsOf) → ObjectsAreSmall d g → PathIsSmall d p g }
{}
