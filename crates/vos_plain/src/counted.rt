// What a store over lists keeps, and how many blocks that takes.
ghost use Rattle.std.specs.Prelude.{◌≡◌, ◌≤◌};
ghost use Rattle.vos_plain.specs.Costs.{taken_by};
ghost use Rattle.vos_contents.specs.Contents.{contents_of};

use vos_contents::contents::Contents;

/// What a store over lists keeps. Its capacity is in blocks, and the blocks that are taken are counted as
/// they change.
#[derive(Drop)]
pub(crate) struct Counted {
    pub kept: Contents,
    pub capacity: u32,
    pub taken: u32,
    ghost counted: { taken ≡ taken_by (contents_of kept) },
    ghost room: { taken_by (contents_of kept) ≤ capacity },
}
