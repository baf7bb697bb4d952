// Paths that are found by one number, each with the moments of its punches.
ghost use Rattle.std.specs.Prelude.{◌≡◌, ◌<◌, [], ◌∷◌, length, OnOk, OnErr, IfSome, IfOk};
ghost use Rattle.std.specs.List.{position};
ghost use Rattle.base_types.specs.Paths.{cut_at};
ghost use Rattle.vos_punches.specs.Moments.{last_below};
ghost use Rattle.vos_punches.specs.Punches.{IsAdded, IsRemoved, IsSame};
ghost use Rattle.vos_punches.specs.Rows.{in_bucket, is_row_of};

use crate::cut::is_cut;
use crate::moments::Moments;
use base_types::epoch::Epoch;
use base_types::items::Memory;
use base_types::path::{Level, Path};
use std::alloc::Global;
use vos_levels::below::values::keys::Moment;

/// A path and the moments of its punches.
#[derive(Drop)]
pub(crate) struct Row {
    path: Path,
    moments: Moments,
}

/// Some paths, each with the moments of its punches.
#[derive(Drop)]
pub(crate) struct Bucket {
    rows: Vec<Row>,
}

// A row of a path with one moment.
fn first_row(alloc: Global, path: Path, at: Moment) -> Result<Row, Memory>
    ensures path { IfOk result (λ row. row.path ≡ path) }
    ensures moments { IfOk result (λ row. row.moments ≡ at ∷ []) }
{
    let mut moments = Moments::new(alloc);
    moments.add(at)?;
    Ok(Row { path, moments })
}

impl Bucket {
    /// No path has a punch.
    pub(crate) fn new(alloc: Global) -> Bucket
        ensures { result.rows.items ≡ [] }
    {
        Bucket {
            rows: Vec::new(alloc),
        }
    }

    // The place of the row of a path as far as a level.
    fn place_of(&self, path: &Path, level: Level) -> Option<usize>
        ensures first { result ≡ position (is_row_of (cut_at level path.now)) self.now.rows.items }
        ensures within { IfSome result (λ place. place < length self.now.rows.items) }
    {
        self.rows
            .iter()
            .position(|row| is_cut(&row.path, path, level))
    }

    /// One punch more. Where memory is wanting all stays as it was.
    pub(crate) fn add(&mut self, alloc: Global, path: Path, at: Moment) -> Result<(), Memory>
        ensures added { OnOk result (IsAdded (in_bucket self.old) (in_bucket self.new) path at) }
        ensures kept { OnErr result (IsSame (in_bucket self.old) (in_bucket self.new)) }
    {
        match self.place_of(&path, Level::Akey) {
            Some(place) => self.rows[place].moments.add(at),
            None => {
                self.rows.push(first_row(alloc, path, at)?)?;
                Ok(())
            }
        }
    }

    /// All punches but the one of this path and moment.
    pub(crate) fn remove(&mut self, path: &Path, at: Moment)
        ensures { IsRemoved (in_bucket self.old) (in_bucket self.new) path.now at }
    {
        if let Some(place) = self.place_of(path, Level::Akey) {
            self.rows[place].moments.remove(at);
        }
    }

    /// The last punch below an epoch of a path as far as a level.
    pub(crate) fn last_below(&self, path: &Path, level: Level, below: Epoch) -> Option<Moment>
        ensures { result ≡ last_below below (in_bucket self.now (cut_at level path.now)) }
    {
        match self.place_of(path, level) {
            Some(place) => self.rows[place].moments.last_below(below),
            None => None,
        }
    }
}
