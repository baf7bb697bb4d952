// What was raised at a level. It exists in proofs alone: it takes no memory, and its functions do nothing.
ghost use Rattle.std.specs.Prelude.{◌≡◌, List, [], ◌∷◌, ◌++◌};
ghost use Rattle.std.specs.Borrow.{ftrue};
ghost use Rattle.vos_stamp.specs.declared.marks.Raise.{Raise};

use crate::marks::Raise;
use std::marker::Model;

/// All marks that were raised at a level, each at its entity, also those that are kept no longer.
#[derive(Drop)]
pub(crate) struct History {
    pub ghost raises: { List Raise },
}

impl Model for History {
    ghost also_owns = { λ _. ftrue };
}

// It owns nothing, so what a level keeps may go to another thread.
unsafe impl Send for History {}

impl History {
    // Nothing was raised.
    pub(crate) fn new() -> History
        ensures { result.raises ≡ [] }
    {
        History {}
    }

    // What was raised before, and then this.
    pub(crate) fn with(_before: &History, _raise: &Raise) -> History
        ensures { result.raises ≡ _before.now.raises ++ _raise.now ∷ [] }
    {
        History {}
    }
}
