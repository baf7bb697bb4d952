// Numbers that a list has so far.
ghost use Rattle.std.specs.Prelude.{◌≡◌, ◌∷◌, ◌++◌, [], true, not, length, IfOk};
ghost use Rattle.vos_check.specs.vos_image.Steps.{is_among};

use std::alloc::{AllocError, Global};
use std::collections::HashSet;
use std::marker::Model;

/// Numbers in their order, none of them twice.
#[derive(Drop)]
pub(crate) struct Seen {
    numbers: Vec<u32>,
    set: HashSet<u32>,
}

impl Model for Seen {
    ghost use Rattle.std.specs.Prelude.{ℕ, List};
    ghost use Rattle.vos_check_entries.specs.Seen.{HasNumbers};

    ghost Value = { List ℕ };

    ghost view = { λ s. s.numbers.items };

    ghost invariant = { λ s. HasNumbers s.set s.numbers.items };
}

impl Seen {
    /// None.
    pub(crate) fn new(alloc: Global) -> Seen
        ensures { result ≡ [] }
    {
        Seen {
            numbers: Vec::new(alloc),
            set: HashSet::new(alloc),
        }
    }

    /// AddsNumbers a number, where it isn't there yet.
    pub(crate) fn add(&mut self, number: u32) -> Result<bool, AllocError>
        ensures new { IfOk result (λ is_new. is_new ≡ not (is_among number self.old)) }
        ensures added { IfOk result (λ is_new. is_new ≡ true → self.new ≡ self.old ++ number ∷ []) }
    {
        self.numbers.reserve(1)?;
        let is_new = self.set.insert(number)?;
        if is_new {
            self.numbers.push(number).unwrap();
        }
        Ok(is_new)
    }

    /// How many there are.
    pub(crate) fn len(&self) -> usize
        ensures { result ≡ length self.now }
    {
        self.numbers.len()
    }
}
