// Whether two values are the same.
ghost use Rattle.std.specs.Prelude.{◌≡◌, Decides};

/// A value that can be told from every other one.
pub trait Same {
    /// Whether it is the other value.
    fn is_same(&self, other: &Self) -> bool
        ensures { Decides result (self.now ≡ other.now) };
}

impl Same for u8 {
    fn is_same(&self, other: &u8) -> bool {
        *self == *other
    }
}

impl Same for u32 {
    fn is_same(&self, other: &u32) -> bool {
        *self == *other
    }
}

impl Same for u64 {
    fn is_same(&self, other: &u64) -> bool {
        *self == *other
    }
}

impl Same for u16 {
    fn is_same(&self, other: &u16) -> bool {
        *self == *other
    }
}

impl Same for bool {
    fn is_same(&self, other: &bool) -> bool {
        *self == *other
    }
}

impl<T: Same> Same for Option<T> {
    fn is_same(&self, other: &Option<T>) -> bool {
        match (self, other) {
            (None, None) => true,
            (Some(one), Some(two)) => one.is_same(two),
            _ => false,
        }
    }
}

impl<S: Same, T: Same> Same for (S, T) {
    fn is_same(&self, other: &(S, T)) -> bool {
        self.0.is_same(&other.0) && self.1.is_same(&other.1)
    }
}

/// Whether two parts are each the same.
pub fn both<S: Same, T: Same>(one: (&S, &T), two: (&S, &T)) -> bool
    ensures { Decides result ((one.entry.0.now ≡ two.entry.0.now) × (one.entry.1.now ≡ two.entry.1.now)) }
{
    one.0.is_same(two.0) && one.1.is_same(two.1)
}

/// Whether three parts are each the same.
pub fn three<R: Same, S: Same, T: Same>(one: (&R, &S, &T), two: (&R, &S, &T)) -> bool
    ensures { Decides result ((one.entry.0.now ≡ two.entry.0.now) × ((one.entry.1.now ≡ two.entry.1.now) × (one.entry.2.now ≡ two.entry.2.now))) }
{
    one.0.is_same(two.0) && one.1.is_same(two.1) && one.2.is_same(two.2)
}
