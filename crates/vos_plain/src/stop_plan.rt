// Which changes of a store over lists stop it.
ghost use Rattle.std.specs.Prelude.{◌≡◌, false, nat_lt};
ghost use Rattle.std.specs.List.{list_any};
ghost use Rattle.vos_plain.specs.Stops.{AfterChange, has_some, is_number, signs_of, stop_of, injected_by, after_change};

/// What becomes of a change.
#[derive(Clone, Copy)]
pub enum Injected {
    /// It is made.
    Made,
    /// The store stops, and it isn't made.
    StopBefore,
    /// It is made, and the store stops.
    StopAfter,
}

/// The changes that stop a store: by a plan, which has their numbers from 1, and by a fuse, which
/// stops it at the last of so many changes, once; `left` of them are left, and none where no fuse is
/// set.
#[derive(Drop)]
pub struct StopPlan {
    pub plan: Vec<u32>,
    pub count: u64,
    pub fuse: u32,
    pub left: u32,
    pub faults: u64,
    pub burns: u64,
    pub stopped: bool,
}

// Whether a number is in a plan.
fn is_planned(plan: &[u32], number: u64) -> bool
    ensures { result ≡ list_any (is_number number) plan.now }
{
    plan.iter().any(|planned| u64::from(*planned) == number)
}

// What becomes of a change of this number at which the store stops.
fn stop_at(number: u64) -> Injected
    ensures { result ≡ stop_of number }
{
    if number % 2 == 0 {
        Injected::StopAfter
    } else {
        Injected::StopBefore
    }
}

impl StopPlan {
    /// No change was made yet, and no fuse is set.
    pub fn new(plan: Vec<u32>) -> StopPlan
        ensures left { result ≡ record { plan = plan; count = 0; fuse = 0; left = 0; faults = 0; burns = 0; stopped = false } }
        ensures signs { signs_of result ≡ record { stopped = false; faults = 0; burns = 0; may_fail = has_some plan.items; fused = false; left = 0 } }
    {
        StopPlan {
            plan,
            count: 0,
            fuse: 0,
            left: 0,
            faults: 0,
            burns: 0,
            stopped: false,
        }
    }

    /// Sets a fuse, or none.
    pub fn set(&mut self, k: u32)
        ensures left { self.new ≡ record self.old { fuse = k; left = k } }
        ensures signs { signs_of self.new ≡ record (signs_of self.old) { fused = nat_lt 0 k; left = k } }
    {
        self.fuse = k;
        self.left = k;
    }

    /// A change that isn't refused: it is counted, and the store stops where its number is in the
    /// plan, or where it is the last that the fuse leaves; the change is made where that number, or
    /// else that of the fuse, is even.
    pub fn next_change(&mut self) -> Injected
        requires { self.old.stopped ≡ false }
        ensures which { result ≡ injected_by self.old }
        ensures left { self.new ≡ after_change self.old }
        ensures signs { AfterChange result (signs_of self.old) (signs_of self.new) }
    {
        self.count = self.count.saturating_add(1);
        let burns = self.left == 1;
        if self.left > 0 {
            self.left -= 1;
        }
        if burns {
            self.burns = self.burns.saturating_add(1);
            self.stopped = true;
        }
        if is_planned(&self.plan, self.count) {
            self.faults = self.faults.saturating_add(1);
            self.stopped = true;
            return stop_at(self.count);
        }
        if burns {
            return stop_at(u64::from(self.fuse));
        }
        Injected::Made
    }
}
