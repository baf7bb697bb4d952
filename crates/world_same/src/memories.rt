// Whether two targets remember the same of attempts.
ghost use Rattle.std.specs.Prelude.{◌≡◌, Decides};

use crate::same::{Same, three};
use dtx_base::leading::{LeaderMemory, Naming, Undecided};
use dtx_base::member::{Inquiry, MemberMemory, Parked, QueryState};

impl Same for Undecided {
    fn is_same(&self, other: &Undecided) -> bool {
        three(
            (&self.attempt, &self.client, &self.counted),
            (&other.attempt, &other.client, &other.counted),
        )
    }
}

impl Same for Naming {
    fn is_same(&self, other: &Naming) -> bool {
        three(
            (&self.member, &self.inc, &self.attempt),
            (&other.member, &other.inc, &other.attempt),
        )
    }
}

impl Same for LeaderMemory {
    fn is_same(&self, other: &LeaderMemory) -> bool {
        self.undecided.is_same(&other.undecided)
            && self.decided.is_same(&other.decided)
            && self.named.is_same(&other.named)
            && self.down.is_same(&other.down)
    }
}

impl Same for Parked {
    fn is_same(&self, other: &Parked) -> bool {
        three(
            (&self.on, &self.leader, &self.ask),
            (&other.on, &other.leader, &other.ask),
        )
    }
}

impl Same for QueryState {
    fn is_same(&self, other: &QueryState) -> bool {
        match (self, other) {
            (QueryState::Unanswered, QueryState::Unanswered) => true,
            (QueryState::Undecided, QueryState::Undecided) => true,
            (QueryState::Down, QueryState::Down) => true,
            _ => false,
        }
    }
}

impl Same for Inquiry {
    fn is_same(&self, other: &Inquiry) -> bool {
        self.attempt.is_same(&other.attempt) && self.state.is_same(&other.state)
    }
}

impl Same for MemberMemory {
    fn is_same(&self, other: &MemberMemory) -> bool {
        self.parked.is_same(&other.parked) && self.inquiries.is_same(&other.inquiries)
    }
}
