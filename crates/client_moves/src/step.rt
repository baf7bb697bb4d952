// A move of a client, and its kinds.
ghost use Rattle.std.specs.Prelude.{◌≡◌};
ghost use Rattle.client_moves.specs.Moves.{at_none, move_of};
ghost use Rattle.world_base.specs.ClientTurns.{asks, at_present, attempt_id, goes, rests, skips};

use base_messages::actor::ActorId;
use base_messages::message::{Message, Post};
use base_types::epoch::TargetId;
use base_types::id::AttemptId;
use base_types::report::Line;
use world_base::client::{ClientPlan, ClientState, Present};

/// What a client does next: the message that it sends and the line that it adds, if any; whether
/// its turn is over; and what it then is.
#[derive(Drop)]
pub struct Move {
    pub post: Option<Post>,
    pub line: Option<Line>,
    pub over: bool,
    pub state: ClientState,
}

/// The number of an attempt.
pub fn attempt_id(plan: &ClientPlan, state: &ClientState, present: &Present) -> AttemptId
    ensures { result ≡ attempt_id plan.now state.now present.now }
{
    AttemptId {
        client: plan.number,
        command: state.command,
        attempt: present.attempt,
    }
}

/// The client is at this attempt.
pub fn at_present(present: Present, state: ClientState) -> ClientState
    ensures { result ≡ at_present present state }
{
    ClientState {
        place: state.place,
        command: state.command,
        tracker: state.tracker,
        skip: state.skip,
        present: Some(present),
        known: state.known,
    }
}

// The attempt that a client is at, if it is at one, and the client without it.
pub(crate) fn taken(state: ClientState) -> (Option<Present>, ClientState)
    ensures present { result.0 ≡ state.present }
    ensures rest { result.1 ≡ at_none state }
{
    let ClientState {
        place,
        command,
        tracker,
        skip,
        present,
        known,
    } = state;
    let rest = ClientState {
        place,
        command,
        tracker,
        skip,
        present: None,
        known,
    };
    (present, rest)
}

impl Move {
    /// It goes on.
    pub fn goes(state: ClientState) -> Move
        ensures { move_of result ≡ goes state }
    {
        Move {
            post: None,
            line: None,
            over: false,
            state,
        }
    }

    /// Its turn is over.
    pub fn rests(state: ClientState) -> Move
        ensures { move_of result ≡ rests state }
    {
        Move {
            post: None,
            line: None,
            over: true,
            state,
        }
    }

    /// It does nothing for some turns, of which this isn't one.
    pub fn skips(turns: u64, mut state: ClientState) -> Move
        ensures { move_of result ≡ skips turns state }
    {
        state.skip = turns;
        Move {
            post: None,
            line: None,
            over: turns > 0,
            state,
        }
    }

    /// It sends a message to a target, and waits for the answer.
    pub fn asks(
        target: TargetId,
        message: Message,
        mut present: Present,
        state: ClientState,
    ) -> Move
        ensures { move_of result ≡ asks target message present state }
    {
        present.waits = true;
        let to = ActorId {
            client: false,
            number: u16::from(target),
        };
        Move {
            post: Some(Post { to, message }),
            line: None,
            over: true,
            state: at_present(present, state),
        }
    }
}
