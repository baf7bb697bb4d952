// What a Fetch asks.
ghost use Rattle.std.specs.Prelude.{◌≡◌, true, IfOk};
ghost use Rattle.replay_verdict.specs.Tried.{fetch_in};
ghost use Rattle.world_base.specs.Verdicts.{fetcher};

use base_messages::actor::ActorId;
use base_messages::message::Message;
use base_types::items::Memory;
use world_base::request::FetchRequest;

/// What a Fetch asks.
pub fn fetch_in(message: &Message) -> Result<Option<FetchRequest>, Memory>
    ensures { IfOk result (λ request. request ≡ fetch_in message.now) }
{
    match message {
        Message::Fetch {
            attempt,
            op,
            group,
            ep,
            first,
            tracker,
            read,
            snapshot,
        } => Ok(Some(FetchRequest {
            attempt: *attempt,
            op: *op,
            group: *group,
            ep: *ep,
            first: *first,
            tracker: *tracker,
            read: read.copy()?,
            snapshot: *snapshot,
        })),
        _ => Ok(None),
    }
}

/// The client that it came from.
pub fn fetcher(request: &FetchRequest) -> ActorId
    ensures { result ≡ fetcher request.now }
{
    ActorId {
        client: true,
        number: request.attempt.client,
    }
}
