//! What a channel answers to the requests on it.
ghost use Rattle.std.specs.Prelude.{◌≡◌, IfOk, Err};
ghost use Rattle.live_channel.specs.Channel.{refreshed, decided, is_out_of_memory};
ghost use Rattle.channel_api.specs.Replies.{live_reply};
ghost use Rattle.http_edge.specs.Replies.{refresh_owed, decisions_owed};
ghost use Rattle.http_edge.specs.Inner.Events.{TakesEvent};

use channel_api::{not_found, refused_decisions, refused_refresh};
use channel_spec::RefreshFault;
use http::StatusCode;
use http_messages::{Content, ContentType, Reply};
use live_channel::Channel;
use pod_store::DecisionKind;
use std::alloc::{AllocError, Global};

// Whether an allocation failed.
fn is_edge_out_of_memory(fault: RefreshFault) -> bool
    ensures { result ≡ is_out_of_memory (Err fault) }
{
    match fault {
        RefreshFault::OutOfMemory => true,
        _ => false,
    }
}

/// Gives `body`, the origin's playlist, to `channel`. The reply is 204, or 422 or 409 with the fault. Fails only if
/// an allocation fails; `channel` is then as it was.
pub fn refresh_on_edge(
    alloc: Global,
    channel: &mut Channel,
    body: &[u8],
) -> Result<Reply, AllocError>
    ensures { TakesEvent channel.old (refreshed body.now) (refresh_owed body.now) result
        channel.new }
{
    match channel.refresh(alloc, body) {
        Ok(_) => Ok(Reply::bare(StatusCode::NO_CONTENT)),
        Err(fault) => {
            if is_edge_out_of_memory(fault) {
                return Err(AllocError);
            }
            refused_refresh(alloc, fault)
        }
    }
}

/// Gives `body`, a decision file, to `channel`. The reply is 204, or 422 or 409 with the fault. Fails only if an
/// allocation fails; `channel` is then as it was.
pub fn decide_on_edge(
    alloc: Global,
    channel: &mut Channel,
    body: &[u8],
) -> Result<Reply, AllocError>
    ensures { TakesEvent channel.old (decided body.now) (decisions_owed body.now) result
        channel.new }
{
    match channel.decide(alloc, body) {
        Ok(()) => Ok(Reply::bare(StatusCode::NO_CONTENT)),
        Err(fault) => {
            if fault.kind == DecisionKind::OutOfMemory {
                return Err(AllocError);
            }
            refused_decisions(alloc, fault)
        }
    }
}

/// The reply with the playlist that `channel` wrote last, or 404 if it wrote none. Fails only if an allocation fails.
pub fn live_playlist_of_edge(alloc: Global, channel: &Channel) -> Result<Reply, AllocError>
    ensures { IfOk result (λ reply. reply ≡ live_reply channel.now.text) }
{
    let Some(text) = channel.shared_playlist()? else {
        return not_found(alloc);
    };
    let content = Content {
        media: ContentType::Playlist,
        text,
    };
    Ok(Reply {
        status: StatusCode::OK,
        allow: None,
        content: Some(content),
    })
}
