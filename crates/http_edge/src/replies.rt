//! The replies that are owed to what is asked of a channel.
ghost use Rattle.std.specs.Prelude.{◌≡◌, ◌≢◌, [], string_bytes, IfOk, IsErr};
ghost use Rattle.live_channel.specs.Channel.{explained};
ghost use Rattle.channel_api.specs.Replies.{why_text, reply_of_text};
ghost use Rattle.http_edge.specs.Inner.Replies.{edge_reply_of_channel_fault};

use channel_api::{push_why_reply_line, reply_line, reply_of_text};
use http::StatusCode;
use http_messages::Reply;
use live_channel::{Channel, ChannelFault};
use std::alloc::{AllocError, Global};

/// The reply 422 that names `fault`, for which a channel wasn't made. Fails if `fault` is `OutOfMemory`, or an
/// allocation fails.
pub fn edge_reply_of_channel_fault(alloc: Global, fault: ChannelFault) -> Result<Reply, AllocError>
    ensures reply { IfOk result (λ reply. reply ≡ edge_reply_of_channel_fault fault) }
    ensures memory { fault ≡ ChannelFault.OutOfMemory → IsErr result }
{
    match fault {
        ChannelFault::OutOfMemory => Err(AllocError),
        _ => reply_line(alloc, StatusCode::UNPROCESSABLE_ENTITY, fault.text()),
    }
}

// A line for each known break.
fn edge_why_lines(alloc: Global, channel: &Channel) -> Result<String, AllocError>
    ensures lines { IfOk result (λ lines. string_bytes lines
        ≡ why_text (explained channel.now.kept) channel.now.kept.breaks) }
    ensures memory { IsErr result → channel.now.kept.breaks ≢ [] }
{
    let mut lines = String::new(alloc);
    let mut place = 0usize;
    while let Some(id) = channel.known(place) {
        push_why_reply_line(&mut lines, id, channel.explain(id))?;
        let Some(next) = place.checked_add(1) else {
            return Err(AllocError);
        };
        place = next;
    }
    Ok(lines)
}

/// The reply with a line for each break that `channel` knows: its ID, and why it is filled or not. Fails only if an
/// allocation fails, and takes no memory if no break is known.
pub fn edge_why_reply(alloc: Global, channel: &Channel) -> Result<Reply, AllocError>
    ensures reply { IfOk result (λ reply. reply
        ≡ reply_of_text (why_text (explained channel.now.kept) channel.now.kept.breaks)) }
    ensures memory { IsErr result → channel.now.kept.breaks ≢ [] }
{
    let lines = edge_why_lines(alloc, channel)?;
    reply_of_text(alloc, lines)
}
