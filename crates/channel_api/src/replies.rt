//! The replies of the edge, no channel among them.
ghost use Rattle.std.specs.Prelude.{◌≡◌, ◌≢◌, ◌<◌, [], ◌++◌, length, string_bytes, IfOk, IsErr, OnOk, Err};
ghost use Rattle.channel_api.specs.FaultTexts.{why_word};
ghost use Rattle.channel_api.specs.Replies.{reply_line, id_line, not_found, not_allowed, body_fault_reply, refused_refresh_status, refused_refresh, refused_decisions_status, decisions_reply, reply_of_text};

use crate::channel_body::BodyFault;
use crate::reasons::why_word;
use arrayvec::ArrayString;
use break_finder::Why;
use channel_spec::RefreshFault;
use http::StatusCode;
use http_messages::{Allow, Content, ContentType, Reply, plain_http_reply};
use playlist_model::{Shared, Text};
use pod_store::{DecisionFault, DecisionKind};
use std::alloc::{AllocError, Global};

/// The most bytes of a line, with its line feed. The longest is that of a fault of a decision file.
pub const LINE_ROOM: usize = 95;

/// The reply of `status` whose body is `text`, of at most 94 bytes, and a line feed. Fails only if an allocation
/// fails.
pub fn reply_line(alloc: Global, status: StatusCode, text: &str) -> Result<Reply, AllocError>
    requires { length text.now < LINE_ROOM }
    ensures { IfOk result (λ reply. reply ≡ reply_line status text.now) }
{
    let mut line = ArrayString::<LINE_ROOM>::new();
    line.push_str(text);
    line.push('\n');
    plain_http_reply(alloc, status, line.as_str())
}

/// There is no such resource.
pub fn not_found(alloc: Global) -> Result<Reply, AllocError>
    ensures { IfOk result (λ reply. reply ≡ not_found) }
{
    reply_line(alloc, StatusCode::NOT_FOUND, "not found")
}

/// The reply 405 with the methods that the resource has in the field Allow, which `allow` names (RFC 9110, section
/// 15.5.6). Fails only if an allocation fails.
pub fn not_allowed(alloc: Global, allow: Allow) -> Result<Reply, AllocError>
    ensures { IfOk result (λ reply. reply ≡ not_allowed allow) }
{
    let mut reply = reply_line(alloc, StatusCode::METHOD_NOT_ALLOWED, "method not allowed")?;
    reply.allow = Some(allow);
    Ok(reply)
}

/// The reply 422 that names `fault`, for which a body is none of a channel. Fails if `fault` is `OutOfMemory`, or an
/// allocation fails.
pub fn body_fault_reply(alloc: Global, fault: BodyFault) -> Result<Reply, AllocError>
    ensures reply { IfOk result (λ reply. reply ≡ body_fault_reply fault) }
    ensures memory { fault ≡ BodyFault.OutOfMemory → IsErr result }
{
    match fault {
        BodyFault::OutOfMemory => Err(AllocError),
        _ => reply_line(alloc, StatusCode::UNPROCESSABLE_ENTITY, fault.text()),
    }
}

// 422 if the text can't be read, 409 if it may not follow.
fn refused_refresh_status(fault: RefreshFault) -> StatusCode
    ensures { result ≡ refused_refresh_status fault }
{
    match fault {
        RefreshFault::Playlist(_) => StatusCode::UNPROCESSABLE_ENTITY,
        _ => StatusCode::CONFLICT,
    }
}

/// The reply that names `fault`, for which a refresh is refused: 422 if the playlist can't be read, 409 if it may not
/// follow the last one. Fails only if an allocation fails.
pub fn refused_refresh(alloc: Global, fault: RefreshFault) -> Result<Reply, AllocError>
    ensures { IfOk result (λ reply. reply ≡ refused_refresh fault) }
{
    reply_line(alloc, refused_refresh_status(fault), fault.text().as_str())
}

fn refused_decisions_status(kind: DecisionKind) -> StatusCode
    ensures { result ≡ refused_decisions_status kind }
{
    match kind {
        DecisionKind::Used | DecisionKind::Full | DecisionKind::Unknown => StatusCode::CONFLICT,
        _ => StatusCode::UNPROCESSABLE_ENTITY,
    }
}

/// The reply that names `fault`, for which decisions are refused: 422 if they can't be read, 409 if the channel can't
/// take them. Fails only if an allocation fails.
pub fn refused_decisions(alloc: Global, fault: DecisionFault) -> Result<Reply, AllocError>
    ensures { IfOk result (λ reply. reply ≡ decisions_reply (Err fault)) }
{
    reply_line(
        alloc,
        refused_decisions_status(fault.kind),
        fault.text().as_str(),
    )
}

/// Appends to `lines` the line of the break `id`: the ID, a tab and the word for `why`. Fails only if an allocation
/// fails.
pub fn push_why_reply_line(lines: &mut String, id: &str, why: Why) -> Result<(), AllocError>
    ensures { OnOk result (string_bytes lines.new
        ≡ string_bytes lines.old ++ id_line id.now (why_word why)) }
{
    lines.push_str(id)?;
    lines.push_str("\t")?;
    lines.push_str(why_word(why))?;
    lines.push_str("\n")
}

/// The reply 200 with the body `text`, or without a body if that is empty, which takes no memory. Fails only if an
/// allocation fails.
pub fn reply_of_text(alloc: Global, text: String) -> Result<Reply, AllocError>
    ensures reply { IfOk result (λ reply. reply ≡ reply_of_text (string_bytes text)) }
    ensures memory { IsErr result → string_bytes text ≢ [] }
{
    if text.is_empty() {
        return Ok(Reply::bare(StatusCode::OK));
    }
    let content = Content {
        media: ContentType::Plain,
        text: Shared::new(alloc, Text::from_string(text))?,
    };
    Ok(Reply {
        status: StatusCode::OK,
        allow: None,
        content: Some(content),
    })
}
