//! Requests that are refused by their head, and replies that are short texts.
ghost use Rattle.std.specs.Prelude.{◌≡◌, IfOk};
ghost use Rattle.http_messages.specs.Replies.{plain_http_reply, refusal_reply, refusal_status, refusal_text};

use crate::message::{Content, ContentType, Reply};
use http::StatusCode;
use playlist_model::Shared;
use std::alloc::{AllocError, Global};

/// Why a request is refused by its head alone.
#[derive(Clone, Copy, Debug, PartialEq, Eq)]
pub enum Refusal {
    /// 400: the head can't be read, or says no length that is a number (RFC 9110, 15.5.1).
    BadRequest,
    /// 411: the head says no length (RFC 9110, 15.5.12).
    LengthRequired,
    /// 413: the body is longer than it may be (RFC 9110, 15.5.14).
    TooLarge,
}

impl Refusal {
    fn status(self) -> StatusCode
        ensures { result ≡ refusal_status self }
    {
        match self {
            Refusal::BadRequest => StatusCode::BAD_REQUEST,
            Refusal::LengthRequired => StatusCode::LENGTH_REQUIRED,
            Refusal::TooLarge => StatusCode::PAYLOAD_TOO_LARGE,
        }
    }

    fn text(self) -> &'static str
        ensures { result.now ≡ refusal_text self }
    {
        match self {
            Refusal::BadRequest => "bad request\n",
            Refusal::LengthRequired => "length required\n",
            Refusal::TooLarge => "too large\n",
        }
    }
}

/// The reply of `status` whose body is `text`. Fails only if an allocation fails.
pub fn plain_http_reply(alloc: Global, status: StatusCode, text: &str) -> Result<Reply, AllocError>
    ensures { IfOk result (λ reply. reply ≡ plain_http_reply status text.now) }
{
    let content = Content {
        media: ContentType::Plain,
        text: Shared::copy_of(alloc, text)?,
    };
    Ok(Reply {
        status,
        allow: None,
        content: Some(content),
    })
}

/// The reply to a request that is refused for `refusal`, with its status and a text. Fails only if an allocation
/// fails.
pub fn refusal_reply(alloc: Global, refusal: Refusal) -> Result<Reply, AllocError>
    ensures { IfOk result (λ reply. reply ≡ refusal_reply refusal) }
{
    plain_http_reply(alloc, refusal.status(), refusal.text())
}
