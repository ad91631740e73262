//! Requests and replies.
ghost use Rattle.std.specs.Prelude.{◌≡◌, ◌≤◌, slice_range, vec_len};
ghost use Rattle.http_messages.specs.Replies.{bare, reply_body};

use http::{Method, StatusCode};
use playlist_model::{Shared, Text};
use std::marker::Model;

/// The body of a request. It keeps the bytes that were read, of which it is a part, so that none of them is copied.
#[derive(Drop)]
pub struct Body {
    bytes: Vec<u8>,
    begin: usize,
    end: usize,
}

impl Model for Body {
    ghost use Rattle.std.specs.Prelude.{ℕ, ◌≤◌, List, slice_range, length};

    ghost Value = { List ℕ };

    ghost view = { λ b. slice_range b.bytes.items b.begin b.end };

    ghost invariant = { λ b. (b.begin ≤ b.end) × (b.end ≤ length b.bytes.items) };
}

impl Body {
    /// The bytes of `bytes` from the place `begin` up to the place `end`, both from 0.
    pub fn part_of(bytes: Vec<u8>, begin: usize, end: usize) -> Body
        requires ordered { begin ≤ end }
        requires within { end ≤ vec_len bytes }
        ensures { result ≡ slice_range bytes.items begin end }
    {
        Body { bytes, begin, end }
    }

    /// Its bytes.
    pub fn as_slice(&self) -> &[u8]
        ensures { result.now ≡ self.now }
    {
        &self.bytes[self.begin..self.end]
    }
}

/// A request: what its request line says (RFC 9112, 3), and its body (6).
#[derive(Drop)]
pub struct Request {
    pub method: Method,
    /// The request target, with its query.
    pub target: Text,
    pub body: Body,
}

/// The media type of a body.
#[derive(Clone, Copy, Debug, PartialEq, Eq)]
pub enum ContentType {
    /// A playlist of HTTP Live Streaming (RFC 8216, 4).
    Playlist,
    /// A text in UTF-8.
    Plain,
}

/// The methods that a resource has (RFC 9110, 10.2.1).
#[derive(Clone, Copy, Debug, PartialEq, Eq)]
pub enum Allow {
    PutDelete,
    Put,
    Get,
}

/// The content of a reply. Its text may have other owners: a reply takes no memory for one that is kept already.
#[derive(Drop)]
pub struct Content {
    pub media: ContentType,
    pub text: Shared<Text>,
}

/// A reply, without what every reply has.
#[derive(Drop)]
pub struct Reply {
    pub status: StatusCode,
    /// The methods that the resource has, if the request's is none of them.
    pub allow: Option<Allow>,
    /// None if the body is empty.
    pub content: Option<Content>,
}

impl Reply {
    /// A reply of `status` with no content.
    pub fn bare(status: StatusCode) -> Reply
        ensures { result ≡ bare status }
    {
        Reply {
            status,
            allow: None,
            content: None,
        }
    }

    /// The bytes of the content.
    pub fn body(&self) -> &[u8]
        ensures { result.now ≡ reply_body self.now }
    {
        match &self.content {
            Some(content) => content.text.as_str().as_bytes(),
            None => &[],
        }
    }
}
