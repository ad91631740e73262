//! The head of a request.
ghost use Rattle.std.specs.Prelude.{◌≡◌, ◌≤◌, map, filter, length, codes, true, Some, None, IfOk, ◌<◌};
ghost use Rattle.std.specs.List.{list_any};
ghost use Rattle.attr_list.specs.Numbers.{decimal_of};
ghost use Rattle.httparse.specs.Borrowed.{header_parts};
ghost use Rattle.http_messages.specs.Requests.{is_header_field_named, body_length_stated_by_fields, message_body_of_length, request_framing_of};
ghost use Rattle.http_messages.specs.Limits.{head_limit};
ghost use Rattle.http_messages.specs.Inner.Received.{IsReadAs};

use crate::refusal::Refusal;
use attr_list::read_decimal;
use http::Method;
use http::method::MethodError;
use httparse::{EMPTY_HEADER, Header, Status};
use playlist_model::Text;
use std::alloc::{AllocError, Global};
use std::str;

/// The most bytes of a head.
pub const MAX_HEAD_BYTES: usize = 16_384;

/// The most fields of a head.
pub const MAX_FIELDS: usize = 64;

/// The most bytes of a body.
pub const MAX_BODY_BYTES: u64 = 4_194_304;

/// What a head says of the body.
#[derive(Clone, Copy, Debug, PartialEq, Eq)]
pub enum Framing {
    /// So many bytes follow the head.
    Body(u64),
    /// The request is refused.
    Refused(Refusal),
}

/// A whole head.
#[derive(Drop)]
pub struct Head {
    /// How many bytes it has.
    pub len: usize,
    pub method: Method,
    pub target: Text,
    pub framing: Framing,
}

/// What the bytes read so far are.
#[derive(Drop)]
pub enum HeadRead {
    Whole(Head),
    /// No whole head yet.
    Partial,
    /// No head that is taken can begin so.
    Bad,
}

// Whether `field` is called `name`: upper and lower case are the same (RFC 9110, section 5.1).
fn is_header_field_named(field: &Header<'_>, name: &str) -> bool
    ensures { result ≡ is_header_field_named name.now (header_parts field.now) }
{
    field.name.eq_ignore_ascii_case(name)
}

fn content_length_said(value: &[u8]) -> Option<u64>
    ensures { result ≡ decimal_of value.now }
{
    match str::from_utf8(value) {
        Ok(text) => read_decimal(text).ok(),
        Err(_) => None,
    }
}

// How a body of this length is read; one of more than 4,194,304 bytes is refused with 413 (RFC 9110, section
// 15.5.14).
fn message_body_of_length(value: &[u8]) -> Framing
    ensures { result ≡ message_body_of_length (decimal_of value.now) }
{
    match content_length_said(value) {
        None => Framing::Refused(Refusal::BadRequest),
        Some(length) => {
            if length > MAX_BODY_BYTES {
                Framing::Refused(Refusal::TooLarge)
            } else {
                Framing::Body(length)
            }
        }
    }
}

fn has_transfer_coding(fields: &[Header<'_>]) -> bool
    ensures { result ≡ list_any (is_header_field_named (codes "transfer-encoding"))
        (map header_parts fields.now) }
{
    for field in fields {
        if is_header_field_named(field, "transfer-encoding") {
            return true;
        }
    }
    false
}

// The length that `fields` state: that of the one Content-Length (RFC 9112, section 6.3).
fn body_length_stated_by_fields(fields: &[Header<'_>]) -> Framing
    ensures { result ≡ body_length_stated_by_fields
        (filter (is_header_field_named (codes "content-length")) (map header_parts fields.now)) }
{
    let mut said = Framing::Refused(Refusal::LengthRequired);
    let mut any = false;
    for field in fields {
        if is_header_field_named(field, "content-length") {
            if any {
                return Framing::Refused(Refusal::BadRequest);
            }
            said = message_body_of_length(field.value);
            any = true;
        }
    }
    said
}

// How the body of a request of `method` with `fields` is read: a PUT has the length that it states, and a transfer
// coding is refused with 411 (RFC 9112, section 6.1); others have none.
fn request_framing_of(method: &str, fields: &[Header<'_>]) -> Framing
    ensures { result ≡ request_framing_of method.now (map header_parts fields.now) }
{
    if method != "PUT" {
        return Framing::Body(0);
    }
    if has_transfer_coding(fields) {
        return Framing::Refused(Refusal::LengthRequired);
    }
    body_length_stated_by_fields(fields)
}

/// The head at the front of `bytes`, which are at most as many as a head may have: 16,384 bytes, and 64 fields (RFC
/// 9112, section 2.1). It may be partial, or bad. Fails only if an allocation fails.
pub fn read_request_head(alloc: Global, bytes: &[u8]) -> Result<HeadRead, AllocError>
    requires { length bytes.now ≤ head_limit }
    ensures { IfOk result (IsReadAs bytes.now) }
{
    let mut fields = [EMPTY_HEADER; MAX_FIELDS];
    let mut request = httparse::Request::new(&mut fields);
    let Ok(status) = request.parse(bytes) else {
        return Ok(HeadRead::Bad);
    };
    let Status::Complete(len) = status else {
        return Ok(HeadRead::Partial);
    };
    let (Some(method), Some(target)) = (request.method, request.path) else {
        return Ok(HeadRead::Bad);
    };
    if request.headers.len() > MAX_FIELDS {
        return Ok(HeadRead::Bad);
    }
    let framing = request_framing_of(method, request.headers);
    let method = match Method::from_bytes(alloc, method.as_bytes()) {
        Ok(method) => method,
        Err(MethodError::OutOfMemory) => return Err(AllocError),
        Err(MethodError::Invalid) => return Ok(HeadRead::Bad),
    };
    let target = Text::copy_of(alloc, target)?;
    Ok(HeadRead::Whole(Head {
        len,
        method,
        target,
        framing,
    }))
}
