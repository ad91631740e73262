//! The bytes of a reply's head.
ghost use Rattle.std.specs.Prelude.{◌≡◌, ◌≤◌, ◌+◌, ◌++◌, length};
ghost use Rattle.arrayvec.specs.ArrayString.{array_string_len};
ghost use Rattle.http_messages.specs.Replies.{crlf, reason_of, http_media_type_text, http_allow_text, content_type_line, allow_line, length_line, status_line, head_text};

use crate::message::{Allow, Content, ContentType, Reply};
use arrayvec::ArrayString;
use http::StatusCode;

fn http_reason_phrase(status: StatusCode) -> &'static str
    ensures value { result.now ≡ reason_of status }
    ensures short { length result.now ≤ 40 }
{
    match status.canonical_reason() {
        Some(text) => text,
        None => "",
    }
}

fn http_media_type_text(media: ContentType) -> &'static str
    ensures value { result.now ≡ http_media_type_text media }
    ensures short { length result.now ≤ 40 }
{
    match media {
        ContentType::Playlist => "application/vnd.apple.mpegurl",
        ContentType::Plain => "text/plain; charset=utf-8",
    }
}

fn http_allow_text(allow: Allow) -> &'static str
    ensures value { result.now ≡ http_allow_text allow }
    ensures short { length result.now ≤ 40 }
{
    match allow {
        Allow::PutDelete => "PUT, DELETE",
        Allow::Put => "PUT",
        Allow::Get => "GET",
    }
}

// Appends a field line: its name with the colon, and its value.
fn push_header_field(head: &mut ArrayString<256>, name: &str, value: &str)
    requires { array_string_len head.old + length name.now + length value.now + 2 ≤ 256 }
    ensures { head.new.bytes ≡ head.old.bytes ++ (name.now ++ value.now ++ crlf) }
{
    head.push_str(name);
    head.push_str(value);
    head.push_str("\r\n");
}

// Appends the status line (RFC 9112, section 4).
fn push_http_status_line(head: &mut ArrayString<256>, status: StatusCode)
    requires { array_string_len head.old ≤ 0 }
    ensures bytes { head.new.bytes ≡ head.old.bytes ++ status_line status }
    ensures len { array_string_len head.new ≤ 60 }
{
    head.push_str("HTTP/1.1 ");
    head.push_str(status.as_str());
    head.push_str(" ");
    head.push_str(http_reason_phrase(status));
    head.push_str("\r\n");
}

fn push_content_type_field(head: &mut ArrayString<256>, content: &Option<Content>)
    requires { array_string_len head.old ≤ 60 }
    ensures bytes { head.new.bytes ≡ head.old.bytes ++ content_type_line content.now }
    ensures len { array_string_len head.new ≤ 120 }
{
    if let Some(content) = content {
        push_header_field(head, "Content-Type: ", http_media_type_text(content.media));
    }
}

fn push_allow_field(head: &mut ArrayString<256>, allow: Option<Allow>)
    requires { array_string_len head.old ≤ 120 }
    ensures bytes { head.new.bytes ≡ head.old.bytes ++ allow_line allow }
    ensures len { array_string_len head.new ≤ 180 }
{
    if let Some(allow) = allow {
        push_header_field(head, "Allow: ", http_allow_text(allow));
    }
}

fn push_content_length_field(head: &mut ArrayString<256>, status: StatusCode, body: &[u8])
    requires { array_string_len head.old ≤ 180 }
    ensures bytes { head.new.bytes ≡ head.old.bytes ++ length_line status body.now }
    ensures len { array_string_len head.new ≤ 230 }
{
    if status.as_u16() != 204 {
        let mut digits = itoa::Buffer::new();
        push_header_field(head, "Content-Length: ", digits.format(body.len()));
    }
}

/// The head of `reply` with the empty line that ends it (RFC 9112, sections 4 and 9.3): it says that the connection
/// is closed. It is held in the value itself, so that it takes no memory.
pub fn reply_head_of(reply: &Reply) -> ArrayString<256>
    ensures { result.bytes ≡ head_text reply.now }
{
    let mut head = ArrayString::<256>::new();
    push_http_status_line(&mut head, reply.status);
    push_content_type_field(&mut head, &reply.content);
    push_allow_field(&mut head, reply.allow);
    push_content_length_field(&mut head, reply.status, reply.body());
    head.push_str("Connection: close\r\n");
    head.push_str("\r\n");
    head
}
