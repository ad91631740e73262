//! What a URI begins with, and which name one resource.

ghost use Rattle.std.specs.Prelude.{◌≡◌, IsTrue, ◌==◌, ◌↔◌};
ghost use Rattle.std.specs.List.{prefix_len, list_any};
ghost use Rattle.playlist_model.specs.Uri.{has_scheme, is_uri_scheme_byte};

fn is_uri_scheme_byte(b: u8) -> bool
    ensures { result ≡ is_uri_scheme_byte b }
{
    b.is_ascii_alphanumeric() || b == b'+' || b == b'-' || b == b'.'
}

fn uri_scheme_length(bytes: &[u8]) -> usize
    ensures { result ≡ prefix_len is_uri_scheme_byte bytes.now }
{
    bytes.iter().take_while(|b| is_uri_scheme_byte(**b)).count()
}

/// Whether `text` begins with a scheme, and so is a whole URI, whatever the base: a letter, then letters, digits,
/// `+`, `-` and `.`, up to a colon (RFC 3986, section 3.1).
pub fn has_scheme(text: &str) -> bool
    ensures { result ≡ has_scheme text.now }
{
    let bytes = text.as_bytes();
    let len = uri_scheme_length(bytes);
    if len >= bytes.len() {
        return false;
    }
    bytes[0].is_ascii_alphabetic() && bytes[len] == b':'
}

/// Whether `text` holds a quote, and so can't be between quotes (RFC 8216, section 4.2).
pub fn has_quote(text: &str) -> bool
    ensures { result ≡ list_any (λ b. b == 34) text.now }
{
    text.as_bytes().iter().any(|b| *b == b'"')
}

/// Whether the resolved URIs `one` and `other` name one resource: their texts are equal.
pub fn same_resource(one: &str, other: &str) -> bool
    ensures { IsTrue result ↔ (one.now ≡ other.now) }
{
    one == other
}
