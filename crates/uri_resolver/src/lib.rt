//! The base of a playlist's references (RFC 8216, section 4.1; RFC 3986, section 5), and what they are resolved to.
#![tactic(auto)]

ghost use Rattle.std.specs.Prelude.{◌≡◌, ◌++◌, Some, IfSome, IfOk, MatchResult, string_bytes, true};
ghost use Rattle.std.specs.List.{list_all};
ghost use Rattle.std.specs.Option.{option_copied};
ghost use Rattle.url.specs.Parts.{IsValid};
ghost use Rattle.playlist_model.specs.Uri.{can_be_written, resolved, base_of, is_web_scheme};
ghost use Rattle.uri_resolver.specs.Refusals.{RefusesUri, RefusesBase};
ghost use Rattle.uri_resolver.specs.Plain.{is_path_segment_byte, is_relative_reference, is_rooted_reference, StandsBefore};
ghost use Rattle.uri_resolver.specs.Fronts.{is_plain_after};

use crate::plain::{is_relative_path_segment, is_relative_reference, is_rooted_reference};
pub use plain::after_path_segment;
use playlist_model::{has_control, has_quote, has_scheme};
use std::alloc::{AllocError, Global};
use std::marker::Model;
use url::{ParseError, Position, Url};

mod plain;

/// Why there is no base, or no resolved URI.
#[derive(Clone, Copy, PartialEq, Eq, Debug)]
pub enum BaseFault {
    /// B1: the text is no absolute http or https URL.
    BadBase,
    /// B2: an allocation failed, or the URL is too long for the `url` crate.
    OutOfMemory,
    /// B3: the reference can't be joined to the base, or its join could not be written again.
    BadUri,
}

impl From<AllocError> for BaseFault {
    ghost use Rattle.uri_resolver.specs.declared.BaseFault.TheVariants.{OutOfMemory};

    ghost from_gives = { λ _ e. e ≡ OutOfMemory };

    fn from(_: AllocError) -> BaseFault {
        BaseFault::OutOfMemory
    }
}

/// A text that a base puts before plain references (RFC 3986, section 5).
#[derive(Clone, Copy, PartialEq, Eq, Debug)]
pub enum BaseFront {
    /// Where `.` leads: it stands before a relative reference.
    Directory,
    /// All before the path: it stands before a reference from the root.
    Origin,
}

/// The front of a base that stands before `reference` in the URI that it is, if that is just put before it: then the reference is
/// a plain one (RFC 3986, section 5). Takes no memory.
#[inline(always)]
pub fn base_front_before(reference: &str) -> Option<BaseFront>
    ensures { IfSome result (λ front. is_plain_after front reference.now ≡ true) }
{
    if is_relative_reference(reference) {
        return Some(BaseFront::Directory);
    }
    if is_rooted_reference(reference) {
        return Some(BaseFront::Origin);
    }
    None
}

/// The same of `segment`, a reference that is one plain segment of a path: its bytes aren't looked at again.
#[inline(always)]
pub fn base_front_before_path_segment(segment: &str) -> Option<BaseFront>
    requires { list_all is_path_segment_byte segment.now ≡ true }
    ensures { IfSome result (λ front. is_plain_after front segment.now ≡ true) }
{
    if is_relative_path_segment(segment) {
        return Some(BaseFront::Directory);
    }
    None
}

/// The base of a playlist's references: an absolute http or https URL.
#[derive(Drop)]
pub struct Base {
    url: Url,
    alloc: Global,
    // What stands before a plain reference from the root, and before a relative one, if it is known.
    origin: Option<String>,
    directory: Option<String>,
}

impl Model for Base {
    ghost use Rattle.std.specs.Prelude.{IfSome, string_bytes};
    ghost use Rattle.url.specs.Parts.{Parts};
    ghost use Rattle.uri_resolver.specs.Plain.{is_relative_reference, is_rooted_reference, StandsBefore};

    ghost Value = { Parts };

    ghost view = { λ a. a.url };

    ghost invariant = { λ a. IfSome a.origin (λ front. StandsBefore a.url is_rooted_reference (string_bytes front)) × IfSome a.directory (λ front. StandsBefore a.url is_relative_reference (string_bytes front)) };
}

// What stands before a plain reference from the root: all before the path of the base.
fn origin_of_base(alloc: Global, url: &Url) -> Option<String>
    requires web { is_web_scheme url.now.scheme ≡ true }
    requires valid { IsValid url.now }
    ensures { IfSome result (λ front. StandsBefore url.now is_rooted_reference (string_bytes front)) }
{
    let front = url.slice(Position::BeforeScheme, Position::AfterPort);
    if !resolved_uri_can_be_written(front) {
        return None;
    }
    match String::from_str(alloc, front) {
        Ok(front) => Some(front),
        Err(_) => None,
    }
}

// What stands before a plain relative reference: where `.` leads.
fn directory_of_base(url: &Url) -> Option<String>
    requires web { is_web_scheme url.now.scheme ≡ true }
    requires valid { IsValid url.now }
    ensures { IfSome result (λ front. StandsBefore url.now is_relative_reference (string_bytes front)) }
{
    match url.join(".") {
        Ok(here) => {
            if resolved_uri_can_be_written(here.as_str()) {
                Some(String::from(here))
            } else {
                None
            }
        }
        Err(_) => None,
    }
}

fn join_reference(alloc: Global, front: &str, reference: &str) -> Result<String, AllocError>
    ensures { IfOk result (λ text. string_bytes text ≡ front.now ++ reference.now) }
{
    let room = front.len().saturating_add(reference.len());
    let mut text = String::with_capacity(alloc, room)?;
    text.push_str(front)?;
    text.push_str(reference)?;
    Ok(text)
}

fn resolved_uri_can_be_written(text: &str) -> bool
    ensures { result ≡ can_be_written text.now }
{
    has_scheme(text) && !has_control(text) && !has_quote(text)
}

impl Base {
    /// The base that `text` states: an absolute http or https URL (RFC 8216, section 4.1). The `url` crate takes off
    /// spaces at its ends, and drops tabs and line feeds within. `BadBase` exactly if it is no such URL;
    /// `OutOfMemory` only if an allocation fails.
    ///
    /// ```text
    /// let base = Base::new(alloc, "http://a.example/x/i.m3u8")?;
    /// base.resolve("s0.ts")                     Ok("http://a.example/x/s0.ts")
    /// base.resolve("/s0.ts")                    Ok("http://a.example/s0.ts")
    /// base.resolve("http://b.example/s0.ts")    Ok("http://b.example/s0.ts")
    /// ```
    pub fn new(alloc: Global, text: &str) -> Result<Base, BaseFault>
        ensures { MatchResult result (λ base. base_of text.now ≡ Some base)
            (λ e. RefusesBase e (base_of text.now)) }
    {
        let url = match Url::parse(alloc, text) {
            Ok(url) => url,
            Err(ParseError::Overflow) => return Err(BaseFault::OutOfMemory),
            Err(ParseError::OutOfMemory) => return Err(BaseFault::OutOfMemory),
            Err(_) => return Err(BaseFault::BadBase),
        };
        let scheme = url.scheme();
        if scheme != "http" && scheme != "https" {
            return Err(BaseFault::BadBase);
        }
        let origin = origin_of_base(alloc, &url);
        let directory = directory_of_base(&url);
        Ok(Base {
            url,
            alloc,
            origin,
            directory,
        })
    }

    /// The text of `front`, if it is known: it stands before each plain reference of its kind (RFC 3986, section 5).
    pub fn text_of_front(&self, front: BaseFront) -> Option<&str>
        ensures { IfSome (option_copied result)
            (λ text. StandsBefore self.now (is_plain_after front) text) }
    {
        let text = match front {
            BaseFront::Directory => &self.directory,
            BaseFront::Origin => &self.origin,
        };
        match text {
            Some(text) => Some(text.as_str()),
            None => None,
        }
    }

    // The URI that a reference is before which no plain text is put.
    #[inline(never)]
    fn resolve_other(&self, reference: &str) -> Result<String, BaseFault>
        ensures { MatchResult result
            (λ text. resolved self.now reference.now ≡ Some (string_bytes text))
            (λ e. RefusesUri e (resolved self.now reference.now)) }
    {
        if has_scheme(reference) {
            return Ok(String::from_str(self.alloc, reference)?);
        }
        let url = match self.url.join(reference) {
            Ok(url) => url,
            Err(ParseError::Overflow) => return Err(BaseFault::OutOfMemory),
            Err(ParseError::OutOfMemory) => return Err(BaseFault::OutOfMemory),
            Err(_) => return Err(BaseFault::BadUri),
        };
        if !resolved_uri_can_be_written(url.as_str()) {
            return Err(BaseFault::BadUri);
        }
        Ok(String::from(url))
    }

    /// The URI that `reference` is under this base (RFC 8216, section 4.1; RFC 3986, section 5, as the `url` crate
    /// joins): `reference` itself if it begins with a scheme, else its join to the base. `BadUri` exactly if the join
    /// fails, or has no scheme, a quote or a control character; `OutOfMemory` only if an allocation fails.
    pub fn resolve(&self, reference: &str) -> Result<String, BaseFault>
        ensures { MatchResult result
            (λ text. resolved self.now reference.now ≡ Some (string_bytes text))
            (λ e. RefusesUri e (resolved self.now reference.now)) }
    {
        if let Some(front) = base_front_before(reference) {
            if let Some(text) = self.text_of_front(front) {
                return Ok(join_reference(self.alloc, text, reference)?);
            }
        }
        self.resolve_other(reference)
    }
}
