//! The references of a playlist, resolved against its base (RFC 3986, section 5).
ghost use Rattle.std.specs.Prelude.{◌≡◌, true, IfSome};
ghost use Rattle.std.specs.List.{list_all};
ghost use Rattle.std.specs.Option.{option_copied};
ghost use Rattle.playlist_model.specs.Said.{uri_of};
ghost use Rattle.playlist_model.specs.Refusals.{GivesOrPlaylistFault};
ghost use Rattle.uri_resolver.specs.Fronts.{is_plain_after};
ghost use Rattle.uri_resolver.specs.Plain.{is_path_segment_byte, StandsBefore};

use crate::tags::{shared_tag_uri_of, tag_uri_of};
use playlist_model::{FaultKind, Shared, Text};
use std::alloc::Global;
use std::marker::Model;
use uri_resolver::{Base, BaseFront, base_front_before, base_front_before_path_segment};

/// The front of the base that stands before `reference` in the resource that it names, if that is just put before it, as for most
/// (RFC 3986, section 5). `is_path_segment` says that it is known to be one plain segment of a path. Takes no memory.
#[inline(always)]
pub fn base_front_of_segment(reference: &str, is_path_segment: bool) -> Option<BaseFront>
    requires { is_path_segment ≡ true → list_all is_path_segment_byte reference.now ≡ true }
    ensures { IfSome result (λ front. is_plain_after front reference.now ≡ true) }
{
    if is_path_segment {
        return base_front_before_path_segment(reference);
    }
    base_front_before(reference)
}

/// A reference, and the resource that it names.
#[derive(Drop)]
struct Resolved<'a> {
    reference: &'a str,
    uri: Shared<Text>,
}

/// The base of a playlist's references, and the last one of a segment that is a part of its resource:
/// the parts of a file stand one after another, and so its reference is resolved once.
#[derive(Drop)]
pub struct References<'a> {
    alloc: Global,
    base: &'a Base,
    last: Option<Resolved<'a>>,
}

impl<'a> Model for References<'a> {
    ghost use Rattle.url.specs.Parts.{Parts};
    ghost use Rattle.segment_state.specs.Kept.{IsResolved};

    ghost Value = { Parts };

    ghost view = { λ a. a.base.now };

    ghost invariant = { λ a. IsResolved a.base.now a.last };
}

impl<'a> References<'a> {
    /// References under `base`, of which none is resolved yet.
    pub fn new(alloc: Global, base: &'a Base) -> References<'a>
        ensures { result ≡ base.now }
    {
        References {
            alloc,
            base,
            last: None,
        }
    }

    /// What references are resolved under.
    pub fn base(&self) -> &'a Base
        ensures { result.now ≡ self.now }
    {
        self.base
    }

    /// The text of `front`, if it is known: the resource that a plain reference of its kind names is that text and then the
    /// reference (RFC 3986, section 5).
    pub fn text_of_front(&self, front: BaseFront) -> Option<&'a str>
        ensures { IfSome (option_copied result)
            (λ text. StandsBefore self.now (is_plain_after front) text) }
    {
        let base = self.base;
        base.text_of_front(front)
    }

    /// The resource that `reference` names (RFC 8216, section 4.1). `BadUri` if it can't be resolved; `OutOfMemory`
    /// only if an allocation fails.
    pub fn resolve(&self, reference: &str) -> Result<Text, FaultKind>
        ensures { GivesOrPlaylistFault (λ uri. uri) result (uri_of self.now reference.now) }
    {
        tag_uri_of(self.base, reference)
    }

    /// The resource that `reference` names, of which a segment is a part (RFC 8216, section 4.1). It is kept for the
    /// next part: of a resource that is kept there is an owner more. The faults are those of `resolve`.
    #[inline(never)]
    pub fn resolve_part(&mut self, reference: &'a str) -> Result<Shared<Text>, FaultKind>
        ensures value { GivesOrPlaylistFault (λ uri. uri) result (uri_of self.old reference.now) }
        ensures kept { self.new ≡ self.old }
    {
        if let Some(last) = &self.last {
            if reference == last.reference {
                return Ok(last.uri.clone()?);
            }
        }
        let uri = shared_tag_uri_of(self.alloc, self.base, reference)?;
        self.last = Some(Resolved {
            reference,
            uri: uri.clone()?,
        });
        Ok(uri)
    }
}
