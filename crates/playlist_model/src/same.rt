//! Whether keys, initialisation sections and segments are the same.
ghost use Rattle.std.specs.Prelude.{◌≡◌, Some, true, ◌↔◌};
ghost use Rattle.std.specs.Cmp.Lexicographic.{pointwise};
ghost use Rattle.playlist_model.specs.InCommon.{AreAlike, AreSameAt, init_section_keys, without_iv};
ghost use Rattle.playlist_model.specs.declared.InitSection.{InitSection};
ghost use Rattle.playlist_model.specs.Same.{kept_parts, same_key, has_same_segment_media, same_number, has_same_segment_numbers, same_option, has_same_segment_protection, same_init_section, same_segment};

use crate::{InCommon, InitSection, KeyPlaces, KeyRef, KeysRef, SegmentRef, Shared};

fn is_same_iv(iv: Option<u128>, other: Option<u128>) -> bool
    ensures { result ≡ same_option same_number iv other }
{
    iv == other
}

#[tactic(auto, using(crate::proofs::SameParts::other_iv))]
/// Whether the keys `a` and `b` are the same in all their parts.
pub fn is_same_key(a: &KeyRef<'_>, b: &KeyRef<'_>) -> bool
    ensures { result ≡ same_key a.now b.now }
{
    // If a key states no IV it differs from segment to segment (RFC 8216, 5.2), and in that alone.
    if !is_same_iv(a.iv(), b.iv()) {
        return false;
    }
    a.format() == b.format()
        && a.method() == b.method()
        && a.uri() == b.uri()
        && a.other_attributes() == b.other_attributes()
}

#[tactic(auto, using(crate::proofs::SameInCommon::same_by_iv))]
/// Whether the keys `a` and `b` are the same in all their parts. If one tag stated both, `is_common` says so: then their
/// initialisation vectors alone are compared.
pub fn is_same_key_in_common(a: &KeyRef<'_>, b: &KeyRef<'_>, is_common: bool) -> bool
    requires { is_common ≡ true → without_iv a.now ≡ without_iv b.now }
    ensures { result ≡ same_key a.now b.now }
{
    if is_common {
        return is_same_iv(a.iv(), b.iv());
    }
    is_same_key(a, b)
}

/// Whether the keys `one` and the keys `other` are the same in all their parts, in their order. At the places `same` they are
/// known to be the same, but for their initialisation vectors. Takes no memory.
pub fn are_same_keys_in_common(one: &KeysRef<'_>, other: &KeysRef<'_>, same: KeyPlaces) -> bool
    requires { AreSameAt same one.now other.now }
    ensures { result ≡ pointwise same_key one.now other.now }
{
    let (mut others, mut places) = (other.iter(), same);
    for key in one.iter() {
        let Some(other) = others.next() else {
            return false;
        };
        if !is_same_key_in_common(&key, &other, places.holds_first()) {
            return false;
        }
        places = places.later();
    }
    others.next().is_none()
}

/// Whether the keys `one` and the keys `other` are the same in all their parts, in their order. Takes no memory.
pub fn are_same_keys(one: &KeysRef<'_>, other: &KeysRef<'_>) -> bool
    ensures { result ≡ pointwise same_key one.now other.now }
{
    are_same_keys_in_common(one, other, KeyPlaces::none())
}

/// Whether the initialisation sections `a` and `b` are the same, with the same keys (RFC 8216, section 4.3.2.5). At the places
/// `same` their keys are known to be the same, but for their initialisation vectors.
pub fn is_same_init_section_in_common(a: &InitSection, b: &InitSection, same: KeyPlaces) -> bool
    requires { AreSameAt same a.now.keys b.now.keys }
    ensures { result ≡ same_init_section a.now b.now }
{
    a.uri == b.uri
        && a.byte_range == b.byte_range
        && are_same_keys_in_common(&a.keys.lent(), &b.keys.lent(), same)
}

/// Whether the initialisation sections `a` and `b` are the same, with the same keys (RFC 8216, section 4.3.2.5).
pub fn is_same_init_section(a: &InitSection, b: &InitSection) -> bool
    ensures { result ≡ same_init_section a.now b.now }
{
    is_same_init_section_in_common(a, b, KeyPlaces::none())
}

#[tactic(auto, using(crate::proofs::SameSegments::one_init_section))]
fn are_same_init_sections(
    one: &Option<Shared<InitSection>>,
    other: &Option<Shared<InitSection>>,
    is_one: bool,
    same: KeyPlaces,
) -> bool
    requires one { (i j : InitSection) → is_one ≡ true → one.now ≡ Some i → other.now ≡ Some j → i ≡ j }
    requires same { AreSameAt same (init_section_keys one.now) (init_section_keys other.now) }
    ensures { result ≡ same_option same_init_section one.now other.now }
{
    match (one, other) {
        (Some(one), Some(other)) => is_one || is_same_init_section_in_common(one, other, same),
        (None, None) => true,
        _ => false,
    }
}

fn has_same_segment_numbers(a: &SegmentRef<'_>, b: &SegmentRef<'_>) -> bool
    ensures { result ≡ has_same_segment_numbers a.now b.now }
{
    a.media_sequence() == b.media_sequence()
        && a.discontinuity_sequence() == b.discontinuity_sequence()
}

fn has_same_segment_media(a: &SegmentRef<'_>, b: &SegmentRef<'_>) -> bool
    ensures { result ≡ has_same_segment_media a.now b.now }
{
    a.uri() == b.uri() && a.byte_range() == b.byte_range() && a.duration() == b.duration()
}

fn has_same_segment_protection(a: &SegmentRef<'_>, b: &SegmentRef<'_>, in_common: InCommon) -> bool
    requires { AreAlike in_common a.now b.now }
    ensures { result ≡ has_same_segment_protection a.now b.now }
{
    are_same_keys_in_common(&a.keys(), &b.keys(), in_common.keys)
        && are_same_init_sections(
            a.init_section(),
            b.init_section(),
            in_common.init_section,
            in_common.init_section_keys,
        )
}

fn are_same_segments(a: &SegmentRef<'_>, b: &SegmentRef<'_>, in_common: InCommon) -> bool
    requires { AreAlike in_common a.now b.now }
    ensures { result ≡ same_segment a.now b.now }
{
    has_same_segment_numbers(a, b)
        && has_same_segment_media(a, b)
        && has_same_segment_protection(a, b, in_common)
}

#[tactic(auto, using(crate::proofs::SameSegments::same_segment_decides))]
/// Whether the segments `a` and `b` are the same in resource, byte range, effective keys, initialisation section,
/// duration and both numbers: in all but title, discontinuities and time, which an origin may state otherwise when it
/// lists a segment again (RFC 8216, sections 6.2.1 and 6.2.2). What they have `in_common` is known, and isn't compared again. Takes
/// no memory.
///
/// ```text
/// same_segment(&a, &b, InCommon::nothing())    true, if `b` is `a` with another title
/// same_segment(&a, &b, InCommon::nothing())    false, if `b` is `a` with another URI
/// ```
pub fn same_segment(a: &SegmentRef<'_>, b: &SegmentRef<'_>, in_common: InCommon) -> bool
    requires { AreAlike in_common a.now b.now }
    ensures value { result ≡ same_segment a.now b.now }

    // It is equality of all else.
    ensures exact { (result ≡ true) ↔ (kept_parts a.now ≡ kept_parts b.now) }
{
    are_same_segments(a, b, in_common)
}
