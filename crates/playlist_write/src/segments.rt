//! The lines of segments (RFC 8216, section 4.3.2).
ghost use Rattle.std.specs.Prelude.{◌≡◌, ◌++◌, IfOk, List, OnOk, Option, string_bytes, replicate, None, Some, false, true};
ghost use Rattle.std.specs.Option.{option_copied};
ghost use Rattle.playlist_model.specs.InCommon.{AreSameAt, IsInCommon, init_section_keys, is_place_of};
ghost use Rattle.playlist_model.specs.Said as Said;
ghost use Rattle.playlist_model.specs.Same.{same_option, same_init_section};
ghost use Rattle.playlist_model.specs.declared.InitSection.{InitSection};
ghost use Rattle.playlist_model.specs.declared.Key.{Key};
ghost use Rattle.playlist_write.specs.Inner.Changes.{HasInCommon, written_segment_changes_nothing, changes_owed, segment_changes_owed};
ghost use Rattle.playlist_write.specs.Inner.KeyParts.{IsOnlyKey};
ghost use Rattle.playlist_write.specs.Owed.{line_saying, said_text, changed_written_init_section, init_section_owed, written_keys_then, time_owed, byte_range_owed, media_owed, segment_owed, after_segment};
ghost use Rattle.fixed_duration.specs.Appended.{Appends};

use crate::in_force::InForce;
use crate::keys::{write_init_section_line, write_key_tag_lines};
use crate::last_key::LastKey;
use crate::lines::{write_byte_range, write_line, write_line_feed, write_tag_line};
use date_times::TimeWriter;
use fixed_duration::Nanos;
use playlist_model::{
    ByteRange, InCommon, InitSection, Instant, KeyPlaces, KeysRef, SegmentRef, Shared,
    is_same_init_section_in_common,
};
use std::alloc::AllocError;
use stitcher::OutSegment;

#[tactic(auto, unfolding(crate::specs::Owed::line_saying))]
fn write_discontinuity_line(out: &mut String) -> Result<(), AllocError>
    ensures { Appends result out.old out.new (line_saying Said.discontinuity) }
{
    write_line(out, "#EXT-X-DISCONTINUITY")
}

fn write_discontinuity_lines(out: &mut String, steps: u64) -> Result<(), AllocError>
    ensures { Appends result out.old out.new (said_text (replicate steps Said.discontinuity)) }
{
    for _ in 0..steps {
        write_discontinuity_line(out)?;
    }
    Ok(())
}

// Whether an initialisation section is the one in force, of which `common` may say something.
fn is_written_init_section_current(
    current: Option<&InitSection>,
    new: &InitSection,
    common: InCommon,
) -> bool
    requires known { common.init_section ≡ true → option_copied current ≡ Some new.now }
    requires keys { AreSameAt common.init_section_keys
        (init_section_keys (option_copied current)) new.now.keys }
    ensures { result ≡ same_option same_init_section (Some new.now) (option_copied current.entry) }
{
    if common.init_section {
        return true;
    }
    match current {
        Some(old) => is_same_init_section_in_common(new, old, common.init_section_keys),
        None => false,
    }
}

// The initialisation section, if it is another than the one in force, of which `common` may say something.
fn changed_written_init_section<'a>(
    current: Option<&InitSection>,
    init_section: &'a Option<Shared<InitSection>>,
    common: InCommon,
) -> Option<&'a InitSection>
    requires known { (new : InitSection) → common.init_section ≡ true → init_section.now ≡ Some new
        → option_copied current ≡ Some new }
    requires keys { AreSameAt common.init_section_keys
        (init_section_keys (option_copied current)) (init_section_keys init_section.now) }
    ensures { option_copied result
        ≡ changed_written_init_section (option_copied current.entry) init_section.now }
{
    match init_section {
        Some(new) => {
            if is_written_init_section_current(current, new, common) {
                None
            } else {
                Some(new)
            }
        }
        None => None,
    }
}

// The keys in force after a changed initialisation section.
fn written_keys_then<'a>(keys: &KeysRef<'a>, changed: Option<&'a InitSection>) -> KeysRef<'a>
    ensures { result ≡ written_keys_then keys.now (option_copied changed.entry) }
{
    match changed {
        Some(init_section) => init_section.keys.lent(),
        None => keys.again(),
    }
}

// The places at which these keys are known to be those of the next segment, but for their initialisation vectors.
fn places_of_written_keys_then(changed: Option<&InitSection>, common: InCommon) -> KeyPlaces
    ensures { (keys now : List Key) (current init_section : Option InitSection)
        → IsInCommon common keys current now init_section
        → ((new : InitSection) → option_copied changed.entry ≡ Some new → init_section ≡ Some new)
        → AreSameAt result (written_keys_then keys (option_copied changed.entry)) now }
{
    if changed.is_some() {
        common.own_keys
    } else {
        common.keys
    }
}

// Whether the segment `next` says nothing before its time, after lines at whose end `keys` are in force: it has no
// discontinuity and no initialisation section, and there are no keys.
#[inline(always)]
fn written_segment_changes_nothing(keys: &KeysRef<'_>, next: &OutSegment<'_>) -> bool
    ensures { result ≡ written_segment_changes_nothing keys.now next.now }
{
    next.discontinuities == 0
        && keys.is_empty()
        && next.segment.init_section().is_none()
        && next.segment.keys().is_empty()
}

// Appends the EXT-X-MAP of the initialisation section that changed, if one did, under its keys (RFC 8216, section
// 4.3.2.5). At the places `same` these are `keys`, but for their initialisation vectors.
fn write_changed_init_section_line(
    out: &mut String,
    keys: &KeysRef<'_>,
    changed: Option<&InitSection>,
    same: KeyPlaces,
) -> Result<(), AllocError>
    requires { (new : InitSection) → option_copied changed ≡ Some new
        → AreSameAt same keys.now new.keys }
    ensures { Appends result out.old out.new
        (said_text (init_section_owed keys.now (option_copied changed.entry))) }
{
    if let Some(init_section) = changed {
        write_key_tag_lines(out, keys, &init_section.keys.lent(), same)?;
        write_init_section_line(out, init_section)?;
    }
    Ok(())
}

#[tactic(auto, unfolding(crate::specs::Owed::line_saying, date_times::specs::Times::time_tag))]
#[inline(never)]
fn write_instant_line(
    out: &mut String,
    times: &mut TimeWriter,
    time: Instant,
) -> Result<(), AllocError>
    ensures { Appends result out.old out.new (line_saying (Said.time time)) }
{
    times.write_line(time, out)?;
    Ok(())
}

fn write_optional_instant_line(
    out: &mut String,
    times: &mut TimeWriter,
    time: Option<Instant>,
) -> Result<(), AllocError>
    ensures { Appends result out.old out.new (said_text (time_owed time)) }
{
    if let Some(time) = time {
        write_instant_line(out, times, time)?;
    }
    Ok(())
}

// Appends the line of EXTINF (RFC 8216, section 4.3.2.1).
fn write_segment_duration_line(
    out: &mut String,
    duration: Nanos,
    title: &str,
) -> Result<(), AllocError>
    ensures { Appends result out.old out.new (line_saying (Said.duration duration title.now)) }
{
    out.push_str("#EXTINF:")?;
    duration.write_to(out)?;
    out.push(',')?;
    write_line(out, title)
}

#[inline(never)]
fn write_byte_range_line(out: &mut String, byte_range: ByteRange) -> Result<(), AllocError>
    ensures { Appends result out.old out.new
        (line_saying (Said.byte_range byte_range.length (Some byte_range.offset))) }
{
    out.push_str("#EXT-X-BYTERANGE:")?;
    write_byte_range(out, byte_range)?;
    write_line_feed(out)?;
    Ok(())
}

fn write_optional_byte_range_line(
    out: &mut String,
    byte_range: Option<ByteRange>,
) -> Result<(), AllocError>
    ensures { Appends result out.old out.new (said_text (byte_range_owed byte_range)) }
{
    if let Some(byte_range) = byte_range {
        write_byte_range_line(out, byte_range)?;
    }
    Ok(())
}

#[tactic(auto, unfolding(crate::specs::Owed::line_saying))]
fn write_segment_uri_line(out: &mut String, front: &str, rest: &str) -> Result<(), AllocError>
    ensures { Appends result out.old out.new (line_saying (Said.media (front.now ++ rest.now))) }
{
    write_tag_line(out, front, rest)
}

#[inline(always)]
fn write_segment_media_lines(out: &mut String, segment: &SegmentRef<'_>) -> Result<(), AllocError>
    ensures { Appends result out.old out.new (said_text (media_owed segment.now)) }
{
    let (front, rest) = segment.uri().parts();
    write_segment_duration_line(out, segment.duration(), segment.title())?;
    write_optional_byte_range_line(out, segment.byte_range())?;
    write_segment_uri_line(out, front, rest)
}

// Appends what a segment changes: so many discontinuities, and the tags of its initialisation section and its keys. It is out
// of line, as is all that few segments have, so that the loop over segments stays small. What it is given are copies: what
// is lent to a call can't stay in registers.
#[inline(never)]
fn write_each_change_before_segment(
    out: &mut String,
    keys: KeysRef<'_>,
    init_section: Option<&InitSection>,
    discontinuities: u64,
    segment: SegmentRef<'_>,
    common: InCommon,
) -> Result<(), AllocError>
    requires { IsInCommon common keys (option_copied init_section) segment.keys segment.init_section }
    ensures { Appends result out.old out.new
        (said_text (segment_changes_owed
        (record { keys = keys.entry; init_section = option_copied init_section.entry }) discontinuities segment.entry)) }
{
    let changed = changed_written_init_section(init_section, segment.init_section(), common);
    write_discontinuity_lines(out, discontinuities)?;
    write_changed_init_section_line(out, &keys, changed, common.keys.both(common.own_keys))?;
    let then = written_keys_then(&keys, changed);
    let same = places_of_written_keys_then(changed, common);
    write_key_tag_lines(out, &then, &segment.keys(), same)?;
    Ok(())
}

// What a segment's initialisation section holds, if it has one.
fn written_init_section_in(init_section: &Option<Shared<InitSection>>) -> Option<&InitSection>
    ensures { option_copied result ≡ init_section.now }
{
    match init_section {
        Some(init_section) => Some(init_section),
        None => None,
    }
}

// Whether the segment `next` changes its key at the most, as most do that change anything: it has no discontinuity, its first key
// is that of before but for its initialisation vector, and so is its initialisation section, if it has one.
#[inline(always)]
fn may_change_written_key_alone(next: &OutSegment<'_>, common: InCommon) -> bool
    ensures { result ≡ true → (next.now.discontinuities ≡ 0)
        × (common.init_section ≡ true) × (is_place_of common.keys 0 ≡ true) }
{
    next.discontinuities == 0 && common.init_section && common.keys.holds_first()
}

#[tactic(auto, using(crate::proofs::Changes::nothing_after, crate::proofs::OnlyKey::only_key_comes_first, crate::proofs::OnlyKey::only_key_stays, crate::proofs::OnlyKey::section_stays, crate::proofs::OnlyKey::next_is_only))]
// The same of any segment. Answers what is in force after these lines, whose only key is kept as the last one. Most change nothing.
#[inline(always)]
fn write_changes_before_segment<'a>(
    out: &mut String,
    key: &mut LastKey<'a>,
    before: InForce<'a>,
    next: &OutSegment<'a>,
    common: InCommon,
) -> Result<InForce<'a>, AllocError>
    requires common { HasInCommon common before next.now }
    requires key { IsOnlyKey key.old before.keys }
    ensures text { OnOk result
        (string_bytes out.new ≡ string_bytes out.old ++ said_text (changes_owed before.entry next.now)) }
    ensures force { IfOk result (λ f. f ≡ after_segment before.entry next.now) }
    ensures key { OnOk result (IsOnlyKey key.new next.now.segment.keys) }
{
    if written_segment_changes_nothing(&before.keys, next) {
        return Ok(before);
    }
    let keys = next.segment.keys();
    if may_change_written_key_alone(next, common) && key.push_next(out, keys.again())? {
        return Ok(before.under(keys));
    }
    write_each_change_before_segment(
        out,
        before.keys.again(),
        written_init_section_in(before.init_section),
        next.discontinuities,
        next.segment.again(),
        common,
    )?;
    key.keep(&keys);
    Ok(before.after(&next.segment))
}

/// Appends to `out` the lines of the segment `next`, after lines with `before` in force (RFC 8216, section 4.3.2), and
/// answers what is in force then. `times` and `key` keep the time and the only key that were written last, so that equal ones
/// are copied. `common` is what `next` is known to have in common with `before`. Fails only if an allocation fails.
#[inline(always)]
pub fn write_next_segment_lines<'a>(
    out: &mut String,
    times: &mut TimeWriter,
    key: &mut LastKey<'a>,
    before: InForce<'a>,
    next: &OutSegment<'a>,
    common: InCommon,
) -> Result<InForce<'a>, AllocError>
    requires common { HasInCommon common before next.now }
    requires key { IsOnlyKey key.old before.keys }
    ensures text { OnOk result
        (string_bytes out.new ≡ string_bytes out.old
        ++ said_text (segment_owed before.entry next.now)) }
    ensures force { IfOk result (λ f. f ≡ after_segment before.entry next.now) }
    ensures key { OnOk result (IsOnlyKey key.new next.now.segment.keys) }
{
    let after = write_changes_before_segment(out, key, before, next, common)?;
    write_optional_instant_line(out, times, next.program_date_time)?;
    write_segment_media_lines(out, &next.segment)?;
    Ok(after)
}
