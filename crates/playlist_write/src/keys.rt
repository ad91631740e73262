//! Key tags and map tags (RFC 8216, sections 4.3.2.4 and 4.3.2.5).
ghost use Rattle.std.specs.Prelude.{◌≡◌, ◌==◌, ◌∷◌, ◌++◌, Bool, Some, bytes_eq, codes, drop, filter, length, ◌&&◌, true};
ghost use Rattle.spec_words.specs.Bytes.{quote};
ghost use Rattle.attr_list.specs.Attributes.{pair_spelling};
ghost use Rattle.playlist_write.specs.Spelling.{in_quotes, iv_pairs, format_pairs, part_pairs};
ghost use Rattle.playlist_model.specs.Carried.{after_commas};
ghost use Rattle.playlist_model.specs.InCommon.{AreSameAt, key_at, without_iv};
ghost use Rattle.playlist_write.specs.Inner.KeyParts.{text_after_uri, text_before_quote};
ghost use Rattle.playlist_model.specs.Said as Said;
ghost use Rattle.playlist_write.specs.Owed.{line_saying, said_text, keys_owed};
ghost use Rattle.playlist_write.specs.Inner.Owed.{set_tags, key_line, init_section_line};
ghost use Rattle.playlist_model.specs.Same.{same_key};
ghost use Rattle.playlist_model.specs.declared.Key.{Key};
ghost use Rattle.std.specs.List.{list_any};
ghost use Rattle.stitcher.specs.KeyTags.{is_new_key};
ghost use Rattle.fixed_duration.specs.Appended.{Appends};

use crate::digits::write_quote_and_iv;
use crate::lines::{write_byte_range, write_line, write_line_feed};
use playlist_model::{
    ByteRange, InitSection, KeyPlaces, KeyRef, KeysIter, KeysRef, are_same_keys_in_common,
    is_same_key_in_common,
};
use std::alloc::AllocError;
use stitcher::{is_new_key, keeps_formats};

// Appends `name="value"`.
fn write_quoted_attribute(out: &mut String, name: &str, value: &str) -> Result<(), AllocError>
    ensures { Appends result out.old out.new (pair_spelling (in_quotes name.now value.now)) }
{
    out.push_str(name)?;
    out.push_str("=\"")?;
    out.push_str(value)?;
    out.push('"')
}

// Appends the closing quote of a value, and then the initialisation vector if there is one.
fn write_key_iv(out: &mut String, iv: Option<u128>) -> Result<(), AllocError>
    ensures { Appends result out.old out.new (quote ∷ after_commas (iv_pairs iv)) }
{
    match iv {
        Some(iv) => write_quote_and_iv(out, iv),
        None => out.push('"'),
    }
}

fn write_key_format(out: &mut String, format: &str) -> Result<(), AllocError>
    ensures { Appends result out.old out.new (after_commas (format_pairs format.now)) }
{
    if format == "identity" {
        return Ok(());
    }
    write_quoted_attribute(out, ",KEYFORMAT", format)?;
    Ok(())
}

// Appends the front of a key tag, up to its URI.
fn write_key_method(out: &mut String, method: &str) -> Result<(), AllocError>
    ensures { Appends result out.old out.new (codes "#EXT-X-KEY:METHOD="
        ++ (method.now ++ codes ",URI=\"")) }
{
    out.push_str("#EXT-X-KEY:METHOD=")?;
    out.push_str(method)?;
    out.push_str(",URI=\"")?;
    Ok(())
}

// Appends what stands after the URI of a key, whose initialisation vector this is.
fn write_rest_of_key_line(
    out: &mut String,
    key: &KeyRef<'_>,
    iv: Option<u128>,
) -> Result<(), AllocError>
    requires { iv ≡ key.now.iv }
    ensures { Appends result out.old out.new (text_after_uri key.now) }
{
    write_key_iv(out, iv)?;
    write_key_format(out, key.format())?;
    out.push_str(key.other_attributes().as_str())?;
    write_line_feed(out)
}

/// Whether nothing stands after the initialisation vector in the tag of `key`, as in most: it has no other attributes, and its
/// format goes without saying.
pub fn is_key_line_ended_by_iv(key: &KeyRef<'_>) -> bool
    ensures { result ≡ ((length key.now.other_attributes == 0) && bytes_eq key.now.format (codes "identity")) }
{
    key.other_attributes().as_str().is_empty() && key.format() == "identity"
}

/// Appends to `out` what stands before the closing quote of the URI in the tag of `key` (RFC 8216, section 4.3.2.4). Fails only if
/// an allocation fails.
pub fn write_key_line_front(out: &mut String, key: &KeyRef<'_>) -> Result<(), AllocError>
    ensures { Appends result out.old out.new (text_before_quote key.now) }
{
    write_key_method(out, key.method())?;
    out.push_str(key.uri())
}

/// Appends to `out` the tag of `key`, whose initialisation vector is `iv`: it is told once a key (RFC 8216, section 4.3.2.4).
/// Fails only if an allocation fails.
pub fn write_key_line(
    out: &mut String,
    key: &KeyRef<'_>,
    iv: Option<u128>,
) -> Result<(), AllocError>
    requires { iv ≡ key.now.iv }
    ensures { Appends result out.old out.new (key_line key.now) }
{
    write_key_line_front(out, key)?;
    write_rest_of_key_line(out, key, iv)
}

fn write_key_lines(out: &mut String, keys: &KeysRef<'_>) -> Result<(), AllocError>
    ensures { Appends result out.old out.new (said_text (set_tags keys.now)) }
{
    for key in keys.iter() {
        write_key_line(out, &key, key.iv())?;
    }
    Ok(())
}

// Whether `key` is the first of these keys, which is passed. If one tag stated both, `is_common` says so.
fn passes_same_written_key(keys: &mut KeysIter<'_>, key: &KeyRef<'_>, is_common: bool) -> bool
    requires { is_common ≡ true → key_at 0 keys.old ≡ Some (without_iv key.now) }
    ensures same { result ≡ true → list_any (same_key key.now) keys.old ≡ true }
    ensures rest { (holds : Key → Bool) → list_any holds keys.new ≡ true → list_any holds keys.old ≡ true }
    ensures left { keys.new ≡ drop 1 keys.old }
{
    match keys.next() {
        Some(first) => is_same_key_in_common(key, &first, is_common),
        None => false,
    }
}

// Appends a tag for each key of `new` that isn't among `old`. At the places `same` both have the same key, but for its
// initialisation vector.
fn write_new_key_lines(
    out: &mut String,
    old: &KeysRef<'_>,
    new: &KeysRef<'_>,
    same: KeyPlaces,
) -> Result<(), AllocError>
    requires { AreSameAt same old.now new.now }
    ensures { Appends result out.old out.new
        (said_text (set_tags (filter (is_new_key old.now) new.now))) }
{
    let (mut others, mut places) = (old.iter(), same);
    for key in new.iter() {
        let is_common = places.holds_first();
        // Mostly a key is compared with the one at its place alone, or with none: long ones cost much.
        if !passes_same_written_key(&mut others, &key, is_common) && is_new_key(old, &key) {
            write_key_line(out, &key, key.iv())?;
        }
        places = places.later();
    }
    Ok(())
}

#[tactic(auto, unfolding(crate::specs::Owed::line_saying))]
fn write_no_keys_line(out: &mut String) -> Result<(), AllocError>
    ensures { Appends result out.old out.new (line_saying Said.no_keys) }
{
    write_line(out, "#EXT-X-KEY:METHOD=NONE")
}

// Appends the key tags that lead from any keys to others. At the places `same` both have the same key, but for its
// initialisation vector.
#[inline(never)]
fn write_any_key_tag_lines(
    out: &mut String,
    old: &KeysRef<'_>,
    new: &KeysRef<'_>,
    same: KeyPlaces,
) -> Result<(), AllocError>
    requires { AreSameAt same old.now new.now }
    ensures { Appends result out.old out.new (said_text (keys_owed old.now new.now)) }
{
    // Mostly no tag stands between two segments: then each key is compared once at most.
    if are_same_keys_in_common(old, new, same) {
        return Ok(());
    }
    if keeps_formats(old, new, same) {
        return write_new_key_lines(out, old, new, same);
    }
    write_no_keys_line(out)?;
    write_key_lines(out, new)
}

/// Appends to `out` the key tags that lead from the keys `old` to the keys `new` (RFC 8216, section 4.3.2.4). At the
/// places `same` both have the same key, but for its initialisation vector. Fails only if an allocation fails.
#[inline(always)]
pub fn write_key_tag_lines(
    out: &mut String,
    old: &KeysRef<'_>,
    new: &KeysRef<'_>,
    same: KeyPlaces,
) -> Result<(), AllocError>
    requires { AreSameAt same old.now new.now }
    ensures { Appends result out.old out.new (said_text (keys_owed old.now new.now)) }
{
    // Most playlists have no keys.
    if old.is_empty() && new.is_empty() {
        return Ok(());
    }
    write_any_key_tag_lines(out, old, new, same)
}

fn write_init_section_part(out: &mut String, part: Option<ByteRange>) -> Result<(), AllocError>
    ensures { Appends result out.old out.new (after_commas (part_pairs part)) }
{
    if let Some(part) = part {
        out.push_str(",BYTERANGE=\"")?;
        write_byte_range(out, part)?;
        out.push('"')?;
    }
    Ok(())
}

/// Appends to `out` the EXT-X-MAP `init_section` (RFC 8216, section 4.3.2.5). Fails only if
/// an allocation fails.
pub fn write_init_section_line(
    out: &mut String,
    init_section: &InitSection,
) -> Result<(), AllocError>
    ensures { Appends result out.old out.new (init_section_line init_section.now) }
{
    out.push_str("#EXT-X-MAP:")?;
    write_quoted_attribute(out, "URI", init_section.uri.as_str())?;
    write_init_section_part(out, init_section.byte_range)?;
    write_line_feed(out)?;
    Ok(())
}
