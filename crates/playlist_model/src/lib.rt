//! The data of playlists and what their texts mean.
#![tactic(auto)]

ghost use Rattle.std.specs.Prelude.{◌≡◌, List, length, Ok, Err, Result, true, false};
ghost use Rattle.std.specs.Prelude.{MatchResult, IsTrue};
ghost use Rattle.std.specs.Str.{is_utf8};
ghost use Rattle.std.specs.List.{list_all};
ghost use Rattle.playlist_model.specs.Lines.{has_control};
ghost use Rattle.playlist_model.specs.Inner.Lines.{is_printable_playlist_byte};

use fixed_duration::Nanos;
use std::alloc::{AllocError, AllocFailed};
use std::marker::Model;

mod fault;
mod in_common;
mod in_force;
mod items;
pub mod laws;
mod limits;
mod member;
mod other_attributes;
mod places;
mod same;
mod segments;
mod standings;
mod uri;
mod uri_ref;

pub use date_times::{Instant, TimeFault, read_instant, write_instant};
pub use fault::FaultText;
pub use in_common::{InCommon, KeyPlaces};
pub use in_force::{KeyRef, Keys, KeysIter, KeysRef, is_iv_needed};
pub use items::{Items, Shared, Text};
pub use limits::{MAX_BYTES, MAX_FORMATS, MAX_SEGMENTS};
pub use member::{Member, Members};
pub use other_attributes::OtherAttributes;
pub use same::{
    are_same_keys, are_same_keys_in_common, is_same_init_section, is_same_init_section_in_common,
    is_same_key, is_same_key_in_common, same_segment,
};
pub use segments::{GrowingSegments, SegmentParts, SegmentRef, SegmentSlice, Segments};
pub use uri::{has_quote, has_scheme, same_resource};
pub use uri_ref::UriRef;

/// Why a text is no playlist that can be read.
#[derive(Clone, Copy, PartialEq, Eq, Debug)]
pub enum FaultKind {
    /// P1: the input isn't UTF-8 (RFC 8216, section 4.1).
    NotUtf8,
    /// P2: the input has more than 4,194,304 bytes: a limit of this reader.
    TooLong,
    /// P3: the first line isn't `#EXTM3U` (section 4.3.1.1).
    NoHeader,
    /// P4: the line holds a control character (section 4.1).
    Control,
    /// P5: EXT-X-VERSION states no decimal number (section 4.3.1.2).
    BadVersion,
    /// P6: EXT-X-VERSION states a number that isn't one from 1 to 7.
    Version,
    /// P7: a tag stands again that may stand once.
    Repeated,
    /// P8: EXT-X-MEDIA-SEQUENCE stands after a segment, or EXT-X-DISCONTINUITY-SEQUENCE after a segment or a
    /// discontinuity (sections 4.3.3.2 and 4.3.3.3).
    Misplaced,
    /// P9: a tag's value isn't one that it may have, or a number passes 2^64 - 1.
    BadValue,
    /// P10: a duration isn't a decimal number of seconds below 1,000,000 (section 4.3.2.1).
    BadDuration,
    /// P11: the attribute list isn't one of at most 64 attributes, or a value isn't of its attribute's kind
    /// (section 4.2).
    BadAttributes,
    /// P12: an attribute isn't there that has to be.
    MissingAttribute,
    /// P13: a byte range isn't `n` or `n@o`, or ends past byte 2^64 - 1 (section 4.3.2.2).
    BadRange,
    /// P14: a byte range states no offset, and doesn't follow a range of the same resource.
    RangeNoStart,
    /// P15: a time isn't a date and time of the form that is read, in the years 1900 to 2199 (section 4.3.2.6).
    BadTime,
    /// P16: a reference can't be resolved under the base.
    BadUri,
    /// P17: a segment has no EXTINF (section 4.3.2.1).
    NoDuration,
    /// P18: there is no EXT-X-TARGETDURATION (section 4.3.3.1).
    NoTarget,
    /// P19: the tag is one of a master playlist (section 4.3.4).
    MasterPlaylist,
    /// P20: the playlist is one of I-frames (section 4.3.3.6).
    IFramesOnly,
    /// P21: there is no segment.
    NoSegments,
    /// P22: some segments have an initialisation section, and others have none (section 4.3.2.5).
    MixedMaps,
    /// P23: EXT-X-MAP stands under an AES-128 key that states no IV (section 4.3.2.5).
    MapWithoutIv,
    /// P24: there are more than 10,000 segments, or keys of more than 16 formats in force: limits of this reader.
    TooMany,
    /// P25: an allocation failed.
    OutOfMemory,
}

/// The first fault of a playlist.
#[derive(Clone, Copy, PartialEq, Eq, Debug)]
pub struct PlaylistFault {
    /// What the fault is.
    pub kind: FaultKind,
    /// The line on which it stands, from 1; 0 for a fault of the text as a whole.
    pub line: u64,
}

impl From<AllocError> for FaultKind {
    ghost use Rattle.playlist_model.specs.declared.FaultKind.TheVariants.{OutOfMemory};

    ghost from_gives = { λ _ e. e ≡ OutOfMemory };

    fn from(_: AllocError) -> FaultKind {
        FaultKind::OutOfMemory
    }
}

impl<T: Drop> From<AllocFailed<T>> for FaultKind {
    ghost use Rattle.playlist_model.specs.declared.FaultKind.TheVariants.{OutOfMemory};

    ghost from_gives = { λ _ e. e ≡ OutOfMemory };

    fn from(_: AllocFailed<T>) -> FaultKind {
        FaultKind::OutOfMemory
    }
}

/// EXT-X-PLAYLIST-TYPE (RFC 8216, section 4.3.3.5): what may still change.
#[derive(Clone, Copy, PartialEq, Eq, Debug)]
pub enum PlaylistKind {
    /// Segments may be added at the end, and nothing else changes.
    Event,
    /// Nothing changes.
    Vod,
}

/// A part of a resource (RFC 8216, section 4.3.2.2), in bytes.
#[derive(Clone, Copy, PartialEq, Eq)]
pub struct ByteRange {
    /// How many bytes it has.
    pub length: u64,
    /// The place of its first byte, from 0.
    pub offset: u64,
}

/// What a key tag says (EXT-X-KEY; RFC 8216, section 4.3.2.4).
#[derive(PartialEq, Drop)]
pub enum KeyTag {
    /// METHOD=NONE: no key is in force any more, of whatever format.
    End,
    /// This key is in force, in place of the one of its format.
    Set(Key),
}

/// A key (EXT-X-KEY; RFC 8216, section 4.3.2.4). Each segment under it has a copy, which shares its texts.
#[derive(Clone, PartialEq, Drop)]
pub struct Key {
    /// KEYFORMAT, which is `identity` if none is stated.
    pub format: Shared<Text>,
    /// METHOD, which isn't NONE.
    pub method: Shared<Text>,
    /// The resource of the key.
    pub uri: Shared<Text>,
    /// The initialisation vector: as the tag states it, or the segment's media number if an `identity`
    /// key of a segment states none (section 5.2).
    pub iv: Option<u128>,
    /// All other attributes, in their order, as they are spelled.
    pub other_attributes: Shared<OtherAttributes>,
}

/// A media initialisation section (EXT-X-MAP; RFC 8216, section 4.3.2.5).
#[derive(Drop)]
pub struct InitSection {
    /// Its resource.
    pub uri: Shared<Text>,
    /// The part of the resource, if it isn't the whole.
    pub byte_range: Option<ByteRange>,
    /// The keys in force at its own line, with no IV supplied.
    pub keys: Keys,
}

/// A date range (EXT-X-DATERANGE; RFC 8216, section 4.3.2.7).
#[derive(PartialEq, Drop)]
pub struct DateRange {
    /// ID. Those who know the break of this name own it too.
    pub id: Shared<Text>,
    /// START-DATE.
    pub start: Option<Instant>,
    /// END-DATE.
    pub end: Option<Instant>,
    /// DURATION.
    pub duration: Option<Nanos>,
    /// PLANNED-DURATION.
    pub planned_duration: Option<Nanos>,
    /// SCTE35-OUT: the splice section that leaves the network, in hexadecimal.
    pub scte35_out: Option<Text>,
    /// SCTE35-IN: the splice section that returns to it.
    pub scte35_in: Option<Text>,
    /// The whole attribute list as it stands.
    pub attributes: Text,
}

/// A media playlist (RFC 8216, section 4), as a reader has it.
#[derive(Drop)]
pub struct Playlist {
    /// EXT-X-VERSION, which is 1 if none is stated.
    pub version: u64,
    /// EXT-X-TARGETDURATION, in seconds.
    pub target_duration: u64,
    /// EXT-X-PLAYLIST-TYPE, if it is stated.
    pub playlist_type: Option<PlaylistKind>,
    /// Whether EXT-X-INDEPENDENT-SEGMENTS is stated.
    pub independent_segments: bool,
    /// Whether no segment will follow: EXT-X-ENDLIST.
    pub end_list: bool,
    /// The date ranges, in their order. One that the next playlist states again has two owners.
    pub date_ranges: Items<Shared<DateRange>>,
    /// The segments, in their order. The list has several owners: the playlist in which it was read, and each of its segments
    /// that is shown.
    pub segments: Shared<Segments>,
}

// Whether a byte is an ASCII character that is no control character.
fn is_printable_playlist_byte(byte: u8) -> bool
    ensures { result ≡ is_printable_playlist_byte byte }
{
    byte >= 32 && byte < 127
}

#[tactic(auto, using(std::proofs::lemmas::List::Folds::list_all_more))]
// Whether each byte is printable. It looks at all of them, so that many are tested at once.
fn are_printable_playlist_bytes(bytes: &[u8]) -> bool
    ensures { result ≡ list_all is_printable_playlist_byte bytes.now }
{
    let mut printable = true;
    for byte in bytes {
        printable &= is_printable_playlist_byte(*byte);
    }
    printable
}

#[tactic(auto, using(crate::proofs::Printable::printable_has_no_control))]
/// Whether `text` holds a control character (RFC 8216, section 4.1): U+0000 to U+001F or U+007F to U+009F.
pub fn has_control(text: &str) -> bool
    ensures { result ≡ has_control text.now }
{
    // Most lines are ASCII, where the bytes are the characters.
    if are_printable_playlist_bytes(text.as_bytes()) {
        return false;
    }
    text.chars().any(char::is_control)
}

/// The text that `bytes` are. `NotUtf8` if they aren't UTF-8 (RFC 8216, section 4.1). Takes no memory.
pub fn playlist_text_of(bytes: &[u8]) -> Result<&str, FaultKind>
    ensures { MatchResult result (λ text. IsTrue (is_utf8 bytes.now) × (text.now ≡ bytes.now))
        (λ e. (is_utf8 bytes.now ≡ false) × (e ≡ FaultKind.NotUtf8)) }
{
    match str::from_utf8(bytes) {
        Ok(text) => Ok(text),
        Err(_) => Err(FaultKind::NotUtf8),
    }
}
