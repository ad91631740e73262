//! The tags of RFC 8216, section 4.3, by name.
ghost use Rattle.std.specs.Prelude.{◌≡◌, if◌then◌else◌};
ghost use Rattle.playlist_model.specs.Reading.{name_of};
ghost use Rattle.playlist_parse.specs.Inner.LineViews.{tag_view};

/// A tag that a reader knows, or any other.
#[derive(Clone, Copy)]
pub enum Tag {
    /// EXT-X-VERSION (section 4.3.1.2).
    Version,
    /// EXT-X-TARGETDURATION (section 4.3.3.1).
    TargetDuration,
    /// EXT-X-MEDIA-SEQUENCE (section 4.3.3.2).
    MediaSequence,
    /// EXT-X-DISCONTINUITY-SEQUENCE (section 4.3.3.3).
    DiscontinuitySequence,
    /// EXT-X-PLAYLIST-TYPE (section 4.3.3.5).
    PlaylistType,
    /// EXT-X-ENDLIST (section 4.3.3.4).
    EndList,
    /// EXT-X-INDEPENDENT-SEGMENTS (section 4.3.5.1).
    IndependentSegments,
    /// EXT-X-I-FRAMES-ONLY (section 4.3.3.6).
    IFramesOnly,
    /// A tag of a master playlist (section 4.3.4).
    Master,
    /// EXTINF (section 4.3.2.1).
    Inf,
    /// EXT-X-BYTERANGE (section 4.3.2.2).
    ByteRange,
    /// EXT-X-DISCONTINUITY (section 4.3.2.3).
    Discontinuity,
    /// EXT-X-KEY (section 4.3.2.4).
    Key,
    /// EXT-X-MAP (section 4.3.2.5).
    InitSection,
    /// EXT-X-PROGRAM-DATE-TIME (section 4.3.2.6).
    ProgramDateTime,
    /// EXT-X-DATERANGE (section 4.3.2.7).
    DateRange,
    /// Any other, which is ignored.
    Unknown,
}

// A flag takes no colon: with one it is an unknown tag.
fn flag_tag_of_line(tag: Tag, colon: bool) -> Tag
    ensures { result ≡ (if colon then Tag.Unknown else tag) }
{
    if colon { Tag::Unknown } else { tag }
}

/// The tag called `name` (RFC 8216, section 4.3), after which a `colon` comes or not. A name that isn't known is
/// passed over (section 6.3.1), and one of a master playlist is refused (section 4.3.4).
pub fn tag_of_line_name(name: &str, colon: bool) -> Tag
    ensures { tag_view result ≡ name_of name.now colon }
{
    match name {
        "EXTINF" => Tag::Inf,
        "EXT-X-BYTERANGE" => Tag::ByteRange,
        "EXT-X-DISCONTINUITY" => flag_tag_of_line(Tag::Discontinuity, colon),
        "EXT-X-KEY" => Tag::Key,
        "EXT-X-MAP" => Tag::InitSection,
        "EXT-X-PROGRAM-DATE-TIME" => Tag::ProgramDateTime,
        "EXT-X-DATERANGE" => Tag::DateRange,
        "EXT-X-VERSION" => Tag::Version,
        "EXT-X-TARGETDURATION" => Tag::TargetDuration,
        "EXT-X-MEDIA-SEQUENCE" => Tag::MediaSequence,
        "EXT-X-DISCONTINUITY-SEQUENCE" => Tag::DiscontinuitySequence,
        "EXT-X-PLAYLIST-TYPE" => Tag::PlaylistType,
        "EXT-X-ENDLIST" => flag_tag_of_line(Tag::EndList, colon),
        "EXT-X-INDEPENDENT-SEGMENTS" => flag_tag_of_line(Tag::IndependentSegments, colon),
        "EXT-X-I-FRAMES-ONLY" => flag_tag_of_line(Tag::IFramesOnly, colon),
        "EXT-X-MEDIA" => Tag::Master,
        "EXT-X-STREAM-INF" => Tag::Master,
        "EXT-X-I-FRAME-STREAM-INF" => Tag::Master,
        "EXT-X-SESSION-DATA" => Tag::Master,
        "EXT-X-SESSION-KEY" => Tag::Master,
        _ => Tag::Unknown,
    }
}
