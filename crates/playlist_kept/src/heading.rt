//! What the tags of the whole playlist said in lines that were read.
ghost use Rattle.std.specs.Prelude.{◌≡◌, true};
ghost use Rattle.playlist_model.specs.Same.{kind_eq};

use playlist_model::PlaylistKind;

/// What the tags of the whole playlist have said (RFC 8216, sections 4.3.1, 4.3.3 and 4.3.5), and whether those stood
/// that they may not follow.
#[derive(Clone, Copy)]
pub struct ReadHeading {
    /// EXT-X-VERSION.
    pub version: Option<u64>,
    /// EXT-X-TARGETDURATION, in seconds.
    pub target_duration: Option<u64>,
    /// EXT-X-PLAYLIST-TYPE.
    pub playlist_type: Option<PlaylistKind>,
    /// Whether EXT-X-INDEPENDENT-SEGMENTS stood.
    pub independent_segments: bool,
    /// Whether EXT-X-ENDLIST stood.
    pub end_list: bool,
    /// Whether EXT-X-MEDIA-SEQUENCE stood.
    pub has_sequence: bool,
    /// Whether EXT-X-DISCONTINUITY-SEQUENCE stood.
    pub has_discontinuity_sequence: bool,
    /// Whether a segment stood before.
    pub has_media: bool,
}

fn is_same_kept_number(a: Option<u64>, b: Option<u64>) -> bool
    ensures { result ≡ true → a ≡ b }
{
    match (a, b) {
        (None, None) => true,
        (Some(a), Some(b)) => a == b,
        _ => false,
    }
}

/// Whether both types are the same, or neither playlist has one (RFC 8216, section 4.3.3.5): `a` and `b` are theirs.
pub fn is_same_kind(a: Option<PlaylistKind>, b: Option<PlaylistKind>) -> bool
    ensures value { result ≡ kind_eq a b }
    ensures same { result ≡ true → a ≡ b }
{
    match (a, b) {
        (None, None) => true,
        (Some(PlaylistKind::Event), Some(PlaylistKind::Event)) => true,
        (Some(PlaylistKind::Vod), Some(PlaylistKind::Vod)) => true,
        _ => false,
    }
}

fn is_same_kept_flag(a: bool, b: bool) -> bool
    ensures { result ≡ true → a ≡ b }
{
    a == b
}

impl ReadHeading {
    /// Whether `other` says the same.
    pub fn is(&self, other: &ReadHeading) -> bool
        ensures { result ≡ true → self.now ≡ other.now }
    {
        if !is_same_kept_number(self.version, other.version) {
            return false;
        }
        if !is_same_kept_number(self.target_duration, other.target_duration) {
            return false;
        }
        if !is_same_kind(self.playlist_type, other.playlist_type) {
            return false;
        }
        if !is_same_kept_flag(self.independent_segments, other.independent_segments) {
            return false;
        }
        if !is_same_kept_flag(self.end_list, other.end_list) {
            return false;
        }
        if !is_same_kept_flag(self.has_sequence, other.has_sequence) {
            return false;
        }
        if !is_same_kept_flag(
            self.has_discontinuity_sequence,
            other.has_discontinuity_sequence,
        ) {
            return false;
        }
        is_same_kept_flag(self.has_media, other.has_media)
    }
}
