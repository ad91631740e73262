//! What is asked of the playlist that was accepted last when another follows, its segments apart.
ghost use Rattle.std.specs.Prelude.{◌≡◌};
ghost use Rattle.channel_spec.specs.Successor.{owed_heading_of};

use playlist_model::{Playlist, PlaylistKind};

/// What the tags of the whole playlist say that may not change from one playlist to the next, and whether it has ended.
#[derive(Clone, Copy)]
pub struct Heading {
    /// EXT-X-VERSION, which is 1 if none is stated.
    pub version: u64,
    /// EXT-X-TARGETDURATION, in seconds.
    pub target_duration: u64,
    /// EXT-X-PLAYLIST-TYPE, if it is stated.
    pub playlist_type: Option<PlaylistKind>,
    /// Whether no segment will follow: EXT-X-ENDLIST.
    pub end_list: bool,
}

/// The heading of `playlist`.
pub fn owed_heading_of(playlist: &Playlist) -> Heading
    ensures { result ≡ owed_heading_of playlist.now }
{
    Heading {
        version: playlist.version,
        target_duration: playlist.target_duration,
        playlist_type: playlist.playlist_type,
        end_list: playlist.end_list,
    }
}
