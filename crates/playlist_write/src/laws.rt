//! Laws of written playlists. Each function's contract is its law; calling it does nothing.
ghost use Rattle.playlist_write.specs.Laws.{TextDenotes};

/// What is written of a playlist that is well formed is read as that playlist, whatever the base.
pub fn text_denotes()
    ensures { TextDenotes }
{}
