//! Texts that are written as they were read.
ghost use Rattle.std.specs.Prelude.{◌≡◌};

use playlist_model::Text;
use std::marker::Model;

/// A text of the origin's playlist, which stays where it is.
#[derive(Drop)]
pub struct TextRef<'a> {
    text: &'a Text,
}

impl<'a> Model for TextRef<'a> {
    ghost use Rattle.std.specs.Prelude.{List, ℕ};

    ghost Value = { List ℕ };

    ghost view = { λ a. a.text.now };
}

impl<'a> TextRef<'a> {
    /// What is written as `text`.
    pub fn new(text: &'a Text) -> TextRef<'a>
        ensures { result ≡ text.now }
    {
        TextRef { text }
    }

    /// Its characters.
    pub fn as_str(&self) -> &str
        ensures { result.now ≡ self.now }
    {
        self.text.as_str()
    }
}
