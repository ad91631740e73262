//! Owned lists and texts that contracts see as lists, and values with several owners.
ghost use Rattle.std.specs.Prelude.{◌≡◌, ◌<◌, ℕ, List, length, IfOk, string_bytes, IsTrue};
ghost use Rattle.std.specs.Str.{is_utf8};

use std::alloc::{AllocError, Global};
use std::marker::Model;
use std::ops::Deref;
use std::rc::Rc;

/// A list of values. It is made from a `Vec`, and gives it back, without memory.
#[derive(Drop)]
pub struct Items<T> {
    vec: Vec<T>,
}

impl<T> Model for Items<T> {
    ghost Value = { List T };

    ghost view = { λ a. a.vec.items };
}

impl<T> Items<T> {
    /// The list of the values of `vec`, in their order.
    pub fn from_vec(vec: Vec<T>) -> Items<T>
        ensures { result ≡ vec.items }
    {
        Items { vec }
    }

    /// The vector of its values.
    pub fn into_vec(self) -> Vec<T>
        ensures { result.items ≡ self }
    {
        let Items { vec } = self;
        vec
    }

    /// Its values.
    pub fn as_slice(&self) -> &[T]
        ensures { result.now ≡ self.now }
    {
        self.vec.as_slice()
    }

    /// How many values it has.
    pub fn len(&self) -> usize
        ensures { result ≡ length self.now }
    {
        self.vec.len()
    }
}

/// A text. It is made from a `String`, and gives it back, without memory.
#[derive(Drop)]
pub struct Text {
    string: String,
}

impl Model for Text {
    ghost Value = { List ℕ };

    ghost view = { λ a. string_bytes a.string };
}

impl Text {
    /// The text of `string`.
    pub fn from_string(string: String) -> Text
        ensures { result ≡ string_bytes string }
    {
        Text { string }
    }

    /// The string of the text.
    pub fn into_string(self) -> String
        ensures { string_bytes result ≡ self }
    {
        let Text { string } = self;
        string
    }

    /// Its characters; a contract sees their bytes in UTF-8.
    pub fn as_str(&self) -> &str
        ensures text { result.now ≡ self.now }
        ensures utf8 { IsTrue (is_utf8 self.now) }
    {
        self.string.as_str()
    }

    /// A copy of `text`. Fails only if an allocation fails.
    pub fn copy_of(alloc: Global, text: &str) -> Result<Text, AllocError>
        ensures { IfOk result (λ t. t ≡ text.now) }
    {
        let string = String::from_str(alloc, text)?;
        Ok(Text { string })
    }
}

/// A value with several owners, such as a key that many segments have: a copy of it takes no memory.
#[derive(Drop)]
pub struct Shared<T> {
    owned: Rc<T>,
}

impl<T> Model for Shared<T> {
    ghost Value = { T };

    ghost view = { λ a. a.owned.value };
}

impl<T: Drop> Shared<T> {
    /// The `value`, to be shared. Fails only if an allocation fails, and then drops it.
    pub fn new(alloc: Global, value: T) -> Result<Shared<T>, AllocError>
        ensures { IfOk result (λ shared. shared ≡ value) }
    {
        let owned = Rc::new(alloc, value)?;
        Ok(Shared { owned })
    }
}

impl<T> Shared<T> {
    /// How many own the value, this owner among them.
    pub fn owners(&self) -> usize
        ensures { 0 < result }
    {
        Rc::strong_count(&self.owned).max(1)
    }
}

impl Shared<Text> {
    /// A copy of `text`, to be shared. Fails only if an allocation fails.
    pub fn copy_of(alloc: Global, text: &str) -> Result<Shared<Text>, AllocError>
        ensures { IfOk result (λ shared. shared ≡ text.now) }
    {
        Shared::new(alloc, Text::copy_of(alloc, text)?)
    }
}

impl<T> Deref for Shared<T> {
    type Target = T;

    ghost deref_gives = { λ shared value. value ≡ shared };

    fn deref(&self) -> &T
        ensures { result.now ≡ self.now }
    {
        self.owned.as_ref()
    }
}

impl<T: Drop> Clone for Shared<T> {
    ghost is_clone = { λ a b. b ≡ a };

    fn clone(&self) -> Result<Shared<T>, AllocError>
        ensures { IfOk result (λ shared. shared ≡ self.now) }
    {
        let owned = self.owned.clone()?;
        Ok(Shared { owned })
    }
}

impl<T: PartialEq> PartialEq for Shared<T> {
    ghost eq = { T.eq };

    ghost laws = { T.laws };

    fn eq(&self, other: &Shared<T>) -> bool {
        let (one, two) = (self.owned.as_ref(), other.owned.as_ref());
        one == two
    }
}

impl PartialEq for Text {
    ghost use Rattle.std.specs.Prelude.{bytes_eq};
    ghost use Rattle.std.specs.Cmp.{partial_equiv_from_equiv};
    ghost use Rattle.std.specs.Cmp.Lexicographic.{nat_list_eq_equiv};

    ghost eq = { bytes_eq };

    ghost laws = { partial_equiv_from_equiv nat_list_eq_equiv };

    fn eq(&self, other: &Text) -> bool {
        let (one, two) = (self.string.as_str(), other.string.as_str());
        one == two
    }
}

impl<T: PartialEq> PartialEq for Items<T> {
    ghost use Rattle.std.specs.Cmp.Lexicographic.{lists_per, pointwise};

    ghost eq = { pointwise T.eq };

    ghost laws = { lists_per T.laws };

    fn eq(&self, other: &Items<T>) -> bool {
        self.vec == other.vec
    }
}

impl Clone for Text {
    ghost is_clone = { λ a b. b ≡ a };

    fn clone(&self) -> Result<Text, AllocError>
        ensures { IfOk result (λ t. t ≡ self.now) }
    {
        let string = self.string.clone()?;
        Ok(Text { string })
    }
}

impl<T: Clone> Clone for Items<T> {
    ghost use Rattle.std.specs.List.{AllZip};

    ghost is_clone = { AllZip T.is_clone };

    fn clone(&self) -> Result<Items<T>, AllocError> {
        let vec = self.vec.clone()?;
        Ok(Items { vec })
    }
}
