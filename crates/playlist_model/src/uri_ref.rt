//! The URI of a segment, as its list lends it.
ghost use Rattle.std.specs.Prelude.{◌≡◌, ◌++◌, ◌≤◌, length, bytes_eq};

use std::marker::Model;

/// A URI in two parts, which are it one after the other. What it means doesn't depend on where it is parted.
#[derive(Drop)]
pub struct UriRef<'a> {
    front: &'a str,
    rest: &'a str,
}

impl<'a> Model for UriRef<'a> {
    ghost use Rattle.std.specs.Prelude.{List, ℕ, ◌++◌};

    ghost Value = { List ℕ };

    ghost view = { λ a. a.front.now ++ a.rest.now };
}

impl<'a> UriRef<'a> {
    /// The URI of the parts `front` and `rest`.
    #[inline(always)]
    pub(crate) fn new(front: &'a str, rest: &'a str) -> UriRef<'a>
        ensures { result ≡ front.now ++ rest.now }
    {
        UriRef { front, rest }
    }

    /// Its two parts.
    #[inline(always)]
    pub fn parts(&self) -> (&'a str, &'a str)
        ensures { result.0.now ++ result.1.now ≡ self.now }
    {
        (self.front, self.rest)
    }

    /// How many bytes it has.
    #[inline(always)]
    pub fn len(&self) -> usize
        ensures { result ≡ length self.now }
    {
        self.front.len() + self.rest.len()
    }
}

// Whether the parts `front` and `rest` are the same text as the parts `other_front`, which is no shorter, and `other_rest`.
fn are_same_parts(front: &[u8], rest: &[u8], other_front: &[u8], other_rest: &[u8]) -> bool
    requires { length front.now ≤ length other_front.now }
    ensures { result
        ≡ bytes_eq (front.now ++ rest.now) (other_front.now ++ other_rest.now) }
{
    let (begin, middle) = other_front.split_at(front.len());
    if rest.len() < middle.len() {
        return false;
    }
    let (rest_begin, rest_end) = rest.split_at(middle.len());
    front == begin && rest_begin == middle && rest_end == other_rest
}

impl<'a> PartialEq for UriRef<'a> {
    ghost use Rattle.std.specs.Prelude.{bytes_eq};
    ghost use Rattle.std.specs.Cmp.{partial_equiv_from_equiv};
    ghost use Rattle.std.specs.Cmp.Lexicographic.{nat_list_eq_equiv};

    ghost eq = { bytes_eq };

    ghost laws = { partial_equiv_from_equiv nat_list_eq_equiv };

    fn eq(&self, other: &UriRef<'a>) -> bool {
        let (front, rest) = (self.front.as_bytes(), self.rest.as_bytes());
        let (other_front, other_rest) = (other.front.as_bytes(), other.rest.as_bytes());
        if front.len() <= other_front.len() {
            return are_same_parts(front, rest, other_front, other_rest);
        }
        are_same_parts(other_front, other_rest, front, rest)
    }
}
