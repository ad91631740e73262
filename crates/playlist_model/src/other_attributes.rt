//! The attributes of a key tag that are carried as they stand (RFC 8216, section 4.3.2.4).
ghost use Rattle.std.specs.Prelude.{◌≡◌, ◌≤◌, ◌∷◌, [], map, length, IfOk, true};
ghost use Rattle.attr_list.specs.Attributes.{pair_spelling};
ghost use Rattle.attr_list.specs.Attrs.{attr_pair};
ghost use Rattle.fixed_duration.specs.Appended.{Appends};
ghost use Rattle.playlist_model.specs.Carried.{after_commas, are_others, carried, is_key_attribute};

use attr_list::{Attr, AttrList};
use std::alloc::{AllocError, Global};
use std::marker::Model;

/// The attributes of a key tag that have no meaning of their own here, such as KEYFORMATVERSIONS: as they are
/// spelled, each with a comma before it. Nothing if there are none.
#[derive(Drop)]
pub struct OtherAttributes {
    string: String,
}

impl Model for OtherAttributes {
    ghost use Rattle.std.specs.Prelude.{◌≡◌, true, List, ℕ, string_bytes};
    ghost use Rattle.playlist_model.specs.Carried.{are_others};

    ghost Value = { List ℕ };

    ghost view = { λ a. string_bytes a.string };

    ghost invariant = { λ a. are_others (string_bytes a.string) ≡ true };
}

impl OtherAttributes {
    /// No attributes. Takes no memory.
    pub fn none(alloc: Global) -> OtherAttributes
        ensures { result ≡ [] }
    {
        let string = String::new(alloc);
        OtherAttributes { string }
    }

    #[tactic(auto, using(crate::proofs::Carried::others_are))]
    /// Those attributes in the `list` of a key tag that are carried (RFC 8216, section 4.3.2.4): all but METHOD, URI,
    /// IV and KEYFORMAT, in their order. Fails only if an allocation fails.
    pub fn of(alloc: Global, list: &AttrList<'_>) -> Result<OtherAttributes, AllocError>
        ensures { IfOk result (λ others. others ≡ after_commas (carried (map attr_pair list.now))) }
    {
        let attrs = list.as_slice();
        let mut string = String::with_capacity(alloc, other_key_attributes_length(attrs))?;
        push_other_key_attributes(&mut string, attrs)?;
        Ok(OtherAttributes { string })
    }

    /// The text of them all.
    pub fn as_str(&self) -> &str
        ensures text { result.now ≡ self.now }
        ensures others { are_others self.now ≡ true }
    {
        self.string.as_str()
    }
}

impl PartialEq for OtherAttributes {
    ghost use Rattle.std.specs.Prelude.{bytes_eq};
    ghost use Rattle.std.specs.Cmp.{partial_equiv_from_equiv};
    ghost use Rattle.std.specs.Cmp.Lexicographic.{nat_list_eq_equiv};

    ghost eq = { bytes_eq };

    ghost laws = { partial_equiv_from_equiv nat_list_eq_equiv };

    fn eq(&self, other: &OtherAttributes) -> bool {
        self.as_str() == other.as_str()
    }
}

// Whether an attribute of a key tag has a meaning of its own here.
fn is_key_attribute(attr: &Attr<'_>) -> bool
    ensures { result ≡ is_key_attribute (attr_pair attr.now) }
{
    match attr.name {
        "METHOD" => true,
        "URI" => true,
        "IV" => true,
        "KEYFORMAT" => true,
        _ => false,
    }
}

// How many bytes `,NAME=value` or `,NAME="value"` takes.
fn key_attribute_length(attr: &Attr<'_>) -> usize
    ensures { result ≤ length (44 ∷ pair_spelling (attr_pair attr.now)) }
{
    let marks: usize = if attr.quoted { 4 } else { 2 };
    attr.name
        .len()
        .saturating_add(attr.value.len())
        .saturating_add(marks)
}

// How many bytes the others take with their commas: their text is given no more room than it needs.
fn other_key_attributes_length(attrs: &[Attr<'_>]) -> usize
    ensures { result ≤ length (after_commas (carried (map attr_pair attrs.now))) }
{
    let mut length: usize = 0;
    for attr in attrs {
        if !is_key_attribute(attr) {
            length = length.saturating_add(key_attribute_length(attr));
        }
    }
    length
}

// Appends `,NAME=value` or `,NAME="value"`.
fn push_key_attribute(out: &mut String, attr: &Attr<'_>) -> Result<(), AllocError>
    ensures { Appends result out.old out.new (44 ∷ pair_spelling (attr_pair attr.now)) }
{
    out.push(',')?;
    out.push_str(attr.name)?;
    if attr.quoted {
        out.push_str("=\"")?;
        out.push_str(attr.value)?;
        out.push('"')
    } else {
        out.push('=')?;
        out.push_str(attr.value)
    }
}

fn push_other_key_attributes(out: &mut String, attrs: &[Attr<'_>]) -> Result<(), AllocError>
    ensures { Appends result out.old out.new (after_commas (carried (map attr_pair attrs.now))) }
{
    for attr in attrs {
        if !is_key_attribute(attr) {
            push_key_attribute(out, attr)?;
        }
    }
    Ok(())
}
