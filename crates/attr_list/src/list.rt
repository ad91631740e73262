//! Attribute lists.
ghost use Rattle.std.specs.Prelude.{◌≡◌, ◌≤◌, ◌⊎◌, List, [], map, length, Ok, Err, Some, true, IfOk, IfErr, MatchResult, find, option_map};
ghost use Rattle.std.specs.Option.{option_copied};
ghost use Rattle.std.specs.List.{list_any};
ghost use Rattle.std.specs.Slice.Iter.{iter_rest};
ghost use Rattle.std.specs.Iterator.Adapters.{IterYieldsInOrder};
ghost use Rattle.attr_list.specs.declared.AttrFault.{AttrFault};
ghost use Rattle.attr_list.specs.declared.attr.Attr.{Attr};
ghost use Rattle.attr_list.specs.Attributes.{Pair, IsAttributeList, are_attributes, attributes_of, attribute, pair_of, pair_spelling, pieces, spans_from, slices_at, is_named};
ghost use Rattle.attr_list.specs.Attrs.{attr_pair, attr_span};
ghost use Rattle.attr_list.specs.Scanning.{first_piece};
ghost use Rattle.attr_list.specs.Inner.Scanning.{StartsWithPair};

use crate::scan::{split_attribute_name, split_attribute_value};
use crate::{Attr, AttrFault, Span};
use std::alloc::Global;
use std::marker::Model;
use std::slice::Iter;

/// The most attributes that a list may have.
pub const MAX_ATTRIBUTES: usize = 64;

/// The attributes of a tag, in order (RFC 8216, section 4.2), as slices of its text. No two have one name.
#[derive(Debug, Drop)]
pub struct AttrList<'a> {
    attrs: Vec<Attr<'a>>,
}

impl<'a> Model for AttrList<'a> {
    ghost use Rattle.std.specs.Prelude.{◌≡◌, List, map, true};
    ghost use Rattle.attr_list.specs.declared.attr.Attr.{Attr};
    ghost use Rattle.attr_list.specs.Attributes.{are_attributes};
    ghost use Rattle.attr_list.specs.Attrs.{attr_pair};

    ghost Value = { List Attr };

    ghost view = { λ list. list.attrs.items };

    ghost invariant = { λ list. are_attributes (map attr_pair list.attrs.items) ≡ true };
}

impl<'a> AttrList<'a> {
    /// Reads `text` as an attribute list (RFC 8216, section 4.2) of at most [`MAX_ATTRIBUTES`] attributes. Their
    /// names and values are slices of `text`.
    ///
    /// The first faulty attribute decides the fault, and in it the order TooMany, BadName, NoEquals, Twice,
    /// OpenQuote, BadValue. The first attribute is judged before any memory is taken; later ones may be answered by
    /// `OutOfMemory`.
    ///
    /// ```text
    /// let list = AttrList::read(alloc, "ID=\"b1\",DURATION=30")?;
    /// list.get("DURATION")    Some: its value is "30", and it isn't quoted
    /// list.get("Duration")    None
    /// ```
    pub fn read(alloc: Global, text: &'a str) -> Result<AttrList<'a>, AttrFault>
        // What is read is in the grammar.
        ensures list { IfOk result (λ list. IsAttributeList text.now (map attr_pair list)) }
        // What is in the grammar is read, up to the limit.
        ensures reads { (pairs : List Pair) → IsAttributeList text.now pairs
            → length pairs ≤ MAX_ATTRIBUTES
            → MatchResult result (λ list. map attr_pair list ≡ pairs)
            (λ e. e ≡ AttrFault.OutOfMemory) }

        // Exactly the answer of the reading, with its first fault.
        ensures ok { IfOk result
            (λ list. attributes_of (Some MAX_ATTRIBUTES) text.now ≡ Ok (map attr_pair list)) }
        ensures fault { IfErr result
            (λ e. (e ≡ AttrFault.OutOfMemory) ⊎ (attributes_of (Some MAX_ATTRIBUTES) text.now ≡ Err e)) }

        // The first attribute's fault is told whatever memory there is: that of an empty text, too.
        ensures told { (e : AttrFault)
            → pair_of (Some MAX_ATTRIBUTES) [] (first_piece text.now) ≡ Err e → result ≡ Err e }

        // Each attribute's place, where its spelling stands.
        ensures spans { IfOk result (λ list. map attr_span list ≡ spans_from 0 (pieces text.now)) }
        ensures slices { IfOk result
            (λ list. slices_at text.now (map attr_span list) ≡ map pair_spelling (map attr_pair list)) }
    {
        let attrs = read_attribute_list(alloc, text)?;
        Ok(AttrList { attrs })
    }

    /// The attribute called `name`, if there is one. Upper and lower case differ.
    pub fn get(&self, name: &str) -> Option<&Attr<'a>>
        ensures pair { option_map attr_pair (option_copied result)
            ≡ attribute (map attr_pair self.now) name.now }
        ensures item { option_copied result
            ≡ find (λ attr. is_named name.now (attr_pair attr)) self.now }
    {
        find_named_attribute(&self.attrs, name)
    }

    /// The attributes in the order of the text.
    pub fn iter(&self) -> Iter<'_, Attr<'a>>
        ensures rest { iter_rest result ≡ self.now }
        ensures runs { IterYieldsInOrder Attr }
    {
        self.as_slice().iter()
    }

    /// The same as a slice.
    pub fn as_slice(&self) -> &[Attr<'a>]
        ensures slice { result.now ≡ self.now }
        // They are pairs of the grammar with names apart.
        ensures attributes { are_attributes (map attr_pair self.now) ≡ true }
    {
        self.attrs.as_slice()
    }
}

// The attributes of a text, in one pass.
fn read_attribute_list(alloc: Global, text: &str) -> Result<Vec<Attr<'_>>, AttrFault>
    ensures ok { IfOk result
        (λ v. attributes_of (Some MAX_ATTRIBUTES) text.now ≡ Ok (map attr_pair v.items)) }
    ensures fault { IfErr result
        (λ e. (e ≡ AttrFault.OutOfMemory) ⊎ (attributes_of (Some MAX_ATTRIBUTES) text.now ≡ Err e)) }
    ensures told { (e : AttrFault) → pair_of (Some MAX_ATTRIBUTES) [] (first_piece text.now) ≡ Err e
        → result ≡ Err e }
    ensures spans { IfOk result (λ v. map attr_span v.items ≡ spans_from 0 (pieces text.now)) }
{
    let mut attrs: Vec<Attr<'_>> = Vec::new(alloc);
    let mut rest = text;
    loop {
        let pair = read_attribute_pair(rest, &attrs)?;
        let after = pair.after;
        let span = Span {
            start: text.len() - rest.len(),
            end: text.len() - after.len(),
        };
        attrs.push(attribute_of_pair(pair, span))?;
        match after.strip_prefix(',') {
            Some(next) => rest = next,
            None => return Ok(attrs),
        }
    }
}

// The parts of an attribute at the front of a text, and the text after it.
#[derive(Clone, Copy)]
struct PairText<'a> {
    name: &'a str,
    value: &'a str,
    quoted: bool,
    after: &'a str,
}

// The attribute at the front of a text, after these. Takes no memory.
fn read_attribute_pair<'a>(text: &'a str, before: &[Attr<'_>]) -> Result<PairText<'a>, AttrFault>
    ensures { MatchResult result
        (λ p. let pair : Pair = record { name = p.name.now; value = p.value.now; quoted = p.quoted } in
        StartsWithPair text.now pair p.after.now
        × (pair_of (Some MAX_ATTRIBUTES) (map attr_pair before.now) (pair_spelling pair) ≡ Ok pair))
        (λ e. pair_of (Some MAX_ATTRIBUTES) (map attr_pair before.now) (first_piece text.now) ≡ Err e) }
{
    if before.len() >= MAX_ATTRIBUTES {
        return Err(AttrFault::TooMany);
    }
    let (name, rest) = split_attribute_name(text)?;
    if has_named_attribute(before, name) {
        return Err(AttrFault::Twice);
    }
    let value = split_attribute_value(rest)?;
    Ok(PairText {
        name,
        value: value.value,
        quoted: value.quoted,
        after: value.after,
    })
}

// The first attribute of this name.
fn find_named_attribute<'s, 'a>(attrs: &'s [Attr<'a>], name: &str) -> Option<&'s Attr<'a>>
    ensures { option_copied result ≡ find (λ attr. is_named name.now (attr_pair attr)) attrs.now }
{
    attrs.iter().find(|attr| name == attr.name)
}

// Whether one of `attrs` is called `name`: no name may come twice (RFC 8216, section 4.2).
fn has_named_attribute(attrs: &[Attr<'_>], name: &str) -> bool
    ensures { result ≡ list_any (λ attr. is_named name.now (attr_pair attr)) attrs.now }
{
    attrs.iter().any(|attr| name == attr.name)
}

// The attribute of these parts, at its place.
fn attribute_of_pair(pair: PairText<'_>, span: Span) -> Attr<'_>
    ensures place { result.span ≡ span }
    ensures parts { attr_pair result
        ≡ record { name = pair.entry.name.now; value = pair.entry.value.now; quoted = pair.entry.quoted } }
{
    Attr {
        name: pair.name,
        value: pair.value,
        quoted: pair.quoted,
        span,
    }
}
