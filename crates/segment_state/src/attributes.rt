//! The attributes of a tag (RFC 8216, section 4.2), as the tags of 4.3 read them.
ghost use Rattle.std.specs.Prelude.{option_map};
ghost use Rattle.attr_list.specs.Attributes.{attribute};
ghost use Rattle.playlist_model.specs.Said.{attributes, required};
ghost use Rattle.playlist_model.specs.Reading.{limited};
ghost use Rattle.spec_words.specs.Outcomes.{GivesExactly};
ghost use Rattle.playlist_model.specs.Refusals.{GivesOrPlaylistFault};
ghost use Rattle.segment_state.specs.Attributes.{pairs_of, optional_tag_value};

use attr_list::{AttrFault, AttrList};
use playlist_model::FaultKind;
use std::alloc::Global;

/// The attributes in `rest`, which comes after a tag's colon (RFC 8216, section 4.2). `BadAttributes` exactly if it
/// is no attribute list of at most 64 attributes; `OutOfMemory` only if an allocation fails.
pub fn tag_attributes_of(alloc: Global, rest: &str) -> Result<AttrList<'_>, FaultKind>
    ensures { GivesOrPlaylistFault pairs_of result (attributes limited rest.now) }
{
    match AttrList::read(alloc, rest) {
        Ok(list) => Ok(list),
        Err(AttrFault::OutOfMemory) => Err(FaultKind::OutOfMemory),
        Err(_) => Err(FaultKind::BadAttributes),
    }
}

/// The value of the attribute `name` of `list`, which may be left out. `BadAttributes` exactly if it is there and in
/// quotes though it isn't `quoted` by its type, or without though it is (RFC 8216, section 4.2). Takes no memory.
pub fn optional_tag_value<'a>(
    list: &AttrList<'a>,
    name: &str,
    quoted: bool,
) -> Result<Option<&'a str>, FaultKind>
    ensures { GivesExactly (option_map
        (λ value. value.now)) result
        (optional_tag_value quoted (attribute (pairs_of list.now) name.now)) }
{
    let Some(attr) = list.get(name) else {
        return Ok(None);
    };
    if attr.quoted != quoted {
        return Err(FaultKind::BadAttributes);
    }
    Ok(Some(attr.value))
}

/// The value of the attribute `name` of `list`, which has to be there. `MissingAttribute` exactly if it is not;
/// `BadAttributes` exactly if it is, and in quotes though it isn't `quoted` by its type, or without though it is (RFC
/// 8216, section 4.2). Takes no memory.
pub fn required_tag_value<'a>(
    list: &AttrList<'a>,
    name: &str,
    quoted: bool,
) -> Result<&'a str, FaultKind>
    ensures { GivesExactly
        (λ value. value.now) result (required quoted (attribute (pairs_of list.now) name.now)) }
{
    optional_tag_value(list, name, quoted)?.ok_or(FaultKind::MissingAttribute)
}
