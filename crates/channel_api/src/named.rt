//! Values under names, in the order in which they came.
ghost use Rattle.std.specs.Prelude.{◌≡◌, is_some};
ghost use Rattle.std.specs.Map.{lookup, remove_entry};
ghost use Rattle.channel_api.specs.Named.{has_this_key, PutsNamed};

use indexmap::IndexMap;
use std::alloc::{AllocError, Global};

/// What became of a value that was to have a name.
#[derive(Clone, Copy)]
pub enum Naming {
    /// It has it.
    Done,
    /// Another value has it.
    Taken,
    /// There are as many values as there may be.
    Full,
}

/// Puts `value` under `name` after the others of `values`. `Taken` if another value has that name; `Full` if there
/// are `most` already. Fails only if it would be put there and an allocation fails; `values` are then as they were.
pub fn put_named<V: Drop>(
    alloc: Global,
    values: &mut IndexMap<String, V>,
    most: usize,
    name: &str,
    value: V,
) -> Result<Naming, AllocError>
    ensures { PutsNamed most name.now value values.old.entries result values.new.entries }
{
    if values.contains_key(name) {
        return Ok(Naming::Taken);
    }
    if values.len() >= most {
        return Ok(Naming::Full);
    }
    let name = String::from_str(alloc, name)?;
    match values.insert(name, value) {
        Ok(_) => Ok(Naming::Done),
        Err(_) => Err(AllocError),
    }
}

/// Removes the value under `name` from `values`, and says whether there was one.
pub fn remove_named<V: Drop>(values: &mut IndexMap<String, V>, name: &str) -> bool
    ensures there { result ≡ is_some (lookup (has_this_key name.now) values.old.entries) }
    ensures entries { values.new.entries ≡ remove_entry (has_this_key name.now) values.old.entries }
{
    values.shift_remove(name).is_some()
}
