//! Copies of what is put into a list, which share their texts.
ghost use Rattle.std.specs.Prelude.{◌≡◌, IfOk, option_map};
ghost use Rattle.stitcher.specs.Stitched.{with_keys};

use playlist_model::{InitSection, Shared};
use pod_store::Ad;
use std::alloc::{AllocError, Global};

/// The initialisation section of the segments of `ad`, under its keys. Fails only if an allocation fails.
pub fn stitched_init_section(
    alloc: Global,
    ad: &Ad,
) -> Result<Option<Shared<InitSection>>, AllocError>
    ensures { IfOk result (λ s. s ≡ option_map (with_keys ad.now.keys) ad.now.init_section) }
{
    let Some(init_section) = &ad.init_section else {
        return Ok(None);
    };
    let keys = ad.keys.clone()?;
    let init_section = InitSection {
        uri: init_section.uri.clone()?,
        byte_range: init_section.byte_range,
        keys,
    };
    Ok(Some(Shared::new(alloc, init_section)?))
}
