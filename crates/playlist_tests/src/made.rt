//! Values that several tests are about.
ghost use Rattle.std.specs.Prelude.{◌≡◌, IfOk, codes, []};
ghost use Rattle.pod_store.specs.Store.{nothing_decided};
ghost use Rattle.stitcher.specs.StitchedSegments.{AreDecided, KnowPrevious};

use playlist_model::{InCommon, Key, Members, OtherAttributes, Segments, Shared};
use pod_store::PodStore;
use std::alloc::{AllocError, Global};
use std::hash::RandomState;
use stitcher::{Ends, MarkedSegment, Numbers, StitchedList, stitch};
use timeline::OptionalInstant;

/// A key of the method AES-128, with `format`, the resource `uri` and `iv`, and no other attribute.
pub fn key(alloc: Global, format: &str, uri: &str, iv: Option<u128>) -> Result<Key, AllocError>
    ensures { IfOk result
        (λ key. key ≡ record { format = format.now; method = codes "AES-128"; uri = uri.now; iv = iv; other_attributes = [] }) }
{
    Ok(Key {
        format: Shared::copy_of(alloc, format)?,
        method: Shared::copy_of(alloc, "AES-128")?,
        uri: Shared::copy_of(alloc, uri)?,
        iv,
        other_attributes: Shared::new(alloc, OtherAttributes::none(alloc))?,
    })
}

#[tactic(auto, using(crate::proofs::Unmarked::decided, crate::proofs::Unmarked::known))]
/// The `segments` with a time and no mark. None says what it has in common with the one before it.
pub(crate) fn unmarked(
    alloc: Global,
    segments: &Shared<Segments>,
) -> Result<Vec<MarkedSegment>, AllocError>
    ensures decided { IfOk result (λ v. AreDecided nothing_decided v.items) }
    ensures previous { IfOk result (λ v. KnowPrevious v.items) }
{
    let mut done = Vec::new(alloc);
    let mut segments = Members::from_place(segments, 0);
    while let Some(segment) = segments.next()? {
        done.push(MarkedSegment {
            segment,
            instant: OptionalInstant::from_nanos(Some(1_714_564_800_000_000_000)),
            mark: Shared::new(alloc, None)?,
            goes_on: false,
            in_common: InCommon::nothing(),
            again: 0,
        })?;
    }
    Ok(done)
}

/// The stitched list of the segments `marked`, which have no mark. Its first item has the media sequence number 7 and
/// the discontinuity sequence number 3, after a discontinuity.
/// `hashing`: the keys for a table of IDs.
pub(crate) fn listed<'a>(
    alloc: Global,
    hashing: RandomState,
    marked: &'a [MarkedSegment],
) -> Result<StitchedList<'a>, AllocError>
    requires decided { AreDecided nothing_decided marked.now }
    requires previous { KnowPrevious marked.now }
{
    let first = Numbers {
        media_sequence: 7,
        discontinuity_sequence: 3,
        discontinuities: 1,
    };
    let ends = Ends {
        rest: None,
        so_far: None,
    };
    match stitch(alloc, marked, &PodStore::new(alloc, hashing), first, &ends) {
        Ok(list) => Ok(list),
        Err(_) => Err(AllocError),
    }
}
