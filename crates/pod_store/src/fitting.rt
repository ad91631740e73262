//! What decides whether a pod fits a playlist, whatever the playlist is.
ghost use Rattle.std.specs.Prelude.{◌≡◌};
ghost use Rattle.pod_store.specs.Inner.Fitting.{pod_segments_longest, pod_ads_longest, are_ads_with_init_sections, are_ads_without_init_sections};

use crate::{Ad, PodSegment};

// The longest duration of a segment of `segments`, each rounded to whole seconds (RFC 8216, section 4.3.3.1); 0 for
// none.
fn pod_segments_longest(segments: &[PodSegment]) -> u64
    ensures { result ≡ pod_segments_longest segments.now }
{
    let mut longest = 0;
    let mut rest = segments;
    while let Some((segment, later)) = rest.split_first() {
        longest = longest.max(segment.duration.rounded_seconds());
        rest = later;
    }
    longest
}

/// The longest duration of a segment of `ads`, each rounded to whole seconds (RFC 8216, section 4.3.3.1); 0 for none.
pub fn pod_ads_longest(ads: &[Ad]) -> u64
    ensures { result ≡ pod_ads_longest ads.now }
{
    let mut longest = 0;
    let mut rest = ads;
    while let Some((ad, later)) = rest.split_first() {
        longest = longest.max(pod_segments_longest(ad.segments.as_slice()));
        rest = later;
    }
    longest
}

/// Whether each of `ads` has an initialisation section (RFC 8216, section 4.3.2.5).
pub fn are_ads_with_init_sections(ads: &[Ad]) -> bool
    ensures { result ≡ are_ads_with_init_sections ads.now }
{
    ads.iter().all(|ad: &Ad| ad.init_section.is_some())
}

/// Whether none of `ads` has an initialisation section (RFC 8216, section 4.3.2.5).
pub fn are_ads_without_init_sections(ads: &[Ad]) -> bool
    ensures { result ≡ are_ads_without_init_sections ads.now }
{
    ads.iter().all(|ad: &Ad| ad.init_section.is_none())
}
