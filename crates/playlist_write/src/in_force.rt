//! The keys and the initialisation section in force between the lines of two segments (RFC 8216, sections 4.3.2.4 and
//! 4.3.2.5).
ghost use Rattle.std.specs.Prelude.{◌≡◌};
ghost use Rattle.playlist_model.specs.LookBack.{or_earlier};
ghost use Rattle.stitcher.specs.Stretches.{SecondHasInCommon};

use playlist_model::{InCommon, InitSection, Keys, KeysRef, SegmentRef, Shared};
use std::marker::Model;
use stitcher::StitchedItems;

/// Keys and an initialisation section that are in force.
#[derive(Drop)]
pub struct InForce<'a> {
    /// The keys.
    pub keys: KeysRef<'a>,
    /// The initialisation section, if there is one.
    pub init_section: &'a Option<Shared<InitSection>>,
}

impl<'a> Model for InForce<'a> {
    ghost use Rattle.playlist_write.specs.Owed.{Current};

    ghost Value = { Current };

    ghost view = { λ a. record { keys = a.keys; init_section = a.init_section.now } };
}

impl<'a> InForce<'a> {
    /// Where `keys` and `init_section` are in force.
    pub fn new(keys: &'a Keys, init_section: &'a Option<Shared<InitSection>>) -> InForce<'a>
        ensures { result ≡ record { keys = keys.now; init_section = init_section.now } }
    {
        InForce {
            keys: keys.lent(),
            init_section,
        }
    }

    /// What the second of these `segments` has in common with the first. It isn't looked up if neither keys nor an initialisation
    /// section are in force before these: then most segments have none.
    #[inline(always)]
    pub fn in_common_after_next(&self, segments: &StitchedItems<'_>) -> InCommon
        ensures { SecondHasInCommon result segments.now }
    {
        if self.keys.is_empty() && self.init_section.is_none() {
            return InCommon::nothing();
        }
        segments.second_in_common()
    }

    /// What is in force once `keys` are, in place of others.
    #[inline(always)]
    pub fn under(&self, keys: KeysRef<'a>) -> InForce<'a>
        ensures { result ≡ record self.now { keys = keys.entry } }
    {
        InForce {
            keys,
            init_section: self.init_section,
        }
    }

    /// What is in force after `segment`: its keys, and its initialisation section if it has one.
    #[inline(always)]
    pub fn after(&self, segment: &SegmentRef<'a>) -> InForce<'a>
        ensures { result ≡ record { keys = segment.now.keys; init_section = or_earlier segment.now.init_section self.now.init_section } }
    {
        let own = segment.init_section();
        InForce {
            keys: segment.keys(),
            init_section: if own.is_some() {
                own
            } else {
                self.init_section
            },
        }
    }
}
