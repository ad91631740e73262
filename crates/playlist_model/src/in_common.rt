//! What a segment has in common with the one before it (RFC 8216, sections 4.3.2.4 and 4.3.2.5): which keys, and whether the
//! initialisation section. So the bytes of a long key are compared once a tag, and not once a segment.
ghost use Rattle.std.specs.Prelude.{◌≡◌, ◌==◌, ◌+◌, ◌<◌, ◌≤◌, ◌&&◌, ℕ, List, Option, None, true, false, cond, is_some};
ghost use Rattle.playlist_model.specs.declared.Key.{Key};
ghost use Rattle.playlist_model.specs.declared.InitSection.{InitSection};
ghost use Rattle.playlist_model.specs.Segments.{Segment};
ghost use Rattle.playlist_model.specs.Same.{kept_parts};
ghost use Rattle.playlist_model.specs.InCommon.{AreAlike, AreSameAt, HaveInCommon, IsInCommon, all_places, both_places, init_section_keys, is_place_of, no_places, nothing_in_common};

/// Places of keys in a list, from 0: a bit for each, the lowest for the first. At most 16 keys are in force together.
#[derive(Clone, Copy)]
pub struct KeyPlaces {
    /// The bits.
    pub bits: u16,
}

impl KeyPlaces {
    /// No place.
    pub fn none() -> KeyPlaces
        ensures value { result ≡ no_places }
        ensures same { (one other : List Key) → AreSameAt result one other }
    {
        KeyPlaces { bits: 0 }
    }

    /// Each of 16 places.
    pub fn all() -> KeyPlaces
        ensures value { result ≡ all_places }
    {
        KeyPlaces { bits: u16::MAX }
    }

    #[tactic(auto, using(std::proofs::lemmas::Nat::Bits::bit_at_lowest))]
    /// Whether the first place is one of them.
    #[inline(always)]
    pub fn holds_first(self) -> bool
        ensures { result ≡ is_place_of self 0 }
    {
        self.bits % 2 == 1
    }

    /// Those after the first place, each counted from 0 again.
    #[inline(always)]
    pub fn later(self) -> KeyPlaces
        ensures { (place : ℕ) → is_place_of result place ≡ is_place_of self (place + 1) }
    {
        KeyPlaces {
            bits: self.bits / 2,
        }
    }

    /// Those that are among `other` too.
    #[inline(always)]
    pub fn both(self, other: KeyPlaces) -> KeyPlaces
        ensures value { result ≡ both_places self other }
        ensures places { (place : ℕ) → is_place_of result place ≡ true
            → (is_place_of self place ≡ true) × (is_place_of other place ≡ true) }
        ensures none { self.bits ≡ 0 → result.bits ≡ 0 }
    {
        KeyPlaces {
            bits: self.bits & other.bits,
        }
    }

    /// Each of 16 places except `place`.
    pub fn all_except(place: usize) -> KeyPlaces
        ensures except { (other : ℕ) → is_place_of result other ≡ true → (other == place) ≡ false }
        ensures others { (other : ℕ) → other < 16 → (other == place) ≡ false
            → is_place_of result other ≡ true }
        ensures all { 16 ≤ place → result ≡ all_places }
    {
        if place >= 16 {
            return KeyPlaces::all();
        }
        KeyPlaces {
            bits: u16::MAX & !(1 << place),
        }
    }
}

/// What a segment has in common with the one before it.
#[derive(Clone, Copy)]
pub struct InCommon {
    /// The places at which both have the same key, but for its initialisation vector.
    pub keys: KeyPlaces,
    /// Whether its initialisation section, if it has one, is that of the segment before.
    pub init_section: bool,
    /// The places at which it and its own initialisation section have the same key, but for its initialisation vector.
    pub own_keys: KeyPlaces,
    /// The places at which the initialisation sections of both have the same key, but for its initialisation vector.
    pub init_section_keys: KeyPlaces,
}

impl InCommon {
    /// Nothing, or nothing that is known.
    pub fn nothing() -> InCommon
        ensures value { result ≡ nothing_in_common }
        ensures alike { (one other : Segment) → AreAlike result one other }
        ensures common { (keys now_keys : List Key) → (init_section now_section : Option InitSection)
            → IsInCommon result keys init_section now_keys now_section }
    {
        InCommon {
            keys: KeyPlaces::none(),
            init_section: false,
            own_keys: KeyPlaces::none(),
            init_section_keys: KeyPlaces::none(),
        }
    }

    /// What two segments have in common if no tag stands between them that changes their keys or their initialisation section.
    /// `own_keys` are the places at which the keys are those of that section, if the segment `has_init_section`.
    pub fn whole(own_keys: KeyPlaces, has_init_section: bool) -> InCommon
        ensures value { result ≡ record {
          keys = all_places;
          init_section = true;
          own_keys = own_keys;
          init_section_keys = cond has_init_section all_places no_places;
        } }
        ensures common { (keys : List Key) → (init_section : Option InitSection)
            → has_init_section ≡ is_some init_section
            → AreSameAt own_keys keys (init_section_keys init_section)
            → IsInCommon result keys init_section keys init_section }
    {
        InCommon {
            keys: KeyPlaces::all(),
            init_section: true,
            own_keys,
            init_section_keys: if has_init_section {
                KeyPlaces::all()
            } else {
                KeyPlaces::none()
            },
        }
    }

    /// What two segments have in common of which each follows one of two segments that are the same. `self` is what the one has
    /// in common with the segment before it, and `other` is the same of the other one.
    pub fn after_same(self, other: InCommon) -> InCommon
        ensures value { result ≡ record {
          keys = both_places self.keys other.keys;
          init_section = self.init_section && other.init_section;
          own_keys = no_places;
          init_section_keys = both_places self.init_section_keys other.init_section_keys;
        } }
        ensures alike { (before now before_other now_other : Segment) → kept_parts before ≡ kept_parts before_other
            → HaveInCommon self before now → HaveInCommon other before_other now_other → AreAlike result now now_other }
    {
        InCommon {
            keys: self.keys.both(other.keys),
            init_section: self.init_section && other.init_section,
            own_keys: KeyPlaces::none(),
            init_section_keys: self.init_section_keys.both(other.init_section_keys),
        }
    }

    /// The same with other keys, which at the places `same` are those of now.
    pub fn with_keys(self, same: KeyPlaces) -> InCommon
        ensures value { result ≡ record self {
          keys = both_places self.keys same;
          own_keys = both_places self.own_keys same;
        } }
        ensures common { (before now keys : List Key) → (last init_section : Option InitSection)
            → AreSameAt same now keys
            → IsInCommon self before last now init_section
            → IsInCommon result before last keys init_section }
        ensures own { (now keys : List Key) → (init_section : Option InitSection)
            → AreSameAt same now keys
            → AreSameAt self.own_keys now (init_section_keys init_section)
            → AreSameAt result.own_keys keys (init_section_keys init_section) }
    {
        InCommon {
            keys: self.keys.both(same),
            init_section: self.init_section,
            own_keys: self.own_keys.both(same),
            init_section_keys: self.init_section_keys,
        }
    }

    /// The same with another initialisation section, whose keys at the places `same` are those of now. At the places `last` the
    /// keys of before were those of the initialisation section of before, if there was one.
    pub fn with_init_section(self, last: KeyPlaces, same: KeyPlaces) -> InCommon
        ensures value { result ≡ record self {
          init_section = false;
          own_keys = same;
          init_section_keys = both_places (both_places last self.keys) same;
        } }
        ensures common { (before now : List Key) → (last_section old init_section : Option InitSection)
            → AreSameAt last before (init_section_keys last_section)
            → (last_section ≡ None → last.bits ≡ 0)
            → AreSameAt same now (init_section_keys init_section)
            → IsInCommon self before last_section now old
            → IsInCommon result before last_section now init_section }
        ensures own { result.own_keys ≡ same }
    {
        InCommon {
            keys: self.keys,
            init_section: false,
            own_keys: same,
            init_section_keys: last.both(self.keys).both(same),
        }
    }
}
