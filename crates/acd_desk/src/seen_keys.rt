//! The keys that a replay has seen, recorded in the same memory however many they are.

ghost use Rattle.std.specs.Prelude.{◌≡◌};
ghost use Rattle.acd_terms.specs.declared.command.Request.{Request as Asked};
ghost use Rattle.acd_desk.specs.Contents.KeyPlaces.{place_of, place_from, is_seen_key, IsSeenKey};

use acd_terms::Request;
use std::alloc::{AllocError, Global};

// How many places there are.
const PLACES: usize = 2_097_152;

/// The places of keys. Other keys may have the place of a key, but a key whose place wasn't seen is new.
#[derive(Drop)]
pub(crate) struct SeenKeys {
    pub(crate) places: Vec<bool>,
}

impl SeenKeys {
    /// No key was seen.
    pub(crate) fn none(alloc: Global) -> Result<SeenKeys, AllocError> {
        let places = vec![in alloc; false; PLACES]?;
        Ok(SeenKeys { places })
    }

    /// Whether the place of the request's key was seen.
    #[tactic(auto, using(crate::proofs::Replays::PlaceLemmas::seen_within, crate::proofs::Replays::PlaceLemmas::seen_past))]
    pub(crate) fn has(&self, request: &Request) -> bool
        ensures { result ≡ is_seen_key self.now request.now }
    {
        let place = place_of(request);
        if place < self.places.len() {
            self.places[place]
        } else {
            true
        }
    }

    /// Records the place of the request's key as seen.
    #[tactic(auto, using(crate::proofs::Replays::PlaceLemmas::seen_itself, crate::proofs::Replays::PlaceLemmas::seen_other, crate::proofs::Replays::PlaceLemmas::seen_past))]
    pub(crate) fn insert(&mut self, request: &Request)
        ensures itself { IsSeenKey self.new request.now }
        ensures others { (other : Asked) → IsSeenKey self.old other → IsSeenKey self.new other }
    {
        let place = place_of(request);
        if place < self.places.len() {
            self.places[place] = true;
        }
    }
}

// The place of a request's key.
#[tactic(auto, unfolding(crate::specs::Contents::KeyPlaces::place_of))]
fn place_of(request: &Request) -> usize
    ensures { result ≡ place_of request.now }
{
    place_from(request.invoke.number(), request.requester.as_bytes())
}

// The characters go on from a number as its digits, and the lowest of all are kept.
fn place_from(start: u32, characters: &[u8]) -> usize
    ensures { result ≡ place_from start characters.now }
{
    let mut place = start as usize;
    for byte in characters {
        place = (place * 33 + usize::from(*byte)) % PLACES;
    }
    place
}
