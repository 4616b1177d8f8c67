//! The least of the places that are taken in, as many as an array has room for.

ghost use Rattle.std.specs.Prelude.{◌≡◌, ◌<◌, ◌≤◌, AllPairs, length, false};
ghost use Rattle.rbac_subjects.specs.Least.{IsPast, Takes, most_kept, no_places};

use arrayvec::ArrayVec;
use std::marker::Model;

/// The most places that are kept, and so the most runs that `first_runs` returns.
pub const MOST_KEPT: usize = 256;

/// The least of the places that were taken in, ascending, each once.
#[derive(Drop)]
pub(crate) struct LeastPlaces {
    kept: ArrayVec<usize, MOST_KEPT>,
    // Whether no other places were taken in.
    are_all: bool,
}

impl Model for LeastPlaces {
    ghost use Rattle.std.specs.Prelude.{◌≡◌, ◌<◌, AllPairs, length, false};
    ghost use Rattle.rbac_subjects.specs.Least.{LeastView, most_kept};

    ghost Value = { LeastView };

    ghost view = { λ l. record { kept = l.kept.items; are_all = l.are_all } };

    ghost invariant = { λ l. AllPairs (λ a b. a < b) l.kept.items
        × (l.are_all ≡ false → length l.kept.items ≡ most_kept) };
}

impl LeastPlaces {
    // No places. Doesn't allocate.
    pub(crate) fn new() -> Self
        ensures { result ≡ no_places }
    {
        LeastPlaces {
            kept: ArrayVec::new(),
            are_all: true,
        }
    }

    // Takes in a place. If there is no room left, the greatest place is dropped. Returns false if
    // that is this place: it comes after all kept places, and so does each later place.
    pub(crate) fn take_in(&mut self, place: usize) -> bool
        ensures takes { Takes (λ other. other ≡ place) self.old self.new }
        ensures past { result ≡ false → IsPast self.new place }
    {
        let Err(at) = self.kept.as_slice().binary_search(&place) else {
            return true;
        };
        if self.kept.len() < MOST_KEPT {
            self.kept.insert(at, place);
            return true;
        }
        self.are_all = false;
        if at == MOST_KEPT {
            return false;
        }
        self.kept.pop();
        self.kept.insert(at, place);
        true
    }

    // The places that are kept.
    pub(crate) fn kept(&self) -> &[usize]
        ensures places { result.now ≡ self.now.kept }
        ensures ascending { AllPairs (λ a b. a < b) self.now.kept }
        ensures few { length self.now.kept ≤ most_kept }
        ensures full { self.now.are_all ≡ false → length self.now.kept ≡ most_kept }
    {
        self.kept.as_slice()
    }

    // Whether no other places were taken in.
    pub(crate) fn are_all(&self) -> bool
        ensures { result ≡ self.now.are_all }
    {
        self.are_all
    }
}
