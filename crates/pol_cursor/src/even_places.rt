//! The places of records that are all as long, one behind the other.

ghost use Rattle.std.specs.Prelude.{◌≡◌, ◌<◌, ◌+◌, ◌*◌, ◌^◌, [], Some, length, slice_get};
ghost use Rattle.pol_cursor.specs.Inner.EvenPlaces.{even_places};

use std::marker::Model;

/// Places that lie as far apart, each from the one before it. Contracts see the list of them.
#[derive(Drop)]
pub(crate) struct EvenPlaces {
    first: u32,
    step: u32,
    count: u32,
}

impl Model for EvenPlaces {
    ghost use Rattle.std.specs.Prelude.{ℕ, List, ◌<◌, ◌+◌, ◌*◌, ◌^◌};
    ghost use Rattle.pol_cursor.specs.Inner.EvenPlaces.{even_places};

    ghost Value = { List ℕ };

    ghost view = { λ p. even_places p.step p.first p.count };

    ghost invariant = { λ p. p.first + p.count * p.step < 2 ^ 32 };
}

impl EvenPlaces {
    /// None.
    #[tactic(auto, unfolding(crate::specs::Inner::EvenPlaces::even_places))]
    pub(crate) fn none() -> EvenPlaces
        ensures { result ≡ [] }
    {
        EvenPlaces::new(0, 0, 0)
    }

    /// So many from a first one on.
    pub(crate) fn new(first: u32, step: u32, count: u32) -> EvenPlaces
        requires { first + count * step < 2 ^ 32 }
        ensures { result ≡ even_places step first count }
    {
        EvenPlaces { first, step, count }
    }

    /// How many there are.
    #[inline(always)]
    #[tactic(auto, using(crate::proofs::EvenPlaces::even_length))]
    pub(crate) fn len(&self) -> u32
        ensures { result ≡ length self.now }
    {
        self.count
    }

    /// The place of that number, from 0 on.
    #[inline(always)]
    #[tactic(auto, using(crate::proofs::EvenPlaces::even_length, crate::proofs::EvenPlaces::even_at, crate::proofs::EvenPlaces::even_small))]
    pub(crate) fn at(&self, i: u32) -> u32
        requires { i < length self.now }
        ensures { slice_get self.now i ≡ Some result }
    {
        self.first + i * self.step
    }
}
