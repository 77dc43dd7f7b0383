//! Lists of places, one behind the other in one vector.

ghost use Rattle.std.specs.Prelude.{◌≡◌, ◌<◌, ◌^◌, ◌∷◌, ◌++◌, [], OnOk, Some, length, drop, slice_get};
ghost use Rattle.pol_conditionals.specs.Inner.PlaceGroups.{places_of};

use pol_avtab::Av;
use pol_cursor::NestedRecords;
use std::alloc::{AllocError, Global};
use std::marker::Model;

// Where a list begins in the vector, and how long it is.
#[derive(Clone, Copy)]
struct Span {
    first: usize,
    len: u32,
}

/// Lists of places, one behind the other in one vector. Contracts see the list of them.
pub struct PlaceGroups {
    places: Vec<u32>,
    spans: Vec<Span>,
}

// Its parts go in one call, wherever it is dropped.
impl Drop for PlaceGroups {
    fn drop(self) {
        let PlaceGroups { places, spans } = self;
    }
}

impl Model for PlaceGroups {
    ghost use Rattle.std.specs.Prelude.{ℕ, List};
    ghost use Rattle.pol_conditionals.specs.Inner.PlaceGroups.{groups_of, AreWithin};

    ghost Value = { List (List ℕ) };

    ghost view = { λ g. groups_of g.places.items g.spans.items };

    ghost invariant = { λ g. AreWithin g.places.items g.spans.items };
}

impl PlaceGroups {
    /// No list.
    pub fn new(alloc: Global) -> PlaceGroups
        ensures { result ≡ [] }
    {
        let (places, spans) = (Vec::new(alloc), Vec::new(alloc));
        PlaceGroups { places, spans }
    }

    /// The list of that number, from 0 on.
    #[tactic(auto, using(crate::proofs::Groups::group_within))]
    pub fn group(&self, i: u32) -> &[u32]
        requires { i < length self.now }
        ensures is { slice_get self.now i ≡ Some result.now }
        ensures short { length result.now < 2 ^ 32 }
    {
        let span = self.spans[i as usize];
        &self.places[span.first..span.first + span.len as usize]
    }

    /// Adds the list of the places of rules.
    pub fn push(&mut self, rules: NestedRecords<'_, Av>) -> Result<(), AllocError>
        ensures { OnOk result (self.new ≡ self.old ++ places_of rules.entry ∷ []) }
    {
        let first = self.places.len();
        let len = rules.len();
        push_places(&mut self.places, rules)?;
        self.spans.push(Span { first, len })?;
        Ok(())
    }
}

// Appends the places of rules. Out of memory, a front of them may be there.
fn push_places(places: &mut Vec<u32>, rules: NestedRecords<'_, Av>) -> Result<(), AllocError>
    ensures ok { OnOk result (places.new.items ≡ places.old.items ++ places_of rules.entry) }
    ensures kept { places.new.items ≡ places.old.items ++ drop (length places.old.items) places.new.items }
{
    for rule in rules {
        places.push(rule.place())?;
    }
    Ok(())
}
