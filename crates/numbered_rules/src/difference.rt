//! A difference between two lists of rules.

ghost use Rattle.std.specs.Prelude.{◌≡◌, ◌==◌};
ghost use Rattle.std.specs.Cmp.Lexicographic.{pointwise};
ghost use Rattle.pol_bitmap.specs.Nodes.{bits_of};
ghost use Rattle.keyed_lists.specs.Differences.{is_difference};
ghost use Rattle.numbered_rules.specs.NumberedRules.{same_given};

use crate::key::SingleKey;
use pol_bitmap::Set;
use std::marker::Model;

/// What two lists of rules give differently at a key. Contracts see the entries of both, where these are some.
#[derive(Drop)]
pub struct SingleDifference {
    pub key: SingleKey,
    /// What counts in the first list, if it has an entry.
    pub first: Option<Set>,
    /// What counts in the second list, if it has an entry.
    pub second: Option<Set>,
}

impl Model for SingleDifference {
    ghost use Rattle.std.specs.Prelude.{option_map};
    ghost use Rattle.keyed_lists.specs.Differences.{Both};
    ghost use Rattle.pol_bitmap.specs.Nodes.{bits_of};
    ghost use Rattle.numbered_rules.specs.NumberedRules.{SingleEntry};

    ghost Value = { Both SingleEntry };

    ghost view = { λ d. record { first = option_map (λ set. record { key = d.key; given = bits_of set }) d.first; second = option_map (λ set. record { key = d.key; given = bits_of set }) d.second } };
}

impl SingleDifference {
    /// Whether the two are not the same.
    pub(crate) fn differs(&self) -> bool
        ensures { result ≡ is_difference same_given self.now }
    {
        match (&self.first, &self.second) {
            (None, None) => false,
            (Some(first), Some(second)) => !same_bits(first, second),
            _ => true,
        }
    }
}

// Whether two sets are the same.
#[tactic(auto, using(crate::proofs::SetFacts::sets_tested))]
fn same_bits(first: &Set, second: &Set) -> bool
    ensures { result ≡ pointwise ◌==◌ (bits_of first.now) (bits_of second.now) }
{
    let _first = first.nodes();
    let _second = second.nodes();
    first == second
}
