//! What the differences of any two lists promise.

ghost use Rattle.std.specs.Prelude.{◌≡◌, [], Bool, true, List, map};
ghost use Rattle.keyed_lists.specs.KeyOrder.{IsKeyOrder};
ghost use Rattle.keyed_lists.specs.Differences.{AreAlike, differences, entry_after, entry_with, turned};

/// A list does not differ from itself, whatever its entries are compared by.
#[tactic(auto, using(crate::proofs::DifferenceLaws::none_from_itself))]
pub fn a_list_does_not_differ_from_itself<K: Ord, E>()
    ensures { (key_of : E → K) (same : E → E → Bool) → ((e : E) → same e e ≡ true) → (entries : List E) → differences K.cmp key_of same entries entries ≡ [] }
{}

/// The differences from the second list to the first are those from the first to the second, turned round.
#[tactic(auto, using(crate::proofs::DifferenceLaws::differences_turned))]
pub fn differences_turn_round<K: Ord, E>()
    ensures { IsKeyOrder K.cmp → (key_of : E → K) (same : E → E → Bool) → ((a b : E) → same a b ≡ same b a) → (first second : List E) → differences K.cmp key_of same second first ≡ map turned (differences K.cmp key_of same first second) }
{}

/// The first list, after the differences, has what the second has: of each key the same entry, or none.
#[tactic(auto, using(crate::proofs::DifferenceLaws::completed))]
pub fn differences_are_complete<K: Ord, E>()
    ensures { IsKeyOrder K.cmp → (key_of : E → K) (same : E → E → Bool) → ((e : E) → same e e ≡ true) → (first second : List E) (key : K) → AreAlike same (entry_after K.cmp key_of (differences K.cmp key_of same first second) first key) (entry_with K.cmp key_of second key) }
{}
