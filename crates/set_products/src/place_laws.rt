//! What is true of all places.

ghost use Rattle.std.specs.Prelude.{◌≡◌, ℕ, Option, List, drop};
ghost use Rattle.pol_bitmap.specs.declared.Node.{Node};
ghost use Rattle.set_products.specs.declared.entry.Entry.{Entry};
ghost use Rattle.set_products.specs.declared.entry.Place.{Place};
ghost use Rattle.set_products.specs.declared.entry.Single.{Single};
ghost use Rattle.set_products.specs.Members.{Product, products_of, members, single_rules, AreOfRules};
ghost use Rattle.set_products.specs.Standing.{StandsAt, IsNext, IsListing};

/// From a place on, step after step, `next` gives exactly the members that are left, in order: from the first place all of them.
pub fn steps_give_all_members()
    ensures all { (ps : List Product) (next : Place → Option (Single × Place)) (first : Place) → IsNext ps next → StandsAt ps first 0 → IsListing next first (members ps) }
    ensures left { (ps : List Product) (next : Place → Option (Single × Place)) (at : Place) (k : ℕ) (seen : List Single) → IsNext ps next → StandsAt ps at k → IsListing next at seen → seen ≡ drop k (members ps) }
{}

/// Where the entries are one a rule, in the order of the rules, each with the whole expansions of its rule, the members are all
/// single rules.
pub fn members_are_single_rules()
    ensures { (entries : List Entry) (sets : List (List Node)) (expansions : List (List ℕ × List ℕ)) → AreOfRules entries sets expansions → members (products_of entries sets) ≡ single_rules expansions }
{}
