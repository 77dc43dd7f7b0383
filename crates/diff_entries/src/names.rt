//! Sets of names that are compared.

ghost use Rattle.std.specs.Prelude.{◌≡◌, ◌==◌, IfOk, map};
ghost use Rattle.std.specs.Cmp.Lexicographic.{pointwise};
ghost use Rattle.std.proofs.Common.{rules};
ghost use Rattle.std.specs.Cmp.{partial_order_from_own_ties};
ghost use Rattle.std.specs.Cmp.Rules.{comparing};
ghost use Rattle.std.specs.Ordering.{as_partial_cmp, eq_by_cmp, nat_cmp};
ghost use Rattle.std.specs.Cmp.Lexicographic.{slice_cmp};
ghost use Rattle.std.proofs.lemmas.Cmp.{eq_by_cmp_equiv, nat_list_cmp_total};
ghost use Rattle.diff_entries.specs.Parts.{same_names};

use std::alloc::{AllocError, Global};
use std::cmp::Ordering;
use std::marker::Model;

/// A name that stands in a policy, compared by its bytes. Contracts see the list of them.
#[derive(Drop)]
pub struct Name<'a> {
    bytes: &'a [u8],
}

impl<'a> Model for Name<'a> {
    ghost use Rattle.std.specs.Prelude.{ℕ, List};

    ghost Value = { List ℕ };

    ghost view = { λ name. name.bytes.now };
}

impl<'a> PartialEq for Name<'a> {
    ghost eq = { eq_by_cmp (slice_cmp nat_cmp) };

    ghost laws = { Prim.search (comparing, rules) };

    fn eq(&self, other: &Name<'a>) -> bool {
        self.cmp(other).is_eq()
    }
}

impl<'a> Eq for Name<'a> {
    ghost laws = { eq_by_cmp_equiv nat_list_cmp_total };
}

impl<'a> Ord for Name<'a> {
    ghost cmp = { slice_cmp nat_cmp };

    ghost total = { nat_list_cmp_total };

    ghost matches_partial_cmp = { Prim.search (comparing, rules) };

    ghost matches_eq = { Prim.search (comparing, rules) };

    fn cmp(&self, other: &Name<'a>) -> Ordering {
        self.bytes.cmp(other.bytes)
    }
}

impl<'a> PartialOrd for Name<'a> {
    ghost partial_cmp = { as_partial_cmp (slice_cmp nat_cmp) };

    ghost laws = { partial_order_from_own_ties (Prim.search (comparing, rules)) (Prim.search (comparing, rules)) };

    fn partial_cmp(&self, other: &Name<'a>) -> Option<Ordering> {
        Some(self.cmp(other))
    }
}

impl<'a> Name<'a> {
    /// The name of these bytes.
    pub fn new(bytes: &'a [u8]) -> Name<'a>
        ensures { result ≡ bytes.now }
    {
        Name { bytes }
    }

    /// Its bytes.
    pub fn bytes(&self) -> &'a [u8]
        ensures { result.now ≡ self.now }
    {
        self.bytes
    }
}

/// A set of names, in the order in which they are given. Contracts see the list of them.
#[derive(Drop)]
pub struct NameSet<'a> {
    names: Vec<&'a [u8]>,
}

impl<'a> Model for NameSet<'a> {
    ghost use Rattle.std.specs.Prelude.{ℕ, List, map};

    ghost Value = { List (List ℕ) };

    ghost view = { λ set. map (λ name. name.now) set.names.items };
}

impl<'a> NameSet<'a> {
    /// The set of these names.
    pub fn new(names: Vec<&'a [u8]>) -> NameSet<'a>
        ensures { result ≡ map (λ name. name.now) names.entry.items }
    {
        NameSet { names }
    }

    /// The names.
    pub fn names(&self) -> &[&'a [u8]]
        ensures { map (λ name. name.now) result.now ≡ self.now }
    {
        &self.names
    }

    /// Whether two sets have the same names in the same order.
    pub fn is_same(&self, other: &NameSet<'_>) -> bool
        ensures { result ≡ same_names self.now other.now }
    {
        are_same(&self.names, &other.names)
    }

    /// The names, each as one that is compared.
    pub fn to_names(&self, alloc: Global) -> Result<Vec<Name<'a>>, AllocError>
        ensures { IfOk result (λ names. names.items ≡ self.now) }
    {
        named(alloc, &self.names)
    }
}

// Whether two lists have the same names.
#[tactic(auto, using(crate::proofs::SameNames::same_by_bytes))]
fn are_same(names: &[&[u8]], others: &[&[u8]]) -> bool
    ensures { result ≡ same_names (map (λ name. name.now) names.now) (map (λ name. name.now) others.now) }
{
    names == others
}

// Names, each as one that is compared.
fn named<'a>(alloc: Global, names: &[&'a [u8]]) -> Result<Vec<Name<'a>>, AllocError>
    ensures { IfOk result (λ all. all.items ≡ map (λ name. name.now) names.now) }
{
    names.iter().map(|name| Name::new(*name)).collect(alloc)
}
