//! The order of constraints.

ghost use Rattle.std.specs.Prelude.{◌≡◌, map};
ghost use Rattle.std.proofs.Common.{rules};
ghost use Rattle.std.specs.Cmp.{partial_equiv_from_equiv, partial_order_from_own_ties, partial_order_from_total};
ghost use Rattle.std.proofs.lemmas.Cmp.{eq_by_cmp_equiv};
ghost use Rattle.std.specs.Cmp.Lexicographic.{slice_cmp};
ghost use Rattle.std.specs.Cmp.Rules.{comparing};
ghost use Rattle.std.specs.Ordering.{as_partial_cmp, eq_by_cmp, on, then_cmp};
ghost use Rattle.diff_entries.specs.Entries.{key_cmp, name_cmp};
ghost use Rattle.diff_constraints.specs.StatedConstraints.{constraint_key_cmp, stated_cmp, stated_total};

use crate::stated::Stated;
use diff_entries::NameSet;
use std::cmp::Ordering;
use std::marker::Model;

/// A constraint as one that is compared: by its key, its line and its sets. Contracts see the constraint.
#[derive(Drop)]
pub(crate) struct Compared<'s, 'a> {
    stated: &'s Stated<'a>,
}

impl<'s, 'a> Model for Compared<'s, 'a> {
    ghost use Rattle.diff_constraints.specs.StatedConstraints.{Stated};

    ghost Value = { Stated };

    ghost view = { λ c. c.stated.now };
}

impl<'s, 'a> PartialEq for Compared<'s, 'a> {
    ghost eq = { eq_by_cmp stated_cmp };

    ghost laws = { partial_equiv_from_equiv (eq_by_cmp_equiv stated_total) };

    fn eq(&self, other: &Compared<'s, 'a>) -> bool {
        self.cmp(other).is_eq()
    }
}

impl<'s, 'a> Eq for Compared<'s, 'a> {
    ghost laws = { eq_by_cmp_equiv stated_total };
}

impl<'s, 'a> Ord for Compared<'s, 'a> {
    ghost cmp = { stated_cmp };

    ghost total = { stated_total };

    ghost matches_partial_cmp = { Prim.search (comparing, rules) };

    ghost matches_eq = { Prim.search (comparing, rules) };

    fn cmp(&self, other: &Compared<'s, 'a>) -> Ordering {
        match compare_keys(self.stated, other.stated) {
            Ordering::Equal => compare_fillings(self.stated, other.stated),
            order => order,
        }
    }
}

impl<'s, 'a> PartialOrd for Compared<'s, 'a> {
    ghost partial_cmp = { as_partial_cmp stated_cmp };

    ghost laws = { partial_order_from_own_ties (partial_order_from_total stated_total) (Prim.search (comparing, rules)) };

    fn partial_cmp(&self, other: &Compared<'s, 'a>) -> Option<Ordering> {
        Some(self.cmp(other))
    }
}

impl<'s, 'a> Compared<'s, 'a> {
    /// A constraint as one that is compared.
    pub(crate) fn new(stated: &'s Stated<'a>) -> Compared<'s, 'a>
        ensures { result ≡ stated.now }
    {
        Compared { stated }
    }
}

/// Compares constraints by their keys.
pub(crate) fn compare_keys(stated: &Stated<'_>, other: &Stated<'_>) -> Ordering
    ensures { result ≡ constraint_key_cmp stated.now other.now }
{
    stated
        .class
        .cmp(other.class)
        .then(stated.permissions.cmp(&other.permissions))
        .then(stated.skeleton.cmp(&other.skeleton))
}

// Compares constraints by their lines, and then by their sets.
fn compare_fillings(stated: &Stated<'_>, other: &Stated<'_>) -> Ordering
    ensures { result ≡ then_cmp (on (λ s. s.line) name_cmp) (on (λ s. s.sets) (slice_cmp key_cmp)) stated.now other.now }
{
    match stated.line.cmp(&other.line) {
        Ordering::Equal => compare_sets(&stated.sets, &other.sets),
        order => order,
    }
}

// Compares lists of sets.
fn compare_sets(sets: &[NameSet<'_>], others: &[NameSet<'_>]) -> Ordering
    ensures { result ≡ slice_cmp key_cmp sets.now others.now }
{
    for i in 0..sets.len().min(others.len()) {
        let order = compare_names(sets[i].names(), others[i].names());
        if !order.is_eq() {
            return order;
        }
    }
    sets.len().cmp(&others.len())
}

// Compares lists of names.
#[tactic(auto, using(crate::proofs::StatedOrder::compared_by_bytes))]
fn compare_names(names: &[&[u8]], others: &[&[u8]]) -> Ordering
    ensures { result ≡ key_cmp (map (λ name. name.now) names.now) (map (λ name. name.now) others.now) }
{
    names.cmp(others)
}
