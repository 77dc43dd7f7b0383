ghost use Rattle.std.specs.Prelude.{◌≡◌, ℕ, ◌+◌, ◌*◌, ◌^◌, ◌<◌, ◌≤◌, IfSome, min, Some, length, slice_get};
ghost use Rattle.pol_bitmap.specs.Nodes.{bits_of};
ghost use Rattle.pol_bitmap.specs.Sets.{IsSet};
ghost use Rattle.set_products.specs.Members.{product_of, products_of, product_at, members_of, members, AreNumbers, HasNumbers};
ghost use Rattle.set_products.specs.Standing.{members_before, IsAt, StandsAt, NextGives, RowGives, HasRestOf};

use crate::counted_sets::CountedSets;
use crate::entry::{Entry, Place, Single};
use crate::found::{bit_after, bits_from, nth_bit};
use crate::row::Row;
use pol_bitmap::Set;
use std::marker::Model;

/// The members of entries: entry by entry, each source with each target, the sources rising, and for each of them the targets
/// rising. Contracts see the entries, each with the bits of its two sets.
///
/// A place stands for the number of members before it, from 0 to `count`.
#[derive(Drop)]
pub struct Places<'a> {
    entries: &'a [Entry],
    sets: &'a CountedSets,
    count: u128,
}

impl<'a> Model for Places<'a> {
    ghost use Rattle.std.specs.Prelude.{◌≡◌, List, length};
    ghost use Rattle.set_products.specs.Members.{Product, products_of, members, AreNumbers};

    ghost Value = { List Product };

    ghost view = { λ p. products_of p.entries.now p.sets.now };

    ghost invariant = { λ p. AreNumbers p.entries.now p.sets.now × (p.count ≡ length (members (products_of p.entries.now p.sets.now))) };
}

impl<'a> Places<'a> {
    /// The members of entries of these sets. Each of the entries is looked at once, and no set is gone through.
    pub fn new(entries: &'a [Entry], sets: &'a CountedSets) -> Places<'a>
        requires { AreNumbers entries.now sets.now }
        ensures { result ≡ products_of entries.now sets.now }
    {
        let mut count: u128 = 0;
        for entry in entries {
            count += size_of(*entry, sets);
        }
        Places {
            entries,
            sets,
            count,
        }
    }

    /// The place before the first member, which is the end where there is none.
    pub fn first(&self) -> Place
        ensures { StandsAt self.now result 0 }
    {
        self.past(0, 0)
    }

    /// The member at a place, and the place after it. `None` at the end.
    ///
    /// A place comes from `first`, `skip`, `next` or `row` of these entries. Within an entry a step looks for one bit of one set.
    pub fn next(&self, at: Place) -> Option<(Single, Place)>
        requires { (k : ℕ) × StandsAt self.now at k }
        ensures { (k : ℕ) → StandsAt self.now at k → NextGives self.now k result }
    {
        if at.entry >= self.entries.len() {
            return None;
        }
        let entry = self.entries[at.entry];
        let single = Single {
            rule: entry.rule,
            source: at.source,
            target: at.target,
        };
        Some((single, self.after(at)))
    }

    /// The members that are left of the source of a place, and the place after them. `None` at the end.
    pub fn row(&self, at: Place) -> Option<(Row<'a>, Place)>
        requires { (k : ℕ) × StandsAt self.now at k }
        ensures gives { (k : ℕ) → StandsAt self.now at k → RowGives self.now k result }
        ensures whole { IfSome result (λ step. HasRestOf self.now at step.0) }
    {
        if at.entry >= self.entries.len() {
            return None;
        }
        let row = Row {
            rule: self.entries[at.entry].rule,
            source: at.source,
            targets: bits_from(self.targets(at.entry), at.target),
        };
        Some((row, self.after_source(at.entry, at.source)))
    }

    /// The place after the first `n` members, or the end where there are no more than these.
    ///
    /// Entries are passed by the counts of their two sets. Within an entry the bits of its two sets are gone through, and not its
    /// members.
    pub fn skip(&self, n: u64) -> Place
        ensures { StandsAt self.now result (min n (length (members self.now))) }
    {
        self.past(0, n)
    }

    /// The number of members.
    pub fn count(&self) -> u128
        ensures { result ≡ length (members self.now) }
    {
        self.count
    }

    // The sources of an entry.
    fn sources(&self, entry: usize) -> &'a Set
        requires { entry < length self.now }
        ensures form { IsSet result.now }
        ensures bits { bits_of result.now ≡ (product_at self.now entry).sources }
    {
        self.sets.get(self.entries[entry].sources)
    }

    // The targets of an entry.
    fn targets(&self, entry: usize) -> &'a Set
        requires { entry < length self.now }
        ensures form { IsSet result.now }
        ensures bits { bits_of result.now ≡ (product_at self.now entry).targets }
    {
        self.sets.get(self.entries[entry].targets)
    }

    // The number of targets of an entry.
    fn width(&self, entry: usize) -> u64
        requires { entry < length self.now }
        ensures { result ≡ length (product_at self.now entry).targets }
    {
        self.sets.count_of(self.entries[entry].targets)
    }

    // The place after the one of a member.
    fn after(&self, at: Place) -> Place
        requires { (k : ℕ) × IsAt self.now at k }
        ensures { (k : ℕ) → IsAt self.now at k → StandsAt self.now result (k + 1) }
    {
        match bit_after(self.targets(at.entry), at.target) {
            Some(target) => Place {
                entry: at.entry,
                source: at.source,
                target,
            },
            None => self.after_source(at.entry, at.source),
        }
    }

    // The place after the members of an entry up to all those of a source.
    fn after_source(&self, entry: usize, source: u32) -> Place
        requires within { entry < length self.now }
        requires target { 0 < length (product_at self.now entry).targets }
        ensures { (i : ℕ) → slice_get (product_at self.now entry).sources i ≡ Some source → StandsAt self.now result (members_before self.now entry + (i + 1) * length (product_at self.now entry).targets) }
    {
        // the next entry's number fits, as there are no more than memory has room for
        let _ = &self.entries;
        match bit_after(self.sources(entry), source) {
            Some(source) => Place {
                entry,
                source,
                target: nth_bit(self.targets(entry), 0),
            },
            None => self.past(entry + 1, 0),
        }
    }

    // The place after the first `n` members of the entries from one on, or the end.
    fn past(&self, from: usize, n: u64) -> Place
        requires { from ≤ length self.now }
        ensures { StandsAt self.now result (min (members_before self.now from + n) (length (members self.now))) }
    {
        let mut left = n;
        for entry in from..self.entries.len() {
            let size = size_of(self.entries[entry], self.sets);
            if u128::from(left) < size {
                return self.place_in(entry, left);
            }
            left -= size as u64;
        }
        Place {
            entry: self.entries.len(),
            source: 0,
            target: 0,
        }
    }

    // The place after the first `n` members of an entry that has more.
    fn place_in(&self, entry: usize, n: u64) -> Place
        requires within { entry < length self.now }
        requires more { n < length (members_of (product_at self.now entry)) }
        ensures { IsAt self.now result (members_before self.now entry + n) }
    {
        let width = self.width(entry);
        Place {
            entry,
            source: nth_bit(self.sources(entry), n / width),
            target: nth_bit(self.targets(entry), n % width),
        }
    }
}

// The number of members of an entry.
fn size_of(entry: Entry, sets: &CountedSets) -> u128
    requires { HasNumbers sets.now entry }
    ensures size { result ≡ length (members_of (product_of sets.now entry)) }
    ensures bound { result ≤ 2 ^ 64 }
{
    let sources = sets.count_of(entry.sources);
    let targets = sets.count_of(entry.targets);
    u128::from(sources) * u128::from(targets)
}
