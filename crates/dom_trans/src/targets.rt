// The types that a type may change to.
ghost use Rattle.std.specs.Prelude.{◌≡◌, ℕ, ◌+◌, ◌≤◌, ◌||◌, ◌<◌, IfOk, OnOk, false, length, slice_index, take};
ghost use Rattle.std.specs.List.{All, Contains, list_any};
ghost use Rattle.std.specs.List.Sorted.{IsPermutation, IsSortedByKey};
ghost use Rattle.std.specs.Option.{option_cmp};
ghost use Rattle.std.specs.Ordering.{nat_cmp};
ghost use Rattle.pol_bitmap.specs.Nodes.{bits_of};
ghost use Rattle.value_groups.specs.Among.{is_among};
ghost use Rattle.dom_trans.specs.Inner.Targets.{AreEntered, AreTargets, AreTypeValues, HaveDefaultOf, default_set_by, enters_by, starts_at_point};
ghost use Rattle.rule_grants.specs.Names.{setexec, setcurrent};
ghost use Rattle.dom_trans.specs.DefaultRules.{default_rules};
ghost use Rattle.dom_trans.specs.Inner.RuleLists.{IsSourceOf};

use crate::default_domains::default_in;
use crate::dom_rules::DomRules;
use crate::grant::Grant;
use pol_bitmap::Set;
use pol_expand::is_type;
use std::alloc::{AllocError, Global};
use value_groups::DenseSet;

/// What a type may do, whatever the other domain is.
#[derive(Drop)]
pub struct Source {
    /// The types that it may execute.
    pub executable: Set,
    /// Whether it may ask for another domain.
    pub setexec: bool,
    /// Whether it may change its own.
    pub setcurrent: bool,
}

impl<'p> DomRules<'p> {
    /// What a type may do.
    pub fn source(&self, alloc: Global, a: u32) -> Result<Source, AllocError>
        ensures { IfOk result (λ source. IsSourceOf self.now a source.executable source.setexec source.setcurrent) }
    {
        Ok(Source {
            executable: self.list(Grant::Execute).targets_of(alloc, a)?,
            setexec: self.may_ask(alloc, a)?,
            setcurrent: self.may_change(alloc, a)?,
        })
    }

    // The types that have an entry from a type, of which this is known.
    fn entered(&self, alloc: Global, a: u32, source: &Source) -> Result<Set, AllocError>
        requires { IsSourceOf self.now a source.now.executable source.now.setexec source.now.setcurrent }
        ensures { IfOk result (λ set. AreEntered self.now a (bits_of set)) }
    {
        if !source.setexec {
            return self.entered_by_default(alloc, a, source);
        }
        self.list(Grant::Entrypoint)
            .sources_of_any(alloc, &source.executable)
    }

    // The types that are the default domain of a process that a type starts from one of their entry points.
    fn entered_by_default(&self, alloc: Global, a: u32, source: &Source) -> Result<Set, AllocError>
        requires source { IsSourceOf self.now a source.now.executable source.now.setexec source.now.setcurrent }
        requires without { source.now.setexec ≡ false }
        ensures { IfOk result (λ set. AreEntered self.now a (bits_of set)) }
    {
        let mut numbers = self.list(Grant::Default).rules_from(alloc, a)?;
        self.sort_by_default(&mut numbers)?;
        let mut found = DenseSet::new(alloc, self.policy().type_count() as usize + 1)?;
        let mut left = numbers.as_slice();
        while !left.is_empty() {
            let (alike, rest) = left.split_at(self.count_alike(left));
            self.add_default(alloc, alike, &source.executable, &mut found)?;
            left = rest;
        }
        found.to_set(alloc)
    }

    // Puts rules of the same default together.
    fn sort_by_default(&self, numbers: &mut Vec<u32>) -> Result<(), AllocError>
        ensures same { IsPermutation numbers.old.items numbers.new.items }
        ensures rise { OnOk result (IsSortedByKey (default_set_by self.now.policy) (option_cmp nat_cmp) numbers.new.items) }
    {
        numbers.sort_by_cached_key(|number| self.default_of(*number))
    }

    // How many of the rules, from the first on, have the default of the first.
    fn count_alike(&self, numbers: &[u32]) -> usize
        requires { 1 ≤ length numbers.now }
        ensures some { 1 ≤ result }
        ensures most { result ≤ length numbers.now }
        ensures alike { HaveDefaultOf self.now.policy (slice_index numbers.now 0) (take result numbers.now) }
        ensures longest { result < length numbers.now → ¬ (default_set_by self.now.policy (slice_index numbers.now result) ≡ default_set_by self.now.policy (slice_index numbers.now 0)) }
    {
        let first = self.default_of(numbers[0]);
        for place in 1..numbers.len() {
            if self.default_of(numbers[place]) != first {
                return place;
            }
        }
        numbers.len()
    }

    // The default of the rule of a number, if it has one.
    fn default_of(&self, number: u32) -> Option<u32>
        ensures { result ≡ default_set_by self.now.policy number }
    {
        if number >= self.policy().rule_count() {
            return None;
        }
        default_in(&self.policy().rule(number))
    }

    // Adds the default that some rules have, where they start it from one of its entry points among some types.
    fn add_default(
        &self,
        alloc: Global,
        numbers: &[u32],
        executable: &Set,
        found: &mut DenseSet,
    ) -> Result<(), AllocError>
        requires some { 1 ≤ length numbers.now }
        requires rules { All (Contains (default_rules self.now)) numbers.now }
        requires alike { HaveDefaultOf self.now.policy (slice_index numbers.now 0) numbers.now }
        requires within { AreTypeValues self.now.policy (bits_of executable.now) }
        requires count { found.old.count ≡ self.now.policy.symbols.types.nprim + 1 }
        ensures count { found.new.count ≡ found.old.count }
        ensures each { OnOk result ((b : ℕ) → is_among found.new.values b ≡ (is_among found.old.values b || list_any (enters_by self.now (bits_of executable.now) b) numbers.now)) }
    {
        let Some(b) = self.default_of(numbers[0]) else {
            return Ok(());
        };
        if !is_type(self.policy(), b) {
            return Ok(());
        }
        if self.start_at_point(alloc, numbers, b, executable)? {
            found.add(b);
        }
        Ok(())
    }

    // Whether some rules start a process from one of some types that is an entry point of a domain.
    fn start_at_point(
        &self,
        alloc: Global,
        numbers: &[u32],
        b: u32,
        types: &Set,
    ) -> Result<bool, AllocError>
        requires rules { All (Contains (default_rules self.now)) numbers.now }
        requires within { AreTypeValues self.now.policy (bits_of types.now) }
        ensures { IfOk result (λ holds. holds ≡ list_any (starts_at_point self.now (bits_of types.now) b) numbers.now) }
    {
        let starts = self.list(Grant::Default).targets_of_rules(alloc, numbers)?;
        let entries = starts.common(alloc, types)?;
        let points = self.points(alloc, b)?;
        Ok(entries.meets(&points))
    }

    /// The types that a type, of which this is known, may change to, itself among them where it may.
    pub fn targets(&self, alloc: Global, a: u32, source: &Source) -> Result<Set, AllocError>
        requires { IsSourceOf self.now a source.now.executable source.now.setexec source.now.setcurrent }
        ensures { IfOk result (λ set. AreTargets self.now a (bits_of set)) }
    {
        let entered = self.entered(alloc, a, source)?;
        let allowed = self.list(Grant::Transition).targets_of(alloc, a)?;
        let standard = allowed.common(alloc, &entered)?;
        if !source.setcurrent {
            return Ok(standard);
        }
        let dynamic = self.list(Grant::Dyntransition).targets_of(alloc, a)?;
        standard.union(alloc, &dynamic)
    }
}
