// The entries from a type to a domain.
ghost use Rattle.std.specs.Prelude.{◌≡◌, IfOk, true};
ghost use Rattle.std.specs.List.{filter};
ghost use Rattle.pol_bitmap.specs.Nodes.{bits_of};
ghost use Rattle.rule_order.specs.ListedOrder.{AreRules};
ghost use Rattle.rules_between.specs.ChosenRules.{begins_at};
ghost use Rattle.pol_expand.specs.PlainTypes.{is_type_value};
ghost use Rattle.dom_trans.specs.Inner.Targets.{starts_to};
ghost use Rattle.dom_trans.specs.DefaultRules.{has_default};
ghost use Rattle.dom_trans.specs.Transitions.{entries, defaults_between};
ghost use Rattle.dom_trans.specs.Inner.EntryPoints.{AreDefaultsFrom, default_points, executable_points};

use crate::default_domains::has_default;
use crate::dom_rules::DomRules;
use crate::grant::Grant;
use pol_bitmap::Set;
use pol_cursor::{NumberList, OwnedList};
use rules_between::rule_begins_at;
use std::alloc::{AllocError, Global};

impl<'p> DomRules<'p> {
    // Of some rules, the ones whose default is that type.
    fn with_default(&self, alloc: Global, b: u32, numbers: &[u32]) -> Result<Vec<u32>, AllocError>
        requires { AreRules self.now.policy numbers.now }
        ensures { IfOk result (λ found. found.items ≡ filter (has_default self.now.policy b) numbers.now) }
    {
        let mut found = Vec::new(alloc);
        for number in numbers {
            if has_default(b, &self.policy().rule(*number)) {
                found.push(*number)?;
            }
        }
        Ok(found)
    }

    // Of some rules, the ones whose source expands to a type.
    fn beginning_at(&self, alloc: Global, a: u32, numbers: &[u32]) -> Result<Vec<u32>, AllocError>
        requires { AreRules self.now.policy numbers.now }
        ensures { IfOk result (λ found. found.items ≡ filter (begins_at self.now.policy a) numbers.now) }
    {
        let mut found = Vec::new(alloc);
        for number in numbers {
            if rule_begins_at(self.policy(), *number, a) {
                found.push(*number)?;
            }
        }
        Ok(found)
    }

    // The rules that say that the one type is the default domain of a process that the other starts from an entry type.
    pub(crate) fn defaults_between(
        &self,
        alloc: Global,
        a: u32,
        b: u32,
        entry: u32,
    ) -> Result<NumberList, AllocError>
        ensures { IfOk result (λ found. found ≡ defaults_between self.now a b entry) }
    {
        let numbers = self.list(Grant::Default).between(alloc, a, entry)?;
        let found = self.with_default(alloc, b, &numbers)?;
        Ok(OwnedList::from_vec(found))
    }

    // The rules that say so, whatever the entry type is, among the rules of the one type or of the other, whichever are fewer.
    fn defaults_from(&self, alloc: Global, a: u32, b: u32) -> Result<Vec<u32>, AllocError>
        requires { is_type_value self.now.policy b ≡ true }
        ensures { IfOk result (λ found. AreDefaultsFrom self.now a b found.items) }
    {
        let rules = self.list(Grant::Default);
        if rules.rule_count_from(alloc, a)? <= self.defaults.count_to(b) {
            let numbers = rules.rules_from(alloc, a)?;
            self.with_default(alloc, b, &numbers)
        } else {
            let numbers = self.defaults.rules_to(alloc, b)?;
            self.beginning_at(alloc, a, &numbers)
        }
    }

    // The types from which a process that the one type starts has the other as its default domain.
    fn starts_to(&self, alloc: Global, a: u32, b: u32) -> Result<Set, AllocError>
        requires { is_type_value self.now.policy b ≡ true }
        ensures { IfOk result (λ starts. bits_of starts ≡ starts_to self.now a b) }
    {
        let found = self.defaults_from(alloc, a, b)?;
        self.list(Grant::Default).targets_of_rules(alloc, &found)
    }

    // The entry points of a domain that a type may execute, found from the one of the two that has fewer rules.
    fn executable_points(&self, alloc: Global, a: u32, b: u32) -> Result<Set, AllocError>
        ensures { IfOk result (λ points. bits_of points ≡ executable_points self.now a b) }
    {
        let execute = self.list(Grant::Execute);
        let entrypoint = self.list(Grant::Entrypoint);
        if entrypoint.rule_count_from(alloc, b)? <= execute.rule_count_from(alloc, a)? {
            let points = entrypoint.targets_of(alloc, b)?;
            execute.targets_among(alloc, a, &points)
        } else {
            let executable = execute.targets_of(alloc, a)?;
            entrypoint.targets_among(alloc, b, &executable)
        }
    }

    // The entry points that a type may execute, from which a process that it starts has the domain by default.
    fn default_points(&self, alloc: Global, a: u32, b: u32) -> Result<Set, AllocError>
        requires { is_type_value self.now.policy b ≡ true }
        ensures { IfOk result (λ points. bits_of points ≡ default_points self.now a b) }
    {
        let starts = self.starts_to(alloc, a, b)?;
        let executable = self.list(Grant::Execute).targets_among(alloc, a, &starts)?;
        self.list(Grant::Entrypoint)
            .targets_among(alloc, b, &executable)
    }

    // The entries from a type to a domain, rising.
    pub(crate) fn entries(&self, alloc: Global, a: u32, b: u32) -> Result<Vec<u32>, AllocError>
        requires { is_type_value self.now.policy b ≡ true }
        ensures { IfOk result (λ found. found.items ≡ entries self.now a b) }
    {
        if self.may_ask(alloc, a)? {
            let points = self.executable_points(alloc, a, b)?;
            return values_in(alloc, &points);
        }
        let entries = self.default_points(alloc, a, b)?;
        values_in(alloc, &entries)
    }
}

// The values of a set, rising.
fn values_in(alloc: Global, set: &Set) -> Result<Vec<u32>, AllocError>
    ensures { IfOk result (λ values. values.items ≡ bits_of set.now) }
{
    set.bits().collect(alloc)
}
