// Chosen rules by the types that they join.
ghost use Rattle.std.specs.Prelude.{◌≡◌, ◌+◌, ◌<◌, ◌^◌, ◌||◌, ℕ, true, IfOk, OnOk, length};
ghost use Rattle.std.specs.List.{All, Contains, filter, list_any, range_with_len};
ghost use Rattle.std.specs.List.Sorted.{IsPermutation};
ghost use Rattle.pol_bitmap.specs.Nodes.{bits_of};
ghost use Rattle.pol_expand.specs.PolicyMap.{IsPolicyMap};
ghost use Rattle.rule_order.specs.ListedOrder.{AreRules};
ghost use Rattle.value_groups.specs.Among.{is_among};
ghost use Rattle.rules_between.specs.ChosenRules.{begins_at, rules_between, sources_to_any, common_sources, AreRulesFrom, targets_of_rules};
ghost use Rattle.pol_expand.specs.JoinedTypes.{is_between_types, joins, any_joins, targets_from, sources_to};
ghost use Rattle.rules_between.specs.Inner.RuleTables.{AreEndsOf, AreTargetsOf, HaveEnds, any_at, joins_through, shares_at, shares_through};
ghost use Rattle.pol_expand.specs.Inner.StoredEnds.{IsEnd};

use crate::rule_table::{RuleTable, gathered_rules};
use crate::rules_with_ends::RulesWithEnds;
use crate::table_search::{found_rules, has_rule, other_ends, place_count, rules_with};
use pol_bitmap::Set;
use pol_expand::{TypeMap, ends_holding, is_type, types_of, values_in};
use pol_read::Policy;
use rule_order::{rules_have_one_order, sort_by_rule_order};
use std::alloc::{AllocError, Global};
use std::marker::Model;
use value_groups::{DenseSet, Marked};

// What looking up one pair of types takes, in rules that are gone through.
const LOOK_UP: u64 = 8;

/// Rules of a policy that were chosen, found by the types that their ends expand to. Contracts see the policy and the numbers of
/// the rules.
///
/// The rules stand by their stored sources and by their stored targets. The stored ends that hold a type are the type itself and
/// the attributes of its row in the policy's map of types, so that the rules of a type are found without looking at others.
pub struct ChosenRules<'p> {
    policy: &'p Policy<'p>,
    types: &'p TypeMap,
    table: RuleTable,
}

// Its parts go in one call, wherever it is dropped.
impl Drop for ChosenRules<'_> {
    fn drop(self) {
        let ChosenRules {
            policy,
            types,
            table,
        } = self;
    }
}

impl<'p> Model for ChosenRules<'p> {
    ghost use Rattle.rules_between.specs.ChosenRules.{ChosenRules};
    ghost use Rattle.rules_between.specs.Inner.RuleTables.{IsTableOf};
    ghost use Rattle.pol_expand.specs.PolicyMap.{IsPolicyMap};

    ghost Value = { ChosenRules };

    ghost view = { λ r. record { policy = r.policy.now; rules = r.table.rules.items } };

    ghost invariant = { λ r. IsPolicyMap r.policy.now r.types.now × IsTableOf r.policy.now r.table.rules.items r.table.sources.items r.table.targets.items r.table.by_source r.table.by_target };
}

impl<'p> ChosenRules<'p> {
    /// The rules of these numbers, with the map of the policy's types. The ends of each rule are types and attributes.
    pub fn build(
        alloc: Global,
        policy: &'p Policy<'p>,
        types: &'p TypeMap,
        numbers: Vec<u32>,
    ) -> Result<ChosenRules<'p>, AllocError>
        requires map { IsPolicyMap policy.now types.now }
        requires rules { All (λ number. is_between_types policy.now number ≡ true) numbers.items }
        requires few { length numbers.items < 2 ^ 32 }
        ensures { IfOk result (λ ends. ends ≡ record { policy = policy.now; rules = numbers.items }) }
    {
        let gathered = gathered_rules(alloc, policy, &numbers)?;
        ChosenRules::of_gathered(alloc, policy, types, gathered)
    }

    /// The rules that were gathered with their ends, of the policy.
    pub fn of_gathered(
        alloc: Global,
        policy: &'p Policy<'p>,
        types: &'p TypeMap,
        gathered: RulesWithEnds,
    ) -> Result<ChosenRules<'p>, AllocError>
        requires map { IsPolicyMap policy.now types.now }
        requires ends { AreEndsOf policy.now gathered.rules.items gathered.sources.items gathered.targets.items }
        requires few { length gathered.rules.items < 2 ^ 32 }
        ensures { IfOk result (λ ends. ends ≡ record { policy = policy.now; rules = gathered.rules.items }) }
    {
        let table = RuleTable::of_gathered(alloc, policy, gathered)?;
        Ok(ChosenRules {
            policy,
            types,
            table,
        })
    }

    /// The rules among them whose source expands to the one type, and whose target to the other, in the order in which rules are
    /// listed.
    pub fn between(&self, alloc: Global, source: u32, target: u32) -> Result<Vec<u32>, AllocError>
        ensures found { IfOk result (λ found. found.items ≡ rules_between self.now.policy self.now.rules source target) }
        ensures rules { IfOk result (λ found. AreRules self.now.policy found.items) }
    {
        rules_have_one_order(self.policy);
        let found = self.joining(alloc, source, target)?;
        sort_by_rule_order(alloc, self.policy, &found)
    }

    // The rules that join two types in no order of their own, found from the end that has fewer rules.
    fn joining(&self, alloc: Global, source: u32, target: u32) -> Result<Vec<u32>, AllocError>
        ensures { IfOk result (λ found. IsPermutation found.items (filter (joins self.now.policy source target) self.now.rules)) }
    {
        let table = &self.table;
        let from = ends_holding(alloc, self.policy, &table.by_source, source)?;
        let to = ends_holding(alloc, self.policy, &table.by_target, target)?;
        let begin = place_count(&table.by_source, from.values());
        let end = place_count(&table.by_target, to.values());
        if begin <= end {
            found_rules(
                alloc,
                &table.rules,
                &table.targets,
                &table.by_source,
                from.values(),
                &to,
            )
        } else {
            found_rules(
                alloc,
                &table.rules,
                &table.sources,
                &table.by_target,
                to.values(),
                &from,
            )
        }
    }

    /// Whether there is such a rule.
    pub fn has_between(&self, alloc: Global, source: u32, target: u32) -> Result<bool, AllocError>
        ensures { IfOk result (λ found. found ≡ any_joins self.now.policy self.now.rules source target) }
    {
        let table = &self.table;
        let from = ends_holding(alloc, self.policy, &table.by_source, source)?;
        let to = ends_holding(alloc, self.policy, &table.by_target, target)?;
        let begin = place_count(&table.by_source, from.values());
        let end = place_count(&table.by_target, to.values());
        if begin <= end {
            Ok(has_rule(&table.targets, &table.by_source, from.values(), &to))
        } else {
            Ok(has_rule(&table.sources, &table.by_target, to.values(), &from))
        }
    }

    /// The types that the targets of the rules expand to whose source expands to a type.
    pub fn targets_of(&self, alloc: Global, source: u32) -> Result<Set, AllocError>
        ensures { IfOk result (λ set. bits_of set ≡ targets_from self.now.policy self.now.rules source) }
    {
        let table = &self.table;
        let from = ends_holding(alloc, self.policy, &table.by_source, source)?;
        let count = self.policy.type_count() as usize + 1;
        let ends = other_ends(
            alloc,
            &table.targets,
            &table.by_source,
            from.values(),
            count,
        )?;
        types_of(alloc, self.policy, self.types, ends.values())
    }

    /// The types that the sources of the rules expand to whose target expands to a type.
    pub fn sources_of(&self, alloc: Global, target: u32) -> Result<Set, AllocError>
        ensures { IfOk result (λ set. bits_of set ≡ sources_to self.now.policy self.now.rules target) }
    {
        let table = &self.table;
        let to = ends_holding(alloc, self.policy, &table.by_target, target)?;
        let count = self.policy.type_count() as usize + 1;
        let ends = other_ends(alloc, &table.sources, &table.by_target, to.values(), count)?;
        types_of(alloc, self.policy, self.types, ends.values())
    }

    /// The types that the sources of the rules expand to whose target expands to one of some types.
    pub fn sources_of_any(&self, alloc: Global, targets: &Set) -> Result<Set, AllocError>
        ensures { IfOk result (λ set. bits_of set ≡ sources_to_any self.now.policy self.now.rules (bits_of targets.now)) }
    {
        let touching = self.types.touching(alloc, targets)?;
        let to = values_in(alloc, &touching)?;
        let table = &self.table;
        let count = self.policy.type_count() as usize + 1;
        let ends = other_ends(alloc, &table.sources, &table.by_target, &to, count)?;
        types_of(alloc, self.policy, self.types, ends.values())
    }

    /// The rules among them whose source expands to a type, in no order of their own.
    pub fn rules_from(&self, alloc: Global, source: u32) -> Result<Vec<u32>, AllocError>
        ensures { IfOk result (λ found. AreRulesFrom self.now.policy self.now.rules source found.items) }
    {
        let table = &self.table;
        let from = ends_holding(alloc, self.policy, &table.by_source, source)?;
        rules_with(alloc, &table.rules, &table.by_source, from.values())
    }

    /// How many of the rules have a source that expands to a type.
    pub fn rule_count_from(&self, alloc: Global, source: u32) -> Result<usize, AllocError>
        ensures { IfOk result (λ count. count ≡ length (filter (begins_at self.now.policy source) self.now.rules)) }
    {
        let table = &self.table;
        let from = ends_holding(alloc, self.policy, &table.by_source, source)?;
        Ok(place_count(&table.by_source, from.values()))
    }

    /// Of some types, the ones that the rules join a type to. Looks each up where they are few beside the rules of the type, and else
    /// goes through these rules.
    pub fn targets_among(&self, alloc: Global, source: u32, among: &Set) -> Result<Set, AllocError>
        ensures { IfOk result (λ set. bits_of set ≡ filter (any_joins self.now.policy self.now.rules source) (bits_of among.now)) }
    {
        let rules = self.rule_count_from(alloc, source)?;
        if among.count().saturating_mul(LOOK_UP) <= rules as u64 {
            self.looked_up(alloc, source, among)
        } else {
            self.found_among(alloc, source, among)
        }
    }

    // Of some types, the ones that the rules join a type to, each asked for.
    fn looked_up(&self, alloc: Global, source: u32, among: &Set) -> Result<Set, AllocError>
        ensures { IfOk result (λ set. bits_of set ≡ filter (any_joins self.now.policy self.now.rules source) (bits_of among.now)) }
    {
        // the clause of the nodes says that the bits rise
        let _ = among.nodes();
        let mut found = Vec::new(alloc);
        for target in among.bits() {
            if self.has_between(alloc, source, target)? {
                found.push(target)?;
            }
        }
        Set::from_rising(alloc, &found)
    }

    // Of some types, the ones that the rules join a type to, by way of all types that they join it to.
    fn found_among(&self, alloc: Global, source: u32, among: &Set) -> Result<Set, AllocError>
        ensures { IfOk result (λ set. bits_of set ≡ filter (any_joins self.now.policy self.now.rules source) (bits_of among.now)) }
    {
        self.have_ends();
        // the clause of the nodes says that the bits rise
        let _ = among.nodes();
        let targets = self.targets_of(alloc, source)?;
        targets.common(alloc, among)
    }

    /// The types that the targets of some of the rules expand to.
    pub fn targets_of_rules(&self, alloc: Global, numbers: &[u32]) -> Result<Set, AllocError>
        requires { All (Contains self.now.rules) numbers.now }
        ensures { IfOk result (λ set. bits_of set ≡ targets_of_rules self.now.policy numbers.now) }
    {
        let ends = self.target_ends(alloc, numbers)?;
        types_of(alloc, self.policy, self.types, ends.values())
    }

    // The targets of some of the rules, as they are stored.
    fn target_ends(&self, alloc: Global, numbers: &[u32]) -> Result<Marked, AllocError>
        requires { All (Contains self.now.rules) numbers.now }
        ensures { IfOk result (λ ends. AreTargetsOf self.now.policy numbers.now ends.values) }
    {
        let mut ends = Marked::new(alloc, self.policy.type_count() as usize + 1)?;
        for number in numbers {
            ends.add(self.policy.rule_ends(*number).target)?;
        }
        Ok(ends)
    }
}

// What rules and others join to one and the same target.
impl<'p> ChosenRules<'p> {
    /// The types that these rules and others join to one and the same of some types. Each stored target is looked at once, with all
    /// rules that have it.
    pub fn common_sources(
        &self,
        alloc: Global,
        others: &ChosenRules<'p>,
        targets: &Set,
    ) -> Result<Set, AllocError>
        requires { others.now.policy ≡ self.now.policy }
        ensures { IfOk result (λ set. bits_of set ≡ common_sources self.now.policy self.now.rules others.now.rules (bits_of targets.now)) }
    {
        self.have_ends();
        others.have_ends();
        let touching = self.types.touching(alloc, targets)?;
        let ends = values_in(alloc, &touching)?;
        self.sources_by_ends(alloc, others, &ends, targets)
    }

    // A law: the ends of the rules are types and attributes.
    fn have_ends(&self)
        ensures { HaveEnds self.now.policy self.now.rules }
    {
        let _ = &self.table;
    }

    // The types that have a rule with one of some stored targets, and one of the others that meets it there.
    fn sources_by_ends(
        &self,
        alloc: Global,
        others: &ChosenRules<'p>,
        ends: &[u32],
        targets: &Set,
    ) -> Result<Set, AllocError>
        requires policy { others.now.policy ≡ self.now.policy }
        requires ends { All (IsEnd self.now.policy) ends.now }
        ensures { IfOk result (λ set. bits_of set ≡ filter (λ source. list_any (λ end. shares_at self.now.policy self.now.rules others.now.rules (bits_of targets.now) end source) ends.now) (range_with_len 1 self.now.policy.symbols.types.nprim)) }
    {
        self.have_ends();
        others.have_ends();
        let mut found = DenseSet::new(alloc, self.policy.type_count() as usize + 1)?;
        for end in ends {
            self.add_sources(alloc, others, *end, targets, &mut found)?;
        }
        found.to_set(alloc)
    }

    // Adds those that have a rule with a stored target. Where it is an attribute, the rules of the one list that have it meet all rules
    // of the other; where it is a type, only those that have it too, since those of attributes meet all rules on their part.
    fn add_sources(
        &self,
        alloc: Global,
        others: &ChosenRules<'p>,
        end: u32,
        targets: &Set,
        found: &mut DenseSet,
    ) -> Result<(), AllocError>
        requires policy { others.now.policy ≡ self.now.policy }
        requires end { IsEnd self.now.policy end }
        requires count { found.old.count ≡ self.now.policy.symbols.types.nprim + 1 }
        ensures count { found.new.count ≡ found.old.count }
        ensures each { OnOk result ((source : ℕ) → is_among found.new.values source ≡ (is_among found.old.values source || shares_at self.now.policy self.now.rules others.now.rules (bits_of targets.now) end source)) }
    {
        self.add_sources_through(alloc, others, end, targets, found)?;
        if is_type(self.policy, end) {
            return Ok(());
        }
        others.add_sources_through(alloc, self, end, targets, found)?;
        Ok(())
    }

    // Adds those that these rules join to a stored target, and the others to what it expands to.
    fn add_sources_through(
        &self,
        alloc: Global,
        others: &ChosenRules<'p>,
        end: u32,
        targets: &Set,
        found: &mut DenseSet,
    ) -> Result<(), AllocError>
        requires policy { others.now.policy ≡ self.now.policy }
        requires end { IsEnd self.now.policy end }
        requires count { found.old.count ≡ self.now.policy.symbols.types.nprim + 1 }
        ensures count { found.new.count ≡ found.old.count }
        ensures each { OnOk result ((source : ℕ) → is_among found.new.values source ≡ (is_among found.old.values source || shares_through self.now.policy self.now.rules others.now.rules (bits_of targets.now) end source)) }
    {
        self.have_ends();
        let own = self.sources_at(alloc, end)?;
        if own.nodes().is_empty() {
            return Ok(());
        }
        let theirs = others.sources_through(alloc, end, targets)?;
        let both = own.common(alloc, &theirs)?;
        found.add_set(&both);
        Ok(())
    }

    // The types that the rules join to those of some types that an end expands to, as far as a type is the stored target itself.
    fn sources_through(&self, alloc: Global, end: u32, targets: &Set) -> Result<Set, AllocError>
        requires { IsEnd self.now.policy end }
        ensures { IfOk result (λ set. bits_of set ≡ filter (joins_through self.now.policy self.now.rules (bits_of targets.now) end) (range_with_len 1 self.now.policy.symbols.types.nprim)) }
    {
        if is_type(self.policy, end) {
            return self.sources_at(alloc, end);
        }
        let members = types_of(alloc, self.policy, self.types, &[end])?;
        let among = members.common(alloc, targets)?;
        self.sources_of_any(alloc, &among)
    }

    // The types that the sources of the rules with a stored target expand to.
    fn sources_at(&self, alloc: Global, end: u32) -> Result<Set, AllocError>
        requires { IsEnd self.now.policy end }
        ensures { IfOk result (λ set. bits_of set ≡ filter (any_at self.now.policy self.now.rules end) (range_with_len 1 self.now.policy.symbols.types.nprim)) }
    {
        let table = &self.table;
        if table.by_target.places(end).is_empty() {
            return Set::empty(alloc);
        }
        let count = self.policy.type_count() as usize + 1;
        let ends = other_ends(alloc, &table.sources, &table.by_target, &[end], count)?;
        types_of(alloc, self.policy, self.types, ends.values())
    }
}
