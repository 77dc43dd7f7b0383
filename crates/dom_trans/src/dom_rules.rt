// The rules of a policy that count and that transitions rest on.
ghost use Rattle.std.specs.Prelude.{◌≡◌, ◌+◌, ◌++◌, ◌≤◌, ◌<◌, ◌^◌, [], ◌∷◌, IfOk, OnOk, length, map};
ghost use Rattle.pol_bitmap.specs.Nodes.{bits_of};
ghost use Rattle.pol_expand.specs.PolicyMap.{IsPolicyMap};
ghost use Rattle.pol_read.specs.StoredRules.{stored_rules};
ghost use Rattle.pol_expand.specs.JoinedTypes.{targets_from};
ghost use Rattle.rules_between.specs.Inner.RuleTables.{AreEndsOf};
ghost use Rattle.rule_grants.specs.Grants.{granting_rules, grants};
ghost use Rattle.rule_grants.specs.Names.{process, setexec, setcurrent, file, entrypoint};
ghost use Rattle.dom_trans.specs.DefaultRules.{default_rules};
ghost use Rattle.dom_trans.specs.Inner.Keeping.{AreKept, wanted_in};
ghost use Rattle.dom_trans.specs.Inner.RuleLists.{chosen, rule_lists, rules_of};

use crate::by_default::RulesByDefault;
use crate::grant::Grant;
use crate::keeping::{Kept, kept_rules};
use counted_rules::CountedRules;
use pol_bitmap::Set;
use pol_expand::TypeMap;
use pol_read::Policy;
use rules_between::{ChosenRules, RulesWithEnds};
use std::alloc::{AllocError, Global};
use std::marker::Model;

/// The rules of a policy that transitions rest on, by what they grant. Contracts see which rules count.
#[derive(Drop)]
pub struct DomRules<'p> {
    // The rules that count.
    pub(crate) rules: CountedRules<'p>,
    pub(crate) types: &'p TypeMap,
    // One for each grant, in their order.
    pub(crate) lists: Vec<ChosenRules<'p>>,
    // The rules of the last list.
    pub(crate) defaults: RulesByDefault<'p>,
}

impl<'p> Model for DomRules<'p> {
    ghost use Rattle.std.specs.Prelude.{◌≡◌};
    ghost use Rattle.std.specs.Coded.{codes};
    ghost use Rattle.bool_state.specs.BooleanStates.{values_code};
    ghost use Rattle.counted_rules.specs.CountedRules.{Counted};
    ghost use Rattle.pol_expand.specs.PolicyMap.{IsPolicyMap};
    ghost use Rattle.dom_trans.specs.DefaultRules.{default_rules};
    ghost use Rattle.dom_trans.specs.Inner.RuleLists.{HaveTypeEnds, chosen, rule_lists};

    ghost Value = { Counted };

    ghost coded = { Prim.hlevel (codes, values_code) };

    ghost view = { λ r. r.rules };

    ghost invariant = { λ r. (r.lists.items ≡ rule_lists r.rules) × IsPolicyMap r.rules.policy r.types.now × (r.defaults ≡ chosen r.rules.policy (default_rules r.rules)) × HaveTypeEnds r.rules.policy (default_rules r.rules) };
}

impl<'p> DomRules<'p> {
    /// Goes through the rules of a policy once.
    pub fn new(
        alloc: Global,
        rules: CountedRules<'p>,
        types: &'p TypeMap,
    ) -> Result<DomRules<'p>, AllocError>
        requires { IsPolicyMap rules.policy types.now }
        ensures { IfOk result (λ found. found ≡ rules.entry) }
    {
        let kept = kept_rules(alloc, &rules)?;
        let numbers = copied(alloc, &kept.defaults.rules)?;
        let defaults = RulesByDefault::of_rules(alloc, rules.policy(), numbers)?;
        let lists = lists_of(alloc, &rules, types, kept)?;
        Ok(DomRules {
            rules,
            types,
            lists,
            defaults,
        })
    }

    /// The policy.
    pub fn policy(&self) -> &'p Policy<'p>
        ensures { result.now ≡ self.now.policy }
    {
        self.rules.policy()
    }

    // The rules of a grant.
    pub(crate) fn list(&self, grant: Grant) -> &ChosenRules<'p>
        ensures { result.now ≡ chosen self.now.policy (rules_of self.now grant) }
    {
        &self.lists[grant.place()]
    }

    // Whether a type may ask for another domain.
    pub(crate) fn may_ask(&self, alloc: Global, a: u32) -> Result<bool, AllocError>
        ensures { IfOk result (λ holds. holds ≡ grants self.now a a process setexec) }
    {
        self.list(Grant::Setexec).has_between(alloc, a, a)
    }

    // Whether it may change its own.
    pub(crate) fn may_change(&self, alloc: Global, a: u32) -> Result<bool, AllocError>
        ensures { IfOk result (λ holds. holds ≡ grants self.now a a process setcurrent) }
    {
        self.list(Grant::Setcurrent).has_between(alloc, a, a)
    }

    // The types that are entry points of a domain.
    pub(crate) fn points(&self, alloc: Global, b: u32) -> Result<Set, AllocError>
        ensures { IfOk result (λ points. bits_of points ≡ targets_from self.now.policy (granting_rules self.now file entrypoint) b) }
    {
        self.list(Grant::Entrypoint).targets_of(alloc, b)
    }
}

// A copy of numbers.
fn copied(alloc: Global, numbers: &[u32]) -> Result<Vec<u32>, AllocError>
    ensures { IfOk result (λ copy. copy.items ≡ numbers.now) }
{
    let mut copy = Vec::with_capacity(alloc, numbers.len())?;
    copy.extend_from_slice(numbers)?;
    Ok(copy)
}

// The rules of each grant, in their order.
fn lists_of<'p>(
    alloc: Global,
    rules: &CountedRules<'p>,
    types: &'p TypeMap,
    kept: Kept,
) -> Result<Vec<ChosenRules<'p>>, AllocError>
    requires map { IsPolicyMap rules.now.policy types.now }
    requires kept { AreKept rules.now (wanted_in rules.now.policy.symbols) (length (stored_rules rules.now.policy)) kept }
    requires few { length (stored_rules rules.now.policy) ≤ 400000000 }
    ensures { IfOk result (λ lists. lists.items ≡ rule_lists rules.now) }
{
    let mut lists = Vec::with_capacity(alloc, 7)?;
    push_ends(&mut lists, rules, types, kept.transition)?;
    push_ends(&mut lists, rules, types, kept.dyntransition)?;
    push_ends(&mut lists, rules, types, kept.setexec)?;
    push_ends(&mut lists, rules, types, kept.setcurrent)?;
    push_ends(&mut lists, rules, types, kept.execute)?;
    push_ends(&mut lists, rules, types, kept.entrypoint)?;
    push_ends(&mut lists, rules, types, kept.defaults)?;
    Ok(lists)
}

// Adds rules with their ends to lists.
fn push_ends<'p>(
    lists: &mut Vec<ChosenRules<'p>>,
    rules: &CountedRules<'p>,
    types: &'p TypeMap,
    gathered: RulesWithEnds,
) -> Result<(), AllocError>
    requires map { IsPolicyMap rules.now.policy types.now }
    requires ends { AreEndsOf rules.now.policy gathered.rules.items gathered.sources.items gathered.targets.items }
    requires few { length gathered.rules.items < 2 ^ 32 }
    ensures { OnOk result (lists.new.items ≡ lists.old.items ++ chosen rules.now.policy gathered.rules.items ∷ []) }
{
    let alloc = *lists.allocator();
    lists.push(ChosenRules::of_gathered(alloc, rules.policy(), types, gathered)?)?;
    Ok(())
}
