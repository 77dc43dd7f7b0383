// The graph of flows.
ghost use Rattle.std.specs.Prelude.{◌≡◌, ◌≤◌, ◌++◌, true, IfOk};
ghost use Rattle.std.specs.List.{filter};
ghost use Rattle.pol_bitmap.specs.Nodes.{bits_of};
ghost use Rattle.pol_expand.specs.PolicyMap.{IsPolicyMap};
ghost use Rattle.counted_rules.specs.CountedRules.{all_rules};
ghost use Rattle.perm_map.specs.PermissionMap.{weights_of};
ghost use Rattle.rule_order.specs.ListedOrder.{AreRules, in_rule_order};
ghost use Rattle.walk_enum.specs.Walks.{AreSuccessors};
ghost use Rattle.flow_search.specs.Flows.{counted_numbers, flow_rules, flow_weight, gives_least};
ghost use Rattle.flow_search.specs.FlowEdges.{flow_edge};
ghost use Rattle.flow_search.specs.Inner.FlowParts.{any_edge, first_end, is_open, AreDistinct, AreJoined, IsOpenPart};

use crate::node_sets::{either, without};
use crate::reaching::{Reaching, rules_reaching};
use crate::weigher::Weigher;
use counted_rules::CountedRules;
use perm_map::PermMap;
use pol_bitmap::Set;
use pol_expand::{TypeMap, are_two_types, types_outside};
use pol_read::Policy;
use rule_order::sort_by_rule_order;
use rules_by_end::{RuleEnd, RulesByEnd};
use std::alloc::{AllocError, Global};
use std::marker::Model;
use std::sync::ledger::Ledger;
use walk_enum::{Graph, Steps};

/// The graph of the flows of at least a weight by those rules of a policy that count, or of their reverse. Its nodes are the type values, and
/// no edge joins an excluded type. Contracts see these rules, the entries of the permission map, the least weight, the excluded types and the
/// direction.
///
/// It keeps those of them that flow at least the weight, each under the end at which an edge begins, and asks them for the successors of a
/// node. All edges are never made.
pub struct FlowGraph<'p> {
    weigher: Weigher<'p>,
    least: u8,
    // The rules that count and flow from the source to the target at least the weight.
    out: RulesByEnd<'p>,
    // The rules that flow from the target to the source at least the weight.
    into: RulesByEnd<'p>,
    excluded: Set,
    // The types that may be an end of an edge.
    open_types: Set,
    reverse: bool,
}

// Its parts go in one call, wherever it is dropped.
impl Drop for FlowGraph<'_> {
    fn drop(self) {
        let FlowGraph {
            weigher,
            least,
            out,
            into,
            excluded,
            open_types,
            reverse,
        } = self;
    }
}

impl<'p> Model for FlowGraph<'p> {
    ghost use Rattle.std.specs.Prelude.{◌≡◌, ◌≤◌};
    ghost use Rattle.std.specs.Coded.{codes};
    ghost use Rattle.pol_bitmap.specs.Nodes.{bits_of};
    ghost use Rattle.bool_state.specs.BooleanStates.{values_code};
    ghost use Rattle.pol_expand.specs.PlainTypes.{types_outside};
    ghost use Rattle.perm_map.specs.PermissionMap.{weights_of};
    ghost use Rattle.flow_search.specs.FlowEdges.{FlowSearch};
    ghost use Rattle.flow_search.specs.Inner.FlowParts.{AreFlowRules};

    ghost Value = { FlowSearch };

    ghost coded = { Prim.hlevel (codes, values_code) };

    ghost view = { λ g. record { rules = g.weigher.rules; entries = g.weigher.entries; least = g.least; excluded = g.excluded; reverse = g.reverse } };

    ghost invariant = { λ g. (1 ≤ g.least) × AreFlowRules (weights_of g.weigher.entries) g.weigher.rules g.least g.reverse g.out g.into × (bits_of g.open_types ≡ types_outside g.weigher.rules.policy g.excluded) };
}

impl<'p> FlowGraph<'p> {
    /// The graph of all rules of a policy, whatever conditions they stand under, with the map of its types. Goes through the rules once.
    pub fn new(
        alloc: Global,
        policy: &'p Policy<'p>,
        types: &'p TypeMap,
        map: &'p PermMap<'p>,
        least: u8,
        excluded: &Set,
        reverse: bool,
    ) -> Result<FlowGraph<'p>, AllocError>
        requires types { IsPolicyMap policy.now types.now }
        requires weight { 1 ≤ least }
        ensures { IfOk result (λ graph. graph ≡ record { rules = all_rules policy.now; entries = map.now; least = least; excluded = excluded.now; reverse = reverse }) }
    {
        let rules = CountedRules::all(policy);
        FlowGraph::new_under(alloc, rules, types, map, least, excluded, reverse)
    }

    /// The graph of the rules of a policy that count, with the map of its types. Goes through the rules once.
    pub fn new_under(
        alloc: Global,
        rules: CountedRules<'p>,
        types: &'p TypeMap,
        map: &'p PermMap<'p>,
        least: u8,
        excluded: &Set,
        reverse: bool,
    ) -> Result<FlowGraph<'p>, AllocError>
        requires types { IsPolicyMap rules.policy types.now }
        requires weight { 1 ≤ least }
        ensures { IfOk result (λ graph. graph ≡ record { rules = rules.entry; entries = map.now; least = least; excluded = excluded.now; reverse = reverse }) }
    {
        let policy = rules.policy();
        let weigher = Weigher::new(alloc, rules, map)?;
        let Reaching { out, into } = rules_reaching(alloc, &weigher, least)?;
        let near = first_end(reverse);
        Ok(FlowGraph {
            out: RulesByEnd::build(alloc, policy, types, near, out)?,
            into: RulesByEnd::build(alloc, policy, types, near.other(), into)?,
            open_types: types_outside(alloc, policy, excluded)?,
            excluded: excluded.share()?,
            weigher,
            least,
            reverse,
        })
    }

    /// The policy.
    pub fn policy(&self) -> &'p Policy<'p>
        ensures { result.now ≡ self.now.rules.policy }
    {
        self.weigher.policy()
    }

    /// The weight of the flow from a type to another, 0 for none. Exclusion, direction and the least weight do not change it. It takes no
    /// memory and goes through all rules.
    pub fn flow(&self, from: u32, to: u32) -> u8
        ensures { result ≡ flow_weight (weights_of self.now.entries) self.now.rules from to }
    {
        self.weigher.flow(from, to)
    }

    // The rules that count and give the flow from a value to another at least the least weight, in the order in which rules are listed.
    fn giving(&self, alloc: Global, from: u32, to: u32) -> Result<Vec<u32>, AllocError>
        ensures found { IfOk result (λ found. found.items ≡ in_rule_order self.now.rules.policy (filter (gives_least (weights_of self.now.entries) self.now.rules.policy self.now.least from to) (counted_numbers self.now.rules))) }
        ensures rules { IfOk result (λ found. AreRules self.now.rules.policy found.items) }
    {
        let ahead = self.out.between(alloc, from, to)?;
        let back = self.into.between(alloc, to, from)?;
        let numbers = distinct_of(ahead, &back)?;
        sort_by_rule_order(alloc, self.policy(), &numbers)
    }

    /// The rules that count and give the flow from a type to another at least the least weight, in the order in which rules are listed.
    /// Exclusion and direction change none of them.
    #[tactic(auto, unfolding(crate::specs::Flows::flow_rules))]
    pub fn rules(&self, alloc: Global, from: u32, to: u32) -> Result<Vec<u32>, AllocError>
        ensures found { IfOk result (λ found. found.items ≡ flow_rules (weights_of self.now.entries) self.now.rules self.now.least from to) }
        ensures rules { IfOk result (λ found. AreRules self.now.rules.policy found.items) }
    {
        if !are_two_types(self.policy(), from, to) {
            return Ok(Vec::new(alloc));
        }
        self.giving(alloc, from, to)
    }

    /// The weight of the flow from a type to another, by its rules as [`FlowGraph::rules`] answers them. It looks at no other rule where
    /// there are any.
    pub fn weight(&self, rules: &[u32], from: u32, to: u32) -> u8
        requires { rules.now ≡ flow_rules (weights_of self.now.entries) self.now.rules self.now.least from to }
        ensures { result ≡ flow_weight (weights_of self.now.entries) self.now.rules from to }
    {
        if rules.is_empty() {
            return self.flow(from, to);
        }
        let mut weight = 0;
        for number in rules {
            weight = self.weigher.raised(weight, from, to, *number);
        }
        weight
    }

    // The types that the rules join a node to, as the graph is turned.
    fn joined(&self, alloc: Global, node: u32) -> Result<Set, AllocError>
        ensures { IfOk result (λ set. AreJoined self.now.rules.policy (any_edge self.now node) (bits_of set)) }
    {
        let out = self.out.others(alloc, node)?;
        let into = self.into.others(alloc, node)?;
        either(alloc, out, into)
    }

    // Whether a type may be an end of an edge.
    fn is_open(&self, node: u32) -> bool
        ensures may { result ≡ is_open self.now node }
        ensures least { 1 ≤ self.now.least }
    {
        self.open_types.has(node)
    }

    // Of some types, the ones that may be an end.
    fn open_among(&self, alloc: Global, types: &Set) -> Result<Set, AllocError>
        ensures { IfOk result (λ set. IsOpenPart self.now (bits_of types.now) (bits_of set)) }
    {
        types.common(alloc, &self.open_types)
    }

    // The joined types that are successors of a node which may be an end.
    fn successors(&self, alloc: Global, node: u32) -> Result<Set, AllocError>
        requires may { is_open self.now node ≡ true }
        requires least { 1 ≤ self.now.least }
        ensures { IfOk result (λ set. AreSuccessors (flow_edge self.now) node (bits_of set)) }
    {
        let joined = self.joined(alloc, node)?;
        let found = self.open_among(alloc, &joined)?;
        without(alloc, found, node)
    }

    /// The types that a type has an edge to. There are none where it is excluded.
    pub fn flows_from(&self, alloc: Global, node: u32) -> Result<Set, AllocError>
        ensures { IfOk result (λ set. AreSuccessors (flow_edge self.now) node (bits_of set)) }
    {
        if self.is_open(node) {
            self.successors(alloc, node)
        } else {
            Set::empty(alloc)
        }
    }
}

// The end of a rule that flows from its source to its target at which an edge begins.
fn first_end(reverse: bool) -> RuleEnd
    ensures { result ≡ first_end reverse }
{
    if reverse {
        RuleEnd::Target
    } else {
        RuleEnd::Source
    }
}

// The numbers of two lists, rising, and each once.
fn distinct_of(some: Vec<u32>, others: &[u32]) -> Result<Vec<u32>, AllocError>
    ensures { IfOk result (λ numbers. AreDistinct (some.items ++ others.now) numbers.items) }
{
    let mut numbers = some;
    numbers.extend_from_slice(others)?;
    // a rule that gives a flow both ways counts once
    make_distinct(&mut numbers);
    Ok(numbers)
}

// Sorts numbers, and leaves each once.
fn make_distinct(numbers: &mut Vec<u32>)
    ensures { AreDistinct numbers.old.items numbers.new.items }
{
    numbers.sort_unstable();
    numbers.dedup();
}

impl<'p> Graph for FlowGraph<'p> {
    ghost use Rattle.flow_search.specs.FlowEdges.{flow_count, flow_edge};
    ghost use Rattle.flow_search.specs.Inner.EdgesBetween.{edges_join};

    ghost nodes = { flow_count };

    ghost edge = { flow_edge };

    ghost between = { edges_join };

    fn size(&self) -> u32 {
        self.policy().type_count()
    }

    fn succ<L: Ledger>(
        &self,
        alloc: Global,
        node: u32,
        steps: &mut Steps<L>,
    ) -> Result<Set, AllocError> {
        steps.tick();
        self.flows_from(alloc, node)
    }
}
