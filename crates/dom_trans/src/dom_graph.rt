// The graph of transitions.
ghost use Rattle.std.specs.Prelude.{◌≡◌, IfOk};
ghost use Rattle.pol_bitmap.specs.Nodes.{bits_of};
ghost use Rattle.pol_expand.specs.PolicyMap.{IsPolicyMap};
ghost use Rattle.walk_enum.specs.Walks.{AreSuccessors};
ghost use Rattle.counted_rules.specs.CountedRules.{all_rules};
ghost use Rattle.dom_trans.specs.ReasonLists.{reasons_between};
ghost use Rattle.dom_trans.specs.DomainEdges.{domain_edge, is_step};
ghost use Rattle.dom_trans.specs.Inner.Targets.{AreOpen};

use crate::dom_rules::DomRules;
use crate::reasons::Reasons;
use counted_rules::CountedRules;
use pol_bitmap::Set;
use pol_expand::{TypeMap, types_outside};
use pol_read::Policy;
use std::alloc::{AllocError, Global};
use std::marker::Model;
use std::sync::ledger::Ledger;
use walk_enum::{Graph, Steps};

/// The graph of the transitions of a policy by its rules that count, or of their reverse. Its nodes are the type values, and a step neither
/// begins nor ends at an excluded type. Contracts see which rules count, the excluded types and the direction.
///
/// It is made of the rules that transitions rest on, and asks them for the successors of a node. All edges are never made.
pub struct DomGraph<'p> {
    rules: DomRules<'p>,
    excluded: Set,
    // The types that are not excluded.
    included: Set,
    reverse: bool,
}

// Its parts go in one call, wherever it is dropped.
impl Drop for DomGraph<'_> {
    fn drop(self) {
        let DomGraph {
            rules,
            excluded,
            included,
            reverse,
        } = self;
    }
}

impl<'p> Model for DomGraph<'p> {
    ghost use Rattle.std.specs.Prelude.{◌≡◌};
    ghost use Rattle.std.specs.Coded.{codes};
    ghost use Rattle.pol_bitmap.specs.Nodes.{bits_of};
    ghost use Rattle.pol_expand.specs.PlainTypes.{types_outside};
    ghost use Rattle.bool_state.specs.BooleanStates.{values_code};
    ghost use Rattle.dom_trans.specs.DomainEdges.{Domains};

    ghost Value = { Domains };

    ghost coded = { Prim.hlevel (codes, values_code) };

    ghost view = { λ g. record { rules = g.rules; excluded = g.excluded; reverse = g.reverse } };

    ghost invariant = { λ g. bits_of g.included ≡ types_outside g.rules.policy g.excluded };
}

impl<'p> DomGraph<'p> {
    /// The graph of a policy of which all rules count, with the map of its types. Goes through the rules once.
    pub fn new(
        alloc: Global,
        policy: &'p Policy<'p>,
        types: &'p TypeMap,
        excluded: &Set,
        reverse: bool,
    ) -> Result<DomGraph<'p>, AllocError>
        requires { IsPolicyMap policy.now types.now }
        ensures { IfOk result (λ graph. graph ≡ record { rules = all_rules policy.now; excluded = excluded.now; reverse = reverse }) }
    {
        DomGraph::new_under(alloc, CountedRules::all(policy), types, excluded, reverse)
    }

    /// The graph of a policy by its rules that count, with the map of its types. Goes through the rules once.
    pub fn new_under(
        alloc: Global,
        rules: CountedRules<'p>,
        types: &'p TypeMap,
        excluded: &Set,
        reverse: bool,
    ) -> Result<DomGraph<'p>, AllocError>
        requires { IsPolicyMap rules.policy types.now }
        ensures { IfOk result (λ graph. graph ≡ record { rules = rules.entry; excluded = excluded.now; reverse = reverse }) }
    {
        let included = types_outside(alloc, rules.policy(), excluded)?;
        let rules = DomRules::new(alloc, rules, types)?;
        Ok(DomGraph {
            rules,
            excluded: excluded.share()?,
            included,
            reverse,
        })
    }

    /// The policy.
    pub fn policy(&self) -> &'p Policy<'p>
        ensures { result.now ≡ self.now.rules.policy }
    {
        self.rules.policy()
    }

    /// The types that a type has an edge to: those that it has a transition to, or those that have one to it in the reverse. There are
    /// none where it is excluded.
    pub fn transitions_from(&self, alloc: Global, node: u32) -> Result<Set, AllocError>
        ensures { IfOk result (λ set. AreSuccessors (domain_edge self.now) node (bits_of set)) }
    {
        if self.reverse {
            self.steps_to(alloc, node)
        } else {
            self.steps_from(alloc, node)
        }
    }

    /// The rules behind the transition from a type to a type. Exclusion and direction change none of them.
    pub fn reasons(&self, alloc: Global, from: u32, to: u32) -> Result<Reasons, AllocError>
        ensures { IfOk result (λ reasons. reasons ≡ reasons_between self.now.rules from to) }
    {
        self.rules.reasons(alloc, from, to)
    }

    // Of some types, the ones between which and a type a step may be: two different types, none of them excluded.
    fn open_among(&self, alloc: Global, a: u32, types: &Set) -> Result<Set, AllocError>
        ensures { IfOk result (λ found. AreOpen self.now a (bits_of types.now) (bits_of found)) }
    {
        if !self.included.has(a) {
            return Set::empty(alloc);
        }
        let itself = Set::from_rising(alloc, &[a])?;
        let both = types.common(alloc, &self.included)?;
        both.difference(alloc, &itself)
    }

    // The types that a type has a step to.
    fn steps_from(&self, alloc: Global, a: u32) -> Result<Set, AllocError>
        ensures { IfOk result (λ set. AreSuccessors (is_step self.now) a (bits_of set)) }
    {
        let source = self.rules.source(alloc, a)?;
        let targets = self.rules.targets(alloc, a, &source)?;
        self.open_among(alloc, a, &targets)
    }

    // The types that have a step to a type.
    fn steps_to(&self, alloc: Global, b: u32) -> Result<Set, AllocError>
        ensures { IfOk result (λ set. AreSuccessors (λ node a. is_step self.now a node) b (bits_of set)) }
    {
        let sources = self.rules.sources(alloc, b)?;
        self.open_among(alloc, b, &sources)
    }
}

impl<'p> Graph for DomGraph<'p> {
    ghost use Rattle.dom_trans.specs.DomainEdges.{domain_count, domain_edge};
    ghost use Rattle.dom_trans.specs.Inner.EdgesBetween.{edges_join};

    ghost nodes = { domain_count };

    ghost edge = { domain_edge };

    ghost between = { edges_join };

    fn size(&self) -> u32 {
        self.policy().type_count()
    }

    fn succ<L: Ledger>(
        &self,
        alloc: Global,
        node: u32,
        steps: &mut Steps<L>,
    ) -> Result<Set, AllocError> {
        steps.tick();
        self.transitions_from(alloc, node)
    }
}
