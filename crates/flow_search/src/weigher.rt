// The weights of rules and of flows.
ghost use Rattle.std.specs.Prelude.{◌≡◌, ◌≤◌, ◌<◌, [], IfOk, length, max, slice_index_or, if◌then◌else◌};
ghost use Rattle.pol_read.specs.declared.RuleKind.TheVariants.{Allow};
ghost use Rattle.pol_read.specs.StoredRules.{stored, stored_rules};
ghost use Rattle.counted_rules.specs.CountedRules.{counts};
ghost use Rattle.perm_map.specs.PermissionMap.{weights_of};
ghost use Rattle.flow_search.specs.FlowWeights.{class_of, inwards, mask_weight, outwards, part_weight, rule_weight};
ghost use Rattle.flow_search.specs.Flows.{flow_weight, given_by, is_counted, weight_of_rule};
ghost use Rattle.flow_search.specs.Inner.WeightTables.{AreBitsOf, AreWeights, HaveReachBits, greatest_into, greatest_out};

use crate::class_weights::{ClassWeights, RuleWeights};
use crate::reach_bits::ReachBits;
use counted_rules::CountedRules;
use perm_map::PermMap;
use pol_expand::{are_two_types, is_rule_from_to};
use pol_fields::TableKind;
use pol_read::{Policy, Rule, RuleKind, RulePart};
use pol_symbols::Symbols;
use std::alloc::{AllocError, Global};
use std::marker::Model;

/// What weighs the rules of a policy by a permission map. Contracts see the rules that count and the entries of the map.
///
/// The permissions of each class are looked up in the map once.
#[derive(Drop)]
pub struct Weigher<'p> {
    rules: CountedRules<'p>,
    map: &'p PermMap<'p>,
    // By the number of a class in the file.
    classes: Vec<ClassWeights>,
}

impl<'p> Model for Weigher<'p> {
    ghost use Rattle.std.specs.Coded.{codes};
    ghost use Rattle.bool_state.specs.BooleanStates.{values_code};
    ghost use Rattle.perm_map.specs.PermissionMap.{weights_of};
    ghost use Rattle.flow_search.specs.Inner.WeightTables.{AreWeights, Weighing};

    ghost Value = { Weighing };

    ghost coded = { Prim.hlevel (codes, values_code) };

    ghost view = { λ w. record { rules = w.rules; entries = w.map.now } };

    ghost invariant = { λ w. AreWeights (weights_of w.map.now) w.rules.policy.symbols w.classes.items };
}

const NONE: RuleWeights = RuleWeights { out: 0, into: 0 };

impl<'p> Weigher<'p> {
    /// Looks up the permissions of all classes.
    pub fn new(
        alloc: Global,
        rules: CountedRules<'p>,
        map: &'p PermMap<'p>,
    ) -> Result<Weigher<'p>, AllocError>
        ensures { IfOk result (λ weigher. weigher ≡ record { rules = rules.entry; entries = map.now }) }
    {
        let classes = weights_of_classes(alloc, rules.policy().symbols(), map)?;
        Ok(Weigher {
            rules,
            map,
            classes,
        })
    }

    /// The policy.
    pub fn policy(&self) -> &'p Policy<'p>
        ensures { result.now ≡ self.now.rules.policy }
    {
        self.rules.policy()
    }

    /// Whether a rule of the policy counts.
    pub fn counts(&self, rule: &Rule<'_>) -> bool
        ensures { result ≡ counts self.now.rules (stored rule.now) }
    {
        self.rules.counts(rule)
    }

    /// For each class, in the order of the file, the bits of the permissions whose weight reaches the least one.
    pub fn reaching(&self, alloc: Global, least: u8) -> Result<Vec<ReachBits>, AllocError>
        requires { 1 ≤ least }
        ensures { IfOk result (λ classes. HaveReachBits (weights_of self.now.entries) self.now.rules.policy.symbols least classes.items) }
    {
        bits_of_classes(alloc, &self.classes, least)
    }

    // The weights of a rule of a class that allows what a mask has.
    fn weigh_mask(&self, class: u32, mask: u32) -> RuleWeights
        ensures out { result.out ≡ mask_weight outwards (weights_of self.now.entries) self.now.rules.policy.symbols (class_of self.now.rules.policy.symbols class) mask }
        ensures into { result.into ≡ mask_weight inwards (weights_of self.now.entries) self.now.rules.policy.symbols (class_of self.now.rules.policy.symbols class) mask }
    {
        match self.policy().symbols().by_value(TableKind::Classes, class) {
            Some(i) => greatest_at(&self.classes, i, mask),
            None => NONE,
        }
    }

    // The weights of an allow rule of a class.
    fn weigh_part(&self, class: u32, part: &RulePart<'_>) -> RuleWeights
        ensures out { result.out ≡ part_weight outwards (weights_of self.now.entries) self.now.rules.policy.symbols class Allow part.now }
        ensures into { result.into ≡ part_weight inwards (weights_of self.now.entries) self.now.rules.policy.symbols class Allow part.now }
    {
        match part {
            RulePart::Perms(mask) => self.weigh_mask(class, *mask),
            _ => NONE,
        }
    }

    // The weights of a rule.
    #[tactic(auto, unfolding(crate::specs::FlowWeights::rule_weight))]
    fn weigh_rule(&self, rule: &Rule<'_>) -> RuleWeights
        ensures out { result.out ≡ rule_weight outwards (weights_of self.now.entries) self.now.rules.policy.symbols (stored rule.now) }
        ensures into { result.into ≡ rule_weight inwards (weights_of self.now.entries) self.now.rules.policy.symbols (stored rule.now) }
    {
        match rule.kind {
            RuleKind::Allow => self.weigh_part(rule.class, &rule.part),
            _ => NONE,
        }
    }

    // What the rule of that number gives, whether it counts or not, to the flow from a type to another.
    #[tactic(auto, unfolding(crate::specs::Flows::given_by, crate::specs::Flows::weight_of_rule, pol_expand::specs::JoinedTypes::joins))]
    fn given(&self, from: u32, to: u32, number: u32) -> u8
        requires { number < length (stored_rules self.now.rules.policy) }
        ensures { result ≡ given_by (weights_of self.now.entries) self.now.rules.policy from to number }
    {
        let rule = self.policy().rule(number);
        let weights = self.weigh_rule(&rule);
        let ahead = is_rule_from_to(self.policy(), &rule, from, to);
        let back = is_rule_from_to(self.policy(), &rule, to, from);
        weight_where(ahead, weights.out).max(weight_where(back, weights.into))
    }

    /// The greater of a weight and what the rule of that number gives to the flow from a type to another. The ends of a rule are looked
    /// at only where it weighs more.
    pub fn raised(&self, weight: u8, from: u32, to: u32, number: u32) -> u8
        requires { number < length (stored_rules self.now.rules.policy) }
        ensures { result ≡ max weight (given_by (weights_of self.now.entries) self.now.rules.policy from to number) }
    {
        let rule = self.policy().rule(number);
        let weights = self.weigh_rule(&rule);
        if weights.out <= weight && weights.into <= weight {
            return weight;
        }
        weight.max(self.given(from, to, number))
    }

    // Whether the rule of that number counts.
    fn is_counted(&self, number: u32) -> bool
        requires { number < length (stored_rules self.now.rules.policy) }
        ensures { result ≡ is_counted self.now.rules number }
    {
        self.counts(&self.policy().rule(number))
    }

    /// The weight of the flow from a type to another, or 0. Goes through all rules.
    #[tactic(auto, unfolding(crate::specs::Flows::flow_weight), using(crate::proofs::Weighing::numbers_more))]
    pub fn flow(&self, from: u32, to: u32) -> u8
        ensures { result ≡ flow_weight (weights_of self.now.entries) self.now.rules from to }
    {
        if !are_two_types(self.policy(), from, to) {
            return 0;
        }
        let mut weight = 0;
        for number in 0..self.policy().rule_count() {
            if self.is_counted(number) {
                weight = self.raised(weight, from, to, number);
            }
        }
        weight
    }
}

// The greatest weights of the permissions of a class that a mask has.
fn greatest_at(classes: &[ClassWeights], number: u32, mask: u32) -> RuleWeights
    requires { number < length classes.now }
    ensures out { result.out ≡ greatest_out mask (slice_index_or classes.now number []) }
    ensures into { result.into ≡ greatest_into mask (slice_index_or classes.now number []) }
{
    classes[number as usize].greatest(mask)
}

// For each of some classes the bits of the permissions whose weight reaches the least one.
fn bits_of_classes(
    alloc: Global,
    classes: &[ClassWeights],
    least: u8,
) -> Result<Vec<ReachBits>, AllocError>
    requires { 1 ≤ least }
    ensures { IfOk result (λ bits. AreBitsOf least classes.now bits.items) }
{
    let mut bits = Vec::with_capacity(alloc, classes.len())?;
    for class in classes {
        bits.push(class.reaching(least))?;
    }
    Ok(bits)
}

// A weight where a test holds, and else 0.
fn weight_where(holds: bool, weight: u8) -> u8
    ensures { result ≡ (if holds then weight else 0) }
{
    if holds { weight } else { 0 }
}

// The weights of the permissions of each class, in the order of the file.
fn weights_of_classes(
    alloc: Global,
    symbols: &Symbols<'_>,
    map: &PermMap<'_>,
) -> Result<Vec<ClassWeights>, AllocError>
    ensures { IfOk result (λ classes. AreWeights (weights_of map.now) symbols.now classes.items) }
{
    let mut classes = Vec::new(alloc);
    for i in 0..symbols.len(TableKind::Classes) {
        let class = symbols.classes.view(i);
        classes.push(ClassWeights::of_class(alloc, symbols, map, &class)?)?;
    }
    Ok(classes)
}
