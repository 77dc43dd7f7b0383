// Whether a rule counts and flows at least a weight.
ghost use Rattle.std.specs.Prelude.{◌≡◌, ◌≤◌, ◌&&◌, IfOk, nat_le};
ghost use Rattle.pol_read.specs.declared.RuleKind.TheVariants.{Allow};
ghost use Rattle.pol_read.specs.StoredRules.{stored};
ghost use Rattle.counted_rules.specs.CountedRules.{counts};
ghost use Rattle.perm_map.specs.PermissionMap.{weights_of};
ghost use Rattle.flow_search.specs.FlowWeights.{class_of, inwards, mask_weight, outwards, part_weight, rule_weight};

use crate::reach_bits::{ReachBits, Ways};
use crate::weigher::Weigher;
use pol_read::{Rule, RuleKind, RulePart};
use std::alloc::{AllocError, Global};
use std::marker::Model;

/// Tells which of the rules that count flow at least a weight. Contracts see these rules, the entries of the permission map and the weight.
///
/// A rule does where its mask has a permission of its class that does, so that no weight of a rule is looked for.
#[derive(Drop)]
pub struct ReachTest<'w, 'p> {
    weigher: &'w Weigher<'p>,
    least: u8,
    // By the number of a class in the file.
    classes: Vec<ReachBits>,
}

impl<'w, 'p> Model for ReachTest<'w, 'p> {
    ghost use Rattle.std.specs.Coded.{codes};
    ghost use Rattle.bool_state.specs.BooleanStates.{values_code};
    ghost use Rattle.perm_map.specs.PermissionMap.{weights_of};
    ghost use Rattle.flow_search.specs.Inner.WeightTables.{HaveReachBits, Reached};

    ghost Value = { Reached };

    ghost coded = { Prim.hlevel (codes, values_code) };

    ghost view = { λ t. record { rules = t.weigher.now.rules; entries = t.weigher.now.entries; least = t.least } };

    ghost invariant = { λ t. HaveReachBits (weights_of t.weigher.now.entries) t.weigher.now.rules.policy.symbols t.least t.classes.items };
}

const NEITHER: Ways = Ways {
    out: false,
    into: false,
};

impl<'w, 'p> ReachTest<'w, 'p> {
    /// Goes through the permissions of all classes.
    pub fn new(
        alloc: Global,
        weigher: &'w Weigher<'p>,
        least: u8,
    ) -> Result<ReachTest<'w, 'p>, AllocError>
        requires { 1 ≤ least }
        ensures { IfOk result (λ test. test ≡ record { rules = weigher.now.rules; entries = weigher.now.entries; least = least }) }
    {
        let classes = weigher.reaching(alloc, least)?;
        Ok(ReachTest {
            weigher,
            least,
            classes,
        })
    }

    // The ways of no weight, which are none.
    fn neither(&self) -> Ways
        ensures out { result.out ≡ nat_le self.now.least 0 }
        ensures into { result.into ≡ nat_le self.now.least 0 }
    {
        // the read shows the invariant: the least weight is above 0
        let _ = &self.classes;
        NEITHER
    }

    // Which ways a rule of a class flows that allows what a mask has.
    fn ways_of_mask(&self, class: u32, mask: u32) -> Ways
        ensures out { result.out ≡ nat_le self.now.least (mask_weight outwards (weights_of self.now.entries) self.now.rules.policy.symbols (class_of self.now.rules.policy.symbols class) mask) }
        ensures into { result.into ≡ nat_le self.now.least (mask_weight inwards (weights_of self.now.entries) self.now.rules.policy.symbols (class_of self.now.rules.policy.symbols class) mask) }
    {
        match self.weigher.policy().symbols().classes.by_value(class) {
            Some(i) => self.classes[i as usize].shared(mask),
            None => self.neither(),
        }
    }

    // Which ways an allow rule of a class flows.
    fn ways_of_part(&self, class: u32, part: &RulePart<'_>) -> Ways
        ensures out { result.out ≡ nat_le self.now.least (part_weight outwards (weights_of self.now.entries) self.now.rules.policy.symbols class Allow part.now) }
        ensures into { result.into ≡ nat_le self.now.least (part_weight inwards (weights_of self.now.entries) self.now.rules.policy.symbols class Allow part.now) }
    {
        match part {
            RulePart::Perms(mask) => self.ways_of_mask(class, *mask),
            _ => self.neither(),
        }
    }

    // Which ways a rule flows, whether it counts or not.
    #[tactic(auto, unfolding(crate::specs::FlowWeights::rule_weight))]
    fn ways_of_rule(&self, rule: &Rule<'_>) -> Ways
        ensures out { result.out ≡ nat_le self.now.least (rule_weight outwards (weights_of self.now.entries) self.now.rules.policy.symbols (stored rule.now)) }
        ensures into { result.into ≡ nat_le self.now.least (rule_weight inwards (weights_of self.now.entries) self.now.rules.policy.symbols (stored rule.now)) }
    {
        match rule.kind {
            RuleKind::Allow => self.ways_of_part(rule.class, &rule.part),
            _ => self.neither(),
        }
    }

    /// Which ways a rule flows: none, where it does not count.
    pub fn ways(&self, rule: &Rule<'_>) -> Ways
        ensures out { result.out ≡ (counts self.now.rules (stored rule.now) && nat_le self.now.least (rule_weight outwards (weights_of self.now.entries) self.now.rules.policy.symbols (stored rule.now))) }
        ensures into { result.into ≡ (counts self.now.rules (stored rule.now) && nat_le self.now.least (rule_weight inwards (weights_of self.now.entries) self.now.rules.policy.symbols (stored rule.now))) }
    {
        if self.weigher.counts(rule) {
            self.ways_of_rule(rule)
        } else {
            NEITHER
        }
    }
}
