//! The rules of a policy that count.
ghost use Rattle.std.specs.Prelude.{◌≡◌, IfOk};
ghost use Rattle.pol_read.specs.StoredRules.{stored};
ghost use Rattle.counted_rules.specs.CountedRules.{all_rules, rules_under, counts};

use crate::node_values::NodeValues;
use bool_state::BoolState;
use pol_read::{Policy, Rule};
use std::alloc::{AllocError, Global};
use std::marker::Model;

/// The rules of a policy that count. Contracts see the policy, and the booleans that are true where only enabled rules count.
pub struct CountedRules<'p> {
    policy: &'p Policy<'p>,
    // None where all rules count.
    values: Option<NodeValues>,
}

// Its parts go in one call, wherever it is dropped.
impl Drop for CountedRules<'_> {
    fn drop(self) {
        let CountedRules { policy, values } = self;
    }
}

impl<'p> Model for CountedRules<'p> {
    ghost use Rattle.std.specs.Prelude.{◌≡◌, option_map};
    ghost use Rattle.std.specs.Coded.{codes};
    ghost use Rattle.bool_state.specs.BooleanStates.{values_code};
    ghost use Rattle.counted_rules.specs.CountedRules.{Counted};
    ghost use Rattle.counted_rules.specs.Inner.NodeTables.{AreValuesOf};

    ghost Value = { Counted };

    ghost coded = { Prim.hlevel (codes, values_code) };

    ghost view = { λ r. record { policy = r.policy.now; on = option_map (λ v. v.on) r.values } };

    ghost invariant = { λ r. AreValuesOf r.policy.now.rules.conditionals r.values };
}

impl<'p> CountedRules<'p> {
    /// All rules of a policy, whatever conditions they stand under.
    pub fn all(policy: &'p Policy<'p>) -> CountedRules<'p>
        ensures { result ≡ all_rules policy.now }
    {
        CountedRules {
            policy,
            values: None,
        }
    }

    /// The rules of a policy that are enabled in a state of its booleans. The value of each condition is found once.
    pub fn under(
        alloc: Global,
        policy: &'p Policy<'p>,
        state: &BoolState,
    ) -> Result<CountedRules<'p>, AllocError>
        ensures { IfOk result (λ rules. rules ≡ rules_under policy.now state.now) }
    {
        let values = NodeValues::new(alloc, policy, state)?;
        Ok(CountedRules {
            policy,
            values: Some(values),
        })
    }

    /// The policy.
    pub fn policy(&self) -> &'p Policy<'p>
        ensures { result.now ≡ self.now.policy }
    {
        self.policy
    }

    /// Whether a rule of the policy counts. It takes no memory.
    pub fn counts(&self, rule: &Rule<'_>) -> bool
        ensures { result ≡ counts self.now (stored rule.now) }
    {
        match &self.values {
            None => true,
            Some(values) => values.enable(rule.condition),
        }
    }
}
