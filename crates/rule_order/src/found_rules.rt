// The rules that a search finds: all of them, or those that are listed first.
ghost use Rattle.std.specs.Prelude.{◌≡◌, ◌∷◌, [], ◌++◌, ℕ, List, IfOk, OnOk, Some, option_map, slice_get};
ghost use Rattle.pol_read.specs.StoredRules.{ends_of, stored_rules};
ghost use Rattle.rule_order.specs.ListedOrder.{in_rule_order};
ghost use Rattle.rule_order.specs.FoundRules.{AreFound, first_ones, limit_of};

use crate::least_keys::LeastKeys;
use crate::rule_keys::RuleKeys;
use pol_read::{Policy, RuleEnds};
use std::alloc::{AllocError, Global};

/// Rules that are found, of which all are to be listed, or the first ones.
#[derive(Drop)]
pub enum FoundRules {
    All(RuleKeys),
    First(LeastKeys),
}

impl FoundRules {
    /// Adds a stored rule of the policy, by its number and its ends.
    #[inline(always)]
    pub fn add_ends(
        &mut self,
        policy: &Policy<'_>,
        number: u32,
        ends: RuleEnds,
    ) -> Result<(), AllocError>
        requires { option_map ends_of (slice_get (stored_rules policy.now) number) ≡ Some ends }
        ensures limit { limit_of self.new ≡ limit_of self.old }
        ensures added { OnOk result ((numbers : List ℕ) → AreFound policy.now numbers self.old → AreFound policy.now (numbers ++ number ∷ []) self.new) }
    {
        match self {
            FoundRules::All(keys) => keys.add_ends(policy, number, ends),
            FoundRules::First(keys) => keys.add_ends(policy, number, ends),
        }
    }

    /// The numbers of those that are to be listed, in the order in which rules are listed.
    pub fn sorted(self, alloc: Global, policy: &Policy<'_>) -> Result<Vec<u32>, AllocError>
        ensures { IfOk result (λ sorted. (numbers : List ℕ) → AreFound policy.now numbers self → sorted.items ≡ first_ones (limit_of self) (in_rule_order policy.now numbers)) }
    {
        match self {
            FoundRules::All(keys) => keys.sorted(alloc, policy),
            FoundRules::First(keys) => keys.sorted(alloc, policy),
        }
    }
}
