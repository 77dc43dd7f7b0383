ghost use Rattle.std.specs.Prelude.{◌≡◌, IfOk};
ghost use Rattle.rule_order.specs.ListedOrder.{AreRules, in_rule_order};

use crate::rule_keys::RuleKeys;
use pol_read::Policy;
use std::alloc::{AllocError, Global};

/// The numbers of some stored rules, in the order in which the rules are listed: by kind, then by the names of source, target and
/// class, compared by their bytes, then by number.
///
/// The key of each rule is made once, of its ends, and keys compare as numbers. [`RuleKeys`] says how much memory a key takes.
pub fn sort_by_rule_order(
    alloc: Global,
    policy: &Policy<'_>,
    numbers: &[u32],
) -> Result<Vec<u32>, AllocError>
    requires { AreRules policy.now numbers.now }
    ensures sorted { IfOk result (λ sorted. sorted.items ≡ in_rule_order policy.now numbers.now) }
    ensures rules { IfOk result (λ sorted. AreRules policy.now sorted.items) }
{
    let mut keys = RuleKeys::with_capacity(alloc, numbers.len())?;
    for number in numbers {
        keys.add_ends(policy, *number, policy.rule_ends(*number))?;
    }
    keys.sorted(alloc, policy)
}
