// Whether a rule begins at a type.
ghost use Rattle.std.specs.Prelude.{◌≡◌, ◌<◌, length};
ghost use Rattle.pol_read.specs.StoredRules.{stored_rules};
ghost use Rattle.rules_between.specs.ChosenRules.{begins_at};

use pol_expand::holds_type;
use pol_read::Policy;

/// Whether the source of the rule of a number expands to a type.
pub fn rule_begins_at(policy: &Policy<'_>, number: u32, source: u32) -> bool
    requires { number < length (stored_rules policy.now) }
    ensures { result ≡ begins_at policy.now source number }
{
    holds_type(policy, policy.rule_ends(number).source, source)
}
