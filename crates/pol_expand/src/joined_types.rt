// Whether the ends of a rule expand to types, without memory.
ghost use Rattle.std.specs.Prelude.{◌≡◌, ◌≤◌, ◌&&◌};
ghost use Rattle.pol_bitmap.specs.Nodes.{has_bit};
ghost use Rattle.pol_expand.specs.PolicyMap.{row_in};
ghost use Rattle.pol_read.specs.StoredRules.{stored};
ghost use Rattle.pol_expand.specs.PlainTypes.{is_type_value};
ghost use Rattle.pol_expand.specs.JoinedTypes.{holds_type, is_rule_from_to};

use crate::flavours::is_flavour;
use crate::plain_types::is_type;
use pol_datums::Flavour;
use pol_read::{Policy, Rule};

/// Whether the source of a rule expands to the one type, and its target to the other.
pub fn is_rule_from_to(policy: &Policy<'_>, rule: &Rule<'_>, source: u32, target: u32) -> bool
    ensures { result ≡ is_rule_from_to policy.now source target (stored rule.now) }
{
    holds_type(policy, rule.source, source) && holds_type(policy, rule.target, target)
}

/// Whether an end expands to a type, among others or alone.
#[tactic(auto, using(crate::proofs::Holders::holds_attribute, crate::proofs::Holders::holds_itself))]
pub fn holds_type(policy: &Policy<'_>, end: u32, value: u32) -> bool
    ensures { result ≡ holds_type policy.now end value }
{
    if is_flavour(Flavour::Attribute, policy.symbols().flavour(end)) {
        has_attribute(policy, value, end.saturating_sub(1))
    } else {
        end == value
    }
}

// Whether a value is that of a type whose row has a bit.
#[tactic(auto, using(crate::proofs::TypesOutside::type_within))]
fn has_attribute(policy: &Policy<'_>, value: u32, bit: u32) -> bool
    ensures { result ≡ (is_type_value policy.now value && has_bit (row_in policy.now value) bit) }
{
    if is_type(policy, value) {
        row_has(policy, value, bit)
    } else {
        false
    }
}

// Whether the row of a type has a bit.
fn row_has(policy: &Policy<'_>, value: u32, bit: u32) -> bool
    requires least { 1 ≤ value }
    requires most { value ≤ policy.now.symbols.types.nprim }
    ensures { result ≡ has_bit (row_in policy.now value) bit }
{
    policy.row(value).has(bit)
}
