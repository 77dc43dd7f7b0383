//! Permissions by name, and which rules give them.
ghost use Rattle.std.specs.Prelude.{◌≡◌, ◌==◌};
ghost use Rattle.std.specs.Int.{bit_at};
ghost use Rattle.pol_read.specs.StoredRules.{stored};
ghost use Rattle.rule_grants.specs.Grants.{permission_named, gives};

use pol_fields::TableKind;
use pol_read::{Rule, RuleKind, RulePart};
use pol_symbols::Symbols;

/// A permission of a class, by the values of both.
#[derive(Clone, Copy)]
pub struct Permission {
    pub class: u32,
    pub value: u32,
}

/// The permission of a name of the class of a name. `None` where the policy lacks one of them.
#[tactic(auto, unfolding(crate::specs::Grants::permission_named))]
pub fn permission_named(symbols: &Symbols<'_>, class: &[u8], name: &[u8]) -> Option<Permission>
    ensures { result ≡ permission_named symbols.now class.now name.now }
{
    let Some(class) = symbols.by_name(TableKind::Classes, class) else {
        return None;
    };
    let Some(value) = symbols.perm_value(class, name) else {
        return None;
    };
    Some(Permission { class, value })
}

/// Whether a rule gives a permission, whatever condition it stands under: it is an allow rule of the class, and the bit of the permission
/// is set.
pub fn gives(permission: Option<Permission>, rule: &Rule<'_>) -> bool
    ensures { result ≡ gives permission (stored rule.now) }
{
    let Some(permission) = permission else {
        return false;
    };
    match (rule.kind, &rule.part) {
        (RuleKind::Allow, RulePart::Perms(mask)) => {
            rule.class == permission.class && has_bit(*mask, permission.value.saturating_sub(1))
        }
        _ => false,
    }
}

// Whether a bit of a mask is set.
fn has_bit(mask: u32, bit: u32) -> bool
    ensures { result ≡ (bit_at mask bit == 1) }
{
    bit < 32 && (mask >> bit) & 1 == 1
}
