// The order in which rules are listed, by ranks in place of names: no name is compared.
ghost use Rattle.std.specs.Prelude.{◌≡◌};
ghost use Rattle.pol_read.specs.StoredRules.{stored};
ghost use Rattle.pol_read.specs.RuleOrder.{rule_key};
ghost use Rattle.pol_read.specs.RuleKinds.{kind_number};

use crate::rule::{Rule, RuleKind};
use pol_fields::TableKind;
use pol_symbols::Symbols;

/// What a rule is listed by: the number of its kind, the ranks of its names, and its own number. Keys rise in the order in which
/// rules are listed.
#[derive(Clone, Copy, Debug, PartialEq, Eq, PartialOrd, Ord)]
pub struct RuleKey {
    kind: u32,
    source: Option<u32>,
    target: Option<u32>,
    class: Option<u32>,
    number: u32,
}

// The place of a kind among all kinds.
fn number_of(kind: RuleKind) -> u32
    ensures { result ≡ kind_number kind }
{
    kind as u32
}

/// The key of a rule that has that number.
pub fn rule_key(symbols: &Symbols<'_>, number: u32, rule: &Rule<'_>) -> RuleKey
    ensures { result ≡ rule_key symbols.now number (stored rule.now) }
{
    RuleKey {
        kind: number_of(rule.kind),
        source: symbols.rank(rule.kind.source_table(), rule.source),
        target: symbols.rank(rule.kind.target_table(), rule.target),
        class: symbols.rank(TableKind::Classes, rule.class),
        number,
    }
}
