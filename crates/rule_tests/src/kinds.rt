// The kinds of rules that are asked.
ghost use Rattle.std.specs.Prelude.{◌≡◌, ◌<◌};
ghost use Rattle.pol_read.specs.RuleKinds.{kind_number};
ghost use Rattle.rule_tests.specs.AskedKinds.{is_kind_asked};
ghost use Rattle.rule_tests.specs.Inner.AskedVectors.{is_any_asked};

use pol_read::RuleKind;

/// Whether a kind is asked.
#[inline(always)]
pub fn is_kind_asked(kinds: &[bool; 12], kind: RuleKind) -> bool
    ensures { result ≡ is_kind_asked kinds.now kind }
{
    kinds[number_of(kind)]
}

/// Whether one of some kinds is.
pub fn is_any_asked(kinds: &[bool; 12], some: &[RuleKind]) -> bool
    ensures { result ≡ is_any_asked kinds.now some.now }
{
    some.iter().any(|kind| is_kind_asked(kinds, *kind))
}

// The place of a kind among all kinds.
fn number_of(kind: RuleKind) -> usize
    ensures exact { result ≡ kind_number kind }
    ensures small { result < 12 }
{
    kind as usize
}
