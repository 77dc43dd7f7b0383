// The source of a rule or its target.
ghost use Rattle.std.specs.Prelude.{◌≡◌};
ghost use Rattle.rules_by_end.specs.RulesByEnd.{end_of, other_end};

use pol_read::RuleEnds;

/// An end of a rule.
#[derive(Clone, Copy, Debug, PartialEq, Eq)]
pub enum RuleEnd {
    Source,
    Target,
}

impl RuleEnd {
    /// The other end.
    pub fn other(self) -> RuleEnd
        ensures { result ≡ other_end self }
    {
        match self {
            RuleEnd::Source => RuleEnd::Target,
            RuleEnd::Target => RuleEnd::Source,
        }
    }

    /// What a rule has as this end.
    pub fn of(self, ends: RuleEnds) -> u32
        ensures { result ≡ end_of self ends }
    {
        match self {
            RuleEnd::Source => ends.source,
            RuleEnd::Target => ends.target,
        }
    }
}
