// Criteria of a search, and how the text of one is compared.
ghost use Rattle.std.specs.Prelude.{◌≡◌};
ghost use Rattle.rule_criteria.specs.Modes.{is_pattern, is_direct};

use crate::CriterionText;

/// How the text of a criterion is compared with a part of a rule. A mode that a criterion does not have is as [`Mode::Plain`].
#[derive(Clone, Copy, Debug, PartialEq, Eq)]
pub enum Mode {
    /// By names: for types, over what both expand to; for lists, that one member is shared.
    Plain,
    /// By the name of the stored source or target alone.
    Direct,
    /// By a pattern that is found in a name: for types, in the name of some type of the expansion.
    Pattern,
    /// By a pattern that is found in the name of the stored source or target.
    PatternDirect,
    /// By lists of the same members.
    Equal,
    /// By a list whose members the rule has, among others.
    Subset,
}

/// A criterion: its text, the number of the word that has it, and how it is compared.
#[derive(Drop)]
pub struct Criterion {
    pub text: CriterionText,
    pub word: u64,
    pub mode: Mode,
}

/// What a search asks for: rules of some kinds that meet each criterion that is given.
pub struct Criteria {
    /// Whether a kind is asked for: allow, auditallow, dontaudit, allowxperm, auditallowxperm, dontauditxperm, type_transition,
    /// type_change, type_member, role_allow, role_transition, range_transition.
    pub kinds: [bool; 12],
    /// One name, or a pattern; plain, direct or both.
    pub source: Option<Criterion>,
    /// One name, or a pattern; plain, direct or both.
    pub target: Option<Criterion>,
    /// A list of names, or a pattern.
    pub class: Option<Criterion>,
    /// A list of names: plain, equal or subset.
    pub perms: Option<Criterion>,
    /// A list of numbers and ranges: plain or equal.
    pub xperms: Option<Criterion>,
    /// One name, or a pattern.
    pub default: Option<Criterion>,
    /// A list of names, plain or equal, or a pattern.
    pub bools: Option<Criterion>,
}

// Its parts go in one call, wherever it is dropped.
impl Drop for Criteria {
    fn drop(self) {
        let Criteria {
            kinds,
            source,
            target,
            class,
            perms,
            xperms,
            default,
            bools,
        } = self;
    }
}

impl Mode {
    /// Whether the text is a pattern.
    pub fn is_pattern(self) -> bool
        ensures { result ≡ is_pattern self }
    {
        match self {
            Mode::Pattern | Mode::PatternDirect => true,
            _ => false,
        }
    }

    /// Whether the text is compared with the stored source or target alone.
    pub fn is_direct(self) -> bool
        ensures { result ≡ is_direct self }
    {
        match self {
            Mode::Direct | Mode::PatternDirect => true,
            _ => false,
        }
    }
}
