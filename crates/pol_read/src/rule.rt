ghost use Rattle.std.specs.Prelude.{◌≡◌};
ghost use Rattle.pol_read.specs.RuleKinds.{default_table, source_table, target_table};

use pol_avtab::XPerms;
use pol_fields::TableKind;
use pol_mls::RangeView;

/// The kinds of rules, in the order in which they are listed.
#[derive(Clone, Copy, Debug, PartialEq, Eq)]
pub enum RuleKind {
    Allow,
    Auditallow,
    Dontaudit,
    AllowXperm,
    AuditallowXperm,
    DontauditXperm,
    TypeTransition,
    TypeChange,
    TypeMember,
    RoleAllow,
    RoleTransition,
    RangeTransition,
}

impl RuleKind {
    /// The table that declares the sources of rules of this kind: roles, or types with the attributes.
    pub fn source_table(self) -> TableKind
        ensures { result ≡ source_table self }
    {
        match self {
            RuleKind::RoleAllow | RuleKind::RoleTransition => TableKind::Roles,
            _ => TableKind::Types,
        }
    }

    /// The table that declares their targets.
    pub fn target_table(self) -> TableKind
        ensures { result ≡ target_table self }
    {
        match self {
            RuleKind::RoleAllow => TableKind::Roles,
            _ => TableKind::Types,
        }
    }

    /// The table that declares their defaults, where they have any.
    pub fn default_table(self) -> TableKind
        ensures { result ≡ default_table self }
    {
        match self {
            RuleKind::RoleTransition => TableKind::Roles,
            _ => TableKind::Types,
        }
    }
}

/// What a rule gives besides its ends and its class.
#[derive(Drop)]
pub enum RulePart<'a> {
    /// Permissions that are shown, by their bits: bit v - 1 stands for the permission value v.
    Perms(u32),
    /// ioctl numbers.
    Numbers(XPerms<'a>),
    /// The value of a type, or of a role in a role transition.
    Default(u32),
    /// A range.
    Range(RangeView<'a>),
    Nothing,
}

/// The conditional node of a rule, from 0 on, and whether the rule holds where its condition is true, or where it is false.
#[derive(Clone, Copy, Debug, PartialEq, Eq)]
pub struct Condition {
    pub node: u32,
    pub branch: bool,
}

/// A stored rule. Its ends are types or attributes, or roles: both in a role allow, and the source in a role transition.
#[derive(Drop)]
pub struct Rule<'a> {
    pub kind: RuleKind,
    pub source: u32,
    pub target: u32,
    /// 0 in a role allow, which has none.
    pub class: u32,
    pub part: RulePart<'a>,
    /// The name of the new object, in a file-name transition.
    pub name: Option<&'a [u8]>,
    pub condition: Option<Condition>,
}

/// The ends of a stored rule, with its kind and its class.
#[derive(Clone, Copy, Debug, PartialEq, Eq)]
pub struct RuleEnds {
    pub kind: RuleKind,
    pub source: u32,
    pub target: u32,
    /// 0 in a role allow, which has none.
    pub class: u32,
}
