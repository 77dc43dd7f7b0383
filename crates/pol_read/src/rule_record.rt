// What stored rules are read from.
ghost use Rattle.std.specs.Prelude.{◌≡◌, Some, option_map};
ghost use Rattle.pol_avtab.specs.AvKeys.{kind_of, key_of};
ghost use Rattle.pol_read.specs.StoredRules.{StoredRule, stored, ends_of, rule_kind, plain_part, rule_part, av_rule};
ghost use Rattle.pol_read.specs.Inner.RuleRecords.{rule_of};

use crate::rule::{Condition, Rule, RuleEnds, RuleKind, RulePart};
use pol_avtab::codes::{
    AVTAB_ALLOWED, AVTAB_AUDITALLOW, AVTAB_AUDITDENY, AVTAB_CHANGE, AVTAB_MEMBER, AVTAB_TRANSITION,
    AVTAB_XPERMS_ALLOWED, AVTAB_XPERMS_AUDITALLOW,
};
use pol_avtab::{AvKey, AvView, shown_mask};
use pol_trans::{
    NameDatumView, NameGroupView, NameTransView, RangeTransView, RoleAllowView, RoleTransView,
};

/// The record in the policy that a stored rule is read from.
#[derive(Drop)]
pub enum RuleRecord<'a> {
    /// An access vector, and the condition that it stands under.
    Vector(AvView<'a>, Option<Condition>),
    /// A role transition.
    RoleTrans(RoleTransView<'a>),
    /// A role allow.
    RoleAllow(RoleAllowView<'a>),
    /// A file-name transition that stands by itself.
    NameTrans(NameTransView<'a>),
    /// A group of file-name transitions, a datum of it, and one of its sources.
    NameSource(NameGroupView<'a>, NameDatumView<'a>, u32),
    /// A range transition.
    RangeTrans(RangeTransView<'a>),
}

impl<'a> RuleRecord<'a> {
    /// The rule.
    #[inline(always)]
    pub fn rule(&self) -> Rule<'a>
        ensures { stored result ≡ rule_of self.now }
    {
        match self {
            RuleRecord::Vector(view, condition) => vector_rule(view, *condition),
            RuleRecord::RoleTrans(transition) => {
                let part = RulePart::Default(transition.newrole());
                rule_with(self.ends(), part, None, None)
            }
            RuleRecord::RoleAllow(_) => rule_with(self.ends(), RulePart::Nothing, None, None),
            RuleRecord::NameTrans(transition) => {
                let part = RulePart::Default(transition.default());
                rule_with(self.ends(), part, Some(transition.name()), None)
            }
            RuleRecord::NameSource(group, datum, _) => {
                let part = RulePart::Default(datum.default());
                rule_with(self.ends(), part, Some(group.name()), None)
            }
            RuleRecord::RangeTrans(transition) => {
                let part = RulePart::Range(transition.range());
                rule_with(self.ends(), part, None, None)
            }
        }
    }

    /// Its kind. Nothing else of the rule is read.
    #[inline(always)]
    pub fn kind(&self) -> RuleKind
        ensures { result ≡ (rule_of self.now).kind }
    {
        match self {
            RuleRecord::Vector(view, _) => vector_kind(view),
            RuleRecord::RoleTrans(_) => RuleKind::RoleTransition,
            RuleRecord::RoleAllow(_) => RuleKind::RoleAllow,
            RuleRecord::NameTrans(_) | RuleRecord::NameSource(_, _, _) => RuleKind::TypeTransition,
            RuleRecord::RangeTrans(_) => RuleKind::RangeTransition,
        }
    }

    /// Its ends, with its kind and its class.
    #[inline(always)]
    pub fn ends(&self) -> RuleEnds
        ensures { result ≡ ends_of (rule_of self.now) }
    {
        match self {
            RuleRecord::Vector(view, _) => vector_ends(view.key()),
            RuleRecord::RoleTrans(transition) => RuleEnds {
                kind: RuleKind::RoleTransition,
                source: transition.role(),
                target: transition.type_value(),
                class: transition.class(),
            },
            RuleRecord::RoleAllow(allow) => RuleEnds {
                kind: RuleKind::RoleAllow,
                source: allow.role(),
                target: allow.newrole(),
                class: 0,
            },
            RuleRecord::NameTrans(transition) => RuleEnds {
                kind: RuleKind::TypeTransition,
                source: transition.source(),
                target: transition.target(),
                class: transition.class(),
            },
            RuleRecord::NameSource(group, _, source) => RuleEnds {
                kind: RuleKind::TypeTransition,
                source: *source,
                target: group.target(),
                class: group.class(),
            },
            RuleRecord::RangeTrans(transition) => RuleEnds {
                kind: RuleKind::RangeTransition,
                source: transition.source(),
                target: transition.target(),
                class: transition.class(),
            },
        }
    }
}

// The rule that has these ends.
#[inline(always)]
fn rule_with<'a>(
    ends: RuleEnds,
    part: RulePart<'a>,
    name: Option<&'a [u8]>,
    condition: Option<Condition>,
) -> Rule<'a>
    ensures ends { ends_of (stored result) ≡ ends }
    ensures part { result.part ≡ part.entry }
    ensures name { option_map (λ name. name.now) result.name ≡ option_map (λ name. name.now) name.entry }
    ensures condition { result.condition ≡ condition }
{
    Rule {
        kind: ends.kind,
        source: ends.source,
        target: ends.target,
        class: ends.class,
        part,
        name,
        condition,
    }
}

// ---- access vectors

/// The rule that an access vector is, which stands under a condition or under none.
#[inline(always)]
pub fn vector_rule<'a>(view: &AvView<'a>, condition: Option<Condition>) -> Rule<'a>
    ensures { stored result ≡ av_rule condition view.now }
{
    let key = view.key();
    let part = vector_part(view, key.specified);
    rule_with(vector_ends(key), part, None, condition)
}

/// The kind of the rule that an access vector is.
#[inline(always)]
fn vector_kind(view: &AvView<'_>) -> RuleKind
    ensures { result ≡ rule_kind (kind_of view.now.value.specified) }
{
    rule_kind(view.key().specified)
}

/// The ends of the rule that an access vector of that key is.
#[inline(always)]
pub fn vector_ends(key: AvKey) -> RuleEnds
    ensures { result ≡ record { kind = rule_kind key.specified; source = key.source; target = key.target; class = key.class } }
{
    RuleEnds {
        kind: rule_kind(key.specified),
        source: u32::from(key.source),
        target: u32::from(key.target),
        class: u32::from(key.class),
    }
}

/// The kind of rule that an access vector is which specifies this, without the mark `AVTAB_ENABLED`, which has no meaning in a file. What no
/// other kind specifies is that of dontaudit rules with ioctl numbers.
#[inline(always)]
pub fn rule_kind(kind: u16) -> RuleKind
    ensures { result ≡ rule_kind kind }
{
    match kind {
        AVTAB_ALLOWED => RuleKind::Allow,
        AVTAB_AUDITALLOW => RuleKind::Auditallow,
        AVTAB_AUDITDENY => RuleKind::Dontaudit,
        AVTAB_TRANSITION => RuleKind::TypeTransition,
        AVTAB_MEMBER => RuleKind::TypeMember,
        AVTAB_CHANGE => RuleKind::TypeChange,
        AVTAB_XPERMS_ALLOWED => RuleKind::AllowXperm,
        AVTAB_XPERMS_AUDITALLOW => RuleKind::AuditallowXperm,
        _ => RuleKind::DontauditXperm,
    }
}

// Its default type, the permissions that it shows, or its ioctl numbers.
#[tactic(auto, using(crate::proofs::RuleSums::part_of_numbers, crate::proofs::RuleSums::part_of_data, crate::proofs::RuleSums::some_part))]
#[inline(always)]
fn vector_part<'a>(view: &AvView<'a>, kind: u16) -> RulePart<'a>
    requires { kind ≡ kind_of view.now.value.specified }
    ensures { result ≡ rule_part view.now.value.specified view.now.value.part }
{
    match view.mask() {
        Some(mask) => plain_part(view.specified(), kind, mask),
        None => match view.xperms() {
            Some(numbers) => RulePart::Numbers(numbers),
            None => unreachable!(),
        },
    }
}

// Its default type, or the permissions that it shows.
#[inline(always)]
fn plain_part<'a>(specified: u16, kind: u16, mask: u32) -> RulePart<'a>
    requires { kind ≡ kind_of specified }
    ensures { result ≡ plain_part specified mask }
{
    match kind {
        AVTAB_TRANSITION | AVTAB_MEMBER | AVTAB_CHANGE => RulePart::Default(mask),
        _ => RulePart::Perms(shown_mask(specified, mask)),
    }
}
