//! The parts of a rule's text.

ghost use Rattle.std.specs.Prelude.{◌≡◌, ◌++◌, OnOk, option_map};
ghost use Rattle.pol_cursor.specs.References.{name_of};
ghost use Rattle.pol_mls.specs.MlsTexts.{range_text};
ghost use Rattle.pol_symbols.specs.PolicySymbols.{name_in, permissions_in_class};
ghost use Rattle.pol_read.specs.RuleKinds.{target_table};
ghost use Rattle.rule_text.specs.Inner.ClassPermissions.{ShowsPart};
ghost use Rattle.rule_text.specs.RuleFrames.{head_text};
ghost use Rattle.rule_text.specs.RuleTexts.{keyword, class_text, part_text, file_name_text};

use crate::ioctl_texts::push_ioctl_text;
use crate::shown_names::push_shown;
use pol_commons::PermissionView;
use pol_cursor::push_name;
use pol_fields::TableKind;
use pol_mls::{RangeView, range_text};
use pol_read::{Rule, RuleKind, RulePart};
use pol_symbols::Symbols;
use pol_texts::push_name_text;
use std::alloc::AllocError;

// The first word of the rules of a kind.
#[tactic(auto, unfolding(crate::specs::RuleTexts::keyword))]
fn keyword(kind: RuleKind) -> &'static [u8]
    ensures { result.now ≡ keyword kind }
{
    match kind {
        RuleKind::Allow | RuleKind::RoleAllow => b"allow",
        RuleKind::Auditallow => b"auditallow",
        RuleKind::Dontaudit => b"dontaudit",
        RuleKind::AllowXperm => b"allowxperm",
        RuleKind::AuditallowXperm => b"auditallowxperm",
        RuleKind::DontauditXperm => b"dontauditxperm",
        RuleKind::TypeTransition => b"type_transition",
        RuleKind::TypeChange => b"type_change",
        RuleKind::TypeMember => b"type_member",
        RuleKind::RoleTransition => b"role_transition",
        RuleKind::RangeTransition => b"range_transition",
    }
}

/// Adds the first word of the rules of a kind and a source, each with the space behind it.
#[tactic(auto, unfolding(crate::specs::RuleFrames::head_text))]
pub fn push_head(
    buffer: &mut Vec<u8>,
    symbols: &Symbols<'_>,
    kind: RuleKind,
    source: u32,
) -> Result<(), AllocError>
    ensures { OnOk result (buffer.new.items ≡ buffer.old.items ++ head_text symbols.now kind source) }
{
    buffer.extend_from_slice(keyword(kind))?;
    buffer.push(b' ')?;
    push_name(buffer, kind.source_table(), source, symbols)?;
    Ok(buffer.push(b' ')?)
}

/// Adds the name of a target of a rule of a kind.
pub(crate) fn push_target(
    buffer: &mut Vec<u8>,
    symbols: &Symbols<'_>,
    kind: RuleKind,
    target: u32,
) -> Result<(), AllocError>
    ensures { OnOk result (buffer.new.items ≡ buffer.old.items ++ name_of (name_in symbols.now) (target_table kind) target) }
{
    push_name(buffer, kind.target_table(), target, symbols)
}

/// Adds the class of a rule of a kind, behind a colon. A role allow has none.
#[tactic(auto, unfolding(crate::specs::RuleTexts::class_text))]
pub fn push_class(
    buffer: &mut Vec<u8>,
    symbols: &Symbols<'_>,
    kind: RuleKind,
    class: u32,
) -> Result<(), AllocError>
    ensures { OnOk result (buffer.new.items ≡ buffer.old.items ++ class_text symbols.now kind class) }
{
    match kind {
        RuleKind::RoleAllow => Ok(()),
        _ => {
            buffer.push(b':')?;
            push_name(buffer, TableKind::Classes, class, symbols)
        }
    }
}

/// Adds what a rule gives. The permissions of its class are handed in by name, where it gives permissions.
#[tactic(auto, unfolding(crate::specs::RuleTexts::part_text))]
pub(crate) fn push_part(
    buffer: &mut Vec<u8>,
    symbols: &Symbols<'_>,
    rule: &Rule<'_>,
    permissions: &[PermissionView<'_>],
) -> Result<(), AllocError>
    requires { ShowsPart (permissions_in_class symbols.now rule.now.class) rule.now.part permissions.now }
    ensures { OnOk result (buffer.new.items ≡ buffer.old.items ++ part_text symbols.now rule.now.kind rule.now.class rule.now.part) }
{
    match &rule.part {
        RulePart::Perms(mask) => {
            buffer.push(b' ')?;
            push_shown(buffer, permissions, *mask)
        }
        RulePart::Numbers(numbers) => {
            buffer.extend_from_slice(b" ioctl ")?;
            push_ioctl_text(buffer, numbers)
        }
        RulePart::Default(value) => {
            buffer.push(b' ')?;
            push_name(buffer, rule.kind.default_table(), *value, symbols)
        }
        RulePart::Range(range) => {
            buffer.push(b' ')?;
            push_range(buffer, symbols, range)
        }
        RulePart::Nothing => Ok(()),
    }
}

// Adds a range.
fn push_range(
    buffer: &mut Vec<u8>,
    symbols: &Symbols<'_>,
    range: &RangeView<'_>,
) -> Result<(), AllocError>
    ensures { OnOk result (buffer.new.items ≡ buffer.old.items ++ range_text (name_in symbols.now) range.now.value) }
{
    let text = range_text(*buffer.allocator(), range, symbols)?;
    buffer.extend_from_slice(&text)
}

/// Adds the name of the new object, where a rule has one.
#[tactic(auto, unfolding(crate::specs::RuleTexts::file_name_text))]
pub(crate) fn push_file_name(buffer: &mut Vec<u8>, name: Option<&[u8]>) -> Result<(), AllocError>
    ensures { OnOk result (buffer.new.items ≡ buffer.old.items ++ file_name_text (option_map (λ name. name.now) name.entry)) }
{
    match name {
        None => Ok(()),
        Some(name) => {
            buffer.extend_from_slice(b" \"")?;
            push_name_text(buffer, name)?;
            buffer.push(b'"')?;
            Ok(())
        }
    }
}
