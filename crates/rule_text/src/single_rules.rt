//! The text of one rule of a policy.

ghost use Rattle.std.specs.Prelude.{◌≡◌, ◌<◌, ◌++◌, OnOk, IfOk, length};
ghost use Rattle.pol_symbols.specs.PolicySymbols.{permissions_in_class};
ghost use Rattle.pol_read.specs.StoredRules.{stored_rules};
ghost use Rattle.rule_text.specs.Inner.ClassPermissions.{AreByName, ShowsPart};
ghost use Rattle.rule_text.specs.RuleTexts.{text_of_rule, single_text};

use crate::class_permissions::ClassPermissions;
use crate::whole_rule::push_between;
use pol_read::{Policy, Rule, RulePart};
use pol_symbols::Symbols;
use std::alloc::{AllocError, Global};

/// Adds the text of the stored rule of that number, from 0 on, without a line feed.
///
/// The permissions of its class are sorted for it. Where many rules are written, `RuleTexts` sorts those of each class once.
#[tactic(auto, unfolding(crate::specs::RuleTexts::text_of_rule))]
pub fn push_rule(policy: &Policy<'_>, n: u32, buffer: &mut Vec<u8>) -> Result<(), AllocError>
    requires { n < length (stored_rules policy.now) }
    ensures { OnOk result (buffer.new.items ≡ buffer.old.items ++ text_of_rule policy.now n) }
{
    let rule = policy.rule(n);
    let permissions = permissions_shown(*buffer.allocator(), policy.symbols(), &rule)?;
    push_between(
        buffer,
        policy,
        &rule,
        rule.source,
        rule.target,
        permissions.as_slice(),
    )
}

/// Adds the text of the stored rule of that number with these values as its ends: of types, or of roles where the rule's ends are
/// roles. The name of a value that no record declares is empty.
#[tactic(auto, unfolding(crate::specs::RuleTexts::single_text))]
pub fn push_single(
    policy: &Policy<'_>,
    n: u32,
    source: u32,
    target: u32,
    buffer: &mut Vec<u8>,
) -> Result<(), AllocError>
    requires { n < length (stored_rules policy.now) }
    ensures { OnOk result (buffer.new.items ≡ buffer.old.items ++ single_text policy.now n source target) }
{
    let rule = policy.rule(n);
    let permissions = permissions_shown(*buffer.allocator(), policy.symbols(), &rule)?;
    push_between(
        buffer,
        policy,
        &rule,
        source,
        target,
        permissions.as_slice(),
    )
}

// The permissions of a rule's class by name, where it gives permissions.
fn permissions_shown<'a>(
    alloc: Global,
    symbols: &Symbols<'a>,
    rule: &Rule<'a>,
) -> Result<ClassPermissions<'a>, AllocError>
    ensures { IfOk result (λ sorted. ShowsPart (permissions_in_class symbols.now rule.now.class) rule.now.part sorted) }
{
    match rule.part {
        RulePart::Perms(_) => permissions_in_class(alloc, symbols, rule.class),
        _ => Ok(ClassPermissions::none(alloc)),
    }
}

// The permissions of the class of a value by name, or none where no class has it.
fn permissions_in_class<'a>(
    alloc: Global,
    symbols: &Symbols<'a>,
    class: u32,
) -> Result<ClassPermissions<'a>, AllocError>
    ensures { IfOk result (λ sorted. AreByName (permissions_in_class symbols.now class) sorted) }
{
    match symbols.classes.by_value(class) {
        Some(i) => ClassPermissions::by_name(alloc, symbols, &symbols.classes.view(i)),
        None => Ok(ClassPermissions::none(alloc)),
    }
}
