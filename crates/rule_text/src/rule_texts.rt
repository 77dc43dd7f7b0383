//! The texts of many rules of a policy.

ghost use Rattle.std.specs.Prelude.{◌≡◌, ◌<◌, ◌++◌, ℕ, OnOk, IfOk, codes, length};
ghost use Rattle.pol_symbols.specs.PolicySymbols.{permissions_in_class};
ghost use Rattle.pol_read.specs.StoredRules.{stored_rules};
ghost use Rattle.rule_text.specs.Inner.ClassPermissions.{ShowsPart};
ghost use Rattle.rule_text.specs.RuleFrames.{given_text};
ghost use Rattle.rule_text.specs.RuleFrames.{frame_line};
ghost use Rattle.rule_text.specs.RuleTexts.{text_of_rule, single_text};

use crate::permission_table::PermissionTable;
use crate::rule_frame::RuleFrame;
use crate::whole_rule::{push_between, push_given, push_rest};
use pol_commons::PermissionView;
use pol_read::{Policy, Rule, RulePart};
use std::alloc::{AllocError, Global};
use std::marker::Model;

/// The texts of the rules of a policy, where many are written: the permissions of each class are sorted once. Contracts see the
/// policy.
#[derive(Drop)]
pub struct RuleTexts<'p, 'a> {
    policy: &'p Policy<'a>,
    permissions: PermissionTable<'a>,
}

impl<'p, 'a> Model for RuleTexts<'p, 'a> {
    ghost use Rattle.pol_file.specs.declared.Parts.{Parts};
    ghost use Rattle.rule_text.specs.Inner.ClassPermissions.{AreOfClasses};

    ghost Value = { Parts };

    ghost view = { λ texts. texts.policy.now };

    ghost invariant = { λ texts. AreOfClasses texts.policy.now.symbols texts.permissions };
}

impl<'p, 'a> RuleTexts<'p, 'a> {
    /// The texts of the rules of a policy.
    pub fn new(alloc: Global, policy: &'p Policy<'a>) -> Result<RuleTexts<'p, 'a>, AllocError>
        ensures { IfOk result (λ texts. texts ≡ policy.now) }
    {
        let permissions = PermissionTable::new(alloc, policy.symbols())?;
        Ok(RuleTexts {
            policy,
            permissions,
        })
    }

    /// Adds the text of the stored rule of that number, from 0 on, without a line feed. Nothing is taken from memory besides, except
    /// for a condition or a range.
    #[tactic(auto, unfolding(crate::specs::RuleTexts::text_of_rule))]
    pub fn push_rule(&self, n: u32, buffer: &mut Vec<u8>) -> Result<(), AllocError>
        requires { n < length (stored_rules self.now) }
        ensures { OnOk result (buffer.new.items ≡ buffer.old.items ++ text_of_rule self.now n) }
    {
        let rule = self.policy.rule(n);
        let permissions = self.permissions_shown(&rule);
        push_between(
            buffer,
            self.policy,
            &rule,
            rule.source,
            rule.target,
            permissions,
        )
    }

    /// Adds the text of the stored rule of that number with these values as its ends.
    #[tactic(auto, unfolding(crate::specs::RuleTexts::single_text))]
    pub fn push_single(
        &self,
        n: u32,
        source: u32,
        target: u32,
        buffer: &mut Vec<u8>,
    ) -> Result<(), AllocError>
        requires { n < length (stored_rules self.now) }
        ensures { OnOk result (buffer.new.items ≡ buffer.old.items ++ single_text self.now n source target) }
    {
        let rule = self.policy.rule(n);
        let permissions = self.permissions_shown(&rule);
        push_between(buffer, self.policy, &rule, source, target, permissions)
    }

    /// The line of the stored rule of that number with its ends left open.
    pub fn frame(&self, alloc: Global, n: u32) -> Result<RuleFrame<'p, 'a>, AllocError>
        requires { n < length (stored_rules self.now) }
        ensures line { IfOk result (λ frame. (source target : ℕ) → frame_line frame source target ≡ single_text self.now n source target ++ codes "\n") }
        ensures symbols { IfOk result (λ frame. frame.symbols.now ≡ self.now.symbols) }
    {
        let rule = self.policy.rule(n);
        let permissions = self.permissions_shown(&rule);
        let mut rest = Vec::new(alloc);
        push_rest(&mut rest, self.policy, &rule, permissions)?;
        rest.push(b'\n')?;
        Ok(RuleFrame {
            symbols: self.policy.symbols(),
            kind: rule.kind,
            rest,
        })
    }

    /// The policy.
    pub fn policy(&self) -> &'p Policy<'a>
        ensures { result.now ≡ self.now }
    {
        self.policy
    }

    /// Adds the class of a rule and what the rule gives.
    pub fn push_given(&self, buffer: &mut Vec<u8>, rule: &Rule<'a>) -> Result<(), AllocError>
        ensures { OnOk result (buffer.new.items ≡ buffer.old.items ++ given_text self.now.symbols rule.now.kind rule.now.class rule.now.part) }
    {
        push_given(
            buffer,
            self.policy.symbols(),
            rule,
            self.permissions_shown(rule),
        )
    }

    // The permissions of a rule's class by name, where it gives permissions.
    fn permissions_shown(&self, rule: &Rule<'a>) -> &[PermissionView<'a>]
        ensures { ShowsPart (permissions_in_class self.now.symbols rule.now.class) rule.now.part result.now }
    {
        match rule.part {
            RulePart::Perms(_) => self.permissions.of_class(self.policy.symbols(), rule.class),
            _ => &[],
        }
    }
}
