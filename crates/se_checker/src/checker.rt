// A policy that is held to checks.
ghost use Rattle.std.specs.Prelude.{◌≡◌, IfOk};
ghost use Rattle.se_checker.specs.Verdicts.{Rules, Types, attribute_types, rules_against, verdict_of, written_executables};
ghost use Rattle.se_checker.specs.Inner.VerdictViews.{HasRules, shown};

use crate::allow_rules::AllowRules;
use crate::assertions::rules_against;
use crate::executables::written_executables;
use crate::named_types::members;
use check_list::{Check, CheckKey, CheckKind};
use pol_bitmap::Set;
use pol_expand::{TypeMap, type_map};
use pol_read::Policy;
use std::alloc::{AllocError, Global};
use std::marker::Model;

/// What a check finds. It passes where that is nothing.
#[derive(Drop)]
pub enum Verdict {
    /// The numbers of rules, in the order in which rules are listed.
    Rules(Vec<u32>),
    /// Types.
    Types(Set),
}

/// A policy that is held to checks: its types are expanded and its allow rules gathered once for all of them. Contracts see the policy.
#[derive(Drop)]
pub struct Checker<'p, 'a> {
    policy: &'p Policy<'a>,
    types: TypeMap,
    rules: AllowRules,
}

impl<'p, 'a> Model for Checker<'p, 'a> {
    ghost use Rattle.pol_file.specs.declared.Parts.{Parts};
    ghost use Rattle.pol_expand.specs.PolicyMap.{IsPolicyMap};
    ghost use Rattle.se_checker.specs.Inner.AllowRules.{AreAllowRules};

    ghost Value = { Parts };

    ghost view = { λ c. c.policy.now };

    ghost invariant = { λ c. IsPolicyMap c.policy.now c.types × AreAllowRules c.policy.now c.rules };
}

impl<'p, 'a> Checker<'p, 'a> {
    /// Holds a policy to checks.
    pub fn new(alloc: Global, policy: &'p Policy<'a>) -> Result<Checker<'p, 'a>, AllocError>
        ensures { IfOk result (λ checker. checker ≡ policy.now) }
    {
        Ok(Checker {
            policy,
            types: type_map(alloc, policy)?,
            rules: AllowRules::of(alloc, policy)?,
        })
    }

    /// What a check finds. A name that the policy lacks has no member.
    pub fn verdict(&self, alloc: Global, check: &Check<'_>) -> Result<Verdict, AllocError>
        ensures found { IfOk result (λ verdict. shown verdict ≡ verdict_of self.now check.now) }
        ensures rules { IfOk result (HasRules self.now) }
    {
        match check.kind() {
            CheckKind::AssertTe => self.against(alloc, check),
            CheckKind::EmptyTypeattr => self.of_attributes(alloc, check),
            CheckKind::RoExecs => self.written(alloc, check),
        }
    }

    // The rules that an assertion finds.
    fn against(&self, alloc: Global, check: &Check<'_>) -> Result<Verdict, AllocError>
        ensures found { IfOk result (λ verdict. shown verdict ≡ Rules (rules_against self.now check.now)) }
        ensures rules { IfOk result (HasRules self.now) }
    {
        let numbers = rules_against(alloc, self.policy, &self.types, &self.rules, check)?;
        Ok(Verdict::Rules(numbers))
    }

    // The types that attributes expand to.
    fn of_attributes(&self, alloc: Global, check: &Check<'_>) -> Result<Verdict, AllocError>
        ensures found { IfOk result (λ verdict. shown verdict ≡ Types (attribute_types self.now check.now)) }
        ensures rules { IfOk result (HasRules self.now) }
    {
        let names = check.listed(CheckKey::Attr);
        let found = members(alloc, self.policy, &self.types, names)?;
        Ok(Verdict::Types(found))
    }

    // The types of files that are executed and written.
    fn written(&self, alloc: Global, check: &Check<'_>) -> Result<Verdict, AllocError>
        ensures found { IfOk result (λ verdict. shown verdict ≡ Types (written_executables self.now check.now)) }
        ensures rules { IfOk result (HasRules self.now) }
    {
        let found = written_executables(alloc, self.policy, &self.types, &self.rules, check)?;
        Ok(Verdict::Types(found))
    }
}
