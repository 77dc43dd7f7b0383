// Files that are executed and written.
ghost use Rattle.std.specs.Prelude.{◌≡◌, true, IfOk};
ghost use Rattle.std.specs.List.{All};
ghost use Rattle.pol_bitmap.specs.Nodes.{bits_of};
ghost use Rattle.pol_expand.specs.JoinedTypes.{is_between_types};
ghost use Rattle.pol_expand.specs.PolicyMap.{IsPolicyMap};
ghost use Rattle.rules_between.specs.ChosenRules.{targets_of_rules};
ghost use Rattle.rules_between.specs.Inner.RuleTables.{AreTargetsOf};
ghost use Rattle.text_rows.specs.TextLines.{fields_in};
ghost use Rattle.se_checker.specs.Verdicts.{rules_asked, written_executables};
ghost use Rattle.se_checker.specs.Inner.AllowRules.{AreAllowRules};
ghost use Rattle.se_checker.specs.Inner.FileTypes.{asked_of_files};

use crate::allow_rules::AllowRules;
use crate::asked::Asked;
use crate::assertions::rules_asked;
use crate::named_types::members;
use check_list::{Check, CheckKey};
use pol_bitmap::Set;
use pol_expand::{TypeMap, types_of};
use pol_read::Policy;
use std::alloc::{AllocError, Global};
use value_groups::Marked;

/// The types of files that a domain executes and a domain writes or appends to, without those that are exempt. No pair of types is
/// looked at: the allow rules of files are gone through once for what is executed, and once for what is written.
pub fn written_executables(
    alloc: Global,
    policy: &Policy<'_>,
    types: &TypeMap,
    rules: &AllowRules,
    check: &Check<'_>,
) -> Result<Set, AllocError>
    requires map { IsPolicyMap policy.now types.now }
    requires rules { AreAllowRules policy.now rules.now }
    ensures { IfOk result (λ set. bits_of set ≡ written_executables policy.now check.now) }
{
    // the policy was accepted, and so the ends of an allow rule are types and attributes
    policy.is_accepted();
    let exempt = check.listed(CheckKey::ExemptFile);
    let executing = check.listed(CheckKey::ExemptExecDomain);
    let writing = check.listed(CheckKey::ExemptWriteDomain);
    let executed = files_given(alloc, policy, types, rules, executing, exempt, b"execute")?;
    let written = files_given(
        alloc,
        policy,
        types,
        rules,
        writing,
        exempt,
        b"write append",
    )?;
    let both = executed.common(alloc, &written)?;
    let without = members(alloc, policy, types, exempt)?;
    both.difference(alloc, &without)
}

// The types that the targets of rules expand to by which domains that are not exempt have one of some permissions of files.
fn files_given(
    alloc: Global,
    policy: &Policy<'_>,
    types: &TypeMap,
    rules: &AllowRules,
    exempt_domains: &[u8],
    exempt_files: &[u8],
    permissions: &[u8],
) -> Result<Set, AllocError>
    requires map { IsPolicyMap policy.now types.now }
    requires rules { AreAllowRules policy.now rules.now }
    ensures { IfOk result (λ set. bits_of set ≡ targets_of_rules policy.now (rules_asked policy.now (asked_of_files (fields_in exempt_domains.now) (fields_in exempt_files.now) (fields_in permissions.now)))) }
{
    let asked = asked_of_files(exempt_domains, exempt_files, permissions);
    let numbers = rules_asked(alloc, policy, types, rules, &asked)?;
    targets_of(alloc, policy, types, &numbers)
}

// The types that the targets of rules expand to.
fn targets_of(
    alloc: Global,
    policy: &Policy<'_>,
    types: &TypeMap,
    numbers: &[u32],
) -> Result<Set, AllocError>
    requires map { IsPolicyMap policy.now types.now }
    requires rules { All (λ number. is_between_types policy.now number ≡ true) numbers.now }
    ensures { IfOk result (λ set. bits_of set ≡ targets_of_rules policy.now numbers.now) }
{
    let ends = target_ends(alloc, policy, numbers)?;
    types_of(alloc, policy, types, ends.values())
}

// The targets of rules, as they are stored.
fn target_ends(alloc: Global, policy: &Policy<'_>, numbers: &[u32]) -> Result<Marked, AllocError>
    requires { All (λ number. is_between_types policy.now number ≡ true) numbers.now }
    ensures { IfOk result (λ ends. AreTargetsOf policy.now numbers.now ends.values) }
{
    // the policy was accepted, and so the ends of an allow rule are types and attributes
    policy.is_accepted();
    let mut ends = Marked::new(alloc, policy.type_count() as usize + 1)?;
    for number in numbers {
        ends.add(policy.rule_ends(*number).target)?;
    }
    Ok(ends)
}

// What is asked of the rules of files.
#[tactic(auto, using(crate::proofs::FileWords::file_alone))]
fn asked_of_files<'a>(
    exempt_domains: &'a [u8],
    exempt_files: &'a [u8],
    permissions: &'a [u8],
) -> Asked<'a>
    ensures { result ≡ asked_of_files (fields_in exempt_domains.now) (fields_in exempt_files.now) (fields_in permissions.now) }
{
    Asked {
        source: None,
        exempt_source: exempt_domains,
        target: None,
        exempt_target: exempt_files,
        class: Some(b"file"),
        perms: Some(permissions),
    }
}
