// Which criteria are refused by their names and numbers.
ghost use Rattle.std.specs.Prelude.{◌≡◌, IfOk, is_some, map};
ghost use Rattle.std.specs.List.{list_all, list_any};
ghost use Rattle.rule_query.specs.GivenCriteria.{shown};
ghost use Rattle.rule_tests.specs.AskedNumbers.{span_of};
ghost use Rattle.rule_query.specs.Inner.Refusing.{end_table, refusal_of_elements};
ghost use Rattle.rule_query.specs.Refusals.{is_end_missing, is_missing, is_pattern_word, is_permission, is_permission_of, may_be_pattern, refusal_of, refusal_of_names, refuse_if};

use crate::given::{Aspect, GivenCriterion};
use pol_fields::TableKind;
use pol_read::RuleKind;
use pol_symbols::Symbols;
use rule_tests::{elements, is_kind_asked, span_of};
use std::alloc::{AllocError, Global};

/// Why a criterion is refused.
#[derive(Clone, Copy, Debug, PartialEq, Eq)]
pub enum Refusal {
    /// A name is not there.
    NotThere,
    /// An element is no number and no range.
    NoNumber,
}

// All kinds of rules, and those whose rules have a default.
const ALL_KINDS: [RuleKind; 12] = [
    RuleKind::Allow,
    RuleKind::Auditallow,
    RuleKind::Dontaudit,
    RuleKind::AllowXperm,
    RuleKind::AuditallowXperm,
    RuleKind::DontauditXperm,
    RuleKind::TypeTransition,
    RuleKind::TypeChange,
    RuleKind::TypeMember,
    RuleKind::RoleAllow,
    RuleKind::RoleTransition,
    RuleKind::RangeTransition,
];

const DEFAULT_KINDS: [RuleKind; 4] = [
    RuleKind::TypeTransition,
    RuleKind::TypeChange,
    RuleKind::TypeMember,
    RuleKind::RoleTransition,
];

/// Why a criterion that is given is refused, if it is. A pattern is not refused here.
#[tactic(auto, unfolding(crate::specs::Refusals::refusal_of))]
pub fn refusal_of(
    alloc: Global,
    symbols: &Symbols<'_>,
    kinds: &[bool; 12],
    given: &GivenCriterion<'_>,
) -> Result<Option<Refusal>, AllocError>
    ensures { IfOk result (λ refusal. refusal ≡ refusal_of symbols.now kinds.now (shown given.now)) }
{
    if is_pattern_word(given) {
        return Ok(None);
    }
    let text = given.criterion.text.as_str().as_bytes();
    refusal_of_names(alloc, symbols, kinds, given.aspect, text)
}

/// Whether a criterion is a pattern.
pub fn is_pattern_word(given: &GivenCriterion<'_>) -> bool
    ensures { result ≡ is_pattern_word (shown given.now) }
{
    may_be_pattern(given.aspect) && given.criterion.mode.is_pattern()
}

// Whether criteria of a part of rules may be patterns.
fn may_be_pattern(aspect: Aspect) -> bool
    ensures { result ≡ may_be_pattern aspect }
{
    match aspect {
        Aspect::Permissions | Aspect::Numbers => false,
        _ => true,
    }
}

// Why a criterion that is no pattern is refused: for its name, which is that of an end, or for the elements that it lists.
fn refusal_of_names(
    alloc: Global,
    symbols: &Symbols<'_>,
    kinds: &[bool; 12],
    aspect: Aspect,
    text: &[u8],
) -> Result<Option<Refusal>, AllocError>
    ensures { IfOk result (λ refusal. refusal ≡ refusal_of_names symbols.now kinds.now aspect text.now) }
{
    match aspect {
        Aspect::Source | Aspect::Target => {
            let missing = is_end_missing(symbols, kinds, &ALL_KINDS, aspect, text);
            Ok(refuse_if(missing, Refusal::NotThere))
        }
        Aspect::Default => {
            let missing = is_end_missing(symbols, kinds, &DEFAULT_KINDS, aspect, text);
            Ok(refuse_if(missing, Refusal::NotThere))
        }
        _ => {
            let elements = elements(alloc, text)?;
            Ok(refusal_of_elements(symbols, aspect, &elements))
        }
    }
}

// Why a list is refused for its elements.
#[tactic(auto, using(rule_tests::proofs::ClassPermissions::any_map, rule_tests::proofs::ClassPermissions::all_map))]
fn refusal_of_elements(symbols: &Symbols<'_>, aspect: Aspect, elements: &[&[u8]]) -> Option<Refusal>
    ensures { result ≡ refusal_of_elements symbols.now aspect (map (λ element. element.now) elements.now) }
{
    match aspect {
        Aspect::Numbers => refuse_if(!are_spans(elements), Refusal::NoNumber),
        Aspect::Permissions => { refuse_if(!are_permissions(symbols, elements), Refusal::NotThere) }
        Aspect::Booleans => {
            refuse_if(
                is_any_missing(symbols, TableKind::Booleans, elements),
                Refusal::NotThere,
            )
        }
        _ => refuse_if(
            is_any_missing(symbols, TableKind::Classes, elements),
            Refusal::NotThere,
        ),
    }
}

fn refuse_if(test: bool, refusal: Refusal) -> Option<Refusal>
    ensures { result ≡ refuse_if test refusal }
{
    if test { Some(refusal) } else { None }
}

// ---- names of types and roles

// Whether a table has no record of a name.
fn is_missing(symbols: &Symbols<'_>, table: TableKind, name: &[u8]) -> bool
    ensures { result ≡ is_missing symbols.now table name.now }
{
    symbols.by_name(table, name).is_none()
}

// Whether a name is missing in the table of an end of a kind that is asked, among some kinds.
fn is_end_missing(
    symbols: &Symbols<'_>,
    kinds: &[bool; 12],
    some: &[RuleKind],
    end: Aspect,
    name: &[u8],
) -> bool
    ensures { result ≡ is_end_missing symbols.now kinds.now some.now (end_table end) name.now }
{
    some.iter().any(|kind| {
        is_kind_asked(kinds, *kind) && is_missing(symbols, end_table(end, *kind), name)
    })
}

// The table of the sources of a kind, of its targets, or of its defaults.
fn end_table(end: Aspect, kind: RuleKind) -> TableKind
    ensures { result ≡ end_table end kind }
{
    match end {
        Aspect::Source => kind.source_table(),
        Aspect::Target => kind.target_table(),
        _ => kind.default_table(),
    }
}

// ---- lists

// Whether one of some names is missing in a table.
fn is_any_missing(symbols: &Symbols<'_>, table: TableKind, names: &[&[u8]]) -> bool
    ensures { result ≡ list_any (λ name. is_missing symbols.now table name.now) names.now }
{
    names.iter().any(|name| is_missing(symbols, table, name))
}

// Whether each of some names is that of a permission.
fn are_permissions(symbols: &Symbols<'_>, names: &[&[u8]]) -> bool
    ensures { result ≡ list_all (λ name. is_permission symbols.now name.now) names.now }
{
    names.iter().all(|name| is_permission(symbols, name))
}

// Whether a class or a common has a permission of a name.
fn is_permission(symbols: &Symbols<'_>, name: &[u8]) -> bool
    ensures { result ≡ is_permission symbols.now name.now }
{
    is_class_permission(symbols, name) || is_common_permission(symbols, name)
}

// Whether a class has one of its own.
#[tactic(auto, using(rule_tests::proofs::ListTests::none_more, rule_tests::proofs::ListTests::one_at, rule_tests::proofs::ListTests::none_all))]
fn is_class_permission(symbols: &Symbols<'_>, name: &[u8]) -> bool
    ensures { result ≡ list_any (λ class. is_permission_of class.value.permissions name.now) symbols.now.classes.records }
{
    for i in 0..symbols.classes.len() {
        if symbols.classes.view(i).permissions().has_name(name) {
            return true;
        }
    }
    false
}

// Whether a common has one.
#[tactic(auto, using(rule_tests::proofs::ListTests::none_more, rule_tests::proofs::ListTests::one_at, rule_tests::proofs::ListTests::none_all))]
fn is_common_permission(symbols: &Symbols<'_>, name: &[u8]) -> bool
    ensures { result ≡ list_any (λ common. is_permission_of common.value.permissions name.now) symbols.now.commons.records }
{
    for i in 0..symbols.commons.len() {
        if symbols.commons.view(i).permissions().has_name(name) {
            return true;
        }
    }
    false
}

// Whether each of some elements is a number or a range.
fn are_spans(elements: &[&[u8]]) -> bool
    ensures { result ≡ list_all (λ element. is_some (span_of element.now)) elements.now }
{
    elements.iter().all(|element| span_of(element).is_some())
}
