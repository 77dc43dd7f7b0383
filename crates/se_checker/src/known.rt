// The names of a list that a policy lacks.
ghost use Rattle.std.specs.Prelude.{◌≡◌, codes, option_map};
ghost use Rattle.std.specs.List.{find, list_all, list_any};
ghost use Rattle.std.specs.Str.{bytes_eq};
ghost use Rattle.text_rows.specs.TextLines.{fields_in};
ghost use Rattle.pol_fields.specs.declared.TableKind.TheVariants.{Types};
ghost use Rattle.pol_symbols.specs.PolicySymbols.{value_in};
ghost use Rattle.check_list.specs.Inner.LineViews.{setting_of};
ghost use Rattle.se_checker.specs.KnownNames.{first_unknown, has_name, has_unknown, is_attribute_value, is_known, is_permission, may_miss, unknown_in, unknown_name};

use check_list::{Check, CheckKey, CheckList, ListCause, ListFault, Setting};
use pol_datums::Flavour;
use pol_expand::is_flavour;
use pol_fields::TableKind;
use pol_read::Policy;
use pol_symbols::Symbols;
use text_rows::first_field;

/// The fault of the first line of a list with a name that the policy lacks, if there is one.
pub fn unknown_name(policy: &Policy<'_>, list: &CheckList<'_>) -> Option<ListFault>
    ensures { result ≡ unknown_name policy.now.symbols list.now }
{
    match first_unknown(policy.symbols(), list) {
        Some(line) => Some(ListFault {
            line,
            cause: ListCause::UnknownName,
        }),
        None => None,
    }
}

// That line.
fn first_unknown(symbols: &Symbols<'_>, list: &CheckList<'_>) -> Option<u32>
    ensures { result ≡ first_unknown symbols.now list.now }
{
    for i in 0..list.len() {
        match unknown_in(symbols, list.check(i)) {
            Some(line) => return Some(line),
            None => {}
        }
    }
    None
}

// The first line of a check with such a name.
fn unknown_in(symbols: &Symbols<'_>, check: &Check<'_>) -> Option<u32>
    ensures { result ≡ unknown_in symbols.now check.now }
{
    let missing = may_miss(check);
    match unknown_setting(symbols, missing, check.settings()) {
        Some(setting) => Some(setting.line),
        None => None,
    }
}

// The first setting with such a name.
fn unknown_setting<'s, 'a>(
    symbols: &Symbols<'_>,
    missing: bool,
    settings: &'s [Setting<'a>],
) -> Option<&'s Setting<'a>>
    ensures { option_map (λ setting. setting.now) result ≡ find (λ setting. has_unknown symbols.now missing (setting_of setting)) settings.now }
{
    settings
        .iter()
        .find(|setting| has_unknown(symbols, missing, setting))
}

// Whether a setting has such a name.
fn has_unknown(symbols: &Symbols<'_>, missing: bool, setting: &Setting<'_>) -> bool
    ensures { result ≡ has_unknown symbols.now missing (setting_of setting.now) }
{
    !are_known(symbols, missing, setting.key, setting.values)
}

// Whether the policy has all names that a key is given.
fn are_known(symbols: &Symbols<'_>, missing: bool, key: CheckKey, names: &[u8]) -> bool
    ensures { result ≡ list_all (is_known symbols.now missing key) (fields_in names.now) }
{
    let mut rest = names;
    while let Some((name, after)) = first_field(rest) {
        if !is_known(symbols, missing, key, name) {
            return false;
        }
        rest = after;
    }
    true
}

// Whether a check may name attributes that the policy lacks.
fn may_miss(check: &Check<'_>) -> bool
    ensures { result ≡ may_miss check.now }
{
    has_true(check.listed(CheckKey::MissingOk))
}

// Whether one of the fields of a text is `true`.
fn has_true(text: &[u8]) -> bool
    ensures { result ≡ list_any (λ word. bytes_eq word (codes "true")) (fields_in text.now) }
{
    let mut rest = text;
    while let Some((word, after)) = first_field(rest) {
        if word == b"true".as_slice() {
            return true;
        }
        rest = after;
    }
    false
}

// Whether the policy has the name that a key is given.
fn is_known(symbols: &Symbols<'_>, missing: bool, key: CheckKey, name: &[u8]) -> bool
    ensures { result ≡ is_known symbols.now missing key name.now }
{
    match key {
        CheckKey::Class => symbols.by_name(TableKind::Classes, name).is_some(),
        CheckKey::Perms => is_permission(symbols, name),
        CheckKey::Attr => missing || is_attribute(symbols, name),
        CheckKey::MissingOk => true,
        _ => symbols.by_name(TableKind::Types, name).is_some(),
    }
}

// Whether a name is that of an attribute.
fn is_attribute(symbols: &Symbols<'_>, name: &[u8]) -> bool
    ensures { result ≡ is_attribute_value symbols.now (value_in symbols.now Types name.now) }
{
    match symbols.by_name(TableKind::Types, name) {
        Some(value) => is_flavour(Flavour::Attribute, symbols.flavour(value)),
        None => false,
    }
}

// Whether a class or a common has a permission of a name.
fn is_permission(symbols: &Symbols<'_>, name: &[u8]) -> bool
    ensures { result ≡ is_permission symbols.now name.now }
{
    is_class_permission(symbols, name) || is_common_permission(symbols, name)
}

// Whether a class has one of its own.
#[tactic(auto, using(rule_tests::proofs::ListTests::none_more, rule_tests::proofs::ListTests::one_at, rule_tests::proofs::ListTests::none_all))]
fn is_class_permission(symbols: &Symbols<'_>, name: &[u8]) -> bool
    ensures { result ≡ list_any (λ class. has_name class.value.permissions name.now) symbols.now.classes.records }
{
    for i in 0..symbols.classes.len() {
        if symbols.classes.view(i).permissions().has_name(name) {
            return true;
        }
    }
    false
}

// Whether a common has one.
#[tactic(auto, using(rule_tests::proofs::ListTests::none_more, rule_tests::proofs::ListTests::one_at, rule_tests::proofs::ListTests::none_all))]
fn is_common_permission(symbols: &Symbols<'_>, name: &[u8]) -> bool
    ensures { result ≡ list_any (λ common. has_name common.value.permissions name.now) symbols.now.commons.records }
{
    for i in 0..symbols.commons.len() {
        if symbols.commons.view(i).permissions().has_name(name) {
            return true;
        }
    }
    false
}
