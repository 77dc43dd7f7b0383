// The values in whose names a pattern is found.
ghost use Rattle.std.specs.Prelude.{◌≡◌, ℕ, List, [], ◌∷◌, ◌++◌, IfOk, OnOk, option_map, if◌then◌else◌};
ghost use Rattle.std.specs.Char.{is_ascii};
ghost use Rattle.std.specs.List.{filter, list_all};
ghost use Rattle.pol_bitmap.specs.Nodes.{has_bit};
ghost use Rattle.pol_symbols.specs.PolicySymbols.{name_in, record_values};
ghost use Rattle.regex.specs.Strings.{regex_pattern, matcher_pattern};
ghost use Rattle.se_outside.specs.Patterns.{IsBuiltFrom};
ghost use Rattle.named_values.specs.Found.{has_pattern, of_name, is_found};

use pol_bitmap::Set;
use pol_fields::TableKind;
use pol_symbols::Symbols;
use regex::{Matcher, Regex};
use std::alloc::{AllocError, Global};
use std::str;

/// The values of a table in whose names a pattern is found. It goes through the records once.
pub fn values_found(
    alloc: Global,
    symbols: &Symbols<'_>,
    table: TableKind,
    pattern: &Regex,
) -> Result<Set, AllocError>
    ensures { IfOk result (λ set. (text : List ℕ) → IsBuiltFrom text pattern.now → (value : ℕ) → has_bit set value ≡ is_found symbols.now table text value) }
{
    let values = found_values(alloc, symbols, table, pattern)?;
    Set::from_values(alloc, values)
}

// Record by record, the values in whose names it is found.
fn found_values(
    alloc: Global,
    symbols: &Symbols<'_>,
    table: TableKind,
    pattern: &Regex,
) -> Result<Vec<u32>, AllocError>
    ensures { IfOk result (λ values. values.items ≡ filter (λ value. of_name (has_pattern (regex_pattern pattern.now)) (name_in symbols.now table value)) (record_values symbols.now table)) }
{
    let mut matcher = pattern.matcher(alloc)?;
    let mut values = Vec::new(alloc);
    for number in 0..symbols.len(table) {
        let value = symbols.record_value(table, number);
        let found = is_found(&mut matcher, symbols.name_of(table, value));
        push_if(&mut values, value, found)?;
    }
    Ok(values)
}

// Appends a value where it is found.
fn push_if(values: &mut Vec<u32>, value: u32, found: bool) -> Result<(), AllocError>
    ensures { OnOk result (values.new.items ≡ values.old.items ++ (if found then value ∷ [] else [])) }
{
    if found {
        values.push(value)?;
    }
    Ok(())
}

// Whether the pattern is found in a name, where there is one.
fn is_found(matcher: &mut Matcher<'_>, name: Option<&[u8]>) -> bool
    ensures found { result ≡ of_name (has_pattern (matcher_pattern matcher.old)) (option_map (λ name. name.now) name.entry) }
    ensures same { matcher_pattern matcher.new ≡ matcher_pattern matcher.old }
{
    match name {
        Some(name) => has_pattern(matcher, name),
        None => false,
    }
}

// Whether the pattern is found in a name.
fn has_pattern(matcher: &mut Matcher<'_>, name: &[u8]) -> bool
    ensures found { result ≡ has_pattern (matcher_pattern matcher.old) name.now }
    ensures same { matcher_pattern matcher.new ≡ matcher_pattern matcher.old }
{
    if !is_ascii(name) {
        return false;
    }
    let Ok(text) = str::from_utf8(name) else {
        unreachable!()
    };
    matcher.is_match(text)
}

// Whether a name is ASCII text.
fn is_ascii(name: &[u8]) -> bool
    ensures { result ≡ list_all is_ascii name.now }
{
    name.iter().all(|byte| byte.is_ascii())
}
