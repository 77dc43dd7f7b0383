// Types that words name.
ghost use Rattle.std.specs.Prelude.{◌≡◌, ◌≤◌, ℕ, IfOk, IfSome, Some, map, option_map};
ghost use Rattle.std.specs.Option.{ForSome, option_to_list};
ghost use Rattle.pol_bitmap.specs.Nodes.{has_bit};
ghost use Rattle.se_words.specs.Options.{named_view};
ghost use Rattle.se_walks.specs.GraphItems.{AreWithin};
ghost use Rattle.se_walks.specs.TypeNames.{ends_named, first_unknown, is_excluded, plain_value, target_named, type_named, type_words, unknown_word};

use crate::Ends;
use named_values::values_named;
use pol_bitmap::Set;
use pol_expand::is_type;
use pol_fields::TableKind;
use pol_read::Policy;
use pol_symbols::Symbols;
use se_status::least;
use se_words::Named;
use std::alloc::{AllocError, Global};

/// The ends that are asked for: a source, a target or none, which walks to that, and whether edges are asked for in the reverse. `None`
/// where a word names no type.
pub fn ends_named(
    policy: &Policy<'_>,
    source: &Named<'_>,
    target: &Option<Named<'_>>,
    all: Option<u32>,
    reverse: bool,
) -> Option<Ends>
    requires steps_low { ForSome all (λ steps. 1 ≤ steps) }
    requires steps_high { ForSome all (λ steps. steps ≤ 99) }
    ensures ends { result ≡ ends_named policy.now (named_view source.now) (option_map named_view target.now) all reverse }
    ensures types { IfSome result (AreWithin policy.now.symbols.types.nprim) }
    ensures reverse { IfSome result (λ ends. ends.reverse ≡ reverse) }
{
    let Some(source) = type_named(policy, source.text.as_bytes()) else {
        return None;
    };
    let Some(target) = target_named(policy, target) else {
        return None;
    };
    Some(Ends {
        source,
        target,
        all,
        reverse,
    })
}

// The value of the type that has a name or an alias. `None` where the name is an attribute's, or none.
#[tactic(auto, unfolding(crate::specs::TypeNames::type_named))]
fn type_named(policy: &Policy<'_>, name: &[u8]) -> Option<u32>
    ensures value { result ≡ type_named policy.now name.now }
    ensures low { IfSome result (λ value. 1 ≤ value) }
    ensures high { IfSome result (λ value. value ≤ policy.now.symbols.types.nprim) }
{
    match policy.symbols().by_name(TableKind::Types, name) {
        Some(value) => plain_value(policy, value),
        None => None,
    }
}

// The value of a target, if one is asked for. `None` where its word names no type.
fn target_named(policy: &Policy<'_>, target: &Option<Named<'_>>) -> Option<Option<u32>>
    ensures value { result ≡ target_named policy.now (option_map named_view target.now) }
    ensures low { IfSome result (λ target. IfSome target (λ value. 1 ≤ value)) }
    ensures high { IfSome result (λ target. IfSome target (λ value. value ≤ policy.now.symbols.types.nprim)) }
{
    let Some(target) = target else {
        return Some(None);
    };
    match type_named(policy, target.text.as_bytes()) {
        Some(value) => Some(Some(value)),
        None => None,
    }
}

// The value, if it is that of a type, and of no attribute.
#[tactic(auto, using(pol_expand::proofs::TypesOutside::type_within))]
fn plain_value(policy: &Policy<'_>, value: u32) -> Option<u32>
    ensures value { result ≡ plain_value policy.now (Some value) }
    ensures low { IfSome result (λ value. 1 ≤ value) }
    ensures high { IfSome result (λ value. value ≤ policy.now.symbols.types.nprim) }
{
    if is_type(policy, value) {
        Some(value)
    } else {
        None
    }
}

/// The least number of a word, of a source, a target and excluded types, that names no type. It takes no memory.
pub fn unknown_type(
    policy: &Policy<'_>,
    source: &Named<'_>,
    target: &Option<Named<'_>>,
    excluded: &[Named<'_>],
) -> Option<u64>
    ensures { result ≡ first_unknown policy.now (type_words (named_view source.now) (option_map named_view target.now) (map named_view excluded.now)) }
{
    let found = least(unknown_word(policy, source), unknown_target(policy, target));
    least(found, unknown_among(policy, excluded))
}

// The number of the word of a target, if there is one that names no type.
fn unknown_target(policy: &Policy<'_>, target: &Option<Named<'_>>) -> Option<u64>
    ensures { result ≡ first_unknown policy.now (option_to_list (option_map named_view target.now)) }
{
    match target {
        Some(target) => unknown_word(policy, target),
        None => None,
    }
}

// The least number of a word that names no type.
fn unknown_among(policy: &Policy<'_>, names: &[Named<'_>]) -> Option<u64>
    ensures { result ≡ first_unknown policy.now (map named_view names.now) }
{
    let mut found = None;
    for named in names {
        found = least(found, unknown_word(policy, named));
    }
    found
}

// The number of a word, if it names no type.
fn unknown_word(policy: &Policy<'_>, named: &Named<'_>) -> Option<u64>
    ensures { result ≡ unknown_word policy.now (named_view named.now) }
{
    match type_named(policy, named.text.as_bytes()) {
        None => Some(named.word),
        Some(_) => None,
    }
}

/// The set of the types that are excluded.
pub fn excluded_set(
    alloc: Global,
    symbols: &Symbols<'_>,
    excluded: &[Named<'_>],
) -> Result<Set, AllocError>
    ensures { IfOk result (λ set. (type : ℕ) → has_bit set type ≡ is_excluded symbols.now (map named_view excluded.now) type) }
{
    let names = texts(alloc, excluded)?;
    values_named(alloc, symbols, TableKind::Types, &names)
}

// The texts of names.
fn texts<'w>(alloc: Global, names: &[Named<'w>]) -> Result<Vec<&'w [u8]>, AllocError>
    ensures { IfOk result (λ texts. map (λ text. text.now) texts.items ≡ map (λ named. named.text) (map named_view names.now)) }
{
    let mut texts = Vec::with_capacity(alloc, names.len())?;
    for named in names {
        texts.push(named.text.as_bytes())?;
    }
    Ok(texts)
}
