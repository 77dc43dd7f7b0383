// What a criterion asks of the class and the condition of rules, as sets of numbers.
ghost use Rattle.std.specs.Prelude.{◌≡◌, ◌↔◌, ◌<◌, ℕ, IfOk, IsTrue, length};
ghost use Rattle.std.specs.List.{filter, range_with_len};
ghost use Rattle.pol_fields.specs.declared.TableKind.TheVariants.{Booleans};
ghost use Rattle.pol_bitmap.specs.Nodes.{bits_of, has_bit};
ghost use Rattle.pol_bitmap.specs.Sets.{ContainsEach};
ghost use Rattle.rule_query.specs.Listed.{is_listed, meets_node};
ghost use Rattle.rule_query.specs.Inner.LookedUp.{HasPattern};

use named_values::{values_found, values_named};
use pol_bitmap::Set;
use pol_fields::TableKind;
use pol_read::Policy;
use pol_symbols::Symbols;
use regex::Regex;
use rule_criteria::{Criterion, Mode};
use rule_tests::elements;
use std::alloc::{AllocError, Global};

/// The values of a table that are listed, or in whose names the pattern is found.
pub fn listed(
    alloc: Global,
    symbols: &Symbols<'_>,
    table: TableKind,
    criterion: &Criterion,
    pattern: &Option<Regex>,
) -> Result<Set, AllocError>
    requires { HasPattern criterion.now pattern.now }
    ensures { IfOk result (λ set. (value : ℕ) → has_bit set value ≡ is_listed symbols.now table criterion.now value) }
{
    match pattern {
        Some(pattern) => values_found(alloc, symbols, table, pattern),
        None => {
            let names = elements(alloc, criterion.text.as_str().as_bytes())?;
            values_named(alloc, symbols, table, &names)
        }
    }
}

/// The conditional nodes whose booleans meet a criterion.
pub fn nodes(
    alloc: Global,
    policy: &Policy<'_>,
    criterion: &Criterion,
    pattern: &Option<Regex>,
) -> Result<Set, AllocError>
    requires { HasPattern criterion.now pattern.now }
    ensures { IfOk result (λ set. (node : ℕ) → node < length policy.now.rules.conditionals → has_bit set node ≡ meets_node policy.now criterion.now node) }
{
    let asked = listed(
        alloc,
        policy.symbols(),
        TableKind::Booleans,
        criterion,
        pattern,
    )?;
    let nodes = meeting_nodes(alloc, policy, criterion, &asked)?;
    Set::from_rising(alloc, &nodes)
}

// The nodes whose booleans meet a criterion, rising.
fn meeting_nodes(
    alloc: Global,
    policy: &Policy<'_>,
    criterion: &Criterion,
    asked: &Set,
) -> Result<Vec<u32>, AllocError>
    requires { (value : ℕ) → has_bit asked.now value ≡ is_listed policy.now.symbols Booleans criterion.now value }
    ensures { IfOk result (λ nodes. nodes.items ≡ filter (meets_node policy.now criterion.now) (range_with_len 0 (length policy.now.rules.conditionals))) }
{
    let mut nodes = Vec::new(alloc);
    for node in 0..policy.conditionals().len() {
        if node_meets(alloc, policy, criterion, asked, node)? {
            nodes.push(node)?;
        }
    }
    Ok(nodes)
}

// Whether a node is one of them.
fn node_meets(
    alloc: Global,
    policy: &Policy<'_>,
    criterion: &Criterion,
    asked: &Set,
    node: u32,
) -> Result<bool, AllocError>
    requires asked { (value : ℕ) → has_bit asked.now value ≡ is_listed policy.now.symbols Booleans criterion.now value }
    requires node { node < length policy.now.rules.conditionals }
    ensures { IfOk result (λ meets. meets ≡ meets_node policy.now criterion.now node) }
{
    let booleans = policy.condition(node).booleans_of(alloc)?;
    match criterion.mode {
        Mode::Equal => Ok(have_same_bits(asked, &booleans)),
        _ => Ok(asked.meets(&booleans)),
    }
}

// Whether two sets have the same bits.
fn have_same_bits(a: &Set, b: &Set) -> bool
    ensures { IsTrue result ↔ (ContainsEach (bits_of a.now) (bits_of b.now) × ContainsEach (bits_of b.now) (bits_of a.now)) }
{
    a.contains(b) && b.contains(a)
}
