// The rules of a table that have ends among given ones.
ghost use Rattle.std.specs.Prelude.{◌≡◌, ◌<◌, ◌≤◌, ◌-◌, ◌^◌, ◌++◌, ◌||◌, ◌==◌, ℕ, IfOk, OnOk, length, min, slice_index};
ghost use Rattle.std.specs.List.{All, flat_map, list_any};
ghost use Rattle.value_groups.specs.Among.{is_among};
ghost use Rattle.value_groups.specs.Inner.Grouping.{group_of};
ghost use Rattle.rules_between.specs.Inner.RuleTables.{places_to, rules_at, rules_found, rules_under, any_found, is_other_end};

use std::alloc::{AllocError, Global};
use value_groups::{Groups, Marked};

/// How many places stand under some ends, as far as a `usize` counts.
pub fn place_count(groups: &Groups, ends: &[u32]) -> usize
    ensures { result ≡ min (length (flat_map (group_of groups.now) ends.now)) (2 ^ 64 - 1) }
{
    let mut count: usize = 0;
    for end in ends {
        count = count.saturating_add(groups.places(*end).len());
    }
    count
}

/// The rules that have one end among some, and the other among others.
pub fn found_rules(
    alloc: Global,
    rules: &[u32],
    others: &[u32],
    groups: &Groups,
    from: &[u32],
    to: &Marked,
) -> Result<Vec<u32>, AllocError>
    requires rules { (end : ℕ) → All (λ place. place < length rules.now) (group_of groups.now end) }
    requires others { length others.now ≡ length rules.now }
    ensures { IfOk result (λ found. found.items ≡ rules_found rules.now others.now (group_of groups.now) from.now to.now.values) }
{
    let mut found = Vec::new(alloc);
    for end in from {
        push_rules(&mut found, rules, others, groups.places(*end), to)?;
    }
    Ok(found)
}

// Appends the rules of the places whose other end is among some.
fn push_rules(
    found: &mut Vec<u32>,
    rules: &[u32],
    others: &[u32],
    places: &[u32],
    to: &Marked,
) -> Result<(), AllocError>
    requires rules { All (λ place. place < length rules.now) places.now }
    requires others { length others.now ≡ length rules.now }
    ensures { OnOk result (found.new.items ≡ found.old.items ++ rules_at rules.now (places_to others.now to.now.values places.now)) }
{
    for place in places {
        let at = *place as usize;
        if to.has(others[at]) {
            found.push(rules[at])?;
        }
    }
    Ok(())
}

/// The rules that have one end among some.
pub fn rules_with(
    alloc: Global,
    rules: &[u32],
    groups: &Groups,
    from: &[u32],
) -> Result<Vec<u32>, AllocError>
    requires { (end : ℕ) → All (λ place. place < length rules.now) (group_of groups.now end) }
    ensures { IfOk result (λ found. found.items ≡ rules_under rules.now (group_of groups.now) from.now) }
{
    let mut found = Vec::new(alloc);
    for end in from {
        push_all(&mut found, rules, groups.places(*end))?;
    }
    Ok(found)
}

// Appends the rules of the places.
fn push_all(found: &mut Vec<u32>, rules: &[u32], places: &[u32]) -> Result<(), AllocError>
    requires { All (λ place. place < length rules.now) places.now }
    ensures { OnOk result (found.new.items ≡ found.old.items ++ rules_at rules.now places.now) }
{
    for place in places {
        found.push(rules[*place as usize])?;
    }
    Ok(())
}

/// Whether some rule has one end among some, and the other among others.
pub fn has_rule(others: &[u32], groups: &Groups, from: &[u32], to: &Marked) -> bool
    requires { (end : ℕ) → All (λ place. place < length others.now) (group_of groups.now end) }
    ensures { result ≡ any_found others.now (group_of groups.now) from.now to.now.values }
{
    for end in from {
        if has_other(others, groups.places(*end), to) {
            return true;
        }
    }
    false
}

// Whether the other end of some place is among some.
fn has_other(others: &[u32], places: &[u32], to: &Marked) -> bool
    requires { All (λ place. place < length others.now) places.now }
    ensures { result ≡ list_any (λ place. is_among to.now.values (slice_index others.now place)) places.now }
{
    for place in places {
        if to.has(others[*place as usize]) {
            return true;
        }
    }
    false
}

/// The other ends of the rules that have one end among some.
pub fn other_ends(
    alloc: Global,
    others: &[u32],
    groups: &Groups,
    from: &[u32],
    count: usize,
) -> Result<Marked, AllocError>
    requires some { 1 ≤ count }
    requires few { count ≤ 65536 }
    requires within { All (λ other. other < count) others.now }
    requires places { (end : ℕ) → All (λ place. place < length others.now) (group_of groups.now end) }
    ensures { IfOk result (λ ends. (value : ℕ) → is_among ends.values value ≡ is_other_end others.now (group_of groups.now) from.now value) }
{
    let mut ends = Marked::new(alloc, count)?;
    for end in from {
        add_others(&mut ends, others, groups.places(*end))?;
    }
    Ok(ends)
}

// Adds the other ends of some places.
fn add_others(ends: &mut Marked, others: &[u32], places: &[u32]) -> Result<(), AllocError>
    requires within { All (λ other. other < ends.old.count) others.now }
    requires places { All (λ place. place < length others.now) places.now }
    ensures count { ends.new.count ≡ ends.old.count }
    ensures each { OnOk result ((value : ℕ) → is_among ends.new.values value ≡ (is_among ends.old.values value || list_any (λ place. slice_index others.now place == value) places.now)) }
{
    for place in places {
        ends.add(others[*place as usize])?;
    }
    Ok(())
}
