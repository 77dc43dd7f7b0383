// The rules under some ends that have others, and their other ends.
ghost use Rattle.std.specs.Prelude.{◌≡◌, ◌<◌, ◌≤◌, ◌++◌, ◌||◌, ◌==◌, ℕ, IfOk, OnOk, map};
ghost use Rattle.std.specs.List.{All, filter, flat_map, list_any};
ghost use Rattle.std.specs.List.Sorted.{IsPermutation};
ghost use Rattle.value_groups.specs.Among.{is_among};
ghost use Rattle.rules_by_end.specs.RulesByEnd.{rows_under};
ghost use Rattle.rules_by_end.specs.Inner.GroupedRules.{AreSortedIfMany, AreSortedRows, is_far_end, rules_joining, rules_of, rules_to};

use crate::grouped_rules::GroupedRules;
use crate::rule_row::{MANY_ROWS, RuleRow};
use std::alloc::{AllocError, Global};
use value_groups::Marked;

// Many rows are looked at one by one, unless they are more than so many times the ends that are asked for.
const ROWS_PER_END: usize = 16;

/// The rules that have one end among some, and the other among others, in any order.
pub fn rules_joining(
    alloc: Global,
    rows: &GroupedRules,
    from: &[u32],
    to: &Marked,
) -> Result<Vec<u32>, AllocError>
    ensures { IfOk result (λ found. IsPermutation found.items (rules_joining rows.now from.now to.now.values)) }
{
    let mut found = Vec::new(alloc);
    for end in from {
        push_joining(&mut found, rows.under(*end), to)?;
    }
    Ok(found)
}

// Appends the rules of rows whose other end is among some. These are looked up one by one where the rows are many, and many more.
fn push_joining(found: &mut Vec<u32>, rows: &[RuleRow], to: &Marked) -> Result<(), AllocError>
    requires { AreSortedIfMany rows.now }
    ensures { OnOk result (IsPermutation found.new.items (found.old.items ++ rules_to to.now.values rows.now)) }
{
    let ends = to.values();
    if rows.len() >= MANY_ROWS && rows.len() / ROWS_PER_END > ends.len() {
        push_rules_of_each(found, rows, ends)
    } else {
        push_rules_to(found, rows, to)
    }
}

// Appends the rules of sorted rows that have one of some ends as their other one, end by end.
fn push_rules_of_each(
    found: &mut Vec<u32>,
    rows: &[RuleRow],
    ends: &[u32],
) -> Result<(), AllocError>
    requires { AreSortedRows rows.now }
    ensures { OnOk result (found.new.items ≡ found.old.items ++ flat_map (rules_of rows.now) ends.now) }
{
    for end in ends {
        push_rules(found, rows_of(rows, *end))?;
    }
    Ok(())
}

// Of sorted rows the ones that have an end as their other one, found by halves.
fn rows_of(rows: &[RuleRow], end: u32) -> &[RuleRow]
    requires { AreSortedRows rows.now }
    ensures { result.now ≡ filter (λ row. end == row.far) rows.now }
{
    let first = rows.partition_point(|row| row.far < end);
    let stop = rows.partition_point(|row| row.far <= end);
    &rows[first..stop]
}

// Appends the rules of rows.
fn push_rules(found: &mut Vec<u32>, rows: &[RuleRow]) -> Result<(), AllocError>
    ensures { OnOk result (found.new.items ≡ found.old.items ++ map (λ row. row.rule) rows.now) }
{
    for row in rows {
        found.push(row.rule)?;
    }
    Ok(())
}

// Appends the rules of rows whose other end is among some.
fn push_rules_to(found: &mut Vec<u32>, rows: &[RuleRow], to: &Marked) -> Result<(), AllocError>
    ensures { OnOk result (found.new.items ≡ found.old.items ++ rules_to to.now.values rows.now) }
{
    for row in rows {
        if to.has(row.far) {
            found.push(row.rule)?;
        }
    }
    Ok(())
}

/// The other ends of the rules that have one end among some.
pub fn far_ends(
    alloc: Global,
    rows: &GroupedRules,
    from: &[u32],
    count: usize,
) -> Result<Marked, AllocError>
    requires some { 1 ≤ count }
    requires few { count ≤ 65536 }
    requires within { (value : ℕ) → All (λ row. row.far < count) (rows_under rows.now value) }
    ensures { IfOk result (λ ends. (value : ℕ) → is_among ends.values value ≡ is_far_end rows.now from.now value) }
{
    let mut ends = Marked::new(alloc, count)?;
    for end in from {
        add_far_ends(&mut ends, rows.under(*end))?;
    }
    Ok(ends)
}

// Adds the other ends of some rows.
fn add_far_ends(ends: &mut Marked, rows: &[RuleRow]) -> Result<(), AllocError>
    requires { All (λ row. row.far < ends.old.count) rows.now }
    ensures count { ends.new.count ≡ ends.old.count }
    ensures each { OnOk result ((value : ℕ) → is_among ends.new.values value ≡ (is_among ends.old.values value || list_any (λ row. row.far == value) rows.now)) }
{
    for row in rows {
        ends.add(row.far)?;
    }
    Ok(())
}
