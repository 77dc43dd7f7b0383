// The rules, the initial SID and the type map.
ghost use Rattle.std.specs.Prelude.{◌≡◌, ◌≤◌, ◌<◌, ◌+◌, ◌++◌, IfOk, OnOk, map};
ghost use Rattle.std.specs.List.{range_with_len};
ghost use Rattle.pol_make.specs.Made.{Allowed};
ghost use Rattle.pol_make.specs.MadeSymbols.{attribute_count};
ghost use Rattle.pol_make.specs.MadeRules.{ring_value, attribute_of, allow, transition_rules, file_rule, file_rules, attribute_rule, rules_of, made_rules, made_sids, type_row, attribute_row, made_rows};

use crate::make_symbols::bare_range;
use pol_avtab::{AvPart, AvRec, AvRecList};
use pol_bitmap::{Set, SetList};
use pol_contexts::{SidRec, SidRecList};
use pol_cursor::OwnedList;
use pol_mls::ContextRec;
use set_nodes::set_of;
use std::alloc::{AllocError, Global};

/// The table of rules.
#[tactic(auto, unfolding(crate::specs::MadeRules::made_rules))]
pub fn make_rules(alloc: Global, n: u32) -> Result<AvRecList, AllocError>
    requires { Allowed n }
    ensures { IfOk result (λ list. list ≡ made_rules n) }
{
    let mut rules = Vec::new(alloc);
    for i in 0..n {
        push_rules(&mut rules, n, i)?;
    }
    Ok(OwnedList::from_vec(rules))
}

// Adds the rules of one type of the ring.
#[tactic(auto, unfolding(crate::specs::MadeRules::rules_of))]
fn push_rules(rules: &mut Vec<AvRec>, n: u32, i: u32) -> Result<(), AllocError>
    requires allowed { Allowed n }
    requires within { i < n }
    ensures { OnOk result (rules.new.items ≡ rules.old.items ++ rules_of n i) }
{
    push_transition_rules(rules, n, i)?;
    push_file_rules(rules, n, i)?;
    rules.push(attribute_rule(n, i))?;
    Ok(())
}

fn push_transition_rules(rules: &mut Vec<AvRec>, n: u32, i: u32) -> Result<(), AllocError>
    requires allowed { Allowed n }
    requires within { i < n }
    ensures { OnOk result (rules.new.items ≡ rules.old.items ++ transition_rules n i) }
{
    let source = ring_value(n, i, 0);
    rules.push(allow(source, ring_value(n, i, 1), 3, 1))?;
    rules.push(allow(source, source, 3, 2))?;
    rules.push(allow(source, ring_value(n, i, 2), 1, 32))?;
    rules.push(allow(source, ring_value(n, i, 1), 1, 64))?;
    Ok(())
}

fn push_file_rules(rules: &mut Vec<AvRec>, n: u32, i: u32) -> Result<(), AllocError>
    requires allowed { Allowed n }
    requires within { i < n }
    ensures { OnOk result (rules.new.items ≡ rules.old.items ++ file_rules n i) }
{
    for places in 4..19 {
        rules.push(file_rule(n, i, places))?;
    }
    Ok(())
}

fn file_rule(n: u32, i: u32, places: u32) -> AvRec
    requires allowed { Allowed n }
    requires within { i < n }
    requires near { places < 20 }
    ensures { result ≡ file_rule n i places }
{
    allow(ring_value(n, i, 0), ring_value(n, i, places), 1, 6)
}

fn attribute_rule(n: u32, i: u32) -> AvRec
    requires allowed { Allowed n }
    requires within { i < n }
    ensures { result ≡ attribute_rule n i }
{
    allow(
        (n + 1 + attribute_of(n, i)) as u16,
        ring_value(n, i, 19),
        2,
        2,
    )
}

// The value of the type so many places after one of the ring.
fn ring_value(n: u32, i: u32, places: u32) -> u16
    requires allowed { Allowed n }
    requires within { i < n }
    requires near { places < 20 }
    ensures { result ≡ ring_value n i places }
{
    ((i + places) % n + 1) as u16
}

// The number of the attribute that a type of the ring has.
fn attribute_of(n: u32, i: u32) -> u32
    requires { Allowed n }
    ensures same { result ≡ attribute_of n i }
    ensures within { result < attribute_count n }
{
    i % (n / 20)
}

fn allow(source: u16, target: u16, class: u16, permissions: u32) -> AvRec
    ensures { result ≡ allow source target class permissions }
{
    AvRec {
        source,
        target,
        class,
        specified: 1,
        part: AvPart::Data(permissions),
    }
}

/// The table of initial SIDs.
#[tactic(auto, unfolding(crate::specs::MadeRules::made_sids))]
pub fn make_sids(alloc: Global) -> Result<SidRecList, AllocError>
    ensures { IfOk result (λ list. list ≡ made_sids) }
{
    let kernel = SidRec {
        sid: 1,
        context: ContextRec {
            user: 1,
            role: 2,
            type_value: 1,
            range: bare_range(alloc)?,
        },
    };
    Ok(OwnedList::from_vec(vec![in alloc; kernel]?))
}

/// The rows of the type map.
#[tactic(auto, unfolding(crate::specs::MadeRules::made_rows))]
pub fn make_rows(alloc: Global, n: u32) -> Result<SetList, AllocError>
    requires { Allowed n }
    ensures { IfOk result (λ list. list ≡ made_rows n) }
{
    let mut rows = Vec::new(alloc);
    push_type_rows(alloc, &mut rows, n)?;
    push_attribute_rows(alloc, &mut rows, n)?;
    Ok(OwnedList::from_vec(rows))
}

fn push_type_rows(alloc: Global, rows: &mut Vec<Set>, n: u32) -> Result<(), AllocError>
    requires { Allowed n }
    ensures { OnOk result (rows.new.items ≡ rows.old.items ++ map (type_row n) (range_with_len 0 n)) }
{
    for i in 0..n {
        let row = set_of(alloc, &[i, n + attribute_of(n, i)])?;
        rows.push(row)?;
    }
    Ok(())
}

fn push_attribute_rows(alloc: Global, rows: &mut Vec<Set>, n: u32) -> Result<(), AllocError>
    requires { Allowed n }
    ensures { OnOk result (rows.new.items ≡ rows.old.items ++ map attribute_row (range_with_len n (attribute_count n))) }
{
    for i in 0..n / 20 {
        let row = set_of(alloc, &[n + i])?;
        rows.push(row)?;
    }
    Ok(())
}
