// The stored rules, by their numbers.
ghost use Rattle.std.specs.Prelude.{◌≡◌, ◌<◌, ◌%◌, Some, None, length, map, option_map, slice_get};
ghost use Rattle.pol_bitmap.specs.Nodes.{node_bits};
ghost use Rattle.pol_read.specs.StoredRules.{stored, ends_of, av_rule, rules_of_branch, rules_of_node, rules_of_nodes, role_trans_rule, role_allow_rule, name_trans_rule, name_rules, range_trans_rule, stored_rules};
ghost use Rattle.pol_read.specs.Inner.RuleRecords.{rule_of};
ghost use Rattle.pol_read.specs.Inner.RuleNumbers.{node_lengths, rules_of_bits, IsNameIndexOf, IsIndexOf};

use crate::declared_value::value_at;
use crate::name_index::{NameIndex, node_at};
use crate::rule::{Condition, Rule, RuleEnds};
use crate::rule_index::RuleIndex;
use crate::rule_record::{RuleRecord, vector_ends, vector_rule};
use crate::sums::Sums;
use pol_avtab::{AvTable, AvView};
use pol_bitmap::Node;
use pol_conditionals::Conditionals;
use pol_file::Parts;
use pol_symbols::Symbols;
use pol_trans::{
    NameDatumView, NameGroupView, NameTrans, NameTransList, RangeTransList, RoleAllowList,
    RoleTransList,
};

/// The stored rule of that number, from 0 on, in file order. One of the table of access vectors, where nearly all rules stand,
/// is found at once. The others are found by halves, and among those of a node of the sources of file-name transitions by
/// going through its 64 bits.
#[inline(always)]
pub fn rule_at<'a>(parts: &Parts<'a>, index: &RuleIndex, n: u32) -> Rule<'a>
    requires index { IsIndexOf parts.now index.now }
    requires rule { n < length (stored_rules parts.now) }
    ensures { slice_get (stored_rules parts.now) n ≡ Some (stored result) }
{
    if n < parts.rules.table.len() {
        vector_rule(&vector_at(parts, n), None)
    } else {
        found_rule(parts, index, n)
    }
}

// That rule, which is looked for. It is no part of each loop that reads rules of the table.
#[inline(never)]
fn found_rule<'a>(parts: &Parts<'a>, index: &RuleIndex, n: u32) -> Rule<'a>
    requires index { IsIndexOf parts.now index.now }
    requires rule { n < length (stored_rules parts.now) }
    ensures { slice_get (stored_rules parts.now) n ≡ Some (stored result) }
{
    record_at(parts, index, n).rule()
}

/// The ends of that rule. They are found in the same way, and nothing else of the rule is read.
#[inline(always)]
pub fn ends_at(parts: &Parts<'_>, index: &RuleIndex, n: u32) -> RuleEnds
    requires index { IsIndexOf parts.now index.now }
    requires rule { n < length (stored_rules parts.now) }
    ensures { option_map ends_of (slice_get (stored_rules parts.now) n) ≡ Some result }
{
    if n < parts.rules.table.len() {
        vector_ends(vector_at(parts, n).key())
    } else {
        record_at(parts, index, n).ends()
    }
}

// The access vector that is the rule of that number.
#[tactic(auto, using(crate::proofs::RuleSums::get_map, crate::proofs::RuleSums::table_first))]
#[inline(always)]
fn vector_at<'a>(parts: &Parts<'a>, n: u32) -> AvView<'a>
    requires { n < length parts.now.rules.table }
    ensures { slice_get (stored_rules parts.now) n ≡ Some (av_rule None result) }
{
    parts.rules.table.view(n)
}

// What the rule of that number is read from. Most rules outside the table stand under conditions, right behind it.
#[tactic(auto, using(crate::proofs::RuleSums::total_is, crate::proofs::RuleSums::conditional_behind))]
#[inline(never)]
fn record_at<'a>(parts: &Parts<'a>, index: &RuleIndex, n: u32) -> RuleRecord<'a>
    requires index { IsIndexOf parts.now index.now }
    requires rule { n < length (stored_rules parts.now) }
    ensures { slice_get (stored_rules parts.now) n ≡ Some (rule_of result) }
{
    match n.checked_sub(parts.rules.table.len()) {
        Some(i) if i < index.nodes.total() => {
            conditional_record(&parts.rules.conditionals, &index.nodes, i)
        }
        _ => section_record(parts, index, n),
    }
}

// The same, by the section in which the rule stands.
#[tactic(auto, using(crate::proofs::RuleSums::total_is, crate::proofs::RuleSums::found, crate::proofs::RuleSums::found_length))]
fn section_record<'a>(parts: &Parts<'a>, index: &RuleIndex, n: u32) -> RuleRecord<'a>
    requires index { IsIndexOf parts.now index.now }
    requires rule { n < length (stored_rules parts.now) }
    ensures { slice_get (stored_rules parts.now) n ≡ Some (rule_of result) }
{
    let (section, i) = index.sections.find(n);
    match section {
        0 => table_record(&parts.rules.table, i),
        1 => conditional_record(&parts.rules.conditionals, &index.nodes, i),
        2 => role_trans_record(&parts.rules.role_trans, i),
        3 => role_allow_record(&parts.rules.role_allows, i),
        4 => name_record(&parts.symbols, &parts.rules.name_trans, &index.names, i),
        _ => range_trans_record(&parts.labels.range_trans, i),
    }
}

// That of the rule of that number of the table.
#[tactic(auto, using(crate::proofs::RuleSums::get_map))]
fn table_record<'a>(table: &AvTable<'a>, i: u32) -> RuleRecord<'a>
    requires { i < length table.now }
    ensures { slice_get (map (av_rule None) table.now) i ≡ Some (rule_of result) }
{
    RuleRecord::Vector(table.view(i), None)
}

// ---- rules under conditions

// That of the rule of that number of those under conditions.
#[tactic(auto, using(crate::proofs::RuleSums::total_is, crate::proofs::RuleSums::found_node))]
#[inline(always)]
fn conditional_record<'a>(nodes: &Conditionals<'a>, lengths: &Sums, i: u32) -> RuleRecord<'a>
    requires lengths { lengths.now ≡ node_lengths nodes.now }
    requires rule { i < length (rules_of_nodes nodes.now) }
    ensures { slice_get (rules_of_nodes nodes.now) i ≡ Some (rule_of result) }
{
    let (node, i) = lengths.find(i);
    node_record(nodes, node, i)
}

// That of the rule of that number of a node.
#[tactic(auto, using(crate::proofs::RuleSums::get_left, crate::proofs::RuleSums::get_right, crate::proofs::RuleSums::branch_length, crate::proofs::RuleSums::node_length))]
fn node_record<'a>(nodes: &Conditionals<'a>, node: u32, i: u32) -> RuleRecord<'a>
    requires node { node < length nodes.now }
    requires rule { i < length (rules_of_node nodes.now node) }
    ensures { slice_get (rules_of_node nodes.now node) i ≡ Some (rule_of result) }
{
    let when_true = nodes.branch_len(node, true);
    if i < when_true {
        branch_record(nodes, node, true, i)
    } else {
        branch_record(nodes, node, false, i - when_true)
    }
}

// That of the rule of that number of those that hold where the condition of a node is true, or where it is false.
#[tactic(auto, using(crate::proofs::RuleSums::get_map, crate::proofs::RuleSums::branch_length))]
fn branch_record<'a>(nodes: &Conditionals<'a>, node: u32, branch: bool, i: u32) -> RuleRecord<'a>
    requires node { node < length nodes.now }
    requires rule { i < length (rules_of_branch nodes.now node branch) }
    ensures { slice_get (rules_of_branch nodes.now node branch) i ≡ Some (rule_of result) }
{
    RuleRecord::Vector(
        nodes.branch_view(node, branch, i),
        Some(Condition { node, branch }),
    )
}

// ---- roles and ranges

// That of the rule of that number of the role transitions.
#[tactic(auto, using(crate::proofs::RuleSums::get_map))]
fn role_trans_record<'a>(transitions: &RoleTransList<'a>, i: u32) -> RuleRecord<'a>
    requires { i < length transitions.now }
    ensures { slice_get (map role_trans_rule transitions.now) i ≡ Some (rule_of result) }
{
    RuleRecord::RoleTrans(transitions.view(i))
}

// That of the rule of that number of the role allows.
#[tactic(auto, using(crate::proofs::RuleSums::get_map))]
fn role_allow_record<'a>(allows: &RoleAllowList<'a>, i: u32) -> RuleRecord<'a>
    requires { i < length allows.now }
    ensures { slice_get (map role_allow_rule allows.now) i ≡ Some (rule_of result) }
{
    RuleRecord::RoleAllow(allows.view(i))
}

// That of the rule of that number of the range transitions.
#[tactic(auto, using(crate::proofs::RuleSums::get_map))]
fn range_trans_record<'a>(transitions: &RangeTransList<'a>, i: u32) -> RuleRecord<'a>
    requires { i < length transitions.now }
    ensures { slice_get (map range_trans_rule transitions.now) i ≡ Some (rule_of result) }
{
    RuleRecord::RangeTrans(transitions.view(i))
}

// ---- file-name transitions

// That of the rule of that number of the file-name transitions.
fn name_record<'a>(
    symbols: &Symbols<'_>,
    transitions: &NameTrans<'a>,
    index: &NameIndex,
    i: u32,
) -> RuleRecord<'a>
    requires index { IsNameIndexOf symbols.now transitions.now index.now }
    requires rule { i < length (name_rules symbols.now transitions.now) }
    ensures { slice_get (name_rules symbols.now transitions.now) i ≡ Some (rule_of result) }
{
    match transitions {
        NameTrans::Entries(entries) => entry_record(entries, i),
        NameTrans::Groups(groups) => {
            let (place, i) = index.lengths.find(i);
            let (group, datum, node) = node_at(symbols, groups, &index.places, place);
            source_record(symbols, group, datum, node, i)
        }
    }
}

// That of one of those that stand one by one.
#[tactic(auto, using(crate::proofs::RuleSums::get_map))]
fn entry_record<'a>(entries: &NameTransList<'a>, i: u32) -> RuleRecord<'a>
    requires { i < length entries.now }
    ensures { slice_get (map name_trans_rule entries.now) i ≡ Some (rule_of result) }
{
    RuleRecord::NameTrans(entries.view(i))
}

// That of a source of a datum, by its number among those that the bits of a node stand for.
#[tactic(auto, using(crate::proofs::RuleSums::get_map))]
fn source_record<'a>(
    symbols: &Symbols<'_>,
    group: NameGroupView<'a>,
    datum: NameDatumView<'a>,
    node: Node,
    i: u32,
) -> RuleRecord<'a>
    requires whole { node.start % 64 ≡ 0 }
    requires rule { i < length (rules_of_bits symbols.now group.value datum.value (node_bits node)) }
    ensures { slice_get (rules_of_bits symbols.now group.entry.value datum.entry.value (node_bits node)) i ≡ Some (rule_of result) }
{
    let source = value_at(symbols, node, i);
    RuleRecord::NameSource(group, datum, source)
}
