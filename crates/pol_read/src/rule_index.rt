// How many rules stand where, by which a rule is found by its number.
ghost use Rattle.std.specs.Prelude.{◌≡◌, ◌≤◌, IfOk, length, sum};
ghost use Rattle.pol_read.specs.StoredRules.{rules_of_nodes, name_rules, stored_rules};
ghost use Rattle.pol_read.specs.Inner.RuleNumbers.{node_lengths, section_lengths, IsNameIndexOf, IsIndexOf};

use crate::name_index::{NameIndex, index_names};
use crate::sums::Sums;
use pol_conditionals::Conditionals;
use pol_file::Parts;
use pol_symbols::Symbols;
use pol_trans::NameTrans;
use std::alloc::{AllocError, Global};

/// How many rules stand in each section, under each conditional node, and in each node of the sources of groups of file-name
/// transitions.
pub struct RuleIndex {
    pub(crate) nodes: Sums,
    pub(crate) names: NameIndex,
    pub(crate) sections: Sums,
}

// Its parts go in one call, wherever it is dropped.
impl Drop for RuleIndex {
    fn drop(self) {
        let RuleIndex {
            nodes,
            names,
            sections,
        } = self;
    }
}

impl RuleIndex {
    /// How many rules there are.
    pub fn count(&self) -> u32
        ensures is { result ≡ sum self.now.sections }
        ensures limited { result ≤ 400000000 }
    {
        self.sections.total()
    }
}

/// Counts the rules of a policy of at most 400,000,000 rules.
pub fn index_rules(alloc: Global, parts: &Parts<'_>) -> Result<RuleIndex, AllocError>
    requires { length (stored_rules parts.now) ≤ 400000000 }
    ensures { IfOk result (λ index. IsIndexOf parts.now index) }
{
    let nodes = index_nodes(alloc, &parts.rules.conditionals)?;
    let names = index_names(alloc, &parts.symbols, &parts.rules.name_trans)?;
    let sections = index_sections(alloc, parts, &nodes, &names)?;
    Ok(RuleIndex {
        nodes,
        names,
        sections,
    })
}

// How many rules each section has.
fn index_sections(
    alloc: Global,
    parts: &Parts<'_>,
    nodes: &Sums,
    names: &NameIndex,
) -> Result<Sums, AllocError>
    requires few { length (stored_rules parts.now) ≤ 400000000 }
    requires nodes { nodes.now ≡ node_lengths parts.now.rules.conditionals }
    requires names { IsNameIndexOf parts.now.symbols parts.now.rules.name_trans names.now }
    ensures { IfOk result (λ sums. sums ≡ section_lengths parts.now) }
{
    let named = name_rule_count(&parts.symbols, &parts.rules.name_trans, names);
    Sums::of(
        alloc,
        &[
            parts.rules.table.len(),
            nodes.total(),
            parts.rules.role_trans.len(),
            parts.rules.role_allows.len(),
            named,
            parts.labels.range_trans.len(),
        ],
    )
}

// How many rules the file-name transitions are.
#[tactic(auto, using(crate::proofs::RuleNodes::names_total))]
fn name_rule_count(symbols: &Symbols<'_>, transitions: &NameTrans<'_>, names: &NameIndex) -> u32
    requires { IsNameIndexOf symbols.now transitions.now names.now }
    ensures { result ≡ length (name_rules symbols.now transitions.now) }
{
    match transitions {
        NameTrans::Entries(entries) => entries.len(),
        NameTrans::Groups(_) => names.lengths.total(),
    }
}

// How many rules each conditional node has.
#[tactic(auto, using(crate::proofs::RuleSums::nodes_more))]
fn index_nodes(alloc: Global, nodes: &Conditionals<'_>) -> Result<Sums, AllocError>
    requires { length (rules_of_nodes nodes.now) ≤ 400000000 }
    ensures { IfOk result (λ sums. sums ≡ node_lengths nodes.now) }
{
    let mut sums = Sums::new(alloc);
    for i in 0..nodes.len() {
        let when_true = nodes.branch_len(i, true);
        let when_false = nodes.branch_len(i, false);
        sums.push(when_true + when_false)?;
    }
    Ok(sums)
}
