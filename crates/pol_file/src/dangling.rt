// The second step: the first reference of a policy that is not declared.
ghost use Rattle.std.specs.Prelude.{◌≡◌, List};
ghost use Rattle.std.specs.List.{flat_map};
ghost use Rattle.pol_symbols.specs.PolicySymbols.{name_in};
ghost use Rattle.pol_conditionals.specs.CondNodeRecord.{condnode_references};
ghost use Rattle.pol_cursor.specs.References.{AreDeclared, references_in};
ghost use Rattle.pol_file.specs.PolicyReferences.{symbol_references, name_transition_references, rule_references, context_references, label_references, policy_references};

use crate::parts::{LabelLists, Parts, RuleLists};
use pol_conditionals::Conditionals;
use pol_contexts::Contexts;
use pol_cursor::{Names, check_records};
use pol_fields::Fault;
use pol_symbols::Symbols;
use pol_symtab::check_table;
use pol_trans::NameTrans;

/// Refuses a policy at its first reference whose value no primary record declares.
#[tactic(auto, using(pol_cursor::proofs::DanglingLists::undeclared_first, pol_cursor::proofs::DanglingLists::undeclared_later, pol_cursor::proofs::DanglingLists::both_declared, pol_cursor::proofs::DanglingLists::others_decide))]
pub fn check_references(parts: &Parts<'_>) -> Result<(), Fault>
    ensures { AreDeclared result (name_in parts.now.symbols) (policy_references parts.now) }
{
    check_symbols(&parts.symbols)?;
    check_rules(&parts.rules, &parts.symbols)?;
    check_labels(&parts.labels, &parts.symbols)
}

// Refuses the symbol tables at their first reference to a value that is not declared.
#[tactic(auto, using(pol_cursor::proofs::DanglingLists::undeclared_first, pol_cursor::proofs::DanglingLists::undeclared_later, pol_cursor::proofs::DanglingLists::both_declared, pol_cursor::proofs::DanglingLists::others_decide))]
fn check_symbols(symbols: &Symbols<'_>) -> Result<(), Fault>
    ensures { AreDeclared result (name_in symbols.now) (symbol_references symbols.now) }
{
    check_table(&symbols.roles, symbols)?;
    check_table(&symbols.types, symbols)?;
    check_table(&symbols.users, symbols)?;
    check_table(&symbols.levels, symbols)?;
    check_table(&symbols.categories, symbols)
}

// Refuses the rules at their first reference to a value that is not declared.
#[tactic(auto, using(pol_cursor::proofs::DanglingLists::undeclared_first, pol_cursor::proofs::DanglingLists::undeclared_later, pol_cursor::proofs::DanglingLists::both_declared, pol_cursor::proofs::DanglingLists::others_decide))]
fn check_rules<N: Names>(rules: &RuleLists<'_>, names: &N) -> Result<(), Fault>
    ensures { AreDeclared result (N.named names.now) (rule_references rules.now) }
{
    check_records(&rules.table, names)?;
    check_nodes(&rules.conditionals, names)?;
    check_records(&rules.role_trans, names)?;
    check_records(&rules.role_allows, names)?;
    check_name_transitions(&rules.name_trans, names)
}

// Refuses the conditional nodes at their first reference to a value that is not declared.
fn check_nodes<N: Names>(nodes: &Conditionals<'_>, names: &N) -> Result<(), Fault>
    ensures { AreDeclared result (N.named names.now) (references_in condnode_references nodes.now) }
{
    for i in 0..nodes.len() {
        match nodes.view(i).dangling(names) {
            Some(fault) => return Err(fault),
            None => {}
        }
    }
    Ok(())
}

// Refuses the file-name transitions at their first reference to a value that is not declared.
fn check_name_transitions<N: Names>(transitions: &NameTrans<'_>, names: &N) -> Result<(), Fault>
    ensures { AreDeclared result (N.named names.now) (name_transition_references transitions.now) }
{
    match transitions {
        NameTrans::Entries(entries) => check_records(entries, names),
        NameTrans::Groups(groups) => check_records(groups, names),
    }
}

// Refuses what stands behind the rules at its first reference to a value that is not declared.
#[tactic(auto, using(pol_cursor::proofs::DanglingLists::undeclared_first, pol_cursor::proofs::DanglingLists::undeclared_later, pol_cursor::proofs::DanglingLists::both_declared, pol_cursor::proofs::DanglingLists::others_decide))]
fn check_labels<N: Names>(labels: &LabelLists<'_>, names: &N) -> Result<(), Fault>
    ensures { AreDeclared result (N.named names.now) (label_references labels.now) }
{
    check_contexts(&labels.contexts, names)?;
    check_records(&labels.genfs, names)?;
    check_records(&labels.range_trans, names)
}

// Refuses the tables of contexts at their first reference to a value that is not declared.
#[tactic(auto, using(pol_cursor::proofs::DanglingLists::undeclared_first, pol_cursor::proofs::DanglingLists::undeclared_later, pol_cursor::proofs::DanglingLists::both_declared, pol_cursor::proofs::DanglingLists::others_decide))]
fn check_contexts<N: Names>(contexts: &Contexts<'_>, names: &N) -> Result<(), Fault>
    ensures { AreDeclared result (N.named names.now) (context_references contexts.now) }
{
    check_records(&contexts.sid, names)?;
    check_records(&contexts.fs, names)?;
    check_records(&contexts.port, names)?;
    check_records(&contexts.netif, names)?;
    check_records(&contexts.node, names)?;
    check_records(&contexts.fsuse, names)?;
    check_records(&contexts.node6, names)?;
    check_records(&contexts.ibpkey, names)?;
    check_records(&contexts.ibendport, names)
}
