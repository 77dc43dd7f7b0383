// How many symbols and constraints there are.
ghost use Rattle.std.specs.Prelude.{◌≡◌, cond, map};
ghost use Rattle.info_summary.specs.SummaryLines.{entry_line};
ghost use Rattle.info_summary.specs.Counts.{flavour_count, primary_count, constraint_count, validatetrans_count};
ghost use Rattle.info_summary.specs.Summary.{symbol_lines, constraint_lines};

use crate::entry::{Entry, count};
use pol_classes::ClassTable;
use pol_datums::{Flavour, Type};
use pol_expand::is_flavour;
use pol_symbols::Symbols;
use pol_symtab::{Symbol, SymbolTable};

/// The counts of the primary records of the symbol tables.
pub fn symbol_counts(symbols: &Symbols<'_>) -> [Entry; 9]
    ensures { map entry_line result ≡ symbol_lines symbols.now }
{
    [
        count("Commons", u64::from(symbols.commons.len())),
        count("Classes", u64::from(symbols.classes.len())),
        count("Sensitivities", u64::from(primary_count(&symbols.levels))),
        count("Categories", u64::from(primary_count(&symbols.categories))),
        count(
            "Types",
            u64::from(flavour_count(&symbols.types, Flavour::Plain)),
        ),
        count(
            "Type attributes",
            u64::from(flavour_count(&symbols.types, Flavour::Attribute)),
        ),
        count("Users", u64::from(symbols.users.len())),
        count("Roles", u64::from(symbols.roles.len())),
        count("Booleans", u64::from(symbols.booleans.len())),
    ]
}

// 1 where something holds, and else 0.
fn one_if(holds: bool) -> u32
    ensures { result ≡ cond holds 1 0 }
{
    if holds { 1 } else { 0 }
}

// How many types there are that are no attributes, or how many attributes.
#[tactic(auto, using(crate::proofs::Counting::at_most))]
fn flavour_count(types: &SymbolTable<'_, Type>, flavour: Flavour) -> u32
    ensures { result ≡ flavour_count flavour types.now.records }
{
    let mut count = 0;
    for i in 0..types.len() {
        count += one_if(is_flavour(flavour, types.view(i).flavour()));
    }
    count
}

// How many records there are, without aliases.
#[tactic(auto, using(crate::proofs::Counting::at_most))]
fn primary_count<'a, K: Symbol<'a> + Drop>(table: &SymbolTable<'a, K>) -> u32
where
    K::View: Drop,
    ensures { result ≡ primary_count K.is_primary table.now.records }
{
    let mut count = 0;
    for i in 0..table.len() {
        count += one_if(K::is_primary(&table.view(i)));
    }
    count
}

/// The counts of the constraints of all classes.
pub fn constraint_counts(symbols: &Symbols<'_>) -> [Entry; 2]
    ensures { map entry_line result ≡ constraint_lines symbols.now }
{
    [
        count("Constraints", constraint_count(&symbols.classes)),
        count("Validatetrans", validatetrans_count(&symbols.classes)),
    ]
}

// How many constraints on permissions there are.
#[tactic(auto, using(crate::proofs::Counting::so_many_more))]
fn constraint_count(classes: &ClassTable<'_>) -> u64
    ensures { result ≡ constraint_count classes.now.records }
{
    let mut count = 0;
    for i in 0..classes.len() {
        count += u64::from(classes.view(i).constraints().len());
    }
    count
}

// How many constraints on changes of contexts there are.
#[tactic(auto, using(crate::proofs::Counting::so_many_more))]
fn validatetrans_count(classes: &ClassTable<'_>) -> u64
    ensures { result ≡ validatetrans_count classes.now.records }
{
    let mut count = 0;
    for i in 0..classes.len() {
        count += u64::from(classes.view(i).validatetrans().len());
    }
    count
}
