// The first step: the parts of a policy, in the order of the file.
ghost use Rattle.std.specs.Prelude.{◌≡◌};
ghost use Rattle.pol_cursor.specs.Outcome.{Yields};
ghost use Rattle.pol_file.specs.PolicyParts.{front_at, rule_lists_at, label_lists_at, policy_at};

use crate::header_view::read_header;
use crate::parts::{Front, LabelLists, Parts, RuleLists};
use crate::type_rows::read_type_rows;
use pol_avtab::read_table;
use pol_bitmap::BitmapView;
use pol_conditionals::read_conditionals;
use pol_contexts::read_contexts;
use pol_cursor::{Cursor, ReadError};
use pol_fields::TableKind;
use pol_fields::fields::END_END;
use pol_genfs::read_genfs;
use pol_symbols::read_symbols;
use pol_trans::{read_name_trans, read_range_trans, read_role_allows, read_role_trans};
use std::alloc::Global;

/// Reads a whole policy, behind which the buffer has to end.
#[tactic(auto, unfolding(crate::specs::PolicyParts::policy_at))]
pub fn read_parts<'a>(alloc: Global, c: &mut Cursor<'a>) -> Result<Parts<'a>, ReadError>
    ensures { Yields (λ parts. parts) result policy_at c.old c.new }
{
    let front = read_front(c)?;
    let version = front.header.version();
    let symbols = read_symbols(alloc, c, version)?;
    let rules = read_rule_lists(alloc, c, version)?;
    let labels = read_label_lists(alloc, c, version, symbols.prims(TableKind::Types))?;
    c.end(END_END)?;
    Ok(Parts {
        front,
        symbols,
        rules,
        labels,
    })
}

// Reads what stands before the symbol tables.
#[tactic(auto, unfolding(crate::specs::PolicyParts::front_at))]
fn read_front<'a>(c: &mut Cursor<'a>) -> Result<Front<'a>, ReadError>
    ensures { Yields (λ front. front) result front_at c.old c.new }
{
    let header = read_header(c)?;
    let capabilities = BitmapView::read(c)?;
    let permissive = BitmapView::read(c)?;
    Ok(Front {
        header,
        capabilities,
        permissive,
    })
}

// Reads the rules but for the range transitions.
#[tactic(auto, unfolding(crate::specs::PolicyParts::rule_lists_at))]
fn read_rule_lists<'a>(
    alloc: Global,
    c: &mut Cursor<'a>,
    version: u32,
) -> Result<RuleLists<'a>, ReadError>
    ensures { Yields (λ rules. rules) result (rule_lists_at version) c.old c.new }
{
    let table = read_table(alloc, c, version)?;
    let conditionals = read_conditionals(alloc, c, version)?;
    let role_trans = read_role_trans(alloc, c, version)?;
    let role_allows = read_role_allows(alloc, c, version)?;
    let name_trans = read_name_trans(alloc, c, version)?;
    Ok(RuleLists {
        table,
        conditionals,
        role_trans,
        role_allows,
        name_trans,
    })
}

// Reads what stands behind those, where types has values up to a number.
#[tactic(auto, unfolding(crate::specs::PolicyParts::label_lists_at))]
fn read_label_lists<'a>(
    alloc: Global,
    c: &mut Cursor<'a>,
    version: u32,
    types: u32,
) -> Result<LabelLists<'a>, ReadError>
    ensures { Yields (λ labels. labels) result (label_lists_at version types) c.old c.new }
{
    let contexts = read_contexts(alloc, c, version)?;
    let genfs = read_genfs(alloc, c, version)?;
    let range_trans = read_range_trans(alloc, c, version)?;
    let type_rows = read_type_rows(alloc, c, types)?;
    Ok(LabelLists {
        contexts,
        genfs,
        range_trans,
        type_rows,
    })
}
