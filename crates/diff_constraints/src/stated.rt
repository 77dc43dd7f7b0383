//! What the constraints of a policy say, by names.

ghost use Rattle.std.specs.Prelude.{◌≡◌, ◌∷◌, [], ◌++◌, IfOk, OnOk, map};
ghost use Rattle.std.specs.List.{filter, filter_map};
ghost use Rattle.pol_symbols.specs.PolicySymbols.{name_in};
ghost use Rattle.pol_constraints.specs.ConstraintTexts.{constraint_text, side_table};
ghost use Rattle.info_classes.specs.ConstraintLines.{constraint_line};
ghost use Rattle.diff_constraints.specs.StatedConstraints.{constraints_with, has_keyword, item_set, kind_of, no_names, permissions_stated, sets_of, stated, stated_in};

use crate::keyword::{ConstraintKeyword, is_mls, kind_of};
use crate::no_names::NoNames;
use diff_entries::{NameSet, Text};
use info_classes::{
    ConstraintEntry, ConstraintKind, constraint_entries, push_constraint, push_permissions,
    some_compares_levels,
};
use info_lines::{names_of_bits, primary_order};
use pol_constraints::codes::{CEXPR_ROLE, CEXPR_TARGET, CEXPR_USER, CEXPR_XTARGET};
use pol_constraints::{ConstraintItemView, ConstraintItems, ConstraintView};
use pol_fields::TableKind;
use pol_symbols::Symbols;
use std::alloc::{AllocError, Global};
use std::marker::Model;

// Sides of the target's context, and of a third one.
const TARGET_USER: u32 = CEXPR_USER + CEXPR_TARGET;

const TARGET_ROLE: u32 = CEXPR_ROLE + CEXPR_TARGET;

const XTARGET_USER: u32 = CEXPR_USER + CEXPR_XTARGET;

const XTARGET_ROLE: u32 = CEXPR_ROLE + CEXPR_XTARGET;

/// What a constraint says. Contracts see it as one of the definition.
#[derive(Drop)]
pub(crate) struct Stated<'a> {
    pub(crate) class: &'a [u8],
    pub(crate) permissions: Text,
    pub(crate) skeleton: Text,
    pub(crate) line: Text,
    pub(crate) sets: Vec<NameSet<'a>>,
}

impl<'a> Model for Stated<'a> {
    ghost use Rattle.diff_constraints.specs.StatedConstraints.{Stated as StatedConstraint};

    ghost Value = { StatedConstraint };

    ghost view = { λ s. record { class = s.class.now; permissions = s.permissions; skeleton = s.skeleton; line = s.line; sets = s.sets.items } };
}

/// What the constraints of a keyword say, those of all classes.
#[tactic(auto, unfolding(crate::specs::StatedConstraints::stated_in, crate::specs::StatedConstraints::constraints_with))]
pub(crate) fn stated_in<'a>(
    alloc: Global,
    symbols: &Symbols<'a>,
    keyword: ConstraintKeyword,
) -> Result<Vec<Stated<'a>>, AllocError>
    ensures { IfOk result (λ all. all.items ≡ stated_in keyword symbols.now) }
{
    let numbers = primary_order(alloc, symbols, TableKind::Classes)?;
    let entries = constraint_entries(alloc, symbols, kind_of(keyword), &numbers)?;
    stated_among(alloc, symbols, keyword, &entries)
}

// What these constraints say, those of a keyword.
fn stated_among<'a>(
    alloc: Global,
    symbols: &Symbols<'a>,
    keyword: ConstraintKeyword,
    entries: &[ConstraintEntry<'a>],
) -> Result<Vec<Stated<'a>>, AllocError>
    ensures { IfOk result (λ all. all.items ≡ map (stated keyword symbols.now) (filter (has_keyword keyword) entries.now)) }
{
    let mut all = Vec::new(alloc);
    for entry in entries {
        if has_keyword(keyword, entry) {
            all.push(stated_entry(alloc, symbols, keyword, entry)?)?;
        }
    }
    Ok(all)
}

// Whether a constraint has a keyword: whether it compares levels.
fn has_keyword(keyword: ConstraintKeyword, entry: &ConstraintEntry<'_>) -> bool
    ensures { result ≡ has_keyword keyword entry.now }
{
    let of_levels = some_compares_levels(entry.constraint.items());
    if is_mls(keyword) {
        of_levels
    } else {
        !of_levels
    }
}

// What a constraint says.
#[tactic(auto, unfolding(crate::specs::StatedConstraints::stated))]
fn stated_entry<'a>(
    alloc: Global,
    symbols: &Symbols<'a>,
    keyword: ConstraintKeyword,
    entry: &ConstraintEntry<'a>,
) -> Result<Stated<'a>, AllocError>
    ensures { IfOk result (λ said. said ≡ stated keyword symbols.now entry.now) }
{
    let permissions = permissions_stated(alloc, symbols, keyword, entry)?;
    let skeleton = skeleton_of(alloc, &entry.constraint)?;
    let line = line_of(alloc, symbols, keyword, entry)?;
    let sets = sets_of(alloc, symbols, entry.constraint.items())?;
    Ok(Stated {
        class: entry.class.name(),
        permissions,
        skeleton,
        line,
        sets,
    })
}

// The set of a constraint's permissions, or nothing where it is on a change of context.
fn permissions_stated(
    alloc: Global,
    symbols: &Symbols<'_>,
    keyword: ConstraintKeyword,
    entry: &ConstraintEntry<'_>,
) -> Result<Text, AllocError>
    ensures { IfOk result (λ text. text ≡ permissions_stated symbols.now (kind_of keyword) entry.now) }
{
    let mut text = Vec::new(alloc);
    match kind_of(keyword) {
        ConstraintKind::OnPermissions => {
            let mask = entry.constraint.permissions();
            push_permissions(&mut text, symbols, &entry.class, mask)?;
        }
        ConstraintKind::OnChange => {}
    }
    Ok(Text::new(text))
}

// The text of an expression with { } in place of each set of names.
fn skeleton_of(alloc: Global, constraint: &ConstraintView<'_>) -> Result<Text, AllocError>
    ensures { IfOk result (λ text. text ≡ constraint_text no_names constraint.now.items) }
{
    Ok(Text::new(constraint.infix(alloc, &NoNames)?))
}

// The line of a constraint.
fn line_of(
    alloc: Global,
    symbols: &Symbols<'_>,
    keyword: ConstraintKeyword,
    entry: &ConstraintEntry<'_>,
) -> Result<Text, AllocError>
    ensures { IfOk result (λ text. text ≡ constraint_line symbols.now (kind_of keyword) entry.now) }
{
    let mut line = Vec::new(alloc);
    push_constraint(&mut line, symbols, kind_of(keyword), entry, None)?;
    Ok(Text::new(line))
}

// The sets of names of an expression, in its order.
fn sets_of<'a>(
    alloc: Global,
    symbols: &Symbols<'a>,
    items: ConstraintItems<'_>,
) -> Result<Vec<NameSet<'a>>, AllocError>
    ensures { IfOk result (λ sets. sets.items ≡ sets_of symbols.now items.entry) }
{
    let mut sets = Vec::new(alloc);
    for item in items {
        match item_set(alloc, symbols, &item)? {
            Some(set) => sets.push(set)?,
            None => {}
        }
    }
    Ok(sets)
}

// The set of an item, where it compares with one.
fn item_set<'a>(
    alloc: Global,
    symbols: &Symbols<'a>,
    item: &ConstraintItemView<'_>,
) -> Result<Option<NameSet<'a>>, AllocError>
    ensures { IfOk result (λ set. set ≡ item_set symbols.now item.now) }
{
    let Some(bits) = item.names() else {
        return Ok(None);
    };
    let names = names_of_bits(alloc, symbols, side_table(item.attr()), &bits)?;
    Ok(Some(NameSet::new(names)))
}

// The table of the names that a side is compared with.
fn side_table(attr: u32) -> TableKind
    ensures { result ≡ side_table attr }
{
    match attr {
        CEXPR_USER | TARGET_USER | XTARGET_USER => TableKind::Users,
        CEXPR_ROLE | TARGET_ROLE | XTARGET_ROLE => TableKind::Roles,
        _ => TableKind::Types,
    }
}
