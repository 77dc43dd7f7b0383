//! The texts of expressions, each made once: many constraints share few expressions.

ghost use Rattle.std.specs.Prelude.{◌≡◌, ◌<◌, IsTrue, IfOk, IfSome, OnOk, length};
ghost use Rattle.std.specs.List.{All};
ghost use Rattle.pol_symbols.specs.PolicySymbols.{name_in};
ghost use Rattle.pol_constraints.specs.ConstraintTexts.{constraint_text};
ghost use Rattle.info_classes.specs.Inner.ExpressionTexts.{IsKept, IsAlike, SayTheSame};

use crate::constraint_entry::ConstraintEntry;
use pol_bitmap::BitmapView;
use pol_constraints::{ConstraintItemView, ConstraintItems, ConstraintView};
use pol_symbols::Symbols;
use std::alloc::{AllocError, Global};

// How many texts are kept at most.
const MOST: usize = 64;

// How long a text may be that is kept.
const LONGEST: usize = 16384;

/// The text of an expression, and the number of the first entry that has it.
#[derive(Drop)]
pub(crate) struct ExpressionText {
    number: usize,
    text: Vec<u8>,
}

/// The texts of the expressions of entries, each once: the first ones that are not long.
pub(crate) fn expression_texts(
    alloc: Global,
    symbols: &Symbols<'_>,
    entries: &[ConstraintEntry<'_>],
) -> Result<Vec<ExpressionText>, AllocError>
    ensures { IfOk result (λ texts. All (IsKept symbols.now entries.now) texts.items) }
{
    let mut texts = Vec::new(alloc);
    for number in 0..entries.len() {
        keep_text(&mut texts, symbols, entries, number)?;
    }
    Ok(texts)
}

// The text of the expression of a constraint.
fn expression_text(
    alloc: Global,
    symbols: &Symbols<'_>,
    constraint: &ConstraintView<'_>,
) -> Result<Vec<u8>, AllocError>
    ensures { IfOk result (λ text. text.items ≡ constraint_text (name_in symbols.now) constraint.now.items) }
{
    constraint.infix(alloc, symbols)
}

// Keeps the text of the expression of the entry of a number, if it is not kept, there is room, and it is not long.
fn keep_text(
    texts: &mut Vec<ExpressionText>,
    symbols: &Symbols<'_>,
    entries: &[ConstraintEntry<'_>],
    number: usize,
) -> Result<(), AllocError>
    requires number { number < length entries.now }
    requires texts { All (IsKept symbols.now entries.now) texts.old.items }
    ensures { OnOk result (All (IsKept symbols.now entries.now) texts.new.items) }
{
    let constraint = &entries[number].constraint;
    if texts.len() >= MOST || kept_text(texts, symbols, entries, constraint).is_some() {
        return Ok(());
    }
    let text = expression_text(*texts.allocator(), symbols, constraint)?;
    if text.len() <= LONGEST {
        texts.push(ExpressionText { number, text })?;
    }
    Ok(())
}

/// The text of the expression of a constraint, if it is kept.
pub(crate) fn kept_text<'t>(
    texts: &'t [ExpressionText],
    symbols: &Symbols<'_>,
    entries: &[ConstraintEntry<'_>],
    constraint: &ConstraintView<'_>,
) -> Option<&'t [u8]>
    requires { All (IsKept symbols.now entries.now) texts.now }
    ensures { IfSome result (λ text. text.now ≡ constraint_text (name_in symbols.now) constraint.now.items) }
{
    for kept in texts {
        let other = &entries[kept.number].constraint;
        if say_the_same(other.items(), constraint.items()) {
            return Some(kept.text.as_slice());
        }
    }
    None
}

// Whether two lists of items say the same, item by item.
fn say_the_same(items: ConstraintItems<'_>, others: ConstraintItems<'_>) -> bool
    ensures { IsTrue result → SayTheSame items.entry others.entry }
{
    let mut others = others;
    for item in items {
        match others.next() {
            Some(other) => {
                if !is_alike(&item, &other) {
                    return false;
                }
            }
            None => return false,
        }
    }
    others.next().is_none()
}

// Whether two items say the same.
fn is_alike(item: &ConstraintItemView<'_>, other: &ConstraintItemView<'_>) -> bool
    ensures { IsTrue result → IsAlike item.now other.now }
{
    item.kind() == other.kind()
        && item.attr() == other.attr()
        && item.op() == other.op()
        && are_same_names(item.names(), other.names())
}

// Whether two items have the same names, or none.
fn are_same_names(names: Option<BitmapView<'_>>, others: Option<BitmapView<'_>>) -> bool
    ensures { IsTrue result → names.entry ≡ others.entry }
{
    match (names, others) {
        (Some(names), Some(others)) => has_same_nodes(&names, &others),
        (None, None) => true,
        _ => false,
    }
}

// Whether two bitmaps have the same nodes.
fn has_same_nodes(bitmap: &BitmapView<'_>, other: &BitmapView<'_>) -> bool
    ensures { IsTrue result → bitmap.now ≡ other.now }
{
    let count = bitmap.node_count();
    if other.node_count() != count {
        return false;
    }
    for i in 0..count {
        if bitmap.node(i) != other.node(i) {
            return false;
        }
    }
    true
}
