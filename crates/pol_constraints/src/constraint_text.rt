//! The words of constraints, and the texts of their leaves.

ghost use Rattle.std.specs.Prelude.{◌≡◌, ◌+◌, ℕ, IfOk, map, option_map};
ghost use Rattle.pol_bitmap.specs.Nodes.{bits_of};
ghost use Rattle.pol_constraints.specs.ConstraintTexts.{left_word, right_word, side_word, side_table, op_word, name_of_bit, names_of, bit_names_text, comparison_text};
ghost use Rattle.pol_texts.specs.SetTexts.{set_text};

use crate::codes::{
    CEXPR_DOM, CEXPR_DOMBY, CEXPR_EQ, CEXPR_H1H2, CEXPR_H1L2, CEXPR_L1H1, CEXPR_L1H2, CEXPR_L1L2,
    CEXPR_NEQ, CEXPR_ROLE, CEXPR_TYPE, CEXPR_USER, TARGET_ROLE, TARGET_TYPE, TARGET_USER,
    XTARGET_ROLE, XTARGET_USER,
};
use crate::constraint_item::ConstraintItemView;
use pol_bitmap::BitmapView;
use pol_cursor::Names;
use pol_fields::TableKind;
use pol_texts::push_set;
use std::alloc::{AllocError, Global};

/// The text of an item that is a leaf.
pub fn leaf_text<N: Names>(
    alloc: Global,
    item: &ConstraintItemView<'_>,
    names: &N,
) -> Result<Vec<u8>, AllocError>
    ensures { IfOk result (λ text. text.items ≡ comparison_text (N.named names.now) item.now item.now.names) }
{
    let attr = item.attr();
    let op = op_word(item.op());
    let mut text = Vec::new(alloc);
    match item.names() {
        None => {
            text.extend_from_slice(left_word(attr))?;
            text.extend_from_slice(op)?;
            text.extend_from_slice(right_word(attr))?;
        }
        Some(listed) => {
            let names = bit_names_text(alloc, side_table(attr), &listed, names)?;
            text.extend_from_slice(side_word(attr))?;
            text.extend_from_slice(op)?;
            text.extend_from_slice(&names)?;
        }
    }
    Ok(text)
}

// The declared names that the bits of a bitmap stand for, in order of their bytes: one is itself, and otherwise they stand in
// braces.
fn bit_names_text<N: Names>(
    alloc: Global,
    table: TableKind,
    bitmap: &BitmapView<'_>,
    names: &N,
) -> Result<Vec<u8>, AllocError>
    ensures { IfOk result (λ text. text.items ≡ bit_names_text (N.named names.now) table (bits_of bitmap.now)) }
{
    let mut declared = names_of(alloc, table, bitmap, names)?;
    declared.sort()?;
    text_of_set(alloc, &declared)
}

fn names_of<'n, N: Names>(
    alloc: Global,
    table: TableKind,
    bitmap: &BitmapView<'_>,
    names: &'n N,
) -> Result<Vec<&'n [u8]>, AllocError>
    ensures { IfOk result (λ declared. map (λ name. name.now) declared.items ≡ names_of (N.named names.now) table (bits_of bitmap.now)) }
{
    let mut declared = Vec::new(alloc);
    for bit in bitmap.bits() {
        match name_of_bit(table, bit, names) {
            Some(name) => declared.push(name)?,
            None => {}
        }
    }
    Ok(declared)
}

// The name that a bit stands for, where a record declares it.
fn name_of_bit<N: Names>(table: TableKind, bit: u32, names: &N) -> Option<&[u8]>
    ensures { option_map (λ name. name.now) result ≡ name_of_bit (N.named names.now) table bit }
{
    let value = bit.checked_add(1)?;
    names.name(table, value)
}

fn text_of_set(alloc: Global, names: &[&[u8]]) -> Result<Vec<u8>, AllocError>
    ensures { IfOk result (λ text. text.items ≡ set_text (map (λ name. name.now) names.now)) }
{
    let mut text = Vec::new(alloc);
    push_set(&mut text, names)?;
    Ok(text)
}

fn left_word(attr: u32) -> &'static [u8]
    ensures { result.now ≡ left_word attr }
{
    match attr {
        CEXPR_USER => b"u1",
        CEXPR_ROLE => b"r1",
        CEXPR_TYPE => b"t1",
        CEXPR_L1L2 | CEXPR_L1H2 | CEXPR_L1H1 => b"l1",
        CEXPR_H1L2 | CEXPR_H1H2 => b"h1",
        _ => b"l2",
    }
}

fn right_word(attr: u32) -> &'static [u8]
    ensures { result.now ≡ right_word attr }
{
    match attr {
        CEXPR_USER => b"u2",
        CEXPR_ROLE => b"r2",
        CEXPR_TYPE => b"t2",
        CEXPR_L1L2 | CEXPR_H1L2 => b"l2",
        CEXPR_L1H1 => b"h1",
        _ => b"h2",
    }
}

fn side_word(attr: u32) -> &'static [u8]
    ensures { result.now ≡ side_word attr }
{
    match attr {
        CEXPR_USER => b"u1",
        CEXPR_ROLE => b"r1",
        CEXPR_TYPE => b"t1",
        TARGET_USER => b"u2",
        TARGET_ROLE => b"r2",
        TARGET_TYPE => b"t2",
        XTARGET_USER => b"u3",
        XTARGET_ROLE => b"r3",
        _ => b"t3",
    }
}

fn side_table(attr: u32) -> TableKind
    ensures { result ≡ side_table attr }
{
    match attr {
        CEXPR_USER | TARGET_USER | XTARGET_USER => TableKind::Users,
        CEXPR_ROLE | TARGET_ROLE | XTARGET_ROLE => TableKind::Roles,
        _ => TableKind::Types,
    }
}

fn op_word(op: u32) -> &'static [u8]
    ensures { result.now ≡ op_word op }
{
    match op {
        CEXPR_EQ => b" == ",
        CEXPR_NEQ => b" != ",
        CEXPR_DOM => b" dom ",
        CEXPR_DOMBY => b" domby ",
        _ => b" incomp ",
    }
}
