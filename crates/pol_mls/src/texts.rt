//! The texts of levels and ranges.

ghost use Rattle.std.specs.Prelude.{◌≡◌, ◌+◌, ◌++◌, ◌∷◌, ℕ, List, OnOk, IfOk, Some, None, if◌then◌else◌, bytes_eq};
ghost use Rattle.pol_bitmap.specs.Nodes.{bits_of};
ghost use Rattle.pol_mls.specs.MlsTexts.{is_category, categories_of, categories_text, level_text, range_text};
ghost use Rattle.pol_mls.specs.Inner.Runs.{text_left};

use crate::range_view::RangeView;
use crate::run::Run;
use crate::run_text::{push_run, push_value};
use pol_bitmap::BitmapView;
use pol_cursor::{Names, push_name};
use pol_fields::TableKind;
use std::alloc::{AllocError, Global};

/// The text of a level: its sensitivity's name, and where it has declared categories a `:` and them in order of value.
///
/// They are joined by `,`, and three or more whose values rise by one each are `FIRST.LAST`. A sensitivity without a
/// name has the empty name.
pub fn level_text<N: Names>(
    alloc: Global,
    sens: u32,
    categories: &BitmapView<'_>,
    names: &N,
) -> Result<Vec<u8>, AllocError>
    ensures { IfOk result (λ text. text.items ≡ level_text (N.named names.now) (record { sens = sens; categories = categories.now })) }
{
    let mut text = Vec::new(alloc);
    push_level(&mut text, sens, categories, names)?;
    Ok(text)
}

/// The text of a range: its low level, and ` - ` and the high level where the two differ in sensitivity or bits.
pub fn range_text<N: Names>(
    alloc: Global,
    range: &RangeView<'_>,
    names: &N,
) -> Result<Vec<u8>, AllocError>
    ensures { IfOk result (λ text. text.items ≡ range_text (N.named names.now) range.now.value) }
{
    let mut text = Vec::new(alloc);
    let low = range.low();
    let low_categories = range.low_categories();
    push_level(&mut text, low, &low_categories, names)?;
    match (range.high(), range.high_categories()) {
        (Some(high), Some(categories)) => {
            if low != high || !same_bits(&low_categories, &categories) {
                text.extend_from_slice(b" - ")?;
                push_level(&mut text, high, &categories, names)?;
            }
        }
        _ => {}
    }
    Ok(text)
}

fn push_level<N: Names>(
    out: &mut Vec<u8>,
    sens: u32,
    categories: &BitmapView<'_>,
    names: &N,
) -> Result<(), AllocError>
    ensures { OnOk result (out.new.items ≡ out.old.items ++ level_text (N.named names.now) (record { sens = sens; categories = categories.now })) }
{
    push_name(out, TableKind::Levels, sens, names)?;
    push_categories(out, categories, names)
}

// Appends the declared categories behind a colon, or nothing where there is none.
#[tactic(auto, using(crate::proofs::RunTexts::left_alone))]
fn push_categories<N: Names>(
    out: &mut Vec<u8>,
    categories: &BitmapView<'_>,
    names: &N,
) -> Result<(), AllocError>
    ensures { OnOk result (out.new.items ≡ out.old.items ++ categories_text (N.named names.now) (categories_of (N.named names.now) (bits_of categories.now))) }
{
    let mut run = None;
    for bit in categories.bits() {
        run = push_bit(out, run, bit, names)?;
    }
    match run {
        None => Ok(()),
        Some(run) => push_run(out, run, names),
    }
}

// Takes the next bit, and answers the run that is not written yet.
fn push_bit<N: Names>(
    out: &mut Vec<u8>,
    run: Option<Run>,
    bit: u32,
    names: &N,
) -> Result<Option<Run>, AllocError>
    ensures { (rest : List ℕ) → IfOk result (λ now. out.new.items ++ text_left (N.named names.now) now (categories_of (N.named names.now) rest) ≡ out.old.items ++ text_left (N.named names.now) run (categories_of (N.named names.now) (bit ∷ rest))) }
{
    match category_of(bit, names) {
        None => Ok(run),
        Some(value) => Ok(Some(push_value(out, run, value, names)?)),
    }
}

// The value that a bit stands for, where it is declared.
fn category_of<N: Names>(bit: u32, names: &N) -> Option<u32>
    ensures { result ≡ (if is_category (N.named names.now) (bit + 1) then Some (bit + 1) else None) }
{
    let value = bit.checked_add(1)?;
    match names.name(TableKind::Categories, value) {
        Some(_) => Some(value),
        None => None,
    }
}

// Whether two bitmaps have the same bits.
fn same_bits(a: &BitmapView<'_>, b: &BitmapView<'_>) -> bool
    ensures { result ≡ bytes_eq (bits_of a.now) (bits_of b.now) }
{
    let mut others = b.bits();
    for bit in a.bits() {
        if others.next() != Some(bit) {
            return false;
        }
    }
    others.next().is_none()
}
